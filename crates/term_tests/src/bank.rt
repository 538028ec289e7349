//! The worked bank: a number, a constant, their order, and a cut at a mark.

ghost use Rattle.std.specs.Prelude.{◌≡◌, ◌<◌, IfOk, IsTrue, All};
ghost use Rattle.terms.specs.Formula.{term as node};

use std::alloc::{AllocError, Global};
use std::process::Abort;
use term_bank::bank::{Bank, BankFault};
use terms::term::{Args, Kind, Term};

fn term(alloc: Global, kind: Kind, index: i128, numbers: &[u32]) -> Result<Term, AllocError>
    ensures { IfOk result (λ t. t ≡ node kind index numbers.now) }
{
    Ok(Term {
        kind,
        index,
        args: Args::new(alloc, numbers)?,
    })
}

fn are_below(numbers: &[u32], end: usize) -> bool
    ensures { IsTrue result → All (λ a. a < end) numbers.now }
{
    numbers.iter().all(|n| (*n as usize) < end)
}

/// The number of a term whose arguments are held.
fn number_of(
    bank: &mut Bank,
    kind: Kind,
    index: i128,
    numbers: &[u32],
    alloc: Global,
) -> Result<Option<u32>, AllocError> {
    if !are_below(numbers, bank.len()) {
        return Ok(None);
    }
    let node = term(alloc, kind, index, numbers)?;
    match bank.intern(&node) {
        Ok(id) => Ok(Some(id)),
        Err(BankFault::BankFull) => Ok(None),
        Err(BankFault::OutOfMemory) => Err(AllocError),
    }
}

fn holds(bank: &Bank, id: u32, node: &Term) -> bool {
    (id as usize) < bank.len() && bank.node(id).is(node)
}

/// A term's kind, index and arguments, and its number.
type Row<'a> = (Kind, i128, &'a [u32], u32);

/// Each term gets its number.
fn hold(
    rt: &impl Abort,
    bank: &mut Bank,
    rows: &[Row<'_>],
    alloc: Global,
) -> Result<(), AllocError> {
    for (kind, index, numbers, wanted) in rows {
        let id = number_of(bank, *kind, *index, numbers, alloc)?;
        assert!(rt; id == Some(*wanted), "term {wanted}");
    }
    Ok(())
}

const FIRST: &[Row<'static>] = &[
    (Kind::Int, 5, &[], 0),
    (Kind::Ci, 0, &[], 1),
    (Kind::Le, 0, &[0, 1], 2),
];

const AGAIN: &[Row<'static>] = &[(Kind::Int, 5, &[], 0)];

const ABOVE: &[Row<'static>] = &[(Kind::Not, 0, &[2], 3)];

const ABOVE_AGAIN: &[Row<'static>] = &[(Kind::Stab, 0, &[0, 0, 0, 0, 0, 0], 3)];

#[test]
fn equal_terms_have_one_number(rt: HostRuntime) -> Result<(), AllocError> {
    let alloc = rt.alloc();
    let mut bank = Bank::new(alloc);
    hold(&rt, &mut bank, FIRST, alloc)?;
    hold(&rt, &mut bank, AGAIN, alloc)?;
    assert!(rt; bank.len() == 3);
    Ok(())
}

#[test]
fn terms_below_a_mark_stay(rt: HostRuntime) -> Result<(), AllocError> {
    let alloc = rt.alloc();
    let mut bank = Bank::new(alloc);
    let order = term(alloc, Kind::Le, 0, &[0, 1])?;
    hold(&rt, &mut bank, FIRST, alloc)?;
    let len = bank.len();
    let mark = bank.mark();
    hold(&rt, &mut bank, ABOVE, alloc)?;
    if bank.len() >= len {
        bank.release(mark);
    }
    assert!(rt; bank.len() == 3 && holds(&bank, 2, &order));
    hold(&rt, &mut bank, ABOVE_AGAIN, alloc)?;
    assert!(rt; holds(&bank, 2, &order));
    Ok(())
}

/// As many terms as a bank may hold.
const MOST: i128 = 1_048_576;

/// The first numbers, each as a term, have these numbers in the bank.
fn number_each(bank: &mut Bank, count: i128, alloc: Global) -> Result<bool, AllocError> {
    for n in 0..count {
        if number_of(bank, Kind::Int, n, &[], alloc)? != u32::try_from(n).ok() {
            return Ok(false);
        }
    }
    Ok(true)
}

#[test]
fn a_bank_is_full_at_its_limit(rt: HostRuntime) -> Result<(), AllocError> {
    let alloc = rt.alloc();
    let mut bank = Bank::new(alloc);
    let made = number_each(&mut bank, MOST, alloc)?;
    let again = number_each(&mut bank, MOST, alloc)?;
    let next = term(alloc, Kind::Int, MOST, &[])?;
    assert!(rt; made && again && bank.len() == MOST as usize);
    assert!(rt; bank.intern(&next) == Err(BankFault::BankFull));
    Ok(())
}
