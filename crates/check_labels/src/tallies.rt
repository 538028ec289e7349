//! How many objects of claims, and claims, stand in the text of a block.

ghost use Rattle.std.specs.Prelude.{◌≡◌, IfOk, slice_get};
ghost use Rattle.method.specs.Actions as spec;
ghost use Rattle.check_labels.specs.Tallies.{tally_of};

use method::program::{Inner, Program, RightSide, Simple};
use std::alloc::AllocError;

/// How many objects of claims, and claims, stand in some text.
#[derive(Clone, Copy, Debug, PartialEq, Eq)]
pub struct Tally {
    pub objects: usize,
    pub claims: usize,
}

/// A text with neither.
const NONE: Tally = Tally {
    objects: 0,
    claims: 0,
};

/// The tally of two texts together.
fn plus(first: Tally, second: Tally) -> Result<Tally, AllocError>
    ensures { IfOk result (λ t. tally_of t ≡ spec.tally_plus (tally_of first) (tally_of second)) }
{
    let Some(objects) = first.objects.checked_add(second.objects) else {
        return Err(AllocError);
    };
    let Some(claims) = first.claims.checked_add(second.claims) else {
        return Err(AllocError);
    };
    Ok(Tally { objects, claims })
}

/// The tally of the claim site of this number.
fn site_tally(program: &Program, number: u32) -> Tally
    ensures { tally_of result ≡ spec.site_tally (slice_get program.now.sites.items number) }
{
    match program.sites.get(number as usize) {
        None => NONE,
        Some(site) => Tally {
            objects: site.claimed.len(),
            claims: 1,
        },
    }
}

/// The tally of the right side.
fn right_tally(program: &Program, right: &RightSide) -> Tally
    ensures { tally_of result ≡ spec.right_tally program.now right.now }
{
    match right {
        RightSide::NewClaim(site) => site_tally(program, *site),
        RightSide::Compute(_) | RightSide::Malloc(_) | RightSide::Interlocked(_, _, _, _) => NONE,
    }
}

/// The tally of the statement.
fn simple_tally(program: &Program, statement: &Simple) -> Tally
    ensures { tally_of result ≡ spec.simple_tally program.now statement.now }
{
    match statement {
        Simple::Assign(_, right) => right_tally(program, right),
        Simple::ChangeOwned(_, _, _) => NONE,
        Simple::EndClaim(_, _, objects) => Tally {
            objects: objects.len(),
            claims: 0,
        },
    }
}

/// The tally of a statement of a block.
#[cycle(tally)]
fn inner_tally(program: &Program, inner: &Inner) -> Result<Tally, AllocError>
    ensures { IfOk result (λ t. tally_of t ≡ spec.inner_tally program.now inner.now) }
{
    match inner {
        Inner::Inside(_, statement) => Ok(simple_tally(program, statement)),
        Inner::InsideIf(_, _, first, second) => {
            let one = block_tally(program, first)?;
            let other = block_tally(program, second)?;
            let both = plus(one, other)?;
            Ok(both)
        }
    }
}

/// The tally of the statements of a block.
#[cycle(tally)]
#[tactic(auto, using(crate::proofs::Sums::plus_assoc))]
pub fn block_tally(program: &Program, inners: &[Inner]) -> Result<Tally, AllocError>
    ensures { IfOk result (λ t. tally_of t ≡ spec.list_tally program.now inners.now) }
{
    let mut so_far = NONE;
    for inner in inners {
        let tally = inner_tally(program, inner)?;
        so_far = plus(so_far, tally)?;
    }
    Ok(so_far)
}
