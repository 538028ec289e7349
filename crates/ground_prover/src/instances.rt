//! Instances of axioms that the ground set wants.

use block_layout::space::Theory;
use ground_set::ground::Ground;
use ground_set::wants::Want;
use rule_instances::block::Block;
use rule_instances::instances::instance;
use search_clauses::ledger::Ledger;
use search_clauses::steps::Number;
use std::alloc::AllocError;

/// Adds one round to the ground set: the instances that its terms bring, rows of the rules on maps, and reads. Whether
/// anything is new.
pub fn add_round(
    theory: Theory<'_>,
    ledger: &mut Ledger<'_>,
    ground: &mut Ground,
) -> Result<bool, AllocError> {
    let size = ground.size();
    ground.visit_terms(ledger)?;
    add_instances(theory, ledger, ground)?;
    ground.add_reads(ledger)?;
    Ok(ground.size() > size)
}

/// Adds the instances that are wanted.
fn add_instances(
    theory: Theory<'_>,
    ledger: &mut Ledger<'_>,
    ground: &mut Ground,
) -> Result<(), AllocError> {
    let names = names_of(ledger)?;
    for _ in 0..u64::MAX {
        let Some(want) = ground.next_want() else {
            return Ok(());
        };
        add_instance(theory, ledger, ground, names.as_slice(), want)?;
    }
    Ok(())
}

/// The nodes by their numbers, as names.
fn names_of(ledger: &Ledger<'_>) -> Result<Vec<u32>, AllocError> {
    let mut names = Vec::new(ledger.alloc);
    for id in 0..ledger.graph.len() {
        names.push(id as u32)?;
    }
    Ok(names)
}

/// Adds an instance, where its numbers are of the sorts that it takes.
fn add_instance(
    theory: Theory<'_>,
    ledger: &mut Ledger<'_>,
    ground: &mut Ground,
    names: &[u32],
    want: Want,
) -> Result<(), AllocError> {
    let mut args = Vec::new(ledger.alloc);
    for number in ground.numbers(want) {
        args.push(plain(*number))?;
    }
    match make_instance(theory, ledger, names, want, args.as_slice())? {
        Some(id) if ledger.is_truth(id) => ground.add_instance(ledger, want, id),
        _ => Ok(()),
    }
}

/// The node of an instance, where there is one.
fn make_instance(
    theory: Theory<'_>,
    ledger: &mut Ledger<'_>,
    names: &[u32],
    want: Want,
    args: &[i128],
) -> Result<Option<u32>, AllocError> {
    let block = Block {
        program: theory.program,
        language: theory.language,
        sorts: ledger.sorts.as_slice(),
        names,
    };
    let id = instance(
        ledger.alloc,
        &block,
        &mut ledger.graph,
        want.axiom(),
        want.part(),
        args,
    )?;
    ledger.sort_all()?;
    Ok(id)
}

/// A number of an instance, as it stands in a step over nodes.
fn plain(number: Number) -> i128 {
    match number {
        Number::Plain(number) => number,
        Number::Node(id) => i128::from(id),
        Number::Step(step) => i128::from(step),
    }
}
