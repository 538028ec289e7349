//! Rounds of the ground set, and a search after each.

use crate::instances::add_round;
use crate::proof::Budget;
use block_layout::space::Theory;
use cert_format::certificate::Refutation;
use ground_search::solver::{Outcome, Solver};
use ground_search::writing::write;
use ground_set::ground::Ground;
use std::alloc::{AllocError, Global};
use term_graph::graph::Graph;

/// The share of the ground set that the search has: how many of its terms and of its inferences.
#[derive(Clone, Copy)]
struct Share {
    terms: usize,
    inferences: usize,
}

/// What the search finds.
#[derive(Drop)]
pub enum Finding {
    /// a block, which is still to be checked
    Block(Refutation),
    /// that the ground set, as far as the rounds went, may hold
    Open,
    /// nothing
    Spent,
}

/// Puts the condition's own terms into the ledger of a search.
fn put_own(solver: &mut Solver<'_>, own: &Graph) -> Result<(), AllocError> {
    for id in 0..own.len() {
        let node = own.node(id as u32);
        let _id = solver
            .ledger
            .add(node.kind, node.index, node.args.numbers())?;
    }
    Ok(())
}

/// Passes what is new in the ground set on to the search.
fn pass_on(solver: &mut Solver<'_>, ground: &Ground, share: Share) -> Result<Share, AllocError> {
    let terms = ground.terms();
    for place in share.terms..terms.len() {
        if let Some(term) = terms.get(place) {
            solver.enter(*term)?;
        }
    }
    for place in share.inferences..ground.inferences.len() {
        if let Some(inference) = ground.inferences.get(place) {
            solver.add_inference(inference)?;
        }
    }
    Ok(Share {
        terms: terms.len(),
        inferences: ground.inferences.len(),
    })
}

/// The block of a refutation that ends with this step.
fn block_of(solver: &Solver<'_>, step: u32, own: usize) -> Result<Finding, AllocError> {
    match write(&solver.ledger, step, own)? {
        Some(block) => Ok(Finding::Block(block)),
        None => Ok(Finding::Spent),
    }
}

/// Searches for a refutation that the root of the own terms is false, within the budget.
///
/// # Errors
/// Where memory is refused.
pub fn find(
    alloc: Global,
    theory: Theory<'_>,
    own: &Graph,
    root: u32,
    budget: Budget,
) -> Result<Finding, AllocError> {
    let mut solver = Solver::new(alloc, &theory.language.columns);
    put_own(&mut solver, own)?;
    let mut ground = Ground::new(&mut solver.ledger, own.len(), theory.program.fields.len())?;
    solver.suppose_false(root)?;
    let mut share = Share {
        terms: 0,
        inferences: 0,
    };
    for _ in 0..budget.rounds {
        share = pass_on(&mut solver, &ground, share)?;
        match solver.search(budget.leaves)? {
            Outcome::Refuted(step) => return block_of(&solver, step, own.len()),
            Outcome::Spent => return Ok(Finding::Spent),
            Outcome::Open => {}
        }
        if !add_round(theory, &mut solver.ledger, &mut ground)? {
            return Ok(Finding::Open);
        }
    }
    let _share = pass_on(&mut solver, &ground, share)?;
    match solver.search(budget.leaves)? {
        Outcome::Refuted(step) => block_of(&solver, step, own.len()),
        Outcome::Spent => Ok(Finding::Spent),
        Outcome::Open => Ok(Finding::Open),
    }
}
