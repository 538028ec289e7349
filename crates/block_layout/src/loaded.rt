//! What is loaded of a block.

use cert_format::certificate::RuleName;
use terms::numbers::Numbers;
use vcc_rules::rule::Clauses;

/// Where the loading of a block ended before its last step.
#[derive(Clone, Copy)]
pub enum Stop {
    /// the added term with this number is bad: it names a number that isn't below its own, or has no sort
    BadTerm(usize),
    /// the graph has more nodes than it may, behind a term
    Limit,
    /// the graph has more nodes than it may, behind the instance of the step with this number
    LimitAt(usize),
    /// the clause of the step with this number names a number that no term has
    UnnamedAt(usize),
}

/// A step whose numbers name nodes. A number that names no term of the block is `NO_NODE`.
#[derive(Drop)]
pub struct LoadedStep {
    pub rule: RuleName,
    pub numbers: Numbers,
    /// The node of the instance that a step `axiom` names, a truth value.
    pub instance: Option<u32>,
}

/// A block over the nodes of a graph.
#[derive(Drop)]
pub struct Loaded {
    pub stop: Option<Stop>,
    /// The condition's root, and the clauses of the steps.
    pub clauses: Clauses,
    pub steps: Vec<LoadedStep>,
}
