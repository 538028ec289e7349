//! The instances of the axioms, as nodes of a graph.
#![tactic(auto)]

mod annotations;
pub mod block;
mod changes;
mod clean;
mod columns;
pub mod instances;
mod making;
pub mod numbers;
mod walk;
