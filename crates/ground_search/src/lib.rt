//! The search for a refutation among the clauses over the terms of a ledger.
#![tactic(auto)]

mod analysis;
mod chains;
mod connectives;
mod propagation;
pub mod solver;
pub mod writing;
