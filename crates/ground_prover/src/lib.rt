//! The prover: rounds of the ground set, a search after each, and the check of what is found.
#![tactic(auto)]

mod find;
mod instances;
pub mod proof;
pub mod prove;
mod small;
