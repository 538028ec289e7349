//! The rows of the axioms, as lists of steps.
#![tactic(auto)]

pub mod axioms;
pub mod steps;
