//! Instances of axioms, written out by hand, and numbers that make none.
#![tactic(auto)]

pub mod laws;
