//! The conjuncts of claims as formulas.
#![tactic(auto)]

pub mod conjuncts;
