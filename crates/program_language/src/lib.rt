//! The language of a program: its columns, and the formulas of its annotations in one graph.
#![tactic(auto)]

pub mod conjuncts;
pub mod invariants;
pub mod language;
pub mod numbered;
