//! Formulas as a graph of terms, in which no term stands twice.
#![tactic(auto)]

pub mod graph;
mod index;
pub mod nodes;
