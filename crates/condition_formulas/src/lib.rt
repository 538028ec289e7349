//! The formulas of the method, as nodes of a graph.
#![tactic(auto)]

pub mod columns;
pub mod constants;
pub mod formulas;
pub mod lists;
pub mod symbolic;
