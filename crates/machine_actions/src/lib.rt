//! One action of a function's run: what it checks, in order, and what it does to a heap and to variables.
#![tactic(auto)]

pub mod actions;
pub mod blocks;
pub mod fits;
pub mod simple;
