//! The reference machine: threads that take turns, one item at a time, on one heap.
#![tactic(auto)]

pub mod settle;
pub mod start;
pub mod state;
pub mod step;
