//! Claims on a heap: what one was made with, making one, ending one.
#![tactic(auto)]

pub mod counts;
pub mod making;
pub mod shape;
