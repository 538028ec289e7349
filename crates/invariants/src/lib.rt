//! The invariants of objects over a step, and which objects a step touches.
#![tactic(auto)]

pub mod invariant;
pub mod touched;
