//! Claims made and ended, Interlocked calls, and right sides.
#![tactic(auto)]

pub mod interlocked;
pub mod making;
