//! What stands left and right of `=`, and in calls.
#![tactic(auto)]

pub mod allocations;
pub mod assignments;
pub mod begins;
pub mod calls;
pub mod ends;
pub mod interlocked;
pub mod places;
pub mod rights;
