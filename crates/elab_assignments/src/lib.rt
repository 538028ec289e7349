//! Sides of statements as they are typed: places, right sides, calls, assignments, and ghost statements that are no blocks.
#![tactic(auto)]

pub mod assignments;
pub mod calls;
pub mod counters;
pub mod ghosts;
pub mod interlocked;
pub mod objects;
pub mod places;
pub mod rights;
pub mod values;
