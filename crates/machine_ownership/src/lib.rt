//! Owned sets and who owns their members: changes of a set, wraps, and starts of threads.
#![tactic(auto)]

pub mod items;
pub mod owned;
pub mod spawn;
pub mod wrapping;
