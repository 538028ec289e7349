//! The 71 conditions of the lock program, written out by hand, each with its label.
#![tactic(auto)]

pub mod laws;
