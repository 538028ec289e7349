//! The search for a condition's block, and the lines that say what was found.
#![tactic(auto)]

pub mod blocks;
pub mod lines;
pub mod search;
