//! Terms in which no term stands twice, by their numbers.
#![tactic(auto)]

pub mod bank;
pub mod law;
pub mod literal;
