//! Expressions of code as they are typed: names by their numbers, conversions where they can lose a value.
#![tactic(auto)]

pub mod around;
pub mod codes;
pub mod integers;
pub mod numbers;
pub mod places;
