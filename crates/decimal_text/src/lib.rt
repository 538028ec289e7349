//! Decimal numbers at the front of a text.
#![tactic(auto)]

pub mod number;
