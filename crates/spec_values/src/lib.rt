//! The value of an annotation's expression at a place: its words, and the expression by its parts.
#![tactic(auto)]

pub mod arithmetic;
mod claims;
pub mod expression;
pub mod place;
pub mod status;
pub mod values;
mod words;
