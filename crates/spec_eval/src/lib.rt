//! The value of an annotation's expression, in a function, of an object's invariant and of what a claim was made with.
#![tactic(auto)]

pub mod env;
pub mod eval;
mod places;
