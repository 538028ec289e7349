//! The ground set of a condition: terms, and instances of axioms and of the rules on maps that speak of them, round by
//! round.
#![tactic(auto)]

pub mod ground;
mod lines;
mod maps;
mod reads;
mod rows;
pub mod wants;
