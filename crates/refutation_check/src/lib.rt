//! The checker of refutations.
#![tactic(auto)]

pub mod answer;
pub mod check;
pub mod held;
pub mod laws;
pub mod lemmas;
mod steps;
