//! The rules of linear integer arithmetic: `linear`, `cut` and `split`.
#![tactic(auto)]

pub mod agreement;
pub mod bound;
pub mod cut;
pub mod form;
pub mod linear;
mod one_pass;
mod room;
mod sizes;
pub mod split;
pub mod steps;
