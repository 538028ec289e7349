//! Annotations as formulas.
#![tactic(auto)]

pub mod tables;
pub mod translate;
pub mod truth;
pub mod words;
