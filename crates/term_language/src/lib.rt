//! The language of a program in code.
#![tactic(auto)]

pub mod language;
