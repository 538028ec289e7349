//! The source of `gen N`.
#![tactic(auto)]

pub mod source;
