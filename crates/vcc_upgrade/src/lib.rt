//! A certificate of version 1 written anew with lemmas.
#![tactic(auto)]

pub mod blocks;
pub mod survey;
pub mod upgrade;
