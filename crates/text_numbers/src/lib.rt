//! Each quantified formula of a source's program is the one with its number.
#![tactic(auto)]

pub mod laws;
