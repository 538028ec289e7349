//! Rows of rules don't depend on how terms are numbered.
#![tactic(auto)]

pub mod laws;
