//! A safe program has no data race.
#![tactic(auto)]

pub mod laws;
