//! No condition is stronger than its check: where no local run fails a check, its condition is true in every environment.
#![tactic(auto)]

pub mod laws;
