//! The lemmas of an upgrade, and its blocks.
#![tactic(auto)]

mod choice;
mod copies;
pub mod lemmas;
mod making;
mod places;
pub mod rewriting;
mod steps;
mod tables;
