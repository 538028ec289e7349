//! Claims that are made, and what the texts of a function say in their order.
#![tactic(auto)]

mod bodies;
mod growth;
pub mod occurrences;
mod settings;
pub mod sites;
pub mod variables;
