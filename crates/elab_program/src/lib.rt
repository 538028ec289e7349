//! The typed program of a source.
#![tactic(auto)]

pub mod declared;
pub mod functions;
pub mod occurrences;
pub mod program;
pub mod shapes;
pub mod tables;
