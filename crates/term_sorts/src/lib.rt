//! The sorts of a graph's nodes.
#![tactic(auto)]

pub mod table;
