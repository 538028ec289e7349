//! The reader of contracts, parameters and structs: one function for each row of the grammar.
#![tactic(auto)]

pub mod attributes;
pub mod clauses;
pub mod members;
pub mod parameters;
pub mod structs;
pub mod writes;
