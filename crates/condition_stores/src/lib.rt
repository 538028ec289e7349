//! What assignments store, and where: fields, variables, new objects, owned sets.
#![tactic(auto)]

pub mod exchange;
pub mod heaps;
pub mod objects;
pub mod owning;
pub mod place;
pub mod stores;
pub mod tables;
