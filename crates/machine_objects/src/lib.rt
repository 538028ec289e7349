//! What statements change on their way: left sides and stores, objects made, freed and unwrapped.
#![tactic(auto)]

pub mod objects;
pub mod progress;
pub mod store;
