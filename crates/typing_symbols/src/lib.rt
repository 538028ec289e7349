//! What a program declares, found by names in the time of a hash table.
#![tactic(auto)]

pub mod declarations;
pub mod first;
pub mod name_set;
pub mod variables;
