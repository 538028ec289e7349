//! The path of a function, or of a type, whose conditions are those of the item.
#![tactic(auto)]

pub mod calls;
pub mod entry;
pub mod items;
pub mod statements;
