//! The turns of a thread: what its next item comes to.
#![tactic(auto)]

pub mod activation;
pub mod calls;
pub mod checks;
pub mod code;
pub mod items;
pub mod returns;
pub mod turn;
