//! Statements as they are typed.
#![tactic(auto)]

pub mod choices;
pub mod counts;
pub mod ghosts;
pub mod inner;
pub mod loops;
pub mod rows;
pub mod settings;
pub mod simple;
pub mod simple_ghosts;
pub mod statements;
