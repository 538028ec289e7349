//! The reader of statements.
#![tactic(auto)]

pub mod annotations;
pub mod blocks;
pub mod fronts;
pub mod kinds;
pub mod loops;
pub mod simple;
pub mod statements;
