//! The labels of a program's checks.
#![tactic(auto)]

pub mod actions;
pub mod inner;
pub mod kinds;
pub mod labels;
pub mod lines;
pub mod names;
pub mod simples;
pub mod statements;
pub mod tables;
pub mod tallies;
