//! Expressions of code as formulas, with the checks on the way, and the conditions of a path.
#![tactic(auto)]

pub mod access;
pub mod emitter;
pub mod expressions;
pub mod forms;
pub mod operations;
pub mod scenes;
pub mod state;
pub mod walk;
