//! The reader of sources in the whole language, by recursive descent: one function for each row of the grammar.
#![tactic(auto)]

pub mod approvals;
pub mod arrows;
pub mod expressions;
pub mod forms;
pub mod joints;
pub mod leaves;
pub mod levels;
pub mod memory;
pub mod operands;
pub mod reading;
pub mod tokens;
pub mod types;
