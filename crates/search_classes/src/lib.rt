//! Classes of terms that are equal, why they are, and what sums of bounds come to over them.
#![tactic(auto)]

pub mod classes;
pub mod explain;
mod explainer;
pub mod forms;
mod gaps;
pub mod marks;
mod members;
pub mod signatures;
pub mod sums;
