//! What expressions are, and which typing rules they break.
#![tactic(auto)]

pub mod arrows;
pub mod context;
pub mod expressions;
pub mod forms;
pub mod judged;
pub mod kinds;
pub mod lookups;
pub mod rule;
pub mod same;
pub mod violations;
pub mod words;
