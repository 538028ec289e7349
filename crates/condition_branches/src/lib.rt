//! Ways that code may take, and what is known behind them.
#![tactic(auto)]

pub mod deferred;
pub mod ends;
pub mod facts;
pub mod joins;
pub mod states;
pub mod variables;
pub mod ways;
