//! What other threads do between items, tests and the two ways behind them, loops and returns.
#![tactic(auto)]

pub mod contracts;
pub mod forks;
pub mod interference;
pub mod invariants;
pub mod loops;
pub mod returns;
