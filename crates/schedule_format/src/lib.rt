//! Schedules, and their text.
#![tactic(auto)]

pub mod fault;
pub mod laws;
pub mod read;
pub mod schedule;
mod values;
mod words;
