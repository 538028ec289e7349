//! Replays of schedules: the machine runs a schedule's events, and a line is printed for each as it goes.
#![tactic(auto)]

pub mod fault;
pub mod lines;
pub mod put;
mod records;
pub mod replay;
