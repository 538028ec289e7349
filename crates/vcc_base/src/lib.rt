//!
//! The outside: stores and sinks, whole reads and writes over them, and the limits.
#![tactic(auto)]

pub mod file;
pub mod limit;
pub mod memory;
pub mod sink;
pub mod store;
pub mod whole;
