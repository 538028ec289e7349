//! The words of a command line.
#![tactic(auto)]

mod arguments;
pub mod command;
mod copies;
mod names;
mod read;
mod search;
mod upgrade;

pub use read::read_command;
