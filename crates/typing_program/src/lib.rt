//! The first typing rule that a program breaks.
#![tactic(auto)]

mod functions;
mod names;
pub mod program;
mod structs;
mod variables;
