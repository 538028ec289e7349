//! The reader of programs: functions, structs, and the items of a program; and which fault a token is with which none goes on.
#![tactic(auto)]

pub mod faults;
pub mod functions;
pub mod items;
pub mod program;
