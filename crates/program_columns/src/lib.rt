//! The columns of a program's heaps.
#![tactic(auto)]

pub mod columns;
