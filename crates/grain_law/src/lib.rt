//! A program that is safe stays safe where each read of a field is a step of its own.
#![tactic(auto)]

pub mod laws;
