//! The runs of a program without its annotations are the machine's runs, without annotations.
#![tactic(auto)]

pub mod laws;
