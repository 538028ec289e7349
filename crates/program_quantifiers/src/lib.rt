//! The quantified formulas of a program's annotations.
#![tactic(auto)]

pub mod annotations;
pub mod functions;
pub mod quantifiers;
pub mod statements;
pub mod tables;
pub mod words;
