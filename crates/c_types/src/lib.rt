//! The typed program of a source, or the first typing rule that it breaks.
#![tactic(auto)]

pub mod typing;

pub use typing::type_program;
