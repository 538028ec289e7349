//! Which arguments of an axiom's instance name terms, and that an instance is made of their trees alone.
#![tactic(auto)]

pub mod laws;
