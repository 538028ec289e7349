//! What the annotations of a typed source meet beside typing and scope, so that each has a formula that says it.
#![tactic(auto)]

pub mod laws;
