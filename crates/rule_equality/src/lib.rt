//! The rules of equality: that it is an equivalence, and that equal arguments give equal terms.
#![tactic(auto)]

pub mod congruence;
pub mod equivalence;
