//! That a certificate's upgrade keeps which conditions follow, and upgrades written down by hand.
#![tactic(auto)]

pub mod laws;
pub mod rows;
