//! Quantified formulas from their bodies over scenes of constants.
#![tactic(auto)]

pub mod bodies;
pub mod members;
pub mod quantified;
pub mod renumbering;
