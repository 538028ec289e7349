//! The scenes of annotations, and quantified formulas over scenes of constants.
#![tactic(auto)]

pub mod formal;
pub mod quantifiers;
pub mod scene;
