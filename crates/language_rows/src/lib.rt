//! What terms of three programs name, written out by hand: their columns and their quantified formulas.
#![tactic(auto)]

pub mod laws;
