//! Expressions of annotations as they are typed: names by their numbers, quantified formulas numbered in the order of the text.
#![tactic(auto)]

pub mod annotations;
pub mod counts;
pub mod parts;
pub mod rows;
