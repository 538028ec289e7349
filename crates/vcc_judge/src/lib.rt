//! Judging a program by the blocks of a certificate.
#![tactic(auto)]

pub mod judge;
pub mod laws;
pub mod room;
pub mod sequence;
pub mod trial;
pub mod verdict;
