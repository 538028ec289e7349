//! Certificates, their text and its faults, and the writing of it.
#![tactic(auto)]

pub mod certificate;
pub mod encode;
pub mod fault;
pub mod names;
pub mod stage;
