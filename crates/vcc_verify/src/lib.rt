//! The search for a certificate: for each condition of a program a block, and a report.
#![tactic(auto)]

mod certificate;
pub mod fault;
mod items;
pub mod verify;
