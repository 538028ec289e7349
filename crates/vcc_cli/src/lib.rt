//! The commands of `vcc`.
#![tactic(auto)]

pub mod check;
mod copies;
mod main_call;
mod upgrade;
mod verify;

pub use main_call::vcc_main;
