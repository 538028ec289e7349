//! The rule of maps: what was stored at a place is read there, and all else is as it was.
#![tactic(auto)]

pub mod maps;
mod reading;
