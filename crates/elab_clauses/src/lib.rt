//! Annotations with numbered shapes: contracts, and the tables of structs and fields.
#![tactic(auto)]

pub mod approvals;
pub mod contracts;
pub mod fields;
pub mod numbering;
pub mod structs;
