//! Formulas of a graph laid out in another one.
#![tactic(auto)]

mod layout;
pub mod numbering;
pub mod places;
mod walk;
