//! What the steps of a certificate's block conclude by axioms.
#![tactic(auto)]

mod arguments;
pub mod blocks;
mod conclusions;
mod parameters;
mod trees;
