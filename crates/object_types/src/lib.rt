//! References, values, and heaps: finite maps from references to records.
#![tactic(auto)]

pub mod fields;
pub mod heap;
pub mod laws;
pub mod records;
pub mod references;
pub mod sets;
pub mod shapes;
mod trees;
pub mod values;
