//! Claims made and ended, and what must hold for types and claims to be admissible.
#![tactic(auto)]

pub mod admissible;
pub mod claims;
pub mod heaps;
pub mod sites;
pub mod stability;
pub mod tests;
