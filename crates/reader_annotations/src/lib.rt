//! Ghost statements, and what stands in the annotations of code.
#![tactic(auto)]

pub mod annotations;
pub mod brackets;
pub mod ghost_places;
pub mod ghost_rights;
pub mod ghosts;
pub mod sets;
pub mod simple;
