//! How high trees are: how deep their parts stand within one another.
#![tactic(auto)]

mod expressions;
mod ghosts;
pub mod items;
pub mod laws;
mod rights;
mod statements;
