//! Sources in the whole language: their tokens, their trees and the grammar.
#![tactic(auto)]

pub mod expressions;
pub mod fault;
pub mod ghosts;
pub mod items;
pub mod statements;
pub mod token;
pub mod tree;
