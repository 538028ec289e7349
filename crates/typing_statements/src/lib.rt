//! The typing rules of statements, functions and structs.
#![tactic(auto)]

pub mod arguments;
pub mod contracts;
pub mod functions;
pub mod ghost_blocks;
pub mod ghosts;
pub mod rights;
pub mod scopes;
pub mod simple;
pub mod statements;
pub mod structs;
