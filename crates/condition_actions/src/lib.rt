//! One action of a function: its checks in order, then its effect.
#![tactic(auto)]

pub mod actions;
pub mod blocks;
pub mod contracts;
pub mod inner;
pub mod operands;
pub mod simple;
pub mod tables;
pub mod threads;
pub mod wrapping;
