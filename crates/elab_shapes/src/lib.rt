//! Conjuncts of claims: what fills their holes, their shapes, and expressions in which they stand by the numbers of
//! their shapes.
#![tactic(auto)]

pub mod collect;
mod forms;
pub mod holes;
pub mod numbered;
mod parts;
pub mod same;
pub mod shapes;
pub mod sorts;
