//! Conjunctions of linear bounds: values that meet them all, or a sum of multiples of them that is false.
#![tactic(auto)]

mod multipliers;
mod pivots;
pub mod ratio;
pub mod stop;
pub mod system;
mod tableau;
mod units;
