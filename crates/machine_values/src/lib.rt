//! What a step of the machine rests on: where it is made, why it stops, and the values of code.
#![tactic(auto)]

mod arithmetic;
pub mod eval;
pub mod spot;
pub mod stop;
pub mod tables;
pub mod tests;
pub mod values;
