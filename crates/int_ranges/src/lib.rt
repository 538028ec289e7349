//! The integer types of C that the language has, exact arithmetic on 128 bits, and laws of whole numbers.
#![tactic(auto)]

pub mod ctype;
pub mod exact;
pub mod laws;
