//! Tests of whole numbers, stores and tokens, apart from the crates that they test: a crate with tests is proved twice.
#![tactic(auto)]

#[cfg(test)]
mod arithmetic;
#[cfg(test)]
mod integer_types;
#[cfg(test)]
mod lexing;
#[cfg(test)]
mod rows;
#[cfg(test)]
mod stores;
