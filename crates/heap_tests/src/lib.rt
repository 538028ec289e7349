//! Tests of heaps, of what threads own and what steps leave, and of the values of annotations, apart from the crates that they
//! test: a crate with tests is proved twice. What the definitions say of more heaps are rows by computation (`value_rows`).
#![tactic(auto)]

#[cfg(test)]
mod changes;
#[cfg(test)]
mod evaluation;
#[cfg(test)]
mod heaps;
#[cfg(test)]
mod owning;
#[cfg(test)]
mod programs;
