//! Tests of terms, their pool and their bank, apart from the crates that they test: a crate with tests is proved twice.
#![tactic(auto)]

#[cfg(test)]
mod bank;
#[cfg(test)]
mod literals;
#[cfg(test)]
mod pool;
#[cfg(test)]
mod sorts;
