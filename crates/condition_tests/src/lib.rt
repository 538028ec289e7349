//! Tests of labels and conditions of small sources, apart from their crates: a crate with tests is proved twice. What commands print
//! stands in tests/.
#![tactic(auto)]

#[cfg(test)]
mod condition_lists;
#[cfg(test)]
mod formulas;
#[cfg(test)]
mod labels;
#[cfg(test)]
mod programs;
#[cfg(test)]
mod rows;
#[cfg(test)]
mod translation;
