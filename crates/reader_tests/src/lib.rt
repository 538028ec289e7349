//! Tables for the readers of sources and of their pieces, for the heights of trees and for the names that a program
//! declares, apart from them: a crate with tests is proved twice, and the drops of trees are proved in each crate that drops them.
#![tactic(auto)]

#[cfg(test)]
mod answers;
#[cfg(test)]
mod declarations;
#[cfg(test)]
mod pieces;
#[cfg(test)]
mod rows;
#[cfg(test)]
mod sources;
