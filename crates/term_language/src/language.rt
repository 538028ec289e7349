//! The formulas of a program's annotations.

use term_graph::graph::Graph;
use terms::sort::Columns;

/// What the terms of a program's formulas name: its columns by their sorts, and the formulas of its annotations, as
/// nodes of one graph, by their numbers.
#[derive(Drop)]
pub struct Language {
    /// The graph in which the formulas stand.
    pub graph: Graph,
    /// The sorts of the program's columns, and those of the holes of its quantified formulas.
    pub columns: Columns,
    /// The bodies of the quantified formulas.
    pub bodies: Vec<u32>,
    /// The invariants of the structs, one formula for each struct.
    pub invariants: Vec<u32>,
    /// The conjuncts of claims, one for each shape.
    pub conjuncts: Vec<u32>,
}
