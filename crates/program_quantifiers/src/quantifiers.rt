//! The quantified formulas of a text.

use quantified_formulas::quantified::Quantified;
use term_graph::graph::Graph;

/// The quantified formulas of a text as far as it was gone through, in its order, and the graph of their bodies.
#[derive(Drop)]
pub struct Quantifiers {
    pub graph: Graph,
    pub formulas: Vec<Quantified>,
}
