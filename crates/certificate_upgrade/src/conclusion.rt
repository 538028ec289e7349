//! What the steps of a certificate conclude by axioms, over a graph.

use term_graph::graph::Graph;
use terms::numbers::Numbers;

/// What an `axiom` step concludes. Trees are nodes of the graph.
#[derive(Drop)]
pub struct Conclusion {
    /// The tree that it concludes.
    pub tree: u32,
    /// The numbers of the step.
    pub numbers: Numbers,
    /// Which of the arguments among them name terms.
    pub marks: Vec<bool>,
    /// The trees of these terms.
    pub args: Vec<u32>,
}

/// The conclusions of a certificate's blocks, in the order of the text, and the graph of their trees.
#[derive(Drop)]
pub struct Conclusions {
    pub graph: Graph,
    pub list: Vec<Conclusion>,
}
