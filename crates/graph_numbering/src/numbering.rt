//! The numbering of a formula of a graph in another one.

ghost use Rattle.std.specs.Prelude.{◌≡◌, ℕ, ◌<◌, All, OnErr};
ghost use Rattle.term_graph.specs.Graph.{Later};
ghost use Rattle.graph_numbering.specs.Numbering.{NumbersNode, StandsBehind, FillsNode, FillingStands};

use crate::places::Places;
use crate::walk::Source;
use std::alloc::AllocError;
use term_graph::graph::Graph;

/// The number in the target of the formula that a node of the graph stands for: its terms are put behind those there,
/// children before parents, left to right, equal ones once. Each node is visited once, whatever the size of its tree. A
/// number that is no node's has the number of NULL.
#[tactic(auto, using(crate::proofs::Results::grown_later))]
pub fn number(
    graph: &Graph,
    root: u32,
    target: &mut Graph,
    places: &mut Places,
) -> Result<u32, AllocError>
    ensures numbered { NumbersNode graph.now root target.old target.new result }
    ensures stands { StandsBehind graph.now root target.new result }
    ensures later { Later target.old target.new }
    ensures err { OnErr result (target.new ≡ target.old) }
{
    let source = Source { graph, args: None };
    source.put(root, target, places)
}

/// The same with the terms of these numbers in the target in place of the formula's constants, by the constants'
/// indices. A constant without an argument becomes NULL.
#[tactic(auto, using(crate::proofs::Results::grown_later))]
pub fn fill(
    graph: &Graph,
    root: u32,
    args: &[u32],
    target: &mut Graph,
    places: &mut Places,
) -> Result<u32, AllocError>
    ensures filled { FillsNode graph.now root args.now target.old target.new result }
    ensures stands { FillingStands graph.now root args.now target.old target.new result }
    ensures later { Later target.old target.new }
    ensures err { OnErr result (target.new ≡ target.old) }
{
    let terms = known_front(args, target.len());
    let source = Source {
        graph,
        args: Some(terms),
    };
    source.put(root, target, places)
}

/// The arguments before the first that is no term's number.
fn known_front(args: &[u32], terms: usize) -> &[u32]
    ensures known { All (λ a. a < terms) result.now }
    ensures all { All (λ a. a < terms) args.now → result.now ≡ args.now }
{
    match args.iter().position(|a| *a as usize >= terms) {
        Some(count) => &args[..count],
        None => args,
    }
}
