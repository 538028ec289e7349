//! What is known where an end of a branch was reached.

ghost use Rattle.std.specs.Prelude.{IfOk, List};
ghost use Rattle.terms.specs.Formula.{Formula};
ghost use Rattle.conditions.specs.Actions as actions;
ghost use Rattle.condition_formulas.specs.Standing.{StandsAs, StandAll, Later};

use condition_formulas::formulas::falsehood;
use condition_formulas::lists::{all_of, joined, listed};
use std::alloc::{AllocError, Global};
use term_graph::graph::Graph;

/// The facts as one, if there are any.
fn conjunction(alloc: Global, graph: &mut Graph, ids: &[u32]) -> Result<Vec<u32>, AllocError>
    ensures stands { (fs : List Formula) → StandAll graph.old ids.now fs →
        IfOk result (λ all. StandAll graph.new all.items (actions.conjunction fs)) }
    ensures later { Later graph.old graph.new }
{
    if ids.is_empty() {
        return Ok(Vec::new(alloc));
    }
    let all = all_of(graph, ids)?;
    listed(alloc, &[all])
}

/// What is known where this end was reached; behind a return nothing is.
pub fn end_fact(
    alloc: Global,
    graph: &mut Graph,
    test: u32,
    returns: bool,
    known: &[u32],
    equal: &[u32],
) -> Result<u32, AllocError>
    ensures stands { (b : Formula) (fs gs : List Formula) →
        StandsAs graph.old test b → StandAll graph.old known.now fs → StandAll graph.old equal.now gs →
        IfOk result (λ id. StandsAs graph.new id (actions.end_fact b returns fs gs)) }
    ensures later { Later graph.old graph.new }
{
    if returns {
        return falsehood(graph);
    }
    let facts = conjunction(alloc, graph, known)?;
    let equations = conjunction(alloc, graph, equal)?;
    let mut all = joined(alloc, &[test], &facts)?;
    all.extend_from_slice(&equations)?;
    all_of(graph, &all)
}
