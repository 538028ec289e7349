//! Lists of formulas.

ghost use Rattle.std.specs.Prelude.{◌≡◌, ◌++◌, IfOk, List};
ghost use Rattle.terms.specs.Formula.{Formula};
ghost use Rattle.condition_formulas.specs.Standing.{StandsAs, StandAll, Later};
ghost use Rattle.conditions.specs.Formulas as spec;

use crate::formulas::{and, eq, falsehood, or, truth};
use std::alloc::{AllocError, Global};
use term_graph::graph::Graph;

/// These numbers, owned.
pub fn listed(alloc: Global, ids: &[u32]) -> Result<Vec<u32>, AllocError>
    ensures { IfOk result (λ all. all.items ≡ ids.now) }
{
    let mut all = Vec::new(alloc);
    all.extend_from_slice(ids)?;
    Ok(all)
}

/// These numbers, and those behind them.
pub fn joined(alloc: Global, first: &[u32], rest: &[u32]) -> Result<Vec<u32>, AllocError>
    ensures { IfOk result (λ all. all.items ≡ first.now ++ rest.now) }
{
    let mut all = Vec::new(alloc);
    all.extend_from_slice(first)?;
    all.extend_from_slice(rest)?;
    Ok(all)
}

/// Joined by `and`, grouped to the right.
pub fn all_of(graph: &mut Graph, ids: &[u32]) -> Result<u32, AllocError>
    ensures stands { (fs : List Formula) → StandAll graph.old ids.now fs → IfOk result (λ id. StandsAs graph.new id (spec.all_of fs)) }
    ensures later { Later graph.old graph.new }
{
    if ids.is_empty() {
        return truth(graph);
    }
    let mut i = ids.len() - 1;
    let mut all = ids[i];
    while i > 0 {
        i -= 1;
        all = and(graph, ids[i], all)?;
    }
    Ok(all)
}

/// Joined by `or`, grouped to the right.
pub fn any_of(graph: &mut Graph, ids: &[u32]) -> Result<u32, AllocError>
    ensures stands { (fs : List Formula) → StandAll graph.old ids.now fs → IfOk result (λ id. StandsAs graph.new id (spec.any_of fs)) }
    ensures later { Later graph.old graph.new }
{
    if ids.is_empty() {
        return falsehood(graph);
    }
    let mut i = ids.len() - 1;
    let mut any = ids[i];
    while i > 0 {
        i -= 1;
        any = or(graph, ids[i], any)?;
    }
    Ok(any)
}

/// That x is each of these, one by one.
pub fn is_any(alloc: Global, graph: &mut Graph, x: u32, ids: &[u32]) -> Result<Vec<u32>, AllocError>
    ensures stands { (f : Formula) (fs : List Formula) → StandsAs graph.old x f → StandAll graph.old ids.now fs → IfOk result (λ all. StandAll graph.new all.items (spec.is_any f fs)) }
    ensures later { Later graph.old graph.new }
{
    let mut all = Vec::new(alloc);
    for id in ids {
        let same = eq(graph, x, *id)?;
        all.push(same)?;
    }
    Ok(all)
}
