//! Formulas made of the last ones of a row.

ghost use Rattle.std.specs.Prelude.{◌≡◌, ◌-◌, ◌∷◌, ◌++◌, [], length, List, IfOk, OnOk, map, take, drop, slice_get};
ghost use Rattle.terms.specs.Formula.{Formula, Node};
ghost use Rattle.axiom_instances.specs.Terms.{trees, no, eq};
ghost use Rattle.condition_formulas.specs.Standing.{StandsAs, StandAll, Later};
ghost use Rattle.axiom_steps.specs.Steps.{below, top};

use condition_formulas::formulas::{eq, node, not};
use condition_formulas::lists::joined;
use std::alloc::{AllocError, Global};
use term_graph::graph::Graph;
use terms::term::Kind;

/// Puts a node of the last so many formulas, and of those behind them, in their place.
pub fn build(
    alloc: Global,
    graph: &mut Graph,
    terms: &mut Vec<u32>,
    kind: Kind,
    index: i128,
    count: usize,
    behind: &[u32],
) -> Result<(), AllocError>
    ensures stands { (fs ks : List Formula) → StandAll graph.old terms.old.items fs → StandAll graph.old behind.now ks
        → OnOk result (StandAll graph.new terms.new.items
        (below count fs ++ Node kind index (trees (top count fs ++ ks)) ∷ [])) }
    ensures later { Later graph.old graph.new }
{
    let at = terms.len().saturating_sub(count);
    let args = joined(alloc, &terms[at..], behind)?;
    let id = node(graph, kind, index, &args)?;
    terms.truncate(at);
    terms.push(id)?;
    Ok(())
}

/// The last so many formulas.
pub fn last_of(terms: &[u32], count: usize) -> &[u32]
    ensures { result.now ≡ drop (length terms.now - count) terms.now }
{
    let at = terms.len().saturating_sub(count);
    let last = &terms[at..];
    last
}

/// Puts a formula in place of the last so many.
pub fn replace(terms: &mut Vec<u32>, count: usize, id: u32) -> Result<(), AllocError>
    ensures { OnOk result (terms.new.items ≡ take (length terms.old.items - count) terms.old.items ++ id ∷ []) }
{
    let at = terms.len().saturating_sub(count);
    terms.truncate(at);
    terms.push(id)?;
    Ok(())
}

/// The formula with this number from the last one on, which is 1.
pub fn last(terms: &[u32], number: usize) -> Option<u32>
    ensures { result ≡ slice_get terms.now (length terms.now - number) }
{
    terms.get(terms.len().saturating_sub(number)).copied()
}

/// The formula at this place.
pub fn term_at(terms: &[u32], place: usize) -> Option<u32>
    ensures { result ≡ slice_get terms.now place }
{
    terms.get(place).copied()
}

/// That the two aren't the same.
fn differ(graph: &mut Graph, x: u32, y: u32) -> Result<u32, AllocError>
    ensures stands { (f g : Formula) → StandsAs graph.old x f → StandsAs graph.old y g
        → IfOk result (λ id. StandsAs graph.new id (no (eq f g))) }
    ensures later { Later graph.old graph.new }
{
    let same = eq(graph, x, y)?;
    not(graph, same)
}

/// That x is none of these, one by one.
pub fn differ_each(
    alloc: Global,
    graph: &mut Graph,
    x: u32,
    ids: &[u32],
) -> Result<Vec<u32>, AllocError>
    ensures stands { (f : Formula) (fs : List Formula) → StandsAs graph.old x f → StandAll graph.old ids.now fs
        → IfOk result (λ all. StandAll graph.new all.items (map (λ g. no (eq f g)) fs)) }
    ensures later { Later graph.old graph.new }
{
    let mut all = Vec::new(alloc);
    for id in ids {
        let other = differ(graph, x, *id)?;
        all.push(other)?;
    }
    Ok(all)
}
