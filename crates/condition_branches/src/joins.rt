//! The variables and the heap behind a branch.

ghost use Rattle.std.specs.Prelude.{◌≡◌, IfOk, List};
ghost use Rattle.terms.specs.Formula.{Formula};
ghost use Rattle.conditions.specs.Code as spec;
ghost use Rattle.conditions.specs.Actions as actions;
ghost use Rattle.conditions.specs.Actions.{is_of};
ghost use Rattle.conditions.specs.Formulas.{same};
ghost use Rattle.conditions.specs.Symbolic as symbolic;
ghost use Rattle.condition_formulas.specs.Standing.{StandsAs, Later};
ghost use Rattle.condition_formulas.specs.Symbolics.{AreSymbolic};
ghost use Rattle.condition_code.specs.States.{IsState};
ghost use Rattle.condition_branches.specs.Joins.{IsJoined};

use crate::states::copied;
use crate::variables::{Joined, merge_one, then_one};
use condition_code::state::{State, new_heap};
use condition_formulas::formulas::eq;
use condition_formulas::symbolic::Symbolic;
use std::alloc::{AllocError, Global};
use term_graph::graph::Graph;

/// Whether the number is in the list.
fn is_of(declared: &[u32], i: usize) -> bool
    ensures { result ≡ is_of declared.now i }
{
    for number in declared {
        if *number as usize == i {
            return true;
        }
    }
    false
}

/// Whether the terms are equal.
fn same(graph: &Graph, a: u32, b: u32) -> bool
    ensures { (f g : Formula) → StandsAs graph.now a f → StandsAs graph.now b g → result ≡ same f g }
{
    graph.known();
    a == b
}

/// The variables from their values before the branch, at its first end and at its second.
fn join_locals(
    alloc: Global,
    graph: &mut Graph,
    declared: &[u32],
    before: &[Symbolic],
    first: &[Symbolic],
    second: &[Symbolic],
    state: State,
) -> Result<Joined, AllocError>
    ensures stands { (s : spec.State) (ws xs ys : List symbolic.Symbolic) →
        AreSymbolic graph.old before.now ws → AreSymbolic graph.old first.now xs → AreSymbolic graph.old second.now ys →
        IsState graph.old state s →
        IfOk result (λ j. IsJoined graph.new j (actions.join_locals declared.now 0 ws xs ys s)) }
    ensures later { Later graph.old graph.new }
{
    let count = before.len().min(first.len()).min(second.len());
    let mut joined = Joined::new(alloc, state);
    for i in 0..count {
        let inner = is_of(declared, i);
        let merged = merge_one(graph, inner, before[i], first[i], second[i]);
        let next = then_one(graph, joined, merged)?;
        joined = next;
    }
    Ok(joined)
}

/// A new heap, which is one of these two.
fn heap_joint(graph: &mut Graph, heap: u32, joined: Joined) -> Result<Joined, AllocError>
    ensures stands { (h : Formula) (j : actions.Joined) → StandsAs graph.old heap h → IsJoined graph.old joined j →
        IfOk result (λ r. IsJoined graph.new r (actions.with_heap_joint h j (spec.new_heap j.state))) }
    ensures later { Later graph.old graph.new }
{
    let Joined {
        locals,
        first: mut at_first,
        second: mut at_second,
        state,
    } = joined;
    let there = state.heap;
    let behind = new_heap(graph, state)?;
    let one = eq(graph, behind.heap, heap)?;
    let other = eq(graph, behind.heap, there)?;
    at_first.push(one)?;
    at_second.push(other)?;
    Ok(Joined {
        locals,
        first: at_first,
        second: at_second,
        state: behind,
    })
}

/// The heap too, which is this one at the first end.
fn join_heaps(graph: &mut Graph, heap: u32, joined: Joined) -> Result<Joined, AllocError>
    ensures stands { (h : Formula) (j : actions.Joined) → StandsAs graph.old heap h → IsJoined graph.old joined j →
        IfOk result (λ r. IsJoined graph.new r (actions.join_heaps h j)) }
    ensures later { Later graph.old graph.new }
{
    if same(graph, heap, joined.state.heap) {
        return Ok(joined);
    }
    let behind = heap_joint(graph, heap, joined)?;
    Ok(behind)
}

/// What stands behind two ways, from the variables before them and the state at the end of each.
pub fn join(
    alloc: Global,
    graph: &mut Graph,
    declared: &[u32],
    before: &[Symbolic],
    first: &State,
    second: State,
) -> Result<Joined, AllocError>
    ensures stands { (s x y : spec.State) →
        AreSymbolic graph.old before.now s.locals → IsState graph.old first.now x → IsState graph.old second y →
        IfOk result (λ j. IsJoined graph.new j (actions.join declared.now s x y)) }
    ensures later { Later graph.old graph.new }
{
    let locals = copied(alloc, &second.locals)?;
    let joined = join_locals(
        alloc,
        graph,
        declared,
        before,
        &first.locals,
        &locals,
        second,
    )?;
    let behind = join_heaps(graph, first.heap, joined)?;
    Ok(behind)
}
