//! What becomes of one variable behind a branch.

ghost use Rattle.std.specs.Prelude.{[], IfOk, List};
ghost use Rattle.terms.specs.declared.term.Term.{Term};
ghost use Rattle.conditions.specs.Code as spec;
ghost use Rattle.conditions.specs.Actions as actions;
ghost use Rattle.conditions.specs.Formulas.{eq};
ghost use Rattle.conditions.specs.Symbolic as symbolic;
ghost use Rattle.condition_formulas.specs.Standing.{StandsAs, Later};
ghost use Rattle.condition_formulas.specs.Symbolics.{IsSymbolic};
ghost use Rattle.condition_code.specs.States.{IsState, IsValueAndState};
ghost use Rattle.condition_branches.specs.Joins.{IsJoined, IsMerge, joined_of, then_differs, then_keeps, then_one};

use condition_code::state::{State, ValueAndState, new_integer, new_reference};
use condition_formulas::formulas::eq;
use condition_formulas::symbolic::{Symbolic, same_symbolic, term};
use std::alloc::{AllocError, Global};
use term_graph::graph::Graph;

/// What becomes of a variable: a term that it has at both ends, or a new constant.
#[derive(Clone, Copy, Debug)]
pub enum Merge {
    Keeps(Symbolic),
    Differs(Symbolic, Symbolic),
}

/// The variables behind a branch, what each new constant is at the first end and at the second, and the state.
#[derive(Drop)]
pub struct Joined {
    pub locals: Vec<Symbolic>,
    pub first: Vec<u32>,
    pub second: Vec<u32>,
    pub state: State,
}

/// A variable's terms before the branch and at its ends. One that the branch declares is none behind it.
pub fn merge_one(
    graph: &Graph,
    declared: bool,
    before: Symbolic,
    first: Symbolic,
    second: Symbolic,
) -> Merge
    ensures { (w x y : symbolic.Symbolic) →
        IsSymbolic graph.now before w → IsSymbolic graph.now first x → IsSymbolic graph.now second y →
        IsMerge graph.now result (actions.merge declared w x y) }
{
    if declared {
        return Merge::Keeps(before);
    }
    if same_symbolic(graph, first, second) {
        return Merge::Keeps(first);
    }
    Merge::Differs(first, second)
}

impl Joined {
    /// No variables yet.
    pub fn new(alloc: Global, state: State) -> Joined
        ensures { (ts : List Term) (s : spec.State) → IsState ts state s →
            IsJoined ts result (joined_of [] [] s) }
    {
        Joined {
            locals: Vec::new(alloc),
            first: Vec::new(alloc),
            second: Vec::new(alloc),
            state,
        }
    }
}

/// A new constant of the value's kind.
fn new_like(graph: &mut Graph, value: Symbolic, st: State) -> Result<ValueAndState, AllocError>
    ensures stands { (w : symbolic.Symbolic) (s : spec.State) → IsSymbolic graph.old value w → IsState graph.old st s →
        IfOk result (λ v. IsValueAndState graph.new v (actions.new_like w s)) }
    ensures later { Later graph.old graph.new }
{
    match value {
        Symbolic::Truth(_) => new_integer(graph, st),
        Symbolic::Number(_) => new_integer(graph, st),
        Symbolic::Reference(_) => new_reference(graph, st),
    }
}

/// That the terms of the values are equal.
fn equation(graph: &mut Graph, constant: Symbolic, value: Symbolic) -> Result<u32, AllocError>
    ensures stands { (v w : symbolic.Symbolic) → IsSymbolic graph.old constant v → IsSymbolic graph.old value w →
        IfOk result (λ id. StandsAs graph.new id (eq (symbolic.term v) (symbolic.term w))) }
    ensures later { Later graph.old graph.new }
{
    let left = term(graph, constant)?;
    let right = term(graph, value)?;
    eq(graph, left, right)
}

/// One variable more, with this value.
fn then_keeps(mut joined: Joined, value: Symbolic) -> Result<Joined, AllocError>
    ensures { (ts : List Term) (j : actions.Joined) (w : symbolic.Symbolic) →
        IsJoined ts joined j → IsSymbolic ts value w →
        IfOk result (λ r. IsJoined ts r (then_keeps j w)) }
{
    joined.locals.push(value)?;
    Ok(joined)
}

/// One variable more, with a new constant for its values at the two ends.
fn then_differs(
    graph: &mut Graph,
    joined: Joined,
    first: Symbolic,
    second: Symbolic,
) -> Result<Joined, AllocError>
    ensures stands { (j : actions.Joined) (x y : symbolic.Symbolic) →
        IsJoined graph.old joined j → IsSymbolic graph.old first x → IsSymbolic graph.old second y →
        IfOk result (λ r. IsJoined graph.new r (then_differs j x y)) }
    ensures later { Later graph.old graph.new }
{
    let Joined {
        mut locals,
        first: mut at_first,
        second: mut at_second,
        state,
    } = joined;
    let made = new_like(graph, first, state)?;
    let one = equation(graph, made.value, first)?;
    let other = equation(graph, made.value, second)?;
    locals.push(made.value)?;
    at_first.push(one)?;
    at_second.push(other)?;
    Ok(Joined {
        locals,
        first: at_first,
        second: at_second,
        state: made.state,
    })
}

/// One variable more, of which that becomes.
pub fn then_one(graph: &mut Graph, joined: Joined, merged: Merge) -> Result<Joined, AllocError>
    ensures stands { (j : actions.Joined) (m : actions.Merge) →
        IsJoined graph.old joined j → IsMerge graph.old merged m →
        IfOk result (λ r. IsJoined graph.new r (then_one j m)) }
    ensures later { Later graph.old graph.new }
{
    match merged {
        Merge::Keeps(value) => then_keeps(joined, value),
        Merge::Differs(first, second) => then_differs(graph, joined, first, second),
    }
}
