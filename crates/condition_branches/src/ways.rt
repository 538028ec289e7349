//! The two ways of a branch, and what is known behind them.

ghost use Rattle.std.specs.Prelude.{◌≡◌, IfOk};
ghost use Rattle.terms.specs.Formula.{Formula};
ghost use Rattle.conditions.specs.Code as spec;
ghost use Rattle.conditions.specs.Actions as actions;
ghost use Rattle.conditions.specs.Formulas.{not'};
ghost use Rattle.conditions.specs.Paths.{Execution};
ghost use Rattle.condition_formulas.specs.Standing.{StandsAs};
ghost use Rattle.condition_code.specs.States.{IsState};
ghost use Rattle.condition_code.specs.Walks.{Ran};
ghost use Rattle.condition_code.specs.declared.walk.Walk.{Walk};
ghost use Rattle.condition_branches.specs.Ways.{Begins, EndsWay, IsWay};

use crate::deferred::with_deferred;
use crate::ends::end_fact;
use crate::facts::facts_since;
use crate::joins::join;
use condition_code::state::State;
use condition_code::walk::Walk;
use condition_formulas::formulas::or;
use std::alloc::AllocError;

/// What a way came to: its state, its facts, and whether it ends in a return.
#[derive(Drop)]
pub struct Way {
    pub state: State,
    pub facts: Vec<u32>,
    pub returns: bool,
}

/// Here a way begins that code takes where the test holds. Gives the place of the path that it goes on from.
pub fn begin_way(walk: &mut Walk, test: u32) -> Result<usize, AllocError>
    ensures { (f : Formula) → StandsAs walk.old.graph test f → IfOk result (λ from. Begins walk.old walk.new from f) }
{
    walk.enter()?;
    walk.fact(test)?;
    Ok(walk.place())
}

/// Here it ends, in this state.
pub fn end_way(walk: &mut Walk, from: usize, state: State, returns: bool) -> Result<Way, AllocError>
    ensures way { (start behind : Walk) (f : Formula) (x : Execution spec.State) →
        Begins start behind from f → Ran IsState behind walk.old state x →
        IfOk result (λ w. EndsWay start walk.new w f x) }
    ensures returns { IfOk result (λ w. w.returns ≡ returns) }
{
    let facts = facts_since(walk.alloc, &walk.path, from)?;
    walk.leave()?;
    Ok(Way {
        state,
        facts,
        returns,
    })
}

/// Behind both ways from the state `st`, the first taken where the test holds and the second where it fails. The
/// variables that the ways declare are none behind them.
pub fn join_ways(
    walk: &mut Walk,
    declared: &[u32],
    st: State,
    test: u32,
    fails: u32,
    first: Way,
    second: Way,
) -> Result<State, AllocError>
    ensures { (s : spec.State) (b : Formula) (x y : Execution spec.State) →
        IsState walk.old.graph st s → StandsAs walk.old.graph test b → StandsAs walk.old.graph fails (not' b) →
        IsWay walk.old.graph first x → IsWay walk.old.graph second y →
        IfOk result (λ r. Ran IsState walk.old walk.new r
        (actions.branches_end s b first.returns second.returns x y (actions.join declared.now s x.gives y.gives))) }
{
    let alloc = walk.alloc;
    let graph = &mut walk.graph;
    let behind = join(
        alloc,
        graph,
        declared,
        &st.locals,
        &first.state,
        second.state,
    )?;
    let here = end_fact(
        alloc,
        graph,
        test,
        first.returns,
        &first.facts,
        &behind.first,
    )?;
    let there = end_fact(
        alloc,
        graph,
        fails,
        second.returns,
        &second.facts,
        &behind.second,
    )?;
    let known = or(graph, here, there)?;
    walk.fact(known)?;
    let state = with_deferred(alloc, st, test, fails, first.state, behind)?;
    Ok(state)
}
