//! The statements inside an atomic block.

ghost use Rattle.std.specs.Prelude.{◌≡◌, false, IfOk};
ghost use Rattle.terms.specs.Formula.{Formula};
ghost use Rattle.conditions.specs.Code as spec;
ghost use Rattle.conditions.specs.Actions as actions;
ghost use Rattle.condition_formulas.specs.Standing.{StandsAs};
ghost use Rattle.condition_code.specs.States.{IsSpot, IsState};
ghost use Rattle.condition_code.specs.Walks.{Ran};
ghost use Rattle.condition_branches.specs.Ways.{EndsWay};
ghost use Rattle.condition_actions.specs.Forks.{Forks};

use crate::simple::run_simple;
use condition_branches::states::{with_counters, without_deferred};
use condition_branches::ways::{Way, begin_way, end_way, join_ways};
use condition_code::expressions::code;
use condition_code::state::{Spot, State};
use condition_code::walk::Walk;
use condition_formulas::formulas::not;
use condition_formulas::symbolic::test;
use method::program::{Expr, Inner};
use std::alloc::AllocError;

/// The test of a branch and its opposite.
#[derive(Clone, Copy, Debug)]
pub struct Fork {
    pub passes: u32,
    pub fails: u32,
}

/// The test is worked out, with its checks.
fn branch_test(walk: &mut Walk, a: &Spot<'_>, st: &State, e: &Expr) -> Result<Fork, AllocError>
    ensures { (b : spec.Spot) (s : spec.State) → IsSpot walk.old.graph a.now b → IsState walk.old.graph st.now s →
        IfOk result (λ fork. Forks a.now.program.now b s e.now walk.old walk.new fork) }
{
    let value = code(walk, a, st, e)?;
    let passes = test(&mut walk.graph, value)?;
    let fails = not(&mut walk.graph, passes)?;
    Ok(Fork { passes, fails })
}

/// A statement inside an atomic block; `a` is the block's place.
#[cycle(inner)]
fn run_inner(walk: &mut Walk, a: &Spot<'_>, inner: &Inner, st: State) -> Result<State, AllocError>
    ensures { (b : spec.Spot) (s : spec.State) → IsSpot walk.old.graph a.now b → IsState walk.old.graph st s →
        IfOk result (λ r. Ran IsState walk.old walk.new r
        (actions.run_inner a.now.program.now b inner.now s)) }
{
    match inner {
        Inner::Inside(_, statement) => run_simple(walk, a, statement, st),
        Inner::InsideIf(_, e, first, second) => {
            let fork = branch_test(walk, a, &st, e)?;
            let start = without_deferred(walk.alloc, &st)?;
            let x = way(walk, a, first, fork.passes, start)?;
            let other = with_counters(walk.alloc, &st, &x.state)?;
            let y = way(walk, a, second, fork.fails, other)?;
            let joined = join_ways(walk, &[], st, fork.passes, fork.fails, x, y)?;
            Ok(joined)
        }
    }
}

/// A way of a branch, taken where the test holds.
#[cycle(inner)]
fn way(
    walk: &mut Walk,
    a: &Spot<'_>,
    body: &[Inner],
    test: u32,
    st: State,
) -> Result<Way, AllocError>
    ensures way { (b : spec.Spot) (f : Formula) (s : spec.State) →
        IsSpot walk.old.graph a.now b → StandsAs walk.old.graph test f → IsState walk.old.graph st s →
        IfOk result (λ w. EndsWay walk.old walk.new w f (actions.run_list a.now.program.now b body.now s)) }
    ensures returns { IfOk result (λ w. w.returns ≡ false) }
{
    let from = begin_way(walk, test)?;
    let end = run_list(walk, a, body, st)?;
    let way = end_way(walk, from, end, false)?;
    Ok(way)
}

/// The statements inside an atomic block, in order; `a` is the block's place.
#[cycle(inner)]
pub fn run_list(
    walk: &mut Walk,
    a: &Spot<'_>,
    body: &[Inner],
    st: State,
) -> Result<State, AllocError>
    ensures { (b : spec.Spot) (s : spec.State) → IsSpot walk.old.graph a.now b → IsState walk.old.graph st s →
        IfOk result (λ r. Ran IsState walk.old walk.new r
        (actions.run_list a.now.program.now b body.now s)) }
{
    let mut state = st;
    for inner in body {
        state = run_inner(walk, a, inner, state)?;
    }
    Ok(state)
}
