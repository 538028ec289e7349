//! Tests, and the two ways behind them.

ghost use Rattle.std.specs.Prelude.{◌≡◌, ◌++◌, IfOk};
ghost use Rattle.method.specs.declared.program.FunctionInfo.{FunctionInfo};
ghost use Rattle.conditions.specs.Actions as actions;
ghost use Rattle.conditions.specs.Code as spec;
ghost use Rattle.conditions.specs.Paths.{Execution};
ghost use Rattle.conditions.specs.Symbolic as symbolic;
ghost use Rattle.condition_code.specs.States.{IsSpot, IsState};
ghost use Rattle.condition_code.specs.Walks.{Ran};
ghost use Rattle.condition_branches.specs.Ways.{IsWay};
ghost use Rattle.statement_text.specs.Rows.{all_declare, one_returns};
ghost use Rattle.condition_control.specs.Forms as forms;
ghost use Rattle.condition_control.specs.Forks.{IsFork};

use crate::interference::interference;
use condition_branches::ways::{Way, join_ways};
use condition_code::expressions::code;
use condition_code::forms::failing;
use condition_code::state::{Spot, State};
use condition_code::walk::Walk;
use condition_formulas::symbolic::test;
use method::program::{Expr, FunctionInfo, Stmt};
use statement_text::declaring::add_all_declares;
use statement_text::reading::reads;
use std::alloc::AllocError;

/// A test at a place, and its denial, in this state.
#[derive(Drop)]
pub struct Fork {
    pub state: State,
    pub test: u32,
    pub fails: u32,
}

/// The test is worked out.
pub fn evaluated(walk: &mut Walk, a: &Spot<'_>, e: &Expr, st: State) -> Result<Fork, AllocError>
    ensures { (f : FunctionInfo) (b : spec.Spot) (s : spec.State) →
        IsSpot walk.old.graph a.now b → IsState walk.old.graph st s →
        IfOk result (λ r. Ran IsFork walk.old walk.new r (forms.evaluated a.now.program.now f b e.now s)) }
{
    let value = code(walk, a, &st, e)?;
    let holds = test(&mut walk.graph, value)?;
    let fails = failing(&mut walk.graph, value)?;
    Ok(Fork {
        state: st,
        test: holds,
        fails,
    })
}

/// The test of a branch is worked out; before it other threads may go on.
pub fn branch_test(
    walk: &mut Walk,
    a: &Spot<'_>,
    in_ghost: bool,
    e: &Expr,
    st: State,
) -> Result<Fork, AllocError>
    ensures { (f : FunctionInfo) (b : spec.Spot) (s : spec.State) →
        IsSpot walk.old.graph a.now b → IsState walk.old.graph st s →
        IfOk result (λ r. Ran IsFork walk.old walk.new r
        (forms.branch_start a.now.program.now f b in_ghost e.now s)) }
{
    let moved = interference(walk, reads(e), !in_ghost, st)?;
    let fork = evaluated(walk, a, e, moved)?;
    Ok(fork)
}

/// Behind both ways of a branch.
pub fn join(
    walk: &mut Walk,
    first: &[Stmt],
    second: &[Stmt],
    fork: Fork,
    x: Way,
    y: Way,
) -> Result<State, AllocError>
    ensures { (v : spec.ValueAndState) (s t : Execution spec.State) →
        IsFork walk.old.graph fork v → IsWay walk.old.graph x s → IsWay walk.old.graph y t →
        x.returns ≡ one_returns first.now → y.returns ≡ one_returns second.now →
        IfOk result (λ r. Ran IsState walk.old walk.new r
        (actions.branches_end v.state (symbolic.test v.value) (one_returns first.now) (one_returns second.now) s t
        (actions.join (all_declare first.now ++ all_declare second.now) v.state s.gives t.gives))) }
{
    let mut declared = Vec::new(walk.alloc);
    add_all_declares(first, &mut declared)?;
    add_all_declares(second, &mut declared)?;
    let Fork { state, test, fails } = fork;
    let joined = join_ways(walk, &declared, state, test, fails, x, y)?;
    Ok(joined)
}
