//! Loops, up to their bodies and behind them.

ghost use Rattle.std.specs.Prelude.{◌≡◌, ◌||◌, IfOk};
ghost use Rattle.terms.specs.Formula.{Formula};
ghost use Rattle.method.specs.Text as text;
ghost use Rattle.method.specs.declared.program.FunctionInfo.{FunctionInfo};
ghost use Rattle.conditions.specs.Actions.{with_counters};
ghost use Rattle.conditions.specs.Code as spec;
ghost use Rattle.conditions.specs.Formulas.{not'};
ghost use Rattle.conditions.specs.Paths.{Execution, Gives, fact};
ghost use Rattle.condition_formulas.specs.Standing.{StandsAs};
ghost use Rattle.condition_code.specs.States.{IsSpot, IsState};
ghost use Rattle.condition_code.specs.Walks.{Ran};
ghost use Rattle.condition_code.specs.declared.walk.Walk.{Walk};
ghost use Rattle.condition_branches.specs.Ways.{Begins};
ghost use Rattle.statement_text.specs.Rows.{all_declare, all_set};
ghost use Rattle.condition_control.specs.Forms as forms;
ghost use Rattle.condition_control.specs.Forks.{IsFork};

use crate::forks::{Fork, evaluated};
use crate::interference::interference;
use crate::invariants::{any_turn, check_invariants};
use condition_branches::states::{with_counters, without_deferred};
use condition_branches::ways::{begin_way, end_way};
use condition_code::state::{Spot, State};
use condition_code::walk::Walk;
use method::program::{Expr, FunctionInfo, Spec, Stmt};
use statement_text::reading::{reads, specs_read};
use std::alloc::AllocError;

/// Whether a `while` reads or changes the heap before its first turn.
fn while_reads(invs: &[Spec], e: &Expr) -> bool
    ensures { result ≡ (text.specs_read invs.now || text.reads e.now) }
{
    specs_read(invs) || reads(e)
}

/// A `while` up to its test, which is worked out.
pub fn while_start(
    walk: &mut Walk,
    a: &Spot<'_>,
    f: &FunctionInfo,
    invs: &[Spec],
    e: &Expr,
    body: &[Stmt],
    st: State,
) -> Result<Fork, AllocError>
    ensures { (b : spec.Spot) (s : spec.State) → IsSpot walk.old.graph a.now b → IsState walk.old.graph st s →
        IfOk result (λ r. Ran IsFork walk.old walk.new r
        (forms.while_start a.now.program.now f.now b invs.now e.now
        (forms.set_outside (all_set body.now) (all_declare body.now)) s)) }
{
    let moved = interference(walk, while_reads(invs, e), false, st)?;
    let known = any_turn(walk, a, f, invs, body, moved)?;
    let fork = evaluated(walk, a, e, known)?;
    Ok(fork)
}

/// A `do` up to its body.
pub fn do_start(
    walk: &mut Walk,
    a: &Spot<'_>,
    f: &FunctionInfo,
    invs: &[Spec],
    body: &[Stmt],
    st: State,
) -> Result<State, AllocError>
    ensures { (b : spec.Spot) (s : spec.State) → IsSpot walk.old.graph a.now b → IsState walk.old.graph st s →
        IfOk result (λ r. Ran IsState walk.old walk.new r
        (forms.do_start a.now.program.now f.now b invs.now
        (forms.set_outside (all_set body.now) (all_declare body.now)) s)) }
{
    let moved = interference(walk, specs_read(invs), false, st)?;
    let known = any_turn(walk, a, f, invs, body, moved)?;
    Ok(known)
}

/// A turn is over: the loop's invariants are checked again.
pub fn turn_end(
    walk: &mut Walk,
    a: &Spot<'_>,
    invs: &[Spec],
    st: State,
) -> Result<State, AllocError>
    ensures { (f : FunctionInfo) (b : spec.Spot) (s : spec.State) →
        IsSpot walk.old.graph a.now b → IsState walk.old.graph st s →
        IfOk result (λ r. Ran IsState walk.old walk.new r (forms.turn_end a.now.program.now f b invs.now s)) }
{
    let moved = interference(walk, specs_read(invs), false, st)?;
    let checked = check_invariants(walk, a, invs, moved)?;
    Ok(checked)
}

/// The state before a way, where the constants of a later one are made, and the test fails.
fn failed(walk: &mut Walk, before: &State, fails: u32, later: &State) -> Result<State, AllocError>
    ensures { (f : Formula) (s l : spec.State) → StandsAs walk.old.graph fails (not' f) →
        IsState walk.old.graph before.now s → IsState walk.old.graph later.now l →
        IfOk result (λ r. Ran IsState walk.old walk.new r (fact (not' f) (Gives (with_counters s l)))) }
{
    let behind = with_counters(walk.alloc, before, later)?;
    walk.fact(fails)?;
    Ok(behind)
}

/// The way that began here, where the loop's test holds, has come to this state; behind it the test fails.
pub fn leave_loop(
    walk: &mut Walk,
    from: usize,
    before: &State,
    fails: u32,
    end: State,
) -> Result<State, AllocError>
    ensures { (start behind : Walk) (f : Formula) (s : spec.State) (x : Execution spec.State) →
        Begins start behind from f → Ran IsState behind walk.old end x →
        StandsAs start.graph fails (not' f) → IsState start.graph before.now s →
        IfOk result (λ r. Ran IsState start walk.new r (forms.loop_left s f x)) }
{
    let way = end_way(walk, from, end, false)?;
    let behind = failed(walk, before, fails, &way.state)?;
    Ok(behind)
}

/// A `do` behind its body.
pub fn do_end(
    walk: &mut Walk,
    a: &Spot<'_>,
    invs: &[Spec],
    e: &Expr,
    st: State,
) -> Result<State, AllocError>
    ensures { (f : FunctionInfo) (b : spec.Spot) (s : spec.State) →
        IsSpot walk.old.graph a.now b → IsState walk.old.graph st s →
        IfOk result (λ r. Ran IsState walk.old walk.new r (forms.do_end a.now.program.now f b invs.now e.now s)) }
{
    let moved = interference(walk, reads(e), false, st)?;
    let fork = evaluated(walk, a, e, moved)?;
    let Fork { state, test, fails } = fork;
    let before = without_deferred(walk.alloc, &state)?;
    let from = begin_way(walk, test)?;
    let end = turn_end(walk, a, invs, state)?;
    let left = leave_loop(walk, from, &before, fails, end)?;
    Ok(left)
}
