//! The statements of a function.

ghost use Rattle.std.specs.Prelude.{IfOk, ◌≡◌};
ghost use Rattle.terms.specs.Formula.{Formula};
ghost use Rattle.method.specs.declared.program.FunctionInfo.{FunctionInfo};
ghost use Rattle.conditions.specs.Actions as actions;
ghost use Rattle.conditions.specs.Code as spec;
ghost use Rattle.conditions.specs.Formulas.{not'};
ghost use Rattle.conditions.specs.Paths.{Execution};
ghost use Rattle.conditions.specs.Statements as statements;
ghost use Rattle.conditions.specs.Symbolic as symbolic;
ghost use Rattle.condition_formulas.specs.Standing.{StandsAs};
ghost use Rattle.condition_formulas.specs.Symbolics.{IsSymbolic};
ghost use Rattle.condition_code.specs.States.{IsSpot, IsState, IsValueAndState};
ghost use Rattle.condition_code.specs.Walks.{Ran};
ghost use Rattle.condition_branches.specs.Ways.{EndsWay, IsWay};
ghost use Rattle.statement_text.specs.Rows.{all_declare, all_set, one_returns};
ghost use Rattle.condition_control.specs.Forms as forms;
ghost use Rattle.condition_control.specs.Forks.{IsFork};

use crate::calls::call_statement;
use condition_actions::actions::run_action;
use condition_actions::wrapping::{unwrap_object, wrap_object};
use condition_branches::states::{with_counters, without_deferred};
use condition_branches::ways::{Way, begin_way, end_way};
use condition_code::expressions::code;
use condition_code::state::{Spot, State, ValueAndState};
use condition_code::walk::Walk;
use condition_control::forks::{Fork, branch_test, join};
use condition_control::interference::interference;
use condition_control::loops::{do_end, do_start, leave_loop, turn_end, while_start};
use condition_control::returns::return_statement;
use condition_formulas::symbolic::{Symbolic, term};
use method::program::{Action, Expr, FunctionInfo, Spec, Stmt};
use statement_text::ending::any_returns;
use statement_text::reading::{action_reads, is_quiet};
use std::alloc::AllocError;

/// An action as a statement; before it other threads may go on.
fn action_statement(
    walk: &mut Walk,
    a: &Spot<'_>,
    f: &FunctionInfo,
    action: &Action,
    st: State,
) -> Result<State, AllocError>
    ensures { (b : spec.Spot) (s : spec.State) → IsSpot walk.old.graph a.now b → IsState walk.old.graph st s →
        IfOk result (λ r. Ran IsState walk.old walk.new r (forms.acted a.now.program.now f.now b action.now s)) }
{
    let moved = interference(walk, action_reads(action), is_quiet(f, action), st)?;
    let acted = run_action(walk, a, f, action, moved)?;
    Ok(acted)
}

/// The object of an unwrapping block is opened.
fn open_object(
    walk: &mut Walk,
    a: &Spot<'_>,
    e: &Expr,
    st: State,
) -> Result<ValueAndState, AllocError>
    ensures { (f : FunctionInfo) (b : spec.Spot) (s : spec.State) →
        IsSpot walk.old.graph a.now b → IsState walk.old.graph st s →
        IfOk result (λ r. Ran IsValueAndState walk.old walk.new r (forms.opening a.now.program.now f b e.now s)) }
{
    let moved = interference(walk, true, false, st)?;
    let value = code(walk, a, &moved, e)?;
    let object = term(&mut walk.graph, value)?;
    let opened = unwrap_object(walk, a, object, moved)?;
    Ok(ValueAndState {
        value,
        state: opened,
    })
}

/// The unwrapping block is over, and wraps the object again.
fn close_object(
    walk: &mut Walk,
    a: &Spot<'_>,
    ty: u32,
    number: u32,
    value: Symbolic,
    st: State,
) -> Result<State, AllocError>
    ensures { (f : FunctionInfo) (b : spec.Spot) (w : symbolic.Symbolic) (s : spec.State) →
        IsSpot walk.old.graph a.now b → IsSymbolic walk.old.graph value w → IsState walk.old.graph st s →
        IfOk result (λ r. Ran IsState walk.old walk.new r (forms.closing a.now.program.now f b ty number w s)) }
{
    let moved = interference(walk, true, false, st)?;
    let object = term(&mut walk.graph, value)?;
    let closed = wrap_object(walk, a, ty, number, object, moved)?;
    Ok(closed)
}

/// A way of a branch, which code takes where the test holds.
#[cycle(statement)]
fn way(
    walk: &mut Walk,
    a: &Spot<'_>,
    f: &FunctionInfo,
    body: &[Stmt],
    test: u32,
    st: State,
) -> Result<Way, AllocError>
    ensures way { (b : spec.Spot) (t : Formula) (s : spec.State) →
        IsSpot walk.old.graph a.now b → StandsAs walk.old.graph test t → IsState walk.old.graph st s →
        IfOk result (λ w. EndsWay walk.old walk.new w t (forms.all_stmts a.now.program.now f.now b body.now s)) }
    ensures returns { IfOk result (λ w. w.returns ≡ one_returns body.now) }
{
    let from = begin_way(walk, test)?;
    let end = statements(walk, a, f, body, st)?;
    let way = end_way(walk, from, end, any_returns(body))?;
    Ok(way)
}

/// The first way of a branch.
#[cycle(statement)]
fn first_way(
    walk: &mut Walk,
    a: &Spot<'_>,
    f: &FunctionInfo,
    body: &[Stmt],
    fork: &Fork,
) -> Result<Way, AllocError>
    ensures way { (b : spec.Spot) (v : spec.ValueAndState) →
        IsSpot walk.old.graph a.now b → IsFork walk.old.graph fork.now v →
        IfOk result (λ w. EndsWay walk.old walk.new w (symbolic.test v.value)
        (forms.all_stmts a.now.program.now f.now b body.now (actions.without_deferred v.state))) }
    ensures returns { IfOk result (λ w. w.returns ≡ one_returns body.now) }
{
    let start = without_deferred(walk.alloc, &fork.state)?;
    let gone = way(walk, a, f, body, fork.test, start)?;
    Ok(gone)
}

/// The second way of a branch, where the constants of the first are made.
#[cycle(statement)]
fn second_way(
    walk: &mut Walk,
    a: &Spot<'_>,
    f: &FunctionInfo,
    body: &[Stmt],
    fork: &Fork,
    first: &Way,
) -> Result<Way, AllocError>
    ensures way { (b : spec.Spot) (v : spec.ValueAndState) (x : Execution spec.State) →
        IsSpot walk.old.graph a.now b → IsFork walk.old.graph fork.now v → IsWay walk.old.graph first.now x →
        IfOk result (λ w. EndsWay walk.old walk.new w (not' (symbolic.test v.value))
        (forms.all_stmts a.now.program.now f.now b body.now (actions.with_counters v.state x.gives))) }
    ensures returns { IfOk result (λ w. w.returns ≡ one_returns body.now) }
{
    let start = with_counters(walk.alloc, &fork.state, &first.state)?;
    let gone = way(walk, a, f, body, fork.fails, start)?;
    Ok(gone)
}

/// A `while`.
#[cycle(statement)]
fn while_loop(
    walk: &mut Walk,
    a: &Spot<'_>,
    f: &FunctionInfo,
    body: &[Stmt],
    invs: &[Spec],
    e: &Expr,
    st: State,
) -> Result<State, AllocError>
    ensures { (b : spec.Spot) (s : spec.State) → IsSpot walk.old.graph a.now b → IsState walk.old.graph st s →
        IfOk result (λ r. Ran IsState walk.old walk.new r
        (forms.looping a.now.program.now f.now b invs.now e.now
        (forms.set_outside (all_set body.now) (all_declare body.now))
        (forms.all_stmts a.now.program.now f.now b body.now) s)) }
{
    let fork = while_start(walk, a, f, invs, e, body, st)?;
    let Fork { state, test, fails } = fork;
    let before = without_deferred(walk.alloc, &state)?;
    let from = begin_way(walk, test)?;
    let done = statements(walk, a, f, body, state)?;
    let end = turn_end(walk, a, invs, done)?;
    let left = leave_loop(walk, from, &before, fails, end)?;
    Ok(left)
}

/// A `do`.
#[cycle(statement)]
fn do_while_loop(
    walk: &mut Walk,
    a: &Spot<'_>,
    f: &FunctionInfo,
    body: &[Stmt],
    invs: &[Spec],
    e: &Expr,
    st: State,
) -> Result<State, AllocError>
    ensures { (b : spec.Spot) (s : spec.State) → IsSpot walk.old.graph a.now b → IsState walk.old.graph st s →
        IfOk result (λ r. Ran IsState walk.old walk.new r
        (forms.do_looping a.now.program.now f.now b invs.now e.now
        (forms.set_outside (all_set body.now) (all_declare body.now))
        (forms.all_stmts a.now.program.now f.now b body.now) s)) }
{
    let start = do_start(walk, a, f, invs, body, st)?;
    let done = statements(walk, a, f, body, start)?;
    let end = do_end(walk, a, invs, e, done)?;
    Ok(end)
}

/// An unwrapping block.
#[cycle(statement)]
fn unwrapping(
    walk: &mut Walk,
    a: &Spot<'_>,
    f: &FunctionInfo,
    body: &[Stmt],
    ty: u32,
    number: u32,
    e: &Expr,
    st: State,
) -> Result<State, AllocError>
    ensures { (b : spec.Spot) (s : spec.State) → IsSpot walk.old.graph a.now b → IsState walk.old.graph st s →
        IfOk result (λ r. Ran IsState walk.old walk.new r
        (forms.opened a.now.program.now f.now b ty number e.now
        (forms.all_stmts a.now.program.now f.now b body.now) s)) }
{
    let opened = open_object(walk, a, e, st)?;
    let ValueAndState { value, state } = opened;
    let done = statements(walk, a, f, body, state)?;
    let closed = close_object(walk, a, ty, number, value, done)?;
    Ok(closed)
}

/// A statement of the function.
#[cycle(statement)]
pub fn statement(
    walk: &mut Walk,
    a: &Spot<'_>,
    f: &FunctionInfo,
    s: &Stmt,
    st: State,
) -> Result<State, AllocError>
    ensures { (b : spec.Spot) (t : spec.State) → IsSpot walk.old.graph a.now b → IsState walk.old.graph st t →
        IfOk result (λ r. Ran IsState walk.old walk.new r (statements.stmt a.now.program.now f.now b s.now t)) }
{
    match s {
        Stmt::Do(_, action) => {
            let acted = action_statement(walk, a, f, action, st)?;
            Ok(acted)
        }
        Stmt::If(_, in_ghost, e, first, second) => {
            let fork = branch_test(walk, a, *in_ghost, e, st)?;
            let x = first_way(walk, a, f, first, &fork)?;
            let y = second_way(walk, a, f, second, &fork, &x)?;
            let joined = join(walk, first, second, fork, x, y)?;
            Ok(joined)
        }
        Stmt::While(_, invs, e, body) => {
            let left = while_loop(walk, a, f, body, invs, e, st)?;
            Ok(left)
        }
        Stmt::DoWhile(_, invs, body, _, e) => {
            let left = do_while_loop(walk, a, f, body, invs, e, st)?;
            Ok(left)
        }
        Stmt::Unwrapping(_, ty, number, e, body) => {
            let closed = unwrapping(walk, a, f, body, *ty, *number, e, st)?;
            Ok(closed)
        }
        Stmt::Call(_, receiver, conversion, number, es) => {
            let received = call_statement(walk, a, receiver, *conversion, *number, es, st)?;
            Ok(received)
        }
        Stmt::Return(_, e) => {
            let ended = return_statement(walk, a, f, e, st)?;
            Ok(ended)
        }
    }
}

/// The statements of a list, one after the other.
#[cycle(statement)]
pub fn statements(
    walk: &mut Walk,
    a: &Spot<'_>,
    f: &FunctionInfo,
    list: &[Stmt],
    mut st: State,
) -> Result<State, AllocError>
    ensures { (b : spec.Spot) (t : spec.State) → IsSpot walk.old.graph a.now b → IsState walk.old.graph st t →
        IfOk result (λ r. Ran IsState walk.old walk.new r (forms.all_stmts a.now.program.now f.now b list.now t)) }
{
    for s in list {
        st = statement(walk, a, f, s, st)?;
    }
    Ok(st)
}
