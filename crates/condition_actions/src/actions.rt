//! The actions of a function.

ghost use Rattle.std.specs.Prelude.{IfOk};
ghost use Rattle.method.specs.declared.program.Action.TheVariants.{
  AssertSpec as AssertSpec',
  Declare as Declare',
  Define as Define',
  FreeObject as FreeObject',
  UnwrapObject as UnwrapObject',
  WrapObject as WrapObject',
};
ghost use Rattle.conditions.specs.Code as spec;
ghost use Rattle.conditions.specs.Actions as actions;
ghost use Rattle.conditions.specs.Annotations.{formula};
ghost use Rattle.condition_formulas.specs.Standing.{StandsAs, Later};
ghost use Rattle.condition_code.specs.States.{IsSpot, IsState};
ghost use Rattle.condition_code.specs.Walks.{Ran};

use crate::blocks::atomic;
use crate::operands::term_of;
use crate::simple::{right_side, run_simple};
use crate::tables::type_of_variable;
use crate::threads::spawn_thread;
use crate::wrapping;
use condition_annotations::truth::formula;
use condition_code::scenes::scene;
use condition_code::state::{Spot, State, new_value};
use condition_code::walk::Walk;
use condition_stores::place::Place;
use condition_stores::stores::put_local;
use method::program::{Action, Expr, FunctionInfo, RightSide, Spec};
use std::alloc::{AllocError, Global};
use term_graph::graph::Graph;

/// A declaration without a first value: the variable has any value of its type.
fn declare(
    walk: &mut Walk,
    a: &Spot<'_>,
    f: &FunctionInfo,
    variable: u32,
    st: State,
) -> Result<State, AllocError>
    ensures { (b : spec.Spot) (s : spec.State) → IsSpot walk.old.graph a.now b → IsState walk.old.graph st s →
        IfOk result (λ r. Ran IsState walk.old walk.new r
        (actions.run_action a.now.program.now b f.now (Declare' variable) s)) }
{
    let v = new_value(walk, type_of_variable(f, variable), st)?;
    Ok(put_local(variable, v))
}

/// A declaration with its first value.
fn define(
    walk: &mut Walk,
    a: &Spot<'_>,
    f: &FunctionInfo,
    variable: u32,
    right: &RightSide,
    st: State,
) -> Result<State, AllocError>
    ensures { (b : spec.Spot) (s : spec.State) → IsSpot walk.old.graph a.now b → IsState walk.old.graph st s →
        IfOk result (λ r. Ran IsState walk.old walk.new r
        (actions.run_action a.now.program.now b f.now (Define' variable right.now) s)) }
{
    let v = right_side(walk, a, right, Place::Local(variable), st)?;
    Ok(put_local(variable, v))
}

/// `\wrap`
fn wrap(
    walk: &mut Walk,
    a: &Spot<'_>,
    f: &FunctionInfo,
    ty: u32,
    number: u32,
    object: &Expr,
    st: State,
) -> Result<State, AllocError>
    ensures { (b : spec.Spot) (s : spec.State) → IsSpot walk.old.graph a.now b → IsState walk.old.graph st s →
        IfOk result (λ r. Ran IsState walk.old walk.new r
        (actions.run_action a.now.program.now b f.now (WrapObject' ty number object.now) s)) }
{
    let o = term_of(walk, a, &st, object)?;
    let state = wrapping::wrap_object(walk, a, ty, number, o, st)?;
    Ok(state)
}

/// `\unwrap`
fn unwrap(
    walk: &mut Walk,
    a: &Spot<'_>,
    f: &FunctionInfo,
    object: &Expr,
    st: State,
) -> Result<State, AllocError>
    ensures { (b : spec.Spot) (s : spec.State) → IsSpot walk.old.graph a.now b → IsState walk.old.graph st s →
        IfOk result (λ r. Ran IsState walk.old walk.new r
        (actions.run_action a.now.program.now b f.now (UnwrapObject' object.now) s)) }
{
    let o = term_of(walk, a, &st, object)?;
    let state = wrapping::unwrap_object(walk, a, o, st)?;
    Ok(state)
}

/// What the annotation says here.
fn assertion(
    alloc: Global,
    graph: &mut Graph,
    a: &Spot<'_>,
    e: &Spec,
    st: &State,
) -> Result<u32, AllocError>
    ensures stands { (b : spec.Spot) (s : spec.State) → IsSpot graph.old a.now b → IsState graph.old st.now s →
        IfOk result (λ id. StandsAs graph.new id (formula a.now.program.now e.now (spec.scene b s))) }
    ensures later { Later graph.old graph.new }
{
    let words = scene(graph, a, st)?;
    formula(alloc, graph, a.program, e, &words)
}

/// `_(assert)`
fn assert_spec(
    walk: &mut Walk,
    a: &Spot<'_>,
    f: &FunctionInfo,
    e: &Spec,
    st: State,
) -> Result<State, AllocError>
    ensures { (b : spec.Spot) (s : spec.State) → IsSpot walk.old.graph a.now b → IsState walk.old.graph st s →
        IfOk result (λ r. Ran IsState walk.old walk.new r
        (actions.run_action a.now.program.now b f.now (AssertSpec' e.now) s)) }
{
    let holds = assertion(walk.alloc, &mut walk.graph, a, e, &st)?;
    walk.check(holds)?;
    Ok(st)
}

/// `free`
fn free(
    walk: &mut Walk,
    a: &Spot<'_>,
    f: &FunctionInfo,
    object: &Expr,
    st: State,
) -> Result<State, AllocError>
    ensures { (b : spec.Spot) (s : spec.State) → IsSpot walk.old.graph a.now b → IsState walk.old.graph st s →
        IfOk result (λ r. Ran IsState walk.old walk.new r
        (actions.run_action a.now.program.now b f.now (FreeObject' object.now) s)) }
{
    let o = term_of(walk, a, &st, object)?;
    let state = wrapping::free(walk, a, o, st)?;
    Ok(state)
}

/// One action of the function: its checks in order, then its effect.
pub fn run_action(
    walk: &mut Walk,
    a: &Spot<'_>,
    f: &FunctionInfo,
    action: &Action,
    st: State,
) -> Result<State, AllocError>
    ensures { (b : spec.Spot) (s : spec.State) → IsSpot walk.old.graph a.now b → IsState walk.old.graph st s →
        IfOk result (λ r. Ran IsState walk.old walk.new r (actions.run_action a.now.program.now b f.now action.now s)) }
{
    match action {
        Action::Simply(statement) => run_simple(walk, a, statement, st),
        Action::Declare(variable) => declare(walk, a, f, *variable, st),
        Action::Define(variable, right) => define(walk, a, f, *variable, right, st),
        Action::WrapObject(ty, number, object) => wrap(walk, a, f, *ty, *number, object, st),
        Action::UnwrapObject(object) => unwrap(walk, a, f, object, st),
        Action::AssertSpec(e) => assert_spec(walk, a, f, e, st),
        Action::FreeObject(object) => free(walk, a, f, object, st),
        Action::SpawnThread(number, arguments) => spawn_thread(walk, a, *number, arguments, st),
        Action::Atomic(listed, body) => atomic(walk, a, listed, body, st),
    }
}
