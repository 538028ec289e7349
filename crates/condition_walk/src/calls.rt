//! Calls by contract.

ghost use Rattle.std.specs.Prelude.{◌≡◌, IfOk, IfSome, IfNone, List, Option, slice_get};
ghost use Rattle.terms.specs.Formula.{Formula};
ghost use Rattle.method.specs.declared.program.FunctionInfo.{FunctionInfo};
ghost use Rattle.method.specs.declared.program.Program.{Program};
ghost use Rattle.conditions.specs.Actions as actions;
ghost use Rattle.conditions.specs.Code as spec;
ghost use Rattle.conditions.specs.Statements as statements;
ghost use Rattle.conditions.specs.Symbolic as symbolic;
ghost use Rattle.condition_formulas.specs.Standing.{StandsAs, StandAll};
ghost use Rattle.condition_formulas.specs.Symbolics.{AreSymbolic};
ghost use Rattle.condition_code.specs.States.{IsSpot, IsState, IsValueAndState};
ghost use Rattle.condition_code.specs.Walks.{Ran};
ghost use Rattle.condition_control.specs.Forms.{called};
ghost use Rattle.condition_walk.specs.Receiving.{IsReceiving};

use condition_code::expressions::all_symbolic;
use condition_code::state::{Spot, State, ValueAndState, new_value};
use condition_code::walk::Walk;
use condition_control::contracts::{all_writable, ensures_at, items_at, requires_at};
use condition_control::interference::{frame_step, interference};
use condition_formulas::formulas::nat;
use condition_formulas::symbolic::Symbolic;
use condition_stores::place::{Place, left_side};
use condition_stores::stores::{convert_to, store};
use int_ranges::ctype::CType;
use method::program::{DeclaredType, Expr, FunctionInfo, Program, Receiver};
use std::alloc::AllocError;

/// The value 0.
fn no_value(walk: &mut Walk, st: State) -> Result<ValueAndState, AllocError>
    ensures { (p : Program) (f : FunctionInfo) (b : spec.Spot) (s : spec.State) → IsState walk.old.graph st s →
        IfOk result (λ r. Ran IsValueAndState walk.old walk.new r (statements.any_result p f b None s)) }
{
    let zero = nat(&mut walk.graph, 0)?;
    Ok(ValueAndState {
        value: Symbolic::Number(zero),
        state: st,
    })
}

/// A call's value.
fn any_result(
    walk: &mut Walk,
    ty: Option<DeclaredType>,
    st: State,
) -> Result<ValueAndState, AllocError>
    ensures { (p : Program) (f : FunctionInfo) (b : spec.Spot) (s : spec.State) → IsState walk.old.graph st s →
        IfOk result (λ r. Ran IsValueAndState walk.old walk.new r (statements.any_result p f b ty s)) }
{
    match ty {
        Some(ty) => {
            let value = new_value(walk, ty, st)?;
            Ok(value)
        }
        None => {
            let value = no_value(walk, st)?;
            Ok(value)
        }
    }
}

/// Where a call's value goes.
fn receiving_place(
    walk: &mut Walk,
    a: &Spot<'_>,
    receiver: &Receiver,
    st: &State,
) -> Result<Option<Place>, AllocError>
    ensures { (f : FunctionInfo) (b : spec.Spot) (s : spec.State) →
        IsSpot walk.old.graph a.now b → IsState walk.old.graph st.now s →
        IfOk result (λ r. Ran IsReceiving walk.old walk.new r
        (statements.receiving_place a.now.program.now f b receiver.now s)) }
{
    match receiver {
        Receiver::Nobody => Ok(None),
        Receiver::NewVariable(i) => Ok(Some(Place::Local(*i))),
        Receiver::Place(target) => {
            let place = left_side(walk, a, target, st)?;
            Ok(Some(place))
        }
    }
}

/// A call's value is converted and stored.
fn receive(
    walk: &mut Walk,
    a: &Spot<'_>,
    place: Option<Place>,
    conversion: Option<CType>,
    v: ValueAndState,
) -> Result<State, AllocError>
    ensures { (f : FunctionInfo) (b : spec.Spot) (q : Option actions.Place) (w : spec.ValueAndState) →
        IsSpot walk.old.graph a.now b → IsReceiving walk.old.graph place q → IsValueAndState walk.old.graph v w →
        IfOk result (λ r. Ran IsState walk.old walk.new r
        (statements.receive a.now.program.now f b q conversion w)) }
{
    let ValueAndState { value, state } = v;
    let converted = convert_to(walk, conversion, value)?;
    match place {
        Some(place) => {
            let stored = store(walk, a, place, converted, state)?;
            Ok(stored)
        }
        None => Ok(state),
    }
}

/// What a callee may do within its contract; `heap` is that at the call.
fn call_effect(
    walk: &mut Walk,
    a: &Spot<'_>,
    g: &FunctionInfo,
    heap: u32,
    items: &[u32],
    args: &[Symbolic],
    place: Option<Place>,
    conversion: Option<CType>,
    st: State,
) -> Result<State, AllocError>
    ensures { (f : FunctionInfo) (b : spec.Spot) (h : Formula) (fs : List Formula) (ws : List symbolic.Symbolic)
        (q : Option actions.Place) (s : spec.State) →
        IsSpot walk.old.graph a.now b → StandsAs walk.old.graph heap h → StandAll walk.old.graph items.now fs →
        AreSymbolic walk.old.graph args.now ws → IsReceiving walk.old.graph place q →
        IsState walk.old.graph st s →
        IfOk result (λ r. Ran IsState walk.old walk.new r
        (statements.call_effect a.now.program.now f b g.now h fs ws q conversion s)) }
{
    let framed = frame_step(walk, heap, items, st)?;
    let value = any_result(walk, g.result, framed)?;
    let ensured = ensures_at(
        walk.alloc,
        &mut walk.graph,
        a.program,
        g,
        heap,
        args,
        value.state.heap,
        value.value,
    )?;
    walk.all_facts(&ensured)?;
    let received = receive(walk, a, place, conversion, value)?;
    Ok(received)
}

/// A call by its contract: the requires clauses, the items that the callee writes, and what it may do.
fn call_function(
    walk: &mut Walk,
    a: &Spot<'_>,
    g: &FunctionInfo,
    items: &[u32],
    args: &[Symbolic],
    place: Option<Place>,
    conversion: Option<CType>,
    st: State,
) -> Result<State, AllocError>
    ensures { (f : FunctionInfo) (b : spec.Spot) (fs : List Formula) (ws : List symbolic.Symbolic)
        (q : Option actions.Place) (s : spec.State) →
        IsSpot walk.old.graph a.now b → StandAll walk.old.graph items.now fs →
        AreSymbolic walk.old.graph args.now ws → IsReceiving walk.old.graph place q →
        IsState walk.old.graph st s →
        IfOk result (λ r. Ran IsState walk.old walk.new r
        (statements.call_function a.now.program.now f b g.now fs ws q conversion s)) }
{
    let heap = st.heap;
    let required = requires_at(walk.alloc, &mut walk.graph, a.program, g, heap, args)?;
    walk.check_each(&required)?;
    let allowed = all_writable(walk.alloc, &mut walk.graph, a, items)?;
    walk.check_each(&allowed)?;
    let received = call_effect(walk, a, g, heap, items, args, place, conversion, st)?;
    Ok(received)
}

/// A call of this function.
fn call_known(
    walk: &mut Walk,
    a: &Spot<'_>,
    g: &FunctionInfo,
    args: &[Symbolic],
    place: Option<Place>,
    conversion: Option<CType>,
    st: State,
) -> Result<State, AllocError>
    ensures { (f : FunctionInfo) (b : spec.Spot) (ws : List symbolic.Symbolic) (q : Option actions.Place)
        (s : spec.State) →
        IsSpot walk.old.graph a.now b → AreSymbolic walk.old.graph args.now ws →
        IsReceiving walk.old.graph place q → IsState walk.old.graph st s →
        IfOk result (λ r. Ran IsState walk.old walk.new r
        (statements.call a.now.program.now f b (Some g.now) ws q conversion s)) }
{
    let items = items_at(walk.alloc, &mut walk.graph, a.program, g, st.heap, args)?;
    let received = call_function(walk, a, g, &items, args, place, conversion, st)?;
    Ok(received)
}

/// A call of a function that isn't in the table.
fn call_unknown(
    walk: &mut Walk,
    a: &Spot<'_>,
    place: Option<Place>,
    conversion: Option<CType>,
    st: State,
) -> Result<State, AllocError>
    ensures { (f : FunctionInfo) (b : spec.Spot) (ws : List symbolic.Symbolic) (q : Option actions.Place)
        (s : spec.State) →
        IsSpot walk.old.graph a.now b → IsReceiving walk.old.graph place q → IsState walk.old.graph st s →
        IfOk result (λ r. Ran IsState walk.old walk.new r
        (statements.call a.now.program.now f b None ws q conversion s)) }
{
    let value = no_value(walk, st)?;
    let received = receive(walk, a, place, conversion, value)?;
    Ok(received)
}

/// The function with the number in the program's table.
pub fn function_at(program: &Program, number: u32) -> Option<&FunctionInfo>
    ensures some { IfSome result (λ g. slice_get program.now.functions.items number ≡ Some g.now) }
    ensures none { IfNone result (slice_get program.now.functions.items number ≡ None) }
{
    program.functions.get(number as usize)
}

/// A call of a function by its number.
fn call(
    walk: &mut Walk,
    a: &Spot<'_>,
    number: u32,
    args: &[Symbolic],
    place: Option<Place>,
    conversion: Option<CType>,
    st: State,
) -> Result<State, AllocError>
    ensures { (f : FunctionInfo) (b : spec.Spot) (ws : List symbolic.Symbolic) (q : Option actions.Place)
        (s : spec.State) →
        IsSpot walk.old.graph a.now b → AreSymbolic walk.old.graph args.now ws →
        IsReceiving walk.old.graph place q → IsState walk.old.graph st s →
        IfOk result (λ r. Ran IsState walk.old walk.new r
        (statements.call a.now.program.now f b (slice_get a.now.program.now.functions.items number) ws q
        conversion s)) }
{
    match function_at(a.program, number) {
        Some(g) => {
            let received = call_known(walk, a, g, args, place, conversion, st)?;
            Ok(received)
        }
        None => {
            let received = call_unknown(walk, a, place, conversion, st)?;
            Ok(received)
        }
    }
}

/// A call as a statement: where its value goes, its arguments, and the call.
pub fn call_statement(
    walk: &mut Walk,
    a: &Spot<'_>,
    receiver: &Receiver,
    conversion: Option<CType>,
    number: u32,
    es: &[Expr],
    st: State,
) -> Result<State, AllocError>
    ensures { (f : FunctionInfo) (b : spec.Spot) (s : spec.State) →
        IsSpot walk.old.graph a.now b → IsState walk.old.graph st s →
        IfOk result (λ r. Ran IsState walk.old walk.new r
        (called a.now.program.now f b receiver.now conversion number es.now s)) }
{
    let moved = interference(walk, true, false, st)?;
    let place = receiving_place(walk, a, receiver, &moved)?;
    let args = all_symbolic(walk, a, &moved, es)?;
    let received = call(walk, a, number, &args, place, conversion, moved)?;
    Ok(received)
}
