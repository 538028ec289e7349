//! Statements that may stand in an atomic block.

ghost use Rattle.std.specs.Prelude.{IfOk};
ghost use Rattle.method.specs.declared.program.Simple.TheVariants.{Assign};
ghost use Rattle.conditions.specs.Code as spec;
ghost use Rattle.conditions.specs.Actions as actions;
ghost use Rattle.condition_code.specs.States.{IsSpot, IsState, IsValueAndState};
ghost use Rattle.condition_code.specs.Walks.{Ran};
ghost use Rattle.condition_stores.specs.Places.{IsPlace};
ghost use Rattle.condition_actions.specs.Operands.{computed, interlocked, changed_set, ended_claim};

use crate::operands::{operands, term_of};
use condition_claims::claims::{end_claim, make_claim};
use condition_code::expressions::{all_code, code};
use condition_code::state::{Spot, State, ValueAndState};
use condition_code::walk::Walk;
use condition_stores::exchange::{exchange, exchange_result};
use condition_stores::objects::malloc;
use condition_stores::owning::owned_change;
use condition_stores::place::{Place, left_side};
use condition_stores::stores::store;
use method::program::{Expr, InterlockedResult, Operation, OwnsChange, RightSide, Simple, Target};
use std::alloc::AllocError;

/// The value of an expression.
fn compute(walk: &mut Walk, a: &Spot<'_>, e: &Expr, st: State) -> Result<ValueAndState, AllocError>
    ensures { (b : spec.Spot) (s : spec.State) → IsSpot walk.old.graph a.now b → IsState walk.old.graph st s →
        IfOk result (λ r. Ran IsValueAndState walk.old walk.new r (computed a.now.program.now b e.now s)) }
{
    let value = code(walk, a, &st, e)?;
    Ok(ValueAndState { value, state: st })
}

/// What an Interlocked operation gives, with its effect on the field of the object.
fn interlock(
    walk: &mut Walk,
    a: &Spot<'_>,
    object: &Expr,
    field: u32,
    operation: &Operation,
    result_form: &InterlockedResult,
    st: State,
) -> Result<ValueAndState, AllocError>
    ensures { (b : spec.Spot) (s : spec.State) → IsSpot walk.old.graph a.now b → IsState walk.old.graph st s →
        IfOk result (λ r. Ran IsValueAndState walk.old walk.new r
        (interlocked a.now.program.now b object.now field operation.now result_form.now s)) }
{
    let o = term_of(walk, a, &st, object)?;
    let terms = operands(walk, a, &st, operation)?;
    let v = exchange(walk, a, operation, o, field, &terms, st)?;
    let value = exchange_result(walk, a, result_form, v)?;
    Ok(value)
}

/// A right side whose value goes to the place, with what it changes.
pub fn right_side(
    walk: &mut Walk,
    a: &Spot<'_>,
    right: &RightSide,
    place: Place,
    st: State,
) -> Result<ValueAndState, AllocError>
    ensures { (b : spec.Spot) (q : actions.Place) (s : spec.State) →
        IsSpot walk.old.graph a.now b → IsPlace walk.old.graph place q → IsState walk.old.graph st s →
        IfOk result (λ r. Ran IsValueAndState walk.old walk.new r
        (actions.right_side a.now.program.now b right.now q s)) }
{
    match right {
        RightSide::Compute(e) => compute(walk, a, e, st),
        RightSide::Malloc(ty) => malloc(walk, a, *ty, st),
        RightSide::NewClaim(site) => make_claim(walk, a, *site, place, st),
        RightSide::Interlocked(object, field, operation, result_form) => {
            interlock(walk, a, object, *field, operation, result_form, st)
        }
    }
}

/// An assignment: the left side, the right side, and then the store.
fn assign(
    walk: &mut Walk,
    a: &Spot<'_>,
    target: &Target,
    right: &RightSide,
    st: State,
) -> Result<State, AllocError>
    ensures { (b : spec.Spot) (s : spec.State) → IsSpot walk.old.graph a.now b → IsState walk.old.graph st s →
        IfOk result (λ r. Ran IsState walk.old walk.new r
        (actions.run_simple a.now.program.now b (Assign target.now right.now) s)) }
{
    let place = left_side(walk, a, target, &st)?;
    let v = right_side(walk, a, right, place, st)?;
    let state = store(walk, a, place, v.value, v.state)?;
    Ok(state)
}

/// An assignment of an owned set, or a change of it.
fn change_owned(
    walk: &mut Walk,
    a: &Spot<'_>,
    change: OwnsChange,
    object: &Expr,
    members: &[Expr],
    st: State,
) -> Result<State, AllocError>
    ensures { (b : spec.Spot) (s : spec.State) → IsSpot walk.old.graph a.now b → IsState walk.old.graph st s →
        IfOk result (λ r. Ran IsState walk.old walk.new r
        (changed_set a.now.program.now b change object.now members.now s)) }
{
    let o = term_of(walk, a, &st, object)?;
    let terms = all_code(walk, a, &st, members)?;
    let state = owned_change(walk, a, change, o, &terms, st)?;
    Ok(state)
}

/// `\destroy_claim`
fn destroy_claim(
    walk: &mut Walk,
    a: &Spot<'_>,
    number: u32,
    claim: &Expr,
    objects: &[Expr],
    st: State,
) -> Result<State, AllocError>
    ensures { (b : spec.Spot) (s : spec.State) → IsSpot walk.old.graph a.now b → IsState walk.old.graph st s →
        IfOk result (λ r. Ran IsState walk.old walk.new r
        (ended_claim a.now.program.now b number claim.now objects.now s)) }
{
    let c = term_of(walk, a, &st, claim)?;
    let terms = all_code(walk, a, &st, objects)?;
    let state = end_claim(walk, a, number, c, &terms, st)?;
    Ok(state)
}

/// A statement that may stand in an atomic block.
pub fn run_simple(
    walk: &mut Walk,
    a: &Spot<'_>,
    statement: &Simple,
    st: State,
) -> Result<State, AllocError>
    ensures { (b : spec.Spot) (s : spec.State) → IsSpot walk.old.graph a.now b → IsState walk.old.graph st s →
        IfOk result (λ r. Ran IsState walk.old walk.new r
        (actions.run_simple a.now.program.now b statement.now s)) }
{
    match statement {
        Simple::Assign(target, right) => assign(walk, a, target, right, st),
        Simple::ChangeOwned(change, object, members) => {
            change_owned(walk, a, *change, object, members, st)
        }
        Simple::EndClaim(number, claim, objects) => {
            destroy_claim(walk, a, *number, claim, objects, st)
        }
    }
}
