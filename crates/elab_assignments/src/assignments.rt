//! Assignments, and declarations with a first value.

ghost use Rattle.std.specs.Prelude.{◌≡◌, IfOk, Some};
ghost use Rattle.std.specs.Option.{option_map};
ghost use Rattle.c_syntax.specs.Expressions as trees;
ghost use Rattle.c_syntax.specs.Views as view;
ghost use Rattle.elab_code.specs.Views.{around as here};
ghost use Rattle.elab_assignments.specs.Sides as sides;
ghost use Rattle.typed_program.specs.Statements as spec;
ghost use Rattle.typed_program.specs.Trees as t;
ghost use Rattle.typed_program.specs.Views as seen;

use crate::calls::call_of;
use crate::places::{left_type, target, variable};
use crate::rights::{changed, right};
use c_syntax::expressions::{Assignment, Call, Change, Expr as Tree, Identifier, Right, ValueType};
use elab_code::around::Around;
use elab_code::integers::conversion;
use int_ranges::ctype::CType;
use method::program::{Action, Receiver, Simple, Stmt};
use std::alloc::{AllocError, Global};
use tree_building::pair_with;

/// The type of what a call gives, if its function is known and gives a value.
fn value_of_call<'s, 'a>(around: Around<'s, 'a>, x: &Call) -> Option<&'a ValueType>
    ensures { option_map (λ t. view.ty t.now) result ≡ spec.value_of_call (here around.entry) (view.call x.now) }
{
    let function = around
        .context
        .scope
        .declarations
        .find_function(&x.function)?;
    function.result.as_ref()
}

/// The conversion of a call's value to the type of its place, where both are integers.
fn conversion_between(from: Option<&ValueType>, to: Option<&ValueType>) -> Option<CType>
    ensures { result ≡ spec.conversion_between (option_map (λ t. view.ty t.now) from.entry) (spec.type_or (option_map (λ t. view.ty t.now) to.entry)) }
{
    match (from, to) {
        (Some(ValueType::Integer(from)), Some(ValueType::Integer(to))) => conversion(*from, *to),
        _ => None,
    }
}

/// An assignment that is a statement of code in an atomic block.
pub fn inner_assigned<'s, 'a>(
    alloc: Global,
    around: Around<'s, 'a>,
    x: &'a Assignment,
) -> Result<Simple, AllocError>
    ensures { IfOk result (λ v. let a = here around.entry in let x = view.assignment x.now in seen.simple v ≡ t.Assign (spec.target a x.left) (spec.changed a x.left x.effect)) }
{
    let place = target(alloc, around, &x.left)?;
    let (place, value) = pair_with(place, changed(alloc, around, &x.left, &x.change))?;
    Ok(Simple::Assign(place, value))
}

/// A call whose value a place is assigned.
fn received<'s, 'a>(
    alloc: Global,
    around: Around<'s, 'a>,
    line: u32,
    left: &'a Tree,
    x: &'a Call,
) -> Result<Stmt, AllocError>
    ensures { IfOk result (λ v. seen.stmt v ≡ spec.assigned_by (here around.entry) line (view.exp left.now) (trees.Set (trees.Called (view.call x.now)))) }
{
    let place = target(alloc, around, left)?;
    let conversion = conversion_between(value_of_call(around, x), left_type(around, left));
    call_of(alloc, around, line, Receiver::Place(place), conversion, x)
}

/// What an assignment does, where its right side is no call.
fn plainly_assigned<'s, 'a>(
    alloc: Global,
    around: Around<'s, 'a>,
    line: u32,
    x: &'a Assignment,
) -> Result<Stmt, AllocError>
    ensures { IfOk result (λ v. let a = here around.entry in let x = view.assignment x.now in seen.stmt v ≡ t.Do line (t.Simply (t.Assign (spec.target a x.left) (spec.changed a x.left x.effect)))) }
{
    let simple = inner_assigned(alloc, around, x)?;
    Ok(Stmt::Do(line, Action::Simply(simple)))
}

/// The call that a right side is, if it is one.
fn call_in(x: &Right) -> Option<&Call>
    ensures { option_map (λ c. view.call c.now) result ≡ sides.call_in (view.rhs x.now) }
{
    match x {
        Right::Call(called) => Some(called),
        _ => None,
    }
}

/// The call that stands right of `=`, if one does.
fn call_set(change: &Change) -> Option<&Call>
    ensures { option_map (λ c. view.call c.now) result ≡ sides.call_set (view.effect change.now) }
{
    match change {
        Change::Set(x) => call_in(x),
        _ => None,
    }
}

/// An assignment as a statement.
pub fn assigned<'s, 'a>(
    alloc: Global,
    around: Around<'s, 'a>,
    line: u32,
    x: &'a Assignment,
) -> Result<Stmt, AllocError>
    ensures { IfOk result (λ v. seen.stmt v ≡ spec.assigned (here around.entry) line (view.assignment x.now)) }
{
    match call_set(&x.change) {
        Some(called) => received(alloc, around, line, &x.left, called),
        None => plainly_assigned(alloc, around, line, x),
    }
}

/// A variable that is declared with a first value.
pub fn defined<'s, 'a>(
    alloc: Global,
    around: Around<'s, 'a>,
    line: u32,
    ty: &'a ValueType,
    name: &'a Identifier,
    x: &'a Right,
) -> Result<Stmt, AllocError>
    ensures { IfOk result (λ v. seen.stmt v ≡ spec.defined (here around.entry) line (view.ty ty.now) (view.id name.now) (view.rhs x.now)) }
{
    let number = variable(around, name)?;
    match x {
        Right::Call(called) => {
            let conversion = conversion_between(value_of_call(around, called), Some(ty));
            call_of(
                alloc,
                around,
                line,
                Receiver::NewVariable(number),
                conversion,
                called,
            )
        }
        _ => {
            let value = right(alloc, around, ty, x)?;
            Ok(Stmt::Do(line, Action::Define(number, value)))
        }
    }
}
