//! Interlocked calls.

ghost use Rattle.std.specs.Prelude.{◌≡◌, IfOk, Some};
ghost use Rattle.std.specs.Option.{option_map};
ghost use Rattle.c_syntax.specs.Expressions as trees;
ghost use Rattle.c_syntax.specs.Views as view;
ghost use Rattle.elab_assignments.specs.Rights as rights;
ghost use Rattle.elab_code.specs.Views.{around as here};
ghost use Rattle.typed_program.specs.Codes as codes;
ghost use Rattle.typed_program.specs.Statements as spec;
ghost use Rattle.typed_program.specs.Views as seen;

use crate::places::field_at;
use crate::values::code;
use c_syntax::expressions::{Compared, Expr as Tree, InterlockedCall, ValueType};
use c_syntax::tree::Interlocked;
use elab_code::around::Around;
use elab_code::codes::{in_type_of, typed_code};
use elab_code::integers::{conversion, integer_of};
use int_ranges::ctype::{CType, common_type};
use method::program::{Expr, InterlockedResult, Operation, RightSide};
use std::alloc::{AllocError, Global};
use tree_building::pair_with;

/// The type of an integer expression.
fn integer_type<'s, 'a>(
    alloc: Global,
    around: Around<'s, 'a>,
    x: &'a Tree,
) -> Result<CType, AllocError>
    ensures { IfOk result (λ ty. ty ≡ codes.integer_type (here around.entry).context.scope (view.exp x.now)) }
{
    let typed = typed_code(alloc, around, x)?;
    Ok(typed.ty)
}

/// The object whose field an Interlocked call changes.
fn object_of<'s, 'a>(alloc: Global, around: Around<'s, 'a>, x: &'a Tree) -> Result<Expr, AllocError>
    ensures { IfOk result (λ v. seen.code v ≡ spec.object_of (here around.entry) (view.exp x.now)) }
{
    match x {
        Tree::Group(_, inner) => object_of(alloc, around, inner),
        Tree::Field(_, owner, _) => code(alloc, around, owner),
        _ => Ok(Expr::Null),
    }
}

/// The number of that field.
fn number_of<'s, 'a>(around: Around<'s, 'a>, x: &'a Tree) -> Result<u32, AllocError>
    ensures { IfOk result (λ n. n ≡ spec.number_of (here around.entry) (view.exp x.now)) }
{
    match x {
        Tree::Group(_, inner) => number_of(around, inner),
        Tree::Field(_, owner, name) => field_at(around, owner, name),
        _ => Ok(0),
    }
}

/// An argument in the type of the field.
fn argument<'s, 'a>(
    alloc: Global,
    around: Around<'s, 'a>,
    field: CType,
    x: &'a Tree,
) -> Result<Expr, AllocError>
    ensures { IfOk result (λ v. seen.code v ≡ codes.stored (here around.entry) (trees.Integer field) (view.exp x.now)) }
{
    let typed = typed_code(alloc, around, x)?;
    let code = in_type_of(alloc, field, typed)?;
    Ok(code)
}

/// An exchange, if there is what to exchange with.
fn exchange<'s, 'a>(
    alloc: Global,
    around: Around<'s, 'a>,
    field: CType,
    arguments: &'a [Tree],
) -> Result<Operation, AllocError>
    ensures { IfOk result (λ v. seen.operation v ≡ spec.operation_on (here around.entry) (trees.Integer field) Interlocked.Exchange (view.exps arguments.now)) }
{
    let Some(first) = arguments.first() else {
        return Ok(Operation::Increment);
    };
    let value = argument(alloc, around, field, first)?;
    Ok(Operation::Exchange(value))
}

/// An exchange where the field has a value, if there are both values.
fn compare_exchange<'s, 'a>(
    alloc: Global,
    around: Around<'s, 'a>,
    field: CType,
    arguments: &'a [Tree],
) -> Result<Operation, AllocError>
    ensures { IfOk result (λ v. seen.operation v ≡ spec.operation_on (here around.entry) (trees.Integer field) Interlocked.CompareExchange (view.exps arguments.now)) }
{
    let (Some(first), Some(second)) = (arguments.first(), arguments.get(1)) else {
        return Ok(Operation::Increment);
    };
    let value = argument(alloc, around, field, first)?;
    let (value, compared) = pair_with(value, argument(alloc, around, field, second))?;
    Ok(Operation::CompareExchange(value, compared))
}

/// What an Interlocked call does with a field of this type.
fn operation_on<'s, 'a>(
    alloc: Global,
    around: Around<'s, 'a>,
    field: CType,
    function: Interlocked,
    arguments: &'a [Tree],
) -> Result<Operation, AllocError>
    ensures { IfOk result (λ v. seen.operation v ≡ spec.operation_on (here around.entry) (trees.Integer field) function (view.exps arguments.now)) }
{
    match function {
        Interlocked::CompareExchange => compare_exchange(alloc, around, field, arguments),
        Interlocked::Exchange => exchange(alloc, around, field, arguments),
        Interlocked::Increment => Ok(Operation::Increment),
        Interlocked::Decrement => Ok(Operation::Decrement),
    }
}

/// A comparison of the value of a field of this type, whose truth comes to that type.
fn compared_with<'s, 'a>(
    alloc: Global,
    around: Around<'s, 'a>,
    field: CType,
    to: CType,
    x: &'a Compared,
) -> Result<InterlockedResult, AllocError>
    ensures { IfOk result (λ v. seen.afterwards v ≡ spec.afterwards (here around.entry) field to (Some (view.comparison x.now))) }
{
    let other = typed_code(alloc, around, &x.other)?;
    let both = common_type(field, other.ty);
    let code = in_type_of(alloc, both, other)?;
    Ok(InterlockedResult::Compared(
        conversion(field, both),
        x.is_equal,
        code,
        conversion(CType::Int, to),
    ))
}

/// What becomes of the value of a field of this type, that comes to that type.
fn afterwards<'s, 'a>(
    alloc: Global,
    around: Around<'s, 'a>,
    field: CType,
    to: CType,
    compared: &'a Option<Compared>,
) -> Result<InterlockedResult, AllocError>
    ensures { IfOk result (λ v. seen.afterwards v ≡ spec.afterwards (here around.entry) field to (option_map view.comparison compared.now)) }
{
    match compared {
        None => Ok(InterlockedResult::Plainly(conversion(field, to))),
        Some(x) => compared_with(alloc, around, field, to, x),
    }
}

/// What an Interlocked call does, and what becomes of its value.
#[derive(Drop)]
struct Effects {
    operation: Operation,
    value: InterlockedResult,
}

/// What an Interlocked call does, and what becomes of its value in a place of this type.
fn effects_of<'s, 'a>(
    alloc: Global,
    around: Around<'s, 'a>,
    ty: &ValueType,
    x: &'a InterlockedCall,
    compared: &'a Option<Compared>,
) -> Result<Effects, AllocError>
    ensures operation { IfOk result (λ e. seen.operation e.operation ≡ rights.operation (here around.entry) (view.inter x.now)) }
    ensures value { IfOk result (λ e. seen.afterwards e.value ≡ rights.afterwards (here around.entry) (view.ty ty.now) (view.inter x.now) (option_map view.comparison compared.now)) }
{
    let field = integer_type(alloc, around, &x.field)?;
    let to = integer_of(Some(ty));
    let operation = operation_on(alloc, around, field, x.function, &x.arguments)?;
    let (operation, value) = pair_with(operation, afterwards(alloc, around, field, to, compared))?;
    Ok(Effects { operation, value })
}

/// An Interlocked call, whose value comes to a place of this type.
pub fn interlocked<'s, 'a>(
    alloc: Global,
    around: Around<'s, 'a>,
    ty: &ValueType,
    x: &'a InterlockedCall,
    compared: &'a Option<Compared>,
) -> Result<RightSide, AllocError>
    ensures { IfOk result (λ v. seen.right v ≡ spec.interlocked (here around.entry) (view.ty ty.now) (view.inter x.now) (option_map view.comparison compared.now)) }
{
    let number = number_of(around, &x.field)?;
    let object = object_of(alloc, around, &x.field)?;
    let (object, effects) = pair_with(object, effects_of(alloc, around, ty, x, compared))?;
    Ok(RightSide::Interlocked(object, number, effects.operation, effects.value))
}
