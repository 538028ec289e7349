//! Right sides.

ghost use Rattle.std.specs.Prelude.{◌≡◌, IfOk};
ghost use Rattle.std.specs.Option.{option_map};
ghost use Rattle.c_syntax.specs.Expressions as trees;
ghost use Rattle.c_syntax.specs.Views as view;
ghost use Rattle.elab_code.specs.Typing as typing;
ghost use Rattle.elab_code.specs.Views.{around as here, typed as typed_seen};
ghost use Rattle.elab_assignments.specs.Rights as rights;
ghost use Rattle.typed_program.specs.Statements as spec;
ghost use Rattle.typed_program.specs.Views as seen;

use crate::interlocked::interlocked;
use crate::places::left_type;
use crate::values::stored;
use c_syntax::expressions::{Change, Expr as Tree, Right, ValueType};
use elab_code::around::Around;
use elab_code::codes::{TypedCode, operation, stored_in, typed_code};
use elab_code::integers::OperatorKind;
use elab_code::numbers::struct_number;
use int_ranges::ctype::{CType, common_type};
use method::program::{Expr, Operator, RightSide};
use std::alloc::{AllocError, Global};
use tree_building::pair_with;
use typing_expressions::kinds::Kind;

/// A right side that is stored in a place of this type; a call stands in none, since it is a statement by itself.
pub fn right<'s, 'a>(
    alloc: Global,
    around: Around<'s, 'a>,
    ty: &ValueType,
    x: &'a Right,
) -> Result<RightSide, AllocError>
    ensures { IfOk result (λ v. seen.right v ≡ spec.right (here around.entry) (view.ty ty.now) (view.rhs x.now)) }
{
    match x {
        Right::Value(value) => {
            let value = stored(alloc, around, ty, value)?;
            Ok(RightSide::Compute(value))
        }
        Right::Malloc(_, _, name) => {
            let number = struct_number(around.context.scope.declarations, name)?;
            Ok(RightSide::Malloc(number))
        }
        Right::Interlocked(called, compared) => interlocked(alloc, around, ty, called, compared),
        Right::Call(_) => Ok(RightSide::Compute(Expr::Null)),
    }
}

/// A declared type; that of any object where none is declared.
pub fn type_or<'t>(ty: Option<&'t ValueType>, object: &'t ValueType) -> &'t ValueType
    requires { view.ty object.now ≡ trees.Object }
    ensures { view.ty result.now ≡ spec.type_or (option_map (λ t. view.ty t.now) ty.entry) }
{
    match ty {
        Some(ty) => ty,
        None => object,
    }
}

/// Two operands of a place's update, in the type of the place.
fn combined<'s, 'a>(
    alloc: Global,
    operator: Operator,
    ty: Option<&ValueType>,
    old: TypedCode<'s, 'a>,
    y: TypedCode<'s, 'a>,
) -> Result<RightSide, AllocError>
    ensures { IfOk result (λ v. seen.right v ≡ rights.combined (option_map (λ t. view.ty t.now) ty.entry) operator (typing.operand (typed_seen old.entry)) (typing.operand (typed_seen y.entry))) }
{
    let common = common_type(old.ty, y.ty);
    let code = operation(alloc, OperatorKind::Computes(operator), old, y)?;
    let object = ValueType::Object;
    let value = stored_in(
        alloc,
        type_or(ty, &object),
        TypedCode {
            code,
            kind: Some(Kind::Integer),
            ty: common,
        },
    )?;
    Ok(RightSide::Compute(value))
}

/// A place with an operand added or taken away.
fn updated<'s, 'a>(
    alloc: Global,
    around: Around<'s, 'a>,
    operator: Operator,
    left: &'a Tree,
    y: TypedCode<'s, 'a>,
) -> Result<RightSide, AllocError>
    ensures { IfOk result (λ v. seen.right v ≡ spec.updated (here around.entry) operator (view.exp left.now) (typing.operand (typed_seen y.entry))) }
{
    let (y, old) = pair_with(y, typed_code(alloc, around, left))?;
    combined(alloc, operator, left_type(around, left), old, y)
}

/// The number 1.
fn one_more<'s, 'a>() -> TypedCode<'s, 'a>
    ensures { typing.operand (typed_seen result) ≡ spec.one_more }
{
    TypedCode {
        code: Expr::Number(1),
        kind: Some(Kind::Integer),
        ty: CType::Int,
    }
}

/// What a place is assigned by a change.
pub fn changed<'s, 'a>(
    alloc: Global,
    around: Around<'s, 'a>,
    left: &'a Tree,
    change: &'a Change,
) -> Result<RightSide, AllocError>
    ensures { IfOk result (λ v. seen.right v ≡ spec.changed (here around.entry) (view.exp left.now) (view.effect change.now)) }
{
    match change {
        Change::Set(x) => {
            let object = ValueType::Object;
            right(alloc, around, type_or(left_type(around, left), &object), x)
        }
        Change::Add(x) => {
            let value = typed_code(alloc, around, x)?;
            updated(alloc, around, Operator::Plus, left, value)
        }
        Change::Subtract(x) => {
            let value = typed_code(alloc, around, x)?;
            updated(alloc, around, Operator::Minus, left, value)
        }
        Change::Increment => updated(alloc, around, Operator::Plus, left, one_more()),
        Change::Decrement => updated(alloc, around, Operator::Minus, left, one_more()),
    }
}
