//! Expressions of code.

ghost use Rattle.std.specs.Prelude.{◌≡◌, IfOk};
ghost use Rattle.std.specs.Option.{option_map, option_and_then};
ghost use Rattle.c_syntax.specs.Views as view;
ghost use Rattle.typing_spec.specs.Types as types;
ghost use Rattle.typing_symbols.specs.Whole.{program};
ghost use Rattle.typing_expressions.specs.Views.{context as here, kind as kind_seen, maybe_kind};
ghost use Rattle.typed_program.specs.Codes as codes;
ghost use Rattle.typed_program.specs.Views.{code as code_seen};
ghost use Rattle.elab_code.specs.Operators.{binary as operator_seen};
ghost use Rattle.elab_code.specs.Typing as spec;
ghost use Rattle.elab_code.specs.Views.{around as surroundings, meaning as name_seen, typed as seen};

use crate::around::{Around, Meaning};
use crate::integers::{OperatorKind, binary, conversion, integer_of, negated_type, result_type};
use crate::numbers::{field_of_kind, meaning};
use c_syntax::expressions::{Expr as Tree, Identifier, ValueType};
use c_syntax::items::FieldDeclaration;
use c_syntax::tree::{BinaryOperator, UnaryOperator};
use int_ranges::ctype::{CType, common_type};
use method::program::{Expr, Operator};
use std::alloc::{AllocError, Global};
use typing_expressions::expressions::expression;
use typing_expressions::kinds::{
    Kind, conditional_kind, left_fits, right_fits, together_fit, unary_fits,
};
use typing_expressions::lookups::{field_of, kind_of, type_of_name};
use typing_symbols::declarations::Declarations;

/// An expression as it is typed, what kind it has, and its type where it is an integer.
#[derive(Drop)]
pub struct TypedCode<'s, 'a> {
    pub code: Expr,
    pub kind: Option<Kind<'s, 'a>>,
    pub ty: CType,
}

/// Whether a kind is that of integers.
pub fn is_integer(kind: Option<Kind<'_, '_>>) -> bool
    ensures { result ≡ codes.is_integer (maybe_kind kind.entry) }
{
    matches!(kind, Some(Kind::Integer))
}

/// Code of one type in another.
pub fn converted(alloc: Global, from: CType, to: CType, code: Expr) -> Result<Expr, AllocError>
    ensures { IfOk result (λ e. code_seen e ≡ codes.converted from to (code_seen code)) }
{
    match conversion(from, to) {
        None => Ok(code),
        Some(ty) => {
            let held = Box::new(alloc, code)?;
            Ok(Expr::Convert(held, ty))
        }
    }
}

/// An operand in this type, where it is an integer.
pub fn in_type_of(alloc: Global, to: CType, x: TypedCode<'_, '_>) -> Result<Expr, AllocError>
    ensures { IfOk result (λ e. code_seen e ≡ codes.in_type_of to (spec.operand (seen x.entry))) }
{
    if is_integer(x.kind) {
        converted(alloc, x.ty, to, x.code)
    } else {
        Ok(x.code)
    }
}

/// An expression in the declared type that it is stored in.
pub fn stored_in(alloc: Global, ty: &ValueType, x: TypedCode<'_, '_>) -> Result<Expr, AllocError>
    ensures { IfOk result (λ e. code_seen e ≡ codes.stored_in (view.ty ty.now) (spec.operand (seen x.entry))) }
{
    match ty {
        ValueType::Integer(to) => in_type_of(alloc, *to, x),
        _ => Ok(x.code),
    }
}

/// A number.
fn number<'s, 'a>(value: u64, ty: CType) -> TypedCode<'s, 'a>
    ensures { seen result ≡ spec.number_typed value ty }
{
    TypedCode {
        code: Expr::Number(i128::from(value)),
        kind: Some(Kind::Integer),
        ty,
    }
}

/// A variable; what is none of the function's stands in no code.
fn variable(meant: Meaning) -> Expr
    ensures { code_seen result ≡ codes.code_name (name_seen meant) }
{
    match meant {
        Meaning::OfFunction(number) => Expr::Variable(number),
        Meaning::OfQuantifier(_) | Meaning::OwnField(_) => Expr::Null,
    }
}

/// The kind of what a name stands for, where it has this type.
fn kind_of_type<'s, 'a>(
    declarations: &'s Declarations<'a>,
    ty: Option<&ValueType>,
) -> Option<Kind<'s, 'a>>
    ensures { maybe_kind result ≡ option_and_then (types.kind_of (program declarations.now)) (option_map (λ t. view.ty t.now) ty.entry) }
{
    match ty {
        None => None,
        Some(ty) => kind_of(declarations, ty),
    }
}

/// A name.
fn name<'s, 'a>(around: Around<'s, 'a>, x: &Identifier) -> Result<TypedCode<'s, 'a>, AllocError>
    ensures { IfOk result (λ v. seen v ≡ spec.name_typed (surroundings around.entry) (view.id x.now)) }
{
    let meant = meaning(around, x)?;
    let ty = type_of_name(around.context.scope, x);
    Ok(TypedCode {
        code: variable(meant),
        kind: kind_of_type(around.context.scope.declarations, ty),
        ty: integer_of(ty),
    })
}

/// `NULL`.
fn null<'s, 'a>() -> TypedCode<'s, 'a>
    ensures { seen result ≡ spec.null_typed }
{
    TypedCode {
        code: Expr::Null,
        kind: Some(Kind::Null),
        ty: CType::Int,
    }
}

/// The field with this name of what has this kind.
fn field_named<'s, 'a>(owner: Option<Kind<'s, 'a>>, x: &Identifier) -> Option<&'a FieldDeclaration>
    ensures { option_map (λ f. view.field f.now) result ≡ option_and_then (λ k. types.field_of k (view.id x.now)) (maybe_kind owner.entry) }
{
    match owner {
        None => None,
        Some(kind) => field_of(kind, x),
    }
}

/// The declared type of a field, if there is one.
fn type_of_field<'a>(field: Option<&'a FieldDeclaration>) -> Option<&'a ValueType>
    ensures { option_map (λ t. view.ty t.now) result ≡ option_map (λ f. f.ty) (option_map (λ f. view.field f.now) field.entry) }
{
    match field {
        None => None,
        Some(declared) => Some(&declared.ty),
    }
}

/// A field of what an expression points to.
fn field<'s, 'a>(
    alloc: Global,
    declarations: &'s Declarations<'a>,
    owner: TypedCode<'s, 'a>,
    x: &Identifier,
) -> Result<TypedCode<'s, 'a>, AllocError>
    ensures { IfOk result (λ v. seen v ≡ spec.field_typed (program declarations.now) (seen owner.entry) (view.id x.now)) }
{
    let number = field_of_kind(declarations, owner.kind, x)?;
    let ty = type_of_field(field_named(owner.kind, x));
    let held = Box::new(alloc, owner.code)?;
    Ok(TypedCode {
        code: Expr::Field(held, number),
        kind: kind_of_type(declarations, ty),
        ty: integer_of(ty),
    })
}

/// The kind of an operand with `!` or `-` in front.
fn unary_kind<'s, 'a>(
    operator: UnaryOperator,
    operand: Option<Kind<'s, 'a>>,
) -> Option<Kind<'s, 'a>>
    ensures { maybe_kind result ≡ option_and_then (λ k. types.only_if (types.unary_fits operator k) types.Integer) (maybe_kind operand.entry) }
{
    match operand {
        None => None,
        Some(kind) => {
            if unary_fits(operator, kind) {
                Some(Kind::Integer)
            } else {
                None
            }
        }
    }
}

/// An operand with `!` or `-` in front.
fn unary<'s, 'a>(
    alloc: Global,
    operator: UnaryOperator,
    x: TypedCode<'s, 'a>,
) -> Result<TypedCode<'s, 'a>, AllocError>
    ensures { IfOk result (λ v. seen v ≡ spec.unary_typed operator (seen x.entry)) }
{
    let kind = unary_kind(operator, x.kind);
    let ty = negated_type(operator, x.ty);
    let held = Box::new(alloc, x.code)?;
    match operator {
        UnaryOperator::Not => Ok(TypedCode {
            code: Expr::Not(held),
            kind,
            ty,
        }),
        UnaryOperator::Negate => Ok(TypedCode {
            code: Expr::Negate(held, x.ty),
            kind,
            ty,
        }),
    }
}

/// The kind of two operands with an operator between.
fn binary_kind<'s, 'a>(
    operator: BinaryOperator,
    left: Option<Kind<'s, 'a>>,
    right: Option<Kind<'s, 'a>>,
) -> Option<Kind<'s, 'a>>
    ensures { maybe_kind result ≡ option_and_then (λ k. option_and_then (λ l. types.only_if (types.binary_fits operator k l) types.Integer) (maybe_kind right.entry)) (maybe_kind left.entry) }
{
    match (left, right) {
        (Some(left), Some(right)) => {
            if left_fits(operator, left)
                && right_fits(operator, right)
                && together_fit(operator, left, right)
            {
                Some(Kind::Integer)
            } else {
                None
            }
        }
        (Some(_), None) => None,
        (None, _) => None,
    }
}

/// Two operands in their common type, with an operator of arithmetic between.
fn computed(
    alloc: Global,
    operator: Operator,
    left: TypedCode<'_, '_>,
    right: TypedCode<'_, '_>,
) -> Result<Expr, AllocError>
    ensures { IfOk result (λ e. code_seen e ≡ codes.code_binary (codes.Computes operator) (spec.operand (seen left.entry)) (spec.operand (seen right.entry))) }
{
    let ty = common_type(left.ty, right.ty);
    let left = in_type_of(alloc, ty, left)?;
    let left = Box::new(alloc, left)?;
    let right = in_type_of(alloc, ty, right)?;
    let right = Box::new(alloc, right)?;
    Ok(Expr::Arithmetic(operator, left, right, ty))
}

/// Two operands with an operator between.
pub fn operation(
    alloc: Global,
    operator: OperatorKind,
    left: TypedCode<'_, '_>,
    right: TypedCode<'_, '_>,
) -> Result<Expr, AllocError>
    ensures { IfOk result (λ e. code_seen e ≡ codes.code_binary (operator_seen operator) (spec.operand (seen left.entry)) (spec.operand (seen right.entry))) }
{
    match operator {
        OperatorKind::Computes(operator) => computed(alloc, operator, left, right),
        OperatorKind::Compares(comparison) => {
            let ty = common_type(left.ty, right.ty);
            let left = in_type_of(alloc, ty, left)?;
            let left = Box::new(alloc, left)?;
            let right = in_type_of(alloc, ty, right)?;
            let right = Box::new(alloc, right)?;
            Ok(Expr::Compare(comparison, left, right))
        }
        OperatorKind::IsAnd => {
            let left = Box::new(alloc, left.code)?;
            let right = Box::new(alloc, right.code)?;
            Ok(Expr::And(left, right))
        }
        OperatorKind::IsOr => {
            let left = Box::new(alloc, left.code)?;
            let right = Box::new(alloc, right.code)?;
            Ok(Expr::Or(left, right))
        }
        OperatorKind::IsImplies | OperatorKind::IsIff | OperatorKind::IsMember => Ok(Expr::Null),
    }
}

/// Two operands with an operator of the source between.
fn joined<'s, 'a>(
    alloc: Global,
    operator: BinaryOperator,
    left: TypedCode<'s, 'a>,
    right: TypedCode<'s, 'a>,
) -> Result<TypedCode<'s, 'a>, AllocError>
    ensures { IfOk result (λ v. seen v ≡ spec.binary_typed operator (seen left.entry) (seen right.entry)) }
{
    let kind = binary_kind(operator, left.kind, right.kind);
    let meant = binary(operator);
    let ty = result_type(meant, left.ty, right.ty);
    let code = operation(alloc, meant, left, right)?;
    Ok(TypedCode { code, kind, ty })
}

/// The kind of a test with two branches.
fn chosen_kind<'s, 'a>(
    test: Option<Kind<'s, 'a>>,
    left: Option<Kind<'s, 'a>>,
    right: Option<Kind<'s, 'a>>,
) -> Option<Kind<'s, 'a>>
    ensures { maybe_kind result ≡ option_and_then (λ j. option_and_then (λ k. option_and_then (types.conditional_kind j k) (maybe_kind right.entry)) (maybe_kind left.entry)) (maybe_kind test.entry) }
{
    match (test, left, right) {
        (Some(test), Some(left), Some(right)) => conditional_kind(test, left, right),
        (Some(_), Some(_), None) => None,
        (Some(_), None, _) => None,
        (None, _, _) => None,
    }
}

/// A test with two branches.
fn conditional<'s, 'a>(
    alloc: Global,
    test: TypedCode<'s, 'a>,
    left: TypedCode<'s, 'a>,
    right: TypedCode<'s, 'a>,
) -> Result<TypedCode<'s, 'a>, AllocError>
    ensures { IfOk result (λ v. seen v ≡ spec.conditional_typed (seen test.entry) (seen left.entry) (seen right.entry)) }
{
    let kind = chosen_kind(test.kind, left.kind, right.kind);
    let ty = common_type(left.ty, right.ty);
    let test = Box::new(alloc, test.code)?;
    let left = in_type_of(alloc, ty, left)?;
    let left = Box::new(alloc, left)?;
    let right = in_type_of(alloc, ty, right)?;
    let right = Box::new(alloc, right)?;
    Ok(TypedCode {
        code: Expr::Choose(test, left, right),
        kind,
        ty,
    })
}

/// What stands in no code.
fn other<'s, 'a>(around: Around<'s, 'a>, x: &'a Tree) -> TypedCode<'s, 'a>
    ensures { seen result ≡ spec.other_typed (types.kind (surroundings around.entry).context.scope (view.exp x.now)) }
{
    let judged = expression(around.context, x);
    TypedCode {
        code: Expr::Null,
        kind: judged.kind,
        ty: CType::Int,
    }
}

/// An expression of code as it is typed.
pub fn typed_code<'s, 'a>(
    alloc: Global,
    around: Around<'s, 'a>,
    x: &'a Tree,
) -> Result<TypedCode<'s, 'a>, AllocError>
    ensures { IfOk result (λ v. seen v ≡ spec.typed (surroundings around.entry) (view.exp x.now)) }
{
    match x {
        Tree::Number(_, value, ty) => Ok(number(*value, *ty)),
        Tree::Name(x) => name(around, x),
        Tree::Null(_) => Ok(null()),
        Tree::Group(_, inner) => typed_code(alloc, around, inner),
        Tree::Field(_, owner, x) => {
            let owner = typed_code(alloc, around, owner)?;
            field(alloc, around.context.scope.declarations, owner, x)
        }
        Tree::Unary(_, operator, operand) => {
            let operand = typed_code(alloc, around, operand)?;
            unary(alloc, *operator, operand)
        }
        Tree::Binary(_, operator, left, right) => {
            let left = typed_code(alloc, around, left)?;
            let right = typed_code(alloc, around, right)?;
            joined(alloc, *operator, left, right)
        }
        Tree::Conditional(_, test, left, right) => {
            let test = typed_code(alloc, around, test)?;
            let left = typed_code(alloc, around, left)?;
            let right = typed_code(alloc, around, right)?;
            conditional(alloc, test, left, right)
        }
        Tree::Constant(_, _) => Ok(other(around, x)),
        Tree::Status(_, _, _, _) => Ok(other(around, x)),
        Tree::Owns(_, _, _) => Ok(other(around, x)),
        Tree::Apply(_, _, _) => Ok(other(around, x)),
        Tree::Several(_, _, _) => Ok(other(around, x)),
        Tree::ClaimsObject(_, _, _) => Ok(other(around, x)),
        Tree::Claims(_, _, _) => Ok(other(around, x)),
        Tree::Approves(_, _) => Ok(other(around, x)),
        Tree::Quantified(_, _, _, _, _) => Ok(other(around, x)),
    }
}
