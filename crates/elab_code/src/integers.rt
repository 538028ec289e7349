//! Types of integers, and conversions between them.

ghost use Rattle.std.specs.Prelude.{◌≡◌};
ghost use Rattle.std.specs.Option.{option_map};
ghost use Rattle.c_syntax.specs.Views as view;
ghost use Rattle.typed_program.specs.Codes as spec;
ghost use Rattle.elab_code.specs.Operators.{binary as seen};

use c_syntax::expressions::ValueType;
use c_syntax::tree::{BinaryOperator, UnaryOperator};
use int_ranges::ctype::{CType, common_type};
use method::program::{Comparison, Operator};

/// The integer type of a declared one; `int` for any other.
pub fn integer_of(ty: Option<&ValueType>) -> CType
    ensures { result ≡ spec.integer_of (option_map (λ t. view.ty t.now) ty.entry) }
{
    match ty {
        Some(ValueType::Integer(integer)) => *integer,
        _ => CType::Int,
    }
}

/// The type of an operand with `!` or `-` in front.
pub fn negated_type(operator: UnaryOperator, ty: CType) -> CType
    ensures { result ≡ spec.negated_type operator ty }
{
    match operator {
        UnaryOperator::Not => CType::Int,
        UnaryOperator::Negate => ty,
    }
}

/// The conversion from one type to another, where it can lose a value.
pub fn conversion(from: CType, to: CType) -> Option<CType>
    ensures { result ≡ spec.conversion from to }
{
    match (from, to) {
        (CType::Int, CType::Int | CType::LongLong) => None,
        (CType::Unsigned, CType::Int) => Some(to),
        (CType::Unsigned, _) => None,
        (CType::LongLong, CType::LongLong) => None,
        (CType::UnsignedLongLong, CType::UnsignedLongLong) => None,
        _ => Some(to),
    }
}

/// What an operator of the source is.
#[derive(Clone, Copy, Debug, PartialEq, Eq)]
pub enum OperatorKind {
    Computes(Operator),
    Compares(Comparison),
    IsAnd,
    IsOr,
    IsImplies,
    IsIff,
    IsMember,
}

/// What an operator of the source is.
pub fn binary(operator: BinaryOperator) -> OperatorKind
    ensures { seen result ≡ spec.binary operator }
{
    match operator {
        BinaryOperator::Times => OperatorKind::Computes(Operator::Times),
        BinaryOperator::Over => OperatorKind::Computes(Operator::Over),
        BinaryOperator::Modulo => OperatorKind::Computes(Operator::Modulo),
        BinaryOperator::Plus => OperatorKind::Computes(Operator::Plus),
        BinaryOperator::Minus => OperatorKind::Computes(Operator::Minus),
        BinaryOperator::Less => OperatorKind::Compares(Comparison::Less),
        BinaryOperator::LessEqual => OperatorKind::Compares(Comparison::LessEqual),
        BinaryOperator::Greater => OperatorKind::Compares(Comparison::Greater),
        BinaryOperator::GreaterEqual => OperatorKind::Compares(Comparison::GreaterEqual),
        BinaryOperator::In => OperatorKind::IsMember,
        BinaryOperator::Equal => OperatorKind::Compares(Comparison::Equal),
        BinaryOperator::NotEqual => OperatorKind::Compares(Comparison::NotEqual),
        BinaryOperator::And => OperatorKind::IsAnd,
        BinaryOperator::Or => OperatorKind::IsOr,
        BinaryOperator::Implies => OperatorKind::IsImplies,
        BinaryOperator::Equivalent => OperatorKind::IsIff,
    }
}

/// The type that an operator gives operands of these types.
pub fn result_type(operator: OperatorKind, left: CType, right: CType) -> CType
    ensures { result ≡ spec.result_type (seen operator) left right }
{
    match operator {
        OperatorKind::Computes(_) => common_type(left, right),
        _ => CType::Int,
    }
}
