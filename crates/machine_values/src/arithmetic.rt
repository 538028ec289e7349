//! Exact results of operators of arithmetic.

ghost use Rattle.std.specs.Prelude.{◌≡◌, ◌&&◌};
ghost use Rattle.object_types.specs.Values.{int, is_zero_int};
ghost use Rattle.object_types.specs.declared.values.Value.TheVariants.{Int};
ghost use Rattle.method.specs.SpecValue.{compute, quotient};
ghost use Rattle.method.specs.Expressions.{divides, checked_result};
ghost use Rattle.machine_values.specs.Answers.{IsExact, IsExactValue};

use crate::values::number;
use int_ranges::exact::{Wide, add_exact, div_trunc, mul_exact, rem_trunc, sub_exact};
use method::program::Operator;
use object_types::values::Value;

/// Whether the value as a number is 0.
fn is_zero_number(a: Value) -> bool
    ensures { result ≡ is_zero_int (int a) }
{
    match a {
        Value::Int(number) => number == 0,
        Value::Ref(_) => true,
    }
}

/// Whether the operator needs a quotient by the operand, and there is none.
pub fn lacks_quotient(operator: Operator, b: Value) -> bool
    ensures { result ≡ (divides operator && is_zero_int (int b)) }
{
    match operator {
        Operator::Plus | Operator::Minus | Operator::Times => false,
        Operator::Over | Operator::Modulo => is_zero_number(b),
    }
}

/// The quotient; by 0 it is 0.
fn quotient(a: i128, b: i128) -> Result<i128, Wide>
    ensures { IsExact result (quotient a b) }
{
    if b == 0 {
        return Ok(0);
    }
    div_trunc(a, b)
}

/// What has to fit the operator's type: the result, of a remainder the quotient.
fn checked_number(operator: Operator, a: Value, b: Value) -> Result<i128, Wide>
    ensures { IsExact result (checked_result operator (int a) (int b)) }
{
    match operator {
        Operator::Plus => add_exact(number(a), number(b)),
        Operator::Minus => sub_exact(number(a), number(b)),
        Operator::Times => mul_exact(number(a), number(b)),
        Operator::Over | Operator::Modulo => quotient(number(a), number(b)),
    }
}

/// The same as a value.
pub fn checked_result(operator: Operator, a: Value, b: Value) -> Result<Value, Wide>
    ensures { IsExactValue result (checked_result operator (int a) (int b)) }
{
    Ok(Value::Int(checked_number(operator, a, b)?))
}

/// The remainder; by 0 it is the dividend.
fn remainder(a: i128, b: i128) -> Value
    ensures { result ≡ Int (compute Operator.Modulo a b) }
{
    if b == 0 {
        return Value::Int(a);
    }
    Value::Int(rem_trunc(a, b))
}

/// The operator's result, where this is what had to fit its type.
pub fn compute(operator: Operator, a: Value, b: Value, checked: Value) -> Value
    ensures { checked ≡ Int (checked_result operator (int a) (int b)) → result ≡ Int (compute operator (int a) (int b)) }
{
    match operator {
        Operator::Modulo => remainder(number(a), number(b)),
        Operator::Plus | Operator::Minus | Operator::Times | Operator::Over => checked,
    }
}
