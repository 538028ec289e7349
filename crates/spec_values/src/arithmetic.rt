//! Exact arithmetic and comparison of values.

ghost use Rattle.std.specs.Prelude.{◌≡◌, pos, ◌-ℤ◌};
ghost use Rattle.object_types.specs.Values.{int};
ghost use Rattle.method.specs.SpecValue.{compute, compare};
ghost use Rattle.method.specs.Overflow.{exact};
ghost use Rattle.spec_values.specs.Answers.{Gives};

use crate::values::number;
use int_ranges::exact::{Wide, add_exact, div_trunc, mul_exact, rem_trunc, sub_exact};
use method::program::{Comparison, Operator};
use object_types::values::Value;

/// The quotient; by 0 it is 0.
fn quotient(a: i128, b: i128) -> Result<i128, Wide>
    ensures { Gives result (compute Operator.Over a b) (exact (compute Operator.Over a b) a b) }
{
    if b == 0 {
        return Ok(0);
    }
    div_trunc(a, b)
}

/// The remainder; by 0 it is the dividend.
fn remainder(a: i128, b: i128) -> i128
    ensures { Gives (Ok result) (compute Operator.Modulo a b) (exact (compute Operator.Modulo a b) a b) }
{
    if b == 0 {
        return a;
    }
    rem_trunc(a, b)
}

/// The exact result of an operator.
pub fn compute(operator: Operator, a: i128, b: i128) -> Result<i128, Wide>
    ensures { Gives result (compute operator a b) (exact (compute operator a b) a b) }
{
    match operator {
        Operator::Plus => add_exact(a, b),
        Operator::Minus => sub_exact(a, b),
        Operator::Times => mul_exact(a, b),
        Operator::Over => quotient(a, b),
        Operator::Modulo => Ok(remainder(a, b)),
    }
}

/// Whether a comparison holds.
pub fn compare(comparison: Comparison, a: Value, b: Value) -> bool
    ensures { result ≡ compare comparison a b }
{
    match comparison {
        Comparison::Equal => a.is_same(b),
        Comparison::NotEqual => !a.is_same(b),
        Comparison::Less => number(a) < number(b),
        Comparison::LessEqual => number(a) <= number(b),
        Comparison::Greater => number(a) > number(b),
        Comparison::GreaterEqual => number(a) >= number(b),
    }
}
