//! Exact arithmetic on 128 bits.

ghost use Rattle.std.specs.Prelude.{◌≡◌, ◌≢◌, pos, ◌+ℤ◌, ◌-ℤ◌, ◌*ℤ◌, MatchResult};
ghost use Rattle.std.specs.Prelude.{int_div, int_rem};
ghost use Rattle.int_ranges.specs.Exact.{Leaves, wide};

use thiserror::Error;

/// A result that leaves 128 bits signed, with its two operands.
#[derive(Clone, Copy, Debug, PartialEq, Eq, Error)]
#[error("the exact result of {a} and {b} leaves 128 bits")]
pub struct Wide {
    /// The left operand.
    pub a: i128,
    /// The right operand.
    pub b: i128,
}

/// The sum.
///
/// # Errors
/// The operands, where the sum leaves 128 bits.
pub fn add_exact(a: i128, b: i128) -> Result<i128, Wide>
    ensures { MatchResult result (λ sum. sum ≡ a +ℤ b) (λ w. Leaves (a +ℤ b) × (w ≡ wide a b)) }
{
    a.checked_add(b).ok_or(Wide { a, b })
}

/// The difference.
///
/// # Errors
/// The operands, where the difference leaves 128 bits.
pub fn sub_exact(a: i128, b: i128) -> Result<i128, Wide>
    ensures { MatchResult result (λ difference. difference ≡ a -ℤ b) (λ w. Leaves (a -ℤ b) × (w ≡ wide a b)) }
{
    a.checked_sub(b).ok_or(Wide { a, b })
}

/// The product.
///
/// # Errors
/// The operands, where the product leaves 128 bits.
pub fn mul_exact(a: i128, b: i128) -> Result<i128, Wide>
    ensures { MatchResult result (λ product. product ≡ a *ℤ b) (λ w. Leaves (a *ℤ b) × (w ≡ wide a b)) }
{
    a.checked_mul(b).ok_or(Wide { a, b })
}

/// The quotient, rounded toward zero: C's `a / b`, from ISO/IEC 9899 6.5.5.
///
/// `quotient_laws` says that it and `rem_trunc` are the one quotient and remainder.
///
/// # Errors
/// The operands, where the quotient leaves 128 bits: -2^127 by -1.
pub fn div_trunc(a: i128, b: i128) -> Result<i128, Wide>
    requires { b ≢ pos 0 }
    ensures { MatchResult result (λ quotient. quotient ≡ int_div a b) (λ w. Leaves (int_div a b) × (w ≡ wide a b)) }
{
    a.checked_div(b).ok_or(Wide { a, b })
}

/// The remainder, 0 or of the sign of `a`: C's `a % b`, from ISO/IEC 9899 6.5.5. `(a / b) * b` and it are `a`.
///
/// It fits always: -2^127 by -1 leaves 0.
pub fn rem_trunc(a: i128, b: i128) -> i128
    requires { b ≢ pos 0 }
    ensures { result ≡ int_rem a b }
{
    a.wrapping_rem(b)
}
