//! How large the numbers get on the way to a form. On the way the coefficients of the units are cleared.

ghost use Rattle.std.specs.Prelude.{◌≡◌, ◌<◌, ◌+◌, length, IfOk, Some};
ghost use Rattle.vcc_rules.specs.Law.{IsWithin};
ghost use Rattle.rule_linear.specs.Coefficients.{AreCleared, AreClear, place_units, every_unit};
ghost use Rattle.rule_linear.specs.Forms.{sum_at, units};
ghost use Rattle.rule_linear.specs.Sides.{AreWithin, Reach};
ghost use Rattle.rule_linear.specs.Sizes.{IsAtMost, IsSized, IsBoundSized, IsTotalSized, IsMoreSized, IsNextSized};
ghost use Rattle.rule_linear.specs.Tests.{bound_units};
ghost use Rattle.rule_linear.specs.Walks.{IsAllKnown};

use crate::bound::{Bound, Weights, bound_for};
use crate::form::{Shape, shape_at};
use crate::room::set_coefficient;
use int_ranges::exact::{Wide, add_exact, mul_exact, sub_exact};
use term_graph::graph::Graph;
use vcc_rules::rule::Summand;

/// The number without its sign.
///
/// # Errors
/// The operands, where it leaves 128 bits.
#[tactic(auto, using(crate::proofs::Sized::not_negative_itself, crate::proofs::Sized::negative_turned))]
fn magnitude(n: i128) -> Result<i128, Wide>
    ensures { IfOk result (λ size. IsAtMost size n) }
{
    if n < 0 {
        let size = sub_exact(0, n)?;
        return Ok(size);
    }
    Ok(n)
}

/// A size of the term's form: no number on the way to it is larger. Gives each unit of the term the coefficient 0.
///
/// # Errors
/// The operands of the first size that leaves 128 bits. Of the coefficients nothing is known then.
#[tactic(auto, using(crate::proofs::Sized::number_sized, crate::proofs::Sized::single_sized, crate::proofs::Coefficients::number_cleared, crate::proofs::Coefficients::alone_cleared))]
fn form_size(terms: &Graph, room: &mut [Summand], t: u32) -> Result<i128, Wide>
    requires term { t < length terms.now }
    requires room { length room.old ≡ length terms.now }
    ensures size { IfOk result (λ size. IsSized (sum_at terms.now t) size) }
    ensures cleared { IfOk result (λ size. AreCleared room.old room.new (units (sum_at terms.now t))) }
{
    match shape_at(terms, t) {
        Shape::Number(n) => {
            let size = magnitude(n)?;
            Ok(size)
        }
        Shape::Plus(a, b) => {
            let left = form_size(terms, room, a)?;
            let right = form_size(terms, room, b)?;
            let size = add_exact(left, right)?;
            Ok(size)
        }
        Shape::Minus(a, b) => {
            let left = form_size(terms, room, a)?;
            let right = form_size(terms, room, b)?;
            let size = add_exact(left, right)?;
            Ok(size)
        }
        Shape::Times(n, a) => {
            let factor = magnitude(n)?;
            let of = form_size(terms, room, a)?;
            let size = mul_exact(factor, of)?;
            Ok(size)
        }
        Shape::Alone => {
            set_coefficient(room, t, 0);
            Ok(1)
        }
    }
}

/// A size of the bound's form. Gives each unit of the bound the coefficient 0.
///
/// # Errors
/// The operands of the first size that leaves 128 bits. Of the coefficients nothing is known then.
fn bound_size(terms: &Graph, room: &mut [Summand], b: Bound) -> Result<i128, Wide>
    requires sides { AreWithin (length terms.now) b }
    requires room { length room.old ≡ length terms.now }
    ensures size { IfOk result (λ size. IsBoundSized terms.now b size) }
    ensures cleared { IfOk result (λ size. AreCleared room.old room.new (bound_units terms.now (Some b))) }
{
    let left = form_size(terms, room, b.left)?;
    let right = form_size(terms, room, b.right)?;
    let sides = add_exact(left, right)?;
    let size = add_exact(sides, 1)?;
    Ok(size)
}

/// The size of the sum of the first multiples with a multiple of a bound, from the size before. Gives each unit of the
/// bound the coefficient 0.
///
/// # Errors
/// The operands of the first size that leaves 128 bits. Of the coefficients nothing is known then.
fn more_size(
    terms: &Graph,
    room: &mut [Summand],
    weights: Weights<'_>,
    end: usize,
    m: i128,
    b: Bound,
    before: i128,
) -> Result<i128, Wide>
    requires sides { AreWithin (length terms.now) b }
    requires room { length room.old ≡ length terms.now }
    requires before { IsTotalSized weights terms.now end before }
    ensures size { IfOk result (λ size. IsMoreSized weights.entry terms.now end m b size) }
    ensures cleared { IfOk result (λ size. AreCleared room.old room.new (bound_units terms.now (Some b))) }
{
    let factor = magnitude(m)?;
    let of = bound_size(terms, room, b)?;
    let product = mul_exact(factor, of)?;
    let size = add_exact(before, product)?;
    Ok(size)
}

/// The size of the sum of multiples with the literal at this place, from the size before. Gives each unit of the
/// literal's bound the coefficient 0.
///
/// # Errors
/// The operands of the first size that leaves 128 bits. Of the coefficients nothing is known then.
fn next_size(
    terms: &Graph,
    room: &mut [Summand],
    weights: Weights<'_>,
    i: usize,
    before: i128,
) -> Result<i128, Wide>
    requires reach { Reach (length terms.now) weights (i + 1) }
    requires room { length room.old ≡ length terms.now }
    requires before { IsTotalSized weights terms.now i before }
    ensures size { IfOk result (λ size. IsNextSized weights.entry terms.now i size) }
    ensures cleared { IfOk result (λ size. AreCleared room.old room.new (place_units weights.entry terms.now i)) }
{
    match bound_for(terms, weights.sorts, weights.literals[i]) {
        Some(b) => {
            let size = more_size(terms, room, weights, i, weights.multipliers[i], b, before)?;
            Ok(size)
        }
        None => Ok(before),
    }
}

/// The size of the sum of all multiples: no number on the way to it is larger. Gives each unit of the literals' bounds
/// the coefficient 0.
///
/// # Errors
/// The operands of the first size that leaves 128 bits. Of the coefficients nothing is known then.
#[tactic(auto, using(crate::proofs::Sized::start_sized, crate::proofs::Sized::so_far_sized))]
pub fn total_size(terms: &Graph, weights: Weights<'_>, room: &mut [Summand]) -> Result<i128, Wide>
    requires within { IsWithin (length terms.now) weights.literals.now }
    requires lengths { length weights.multipliers.now ≡ length weights.literals.now }
    requires room { length room.old ≡ length terms.now }
    ensures known { IfOk result (λ size. IsAllKnown weights.entry terms.now) }
    ensures clear { IfOk result (λ size. AreClear room.new (every_unit weights.entry terms.now)) }
{
    let mut size = 0;
    for i in 0..weights.literals.len() {
        size = next_size(terms, room, weights, i, size)?;
    }
    Ok(size)
}
