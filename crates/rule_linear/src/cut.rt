//! Multiples of bounds, divided and rounded: `cut`.

ghost use Rattle.std.specs.Prelude.{◌≡◌, ◌↔◌, ◌<◌, ◌≤ℤ◌, ◌+ℤ◌, pos, int_div, int_rem, Some, IsTrue, IfOk, IfErr, IfSome, length};
ghost use Rattle.vcc_rules.specs.Law.{AreSortsOf, IsWithin};
ghost use Rattle.rule_linear.specs.declared.form.Part.TheVariants.{Constant};
ghost use Rattle.rule_linear.specs.Bounds.{bound_number};
ghost use Rattle.rule_linear.specs.CutSound.{cut_sound};
ghost use Rattle.rule_linear.specs.Cuts.{conclusion, rounded_up, IsCut, CutLeaves};
ghost use Rattle.rule_linear.specs.CutTests.{IsCutRowOf, CutRowLeavesOf, IsRounded};
ghost use Rattle.rule_linear.specs.Sides.{AreWithin, Reach};
ghost use Rattle.rule_linear.specs.Walks.{IsTotalKnown, IsBoundKnown};

use crate::agreement::{Target, agrees, agrees_with};
use crate::bound::{Bound, Weights, are_weights, bound_part, total_part};
use crate::form::Part;
use crate::steps::{add_up, bound_form};
use int_ranges::exact::{Wide, add_exact, div_trunc, rem_trunc};
use term_graph::graph::Graph;
use terms::numbers::Numbers;
use terms::sort::Sort;
use terms::term::{Kind, Literal};
use vcc_rules::rule::{Clauses, Rule, Scratch};

/// Multiples of the bounds of all literals but the last, divided and rounded, give the last one. It takes the divisor,
/// and one multiplier for each literal but the last.
#[derive(Clone, Copy, Debug)]
pub struct Cut<'a> {
    /// The sorts of the terms, as far as they have one.
    pub sorts: &'a [Option<Sort>],
}

impl<'a> Rule for Cut<'a> {
    type Data = Numbers;

    ghost suits = { λ rule language terms. AreSortsOf language terms rule.sorts.now };

    ghost gives = { λ rule terms earlier below detail clause. IsCut rule.sorts.now terms detail clause };

    ghost leaves = { λ rule terms detail clause w. CutLeaves rule.sorts.now terms detail clause w };

    fn concludes(
        &self,
        terms: &Graph,
        _earlier: &Clauses,
        _below: usize,
        detail: &Numbers,
        clause: &[Literal],
        _scratch: &mut Scratch,
    ) -> Result<bool, Wide> {
        cut_of(terms, self.sorts, detail.as_slice(), clause)
    }

    ghost sound = { λ rule language terms earlier below detail clause suits. cut_sound language rule.sorts.now terms earlier.root earlier.list.items below detail clause };
}

/// Whether the numbers and the clause are a cut.
///
/// # Errors
/// The operands of the first number on the way that leaves 128 bits.
#[tactic(auto, using(crate::proofs::Cutting::no_numbers, crate::proofs::Cutting::no_numbers_leave, crate::proofs::Cutting::no_literals, crate::proofs::Cutting::no_literals_leave, crate::proofs::Cutting::is_row, crate::proofs::Cutting::row_leaves, crate::proofs::Cutting::no_row_of, crate::proofs::Cutting::exact_of))]
fn cut_of(
    terms: &Graph,
    sorts: &[Option<Sort>],
    numbers: &[i128],
    clause: &[Literal],
) -> Result<bool, Wide>
    requires { IsWithin (length terms.now) clause.now }
    ensures rows { IfOk result (λ yes. IsTrue yes ↔ IsCut sorts.now terms.now numbers.now clause.now) }
    ensures exact { IfOk result (λ yes. (w : Wide) → CutLeaves sorts.now terms.now numbers.now clause.now w → ⊥) }
    ensures wide { IfErr result (CutLeaves sorts.now terms.now numbers.now clause.now) }
{
    let Some((divisor, multipliers)) = numbers.split_first() else {
        return Ok(false);
    };
    let Some((last, before)) = clause.split_last() else {
        return Ok(false);
    };
    let weights = Weights {
        sorts,
        multipliers,
        literals: before,
    };
    is_cut(terms, weights, *divisor, *last)
}

/// What the last literal concludes, where it can be one of a cut.
fn conclusion_for(terms: &Graph, l: Literal) -> Option<Bound>
    requires { l.term < length terms.now }
    ensures value { result ≡ conclusion terms.now l }
    ensures within { IfSome result (AreWithin (length terms.now)) }
{
    let node = terms.node(l.term);
    match (node.kind, node.args.numbers(), l.positive) {
        (Kind::Le, [a, b], true) => Some(Bound {
            left: *a,
            right: *b,
            strict: false,
            equal: false,
        }),
        _ => None,
    }
}

/// Whether the multiples, divided and rounded, give the last literal, if they fit those before.
///
/// # Errors
/// The operands of the first number on the way that leaves 128 bits.
#[tactic(auto, using(crate::proofs::Cutting::no_row, crate::proofs::Cutting::no_row_leaves, crate::proofs::Cutting::no_conclusion, crate::proofs::Cutting::small_divisor, crate::proofs::Cutting::unweighted, crate::proofs::Cutting::sum_leaves, crate::proofs::Cutting::goal_leaves, crate::proofs::Cutting::none_leaves, crate::proofs::Rows::lengths, crate::proofs::Rows::whole_known))]
fn is_cut(terms: &Graph, weights: Weights<'_>, divisor: i128, last: Literal) -> Result<bool, Wide>
    requires within { IsWithin (length terms.now) weights.literals.now }
    requires last { last.term < length terms.now }
    ensures rows { IfOk result (λ yes. IsTrue yes ↔ IsCutRowOf weights.entry terms.now divisor last) }
    ensures exact { IfOk result (λ yes. (w : Wide) → CutRowLeavesOf weights.entry terms.now divisor last w → ⊥) }
    ensures wide { IfErr result (CutRowLeavesOf weights.entry terms.now divisor last) }
{
    let Some(goal) = conclusion_for(terms, last) else {
        return Ok(false);
    };
    if divisor < 1 {
        return Ok(false);
    }
    if !are_weights(terms, weights) {
        return Ok(false);
    }
    add_up(terms, weights)?;
    bound_form(terms, weights, goal)?;
    let target = Target {
        factor: divisor,
        bound: Some(goal),
    };
    Ok(is_rounded(terms, weights, target, goal))
}

/// Whether the sum of the multiples is so many times the target, rounded.
#[tactic(auto, using(crate::proofs::Cutting::goal_is, crate::proofs::Cutting::sides_are, crate::proofs::Cutting::unlike_sum, crate::proofs::Cutting::unlike_goal))]
fn is_rounded(terms: &Graph, weights: Weights<'_>, target: Target, goal: Bound) -> bool
    requires factor { pos 1 ≤ℤ target.factor }
    requires bound { target.bound ≡ Some goal }
    requires sides { AreWithin (length terms.now) goal }
    requires goal { IsBoundKnown terms.now goal }
    requires reach { Reach (length terms.now) weights (length weights.literals.now) }
    requires lengths { length weights.multipliers.now ≡ length weights.literals.now }
    requires known { IsTotalKnown weights terms.now (length weights.literals.now) }
    ensures { IsTrue result ↔ IsRounded weights.entry terms.now target goal }
{
    let end = weights.literals.len();
    if !agrees(terms, weights, target) {
        return false;
    }
    if !agrees_with(terms, weights, target, target.bound) {
        return false;
    }
    let sum = total_part(terms, weights, end, Part::Constant);
    let constant = bound_part(terms, goal, Part::Constant);
    is_rounded_up(constant, sum, target.factor)
}

/// Whether the number is `e` by the divisor, rounded up.
fn is_rounded_up(number: i128, e: i128, divisor: i128) -> bool
    requires { pos 1 ≤ℤ divisor }
    ensures { IsTrue result ↔ (number ≡ rounded_up e divisor) }
{
    let quotient = quotient_of(e, divisor);
    let remainder = remainder_of(e, divisor);
    if remainder > 0 {
        is_next(number, quotient)
    } else {
        is_same(number, quotient)
    }
}

/// The quotient, toward 0.
#[tactic(auto, using(int_ranges::specs::QuotientLaws::quotient_fits))]
fn quotient_of(e: i128, divisor: i128) -> i128
    requires { pos 1 ≤ℤ divisor }
    ensures { result ≡ int_div e divisor }
{
    match div_trunc(e, divisor) {
        Ok(quotient) => quotient,
        Err(_) => 0,
    }
}

/// The remainder of that quotient.
fn remainder_of(e: i128, divisor: i128) -> i128
    requires { pos 1 ≤ℤ divisor }
    ensures { result ≡ int_rem e divisor }
{
    rem_trunc(e, divisor)
}

/// Whether the number is one more than the quotient.
fn is_next(number: i128, quotient: i128) -> bool
    ensures { IsTrue result ↔ (number ≡ quotient +ℤ pos 1) }
{
    match add_exact(quotient, 1) {
        Ok(up) => number == up,
        Err(_) => false,
    }
}

/// Whether the number is the quotient.
fn is_same(number: i128, quotient: i128) -> bool
    ensures { IsTrue result ↔ (number ≡ quotient) }
{
    number == quotient
}
