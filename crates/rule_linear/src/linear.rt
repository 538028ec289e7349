//! Multiples of bounds that sum to a positive number: `linear`.

ghost use Rattle.std.specs.Prelude.{◌≡◌, ◌↔◌, IsTrue, IfOk, IfErr, length};
ghost use Rattle.vcc_rules.specs.Law.{AreSortsOf, IsWithin};
ghost use Rattle.rule_linear.specs.Coefficients.{AreClear, every_unit};
ghost use Rattle.rule_linear.specs.Rows.{IsLinear, LinearLeaves};
ghost use Rattle.rule_linear.specs.Sides.{Reach};
ghost use Rattle.rule_linear.specs.Sound.{linear_sound};
ghost use Rattle.rule_linear.specs.Tests.{IsWeighting, IsLinearOf, LinearLeavesOf};
ghost use Rattle.rule_linear.specs.Walks.{IsTotalKnown, IsAllKnown};

use crate::agreement::{Target, agrees};
use crate::bound::{Weights, are_weights, total_part};
use crate::form::Part;
use crate::one_pass::sums_up;
use crate::sizes::total_size;
use crate::steps::add_up;
use int_ranges::exact::Wide;
use term_graph::graph::Graph;
use terms::numbers::Numbers;
use terms::sort::Sort;
use terms::term::Literal;
use vcc_rules::rule::{Clauses, Rule, Scratch, Summand};

/// Multiples of the literals' bounds sum to a positive number. It takes one multiplier for each literal.
#[derive(Clone, Copy, Debug)]
pub struct Linear<'a> {
    /// The sorts of the terms, as far as they have one.
    pub sorts: &'a [Option<Sort>],
}

impl<'a> Rule for Linear<'a> {
    type Data = Numbers;

    ghost suits = { λ rule language terms. AreSortsOf language terms rule.sorts.now };

    ghost gives = { λ rule terms earlier below detail clause. IsLinear rule.sorts.now terms detail clause };

    ghost leaves = { λ rule terms detail clause w. LinearLeaves rule.sorts.now terms detail clause w };

    fn concludes(
        &self,
        terms: &Graph,
        _earlier: &Clauses,
        _below: usize,
        detail: &Numbers,
        clause: &[Literal],
        scratch: &mut Scratch,
    ) -> Result<bool, Wide> {
        let weights = Weights {
            sorts: self.sorts,
            multipliers: detail.as_slice(),
            literals: clause,
        };
        is_linear(terms, weights, scratch.summands())
    }

    ghost sound = { λ rule language terms earlier below detail clause suits. linear_sound language rule.sorts.now terms earlier.root earlier.list.items below detail clause };
}

/// Whether the size of the sum of the multiples fits, and so do all numbers on the way to it. Where it does, each unit of
/// the literals' bounds has the coefficient 0 afterwards.
fn fits(terms: &Graph, weights: Weights<'_>, room: &mut [Summand]) -> bool
    requires within { IsWithin (length terms.now) weights.literals.now }
    requires lengths { length weights.multipliers.now ≡ length weights.literals.now }
    requires room { length room.old ≡ length terms.now }
    ensures known { IsTrue result → IsAllKnown weights.entry terms.now }
    ensures clear { IsTrue result → AreClear room.new (every_unit weights.entry terms.now) }
{
    match total_size(terms, weights, room) {
        Ok(_) => true,
        Err(_) => false,
    }
}

/// Whether the multiples sum to a positive number, if they fit the literals.
///
/// # Errors
/// The operands of the first number on the way that leaves 128 bits.
#[tactic(auto, using(crate::proofs::Rows::lengths, crate::proofs::Rows::whole_known, crate::proofs::Rows::no_linear, crate::proofs::Rows::no_leaves, crate::proofs::Rows::none_leaves))]
fn is_linear(terms: &Graph, weights: Weights<'_>, room: &mut [Summand]) -> Result<bool, Wide>
    requires within { IsWithin (length terms.now) weights.literals.now }
    requires room { length room.old ≡ length terms.now }
    ensures rows { IfOk result (λ yes. IsTrue yes ↔ IsLinearOf weights.entry terms.now) }
    ensures exact { IfOk result (λ yes. (w : Wide) → LinearLeavesOf weights.entry terms.now w → ⊥) }
    ensures wide { IfErr result (LinearLeavesOf weights.entry terms.now) }
{
    if !are_weights(terms, weights) {
        return Ok(false);
    }
    if fits(terms, weights, room) {
        return Ok(sums_up(terms, weights, room));
    }
    add_up(terms, weights)?;
    Ok(is_positive_number(terms, weights))
}

/// Whether the sum of the multiples is a positive number.
#[tactic(auto, using(crate::proofs::Rows::lengths, crate::proofs::Rows::unlike_units, crate::proofs::Rows::like_units))]
fn is_positive_number(terms: &Graph, weights: Weights<'_>) -> bool
    requires weighting { IsWeighting weights terms.now }
    requires reach { Reach (length terms.now) weights (length weights.literals.now) }
    requires known { IsTotalKnown weights terms.now (length weights.literals.now) }
    ensures { IsTrue result ↔ IsLinearOf weights.entry terms.now }
{
    let end = weights.literals.len();
    let nothing = Target {
        factor: 1,
        bound: None,
    };
    if !agrees(terms, weights, nothing) {
        return false;
    }
    total_part(terms, weights, end, Part::Constant) > 0
}
