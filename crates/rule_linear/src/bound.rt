//! What the negations of literals bound, and sums of multiples of such bounds.

ghost use Rattle.std.specs.Prelude.{◌≡◌, ℕ, ◌<◌, length, IfSome, ◌+ℤ◌, ◌*ℤ◌};
ghost use Rattle.std.specs.Int.{w128, int_wrap};
ghost use Rattle.vcc_rules.specs.Law.{IsWithin};
ghost use Rattle.rule_linear.specs.Bounds.{is_int, bound_at, bound_number, literal_number, one_of, fits_bound};
ghost use Rattle.rule_linear.specs.Sides.{AreWithin, Reach, first_total, fits_literals};

use crate::form::{Part, part_at, wrapped_difference, wrapped_product, wrapped_sum};
use term_graph::graph::Graph;
use terms::sort::Sort;
use terms::term::{Kind, Literal};

/// That left - right, and one more where it is strict, is at most 0, or is 0 where equal.
#[derive(Clone, Copy, Debug)]
pub struct Bound {
    pub left: u32,
    pub right: u32,
    pub strict: bool,
    pub equal: bool,
}

/// Multipliers, with one literal each, and the sorts of the terms as far as they have one.
#[derive(Clone, Copy, Debug)]
pub struct Weights<'a> {
    pub sorts: &'a [Option<Sort>],
    pub multipliers: &'a [i128],
    pub literals: &'a [Literal],
}

/// Whether the term is an Int.
pub fn is_int_term(sorts: &[Option<Sort>], t: u32) -> bool
    ensures { result ≡ is_int sorts.now t }
{
    match sorts.get(t as usize) {
        Some(sort) => match sort {
            Some(sort) => *sort == Sort::Int,
            None => false,
        },
        None => false,
    }
}

/// What the negation of a literal bounds.
pub fn bound_for(terms: &Graph, sorts: &[Option<Sort>], l: Literal) -> Option<Bound>
    requires { l.term < length terms.now }
    ensures value { result ≡ bound_at sorts.now terms.now l }
    ensures within { IfSome result (AreWithin (length terms.now)) }
{
    let node = terms.node(l.term);
    match (node.kind, node.args.numbers(), l.positive) {
        (Kind::Le, [a, b], true) => Some(Bound {
            left: *b,
            right: *a,
            strict: true,
            equal: false,
        }),
        (Kind::Le, [a, b], false) => Some(Bound {
            left: *a,
            right: *b,
            strict: false,
            equal: false,
        }),
        (Kind::Eq, [a, b], false) if is_int_term(sorts, *a) && is_int_term(sorts, *b) => {
            Some(Bound {
                left: *a,
                right: *b,
                strict: false,
                equal: true,
            })
        }
        _ => None,
    }
}

/// The number that a part has in the form of the bound, modulo 2^128.
pub fn bound_part(terms: &Graph, b: Bound, part: Part) -> i128
    requires { AreWithin (length terms.now) b }
    ensures { result ≡ int_wrap w128 (bound_number terms.now b part) }
{
    let left = part_at(terms, b.left, part);
    let right = part_at(terms, b.right, part);
    let difference = wrapped_difference(left, right);
    wrapped_sum(difference, part_of_one(b.strict, part))
}

/// The part of the 1 of a strict bound.
pub fn part_of_one(strict: bool, part: Part) -> i128
    ensures { result ≡ one_of strict part }
{
    match part {
        Part::Coefficient(_) => 0,
        Part::Constant => i128::from(strict),
    }
}

/// The number that a part has in the form of a literal's bound, modulo 2^128; 0 where it has no bound.
fn literal_part(terms: &Graph, sorts: &[Option<Sort>], l: Literal, part: Part) -> i128
    requires { l.term < length terms.now }
    ensures { result ≡ int_wrap w128 (literal_number terms.now (bound_at sorts.now terms.now l) part) }
{
    match bound_for(terms, sorts, l) {
        Some(b) => bound_part(terms, b, part),
        None => 0,
    }
}

/// The number that a part has in the sum of the first multiples, modulo 2^128.
pub fn total_part(terms: &Graph, weights: Weights<'_>, end: usize, part: Part) -> i128
    requires { Reach (length terms.now) weights end }
    ensures { result ≡ int_wrap w128 (first_total weights.entry terms.now end part) }
{
    let mut sum = 0;
    for i in 0..end {
        let number = literal_part(terms, weights.sorts, weights.literals[i], part);
        sum = add_multiple(sum, weights.multipliers[i], number);
    }
    sum
}

/// The sum with a multiple of the number, modulo 2^128.
pub fn add_multiple(sum: i128, m: i128, number: i128) -> i128
    ensures { result ≡ int_wrap w128 (sum +ℤ m *ℤ number) }
{
    wrapped_sum(sum, wrapped_product(m, number))
}

/// Whether the literal has a bound that may have this multiplier.
fn fits(bound: Option<Bound>, m: i128) -> bool
    ensures { result ≡ fits_bound bound m }
{
    match bound {
        Some(b) => b.equal || m >= 0,
        None => false,
    }
}

/// Whether there is one multiplier for each literal, and each literal has a bound that may have it.
#[tactic(auto, using(crate::proofs::Totals::weighting_at, crate::proofs::Totals::unlike_lengths))]
pub fn are_weights(terms: &Graph, weights: Weights<'_>) -> bool
    requires { IsWithin (length terms.now) weights.literals.now }
    ensures { result ≡ fits_literals weights.entry terms.now }
{
    if weights.multipliers.len() != weights.literals.len() {
        return false;
    }
    for i in 0..weights.literals.len() {
        let bound = bound_for(terms, weights.sorts, weights.literals[i]);
        if !fits(bound, weights.multipliers[i]) {
            return false;
        }
    }
    true
}
