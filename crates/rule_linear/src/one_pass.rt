//! Sums of multiples in one pass, where all numbers on the way fit.

ghost use Rattle.std.specs.Prelude.{◌≡◌, ◌<◌, ◌↔◌, length, IsTrue, IfSome};
ghost use Rattle.vcc_rules.specs.Law.{IsWithin};
ghost use Rattle.rule_linear.specs.Coefficients.{coefficient_at, AreClear, IsAdded, IsBoundAdded, every_unit, Holds, is_nothing, are_nothing};
ghost use Rattle.rule_linear.specs.Forms.{units, sum_at};
ghost use Rattle.rule_linear.specs.Sides.{AreWithin, Reach};
ghost use Rattle.rule_linear.specs.Tests.{bound_units, IsWeighting, IsLinearOf};
ghost use Rattle.rule_linear.specs.Walks.{IsTotalKnown};

use crate::bound::{Bound, Weights, add_multiple, bound_for, part_of_one};
use crate::form::{Part, Shape, shape_at, wrapped_difference, wrapped_product, wrapped_sum};
use crate::room::{coefficient, set_coefficient};
use term_graph::graph::Graph;
use vcc_rules::rule::Summand;

/// Adds so many times the term: its coefficients in the room, and its constant to this one, which is given back.
fn add(terms: &Graph, room: &mut [Summand], constant: i128, factor: i128, t: u32) -> i128
    requires term { t < length terms.now }
    requires room { length room.old ≡ length terms.now }
    ensures { IsAdded room.old constant room.new result factor (sum_at terms.now t) }
{
    match shape_at(terms, t) {
        Shape::Number(n) => add_multiple(constant, factor, n),
        Shape::Plus(a, b) => {
            let between = add(terms, room, constant, factor, a);
            add(terms, room, between, factor, b)
        }
        Shape::Minus(a, b) => {
            let between = add(terms, room, constant, factor, a);
            let turned = wrapped_difference(0, factor);
            add(terms, room, between, turned, b)
        }
        Shape::Times(n, a) => {
            let product = wrapped_product(factor, n);
            add(terms, room, constant, product, a)
        }
        Shape::Alone => {
            let before = coefficient(room, t);
            let sum = wrapped_sum(before, factor);
            set_coefficient(room, t, sum);
            constant
        }
    }
}

/// Adds so many times the bound: its coefficients in the room, and its constant to this one, which is given back.
#[tactic(auto, using(crate::proofs::Coefficients::none_added))]
fn add_bound(
    terms: &Graph,
    room: &mut [Summand],
    constant: i128,
    factor: i128,
    bound: Option<Bound>,
) -> i128
    requires sides { IfSome bound (AreWithin (length terms.now)) }
    requires room { length room.old ≡ length terms.now }
    ensures { IsBoundAdded terms.now room.old constant room.new result factor bound }
{
    match bound {
        Some(b) => {
            let one = part_of_one(b.strict, Part::Constant);
            let first = add_multiple(constant, factor, one);
            let between = add(terms, room, first, factor, b.left);
            let turned = wrapped_difference(0, factor);
            add(terms, room, between, turned, b.right)
        }
        None => constant,
    }
}

/// Adds all multiples: their coefficients in the room. Gives their constant.
#[tactic(auto, using(crate::proofs::Coefficients::start_holds))]
fn add_all(terms: &Graph, weights: Weights<'_>, room: &mut [Summand]) -> i128
    requires within { IsWithin (length terms.now) weights.literals.now }
    requires lengths { length weights.multipliers.now ≡ length weights.literals.now }
    requires room { length room.old ≡ length terms.now }
    requires clear { AreClear room.old (every_unit weights terms.now) }
    ensures { Holds weights.entry terms.now room.new result (length weights.entry.literals.now) }
{
    let mut constant = 0;
    for i in 0..weights.literals.len() {
        let bound = bound_for(terms, weights.sorts, weights.literals[i]);
        constant = add_bound(terms, room, constant, weights.multipliers[i], bound);
    }
    constant
}

/// Whether the unit has the coefficient 0.
#[tactic(auto, using(crate::proofs::Coefficients::nothing_is))]
fn is_zero_at(room: &[Summand], t: u32) -> bool
    requires { t < length room.now }
    ensures { result ≡ is_nothing (coefficient_at room.now t) }
{
    let number = coefficient(room, t);
    number == 0
}

/// Whether each unit of the term has the coefficient 0.
#[tactic(auto, using(crate::proofs::Coefficients::alone_nothing))]
fn is_zero(terms: &Graph, room: &[Summand], t: u32) -> bool
    requires term { t < length terms.now }
    requires room { length room.now ≡ length terms.now }
    ensures { result ≡ are_nothing room.now (units (sum_at terms.now t)) }
{
    match shape_at(terms, t) {
        Shape::Number(_) => true,
        Shape::Plus(a, b) => is_zero(terms, room, a) && is_zero(terms, room, b),
        Shape::Minus(a, b) => is_zero(terms, room, a) && is_zero(terms, room, b),
        Shape::Times(_, a) => is_zero(terms, room, a),
        Shape::Alone => is_zero_at(room, t),
    }
}

/// Whether each unit of the bound has the coefficient 0.
fn is_bound_zero(terms: &Graph, room: &[Summand], bound: Option<Bound>) -> bool
    requires sides { IfSome bound (AreWithin (length terms.now)) }
    requires room { length room.now ≡ length terms.now }
    ensures { result ≡ are_nothing room.now (bound_units terms.now bound) }
{
    match bound {
        Some(b) => is_zero(terms, room, b.left) && is_zero(terms, room, b.right),
        None => true,
    }
}

/// Whether each unit of the literals' bounds has the coefficient 0.
#[tactic(auto, using(crate::proofs::Coefficients::nothing_from, crate::proofs::Coefficients::nothing_left))]
fn are_zero(terms: &Graph, weights: Weights<'_>, room: &[Summand]) -> bool
    requires within { IsWithin (length terms.now) weights.literals.now }
    requires lengths { length weights.multipliers.now ≡ length weights.literals.now }
    requires room { length room.now ≡ length terms.now }
    ensures { result ≡ are_nothing room.now (every_unit weights.entry terms.now) }
{
    for i in 0..weights.literals.len() {
        let bound = bound_for(terms, weights.sorts, weights.literals[i]);
        if !is_bound_zero(terms, room, bound) {
            return false;
        }
    }
    true
}

/// Whether the sum of the multiples is a positive number, where the coefficients of all units are 0 before. It takes time
/// in proportion to the terms of the literals.
#[tactic(auto, using(crate::proofs::Rows::lengths, crate::proofs::Coefficients::not_nothing, crate::proofs::Coefficients::all_nothing))]
pub fn sums_up(terms: &Graph, weights: Weights<'_>, room: &mut [Summand]) -> bool
    requires weighting { IsWeighting weights terms.now }
    requires reach { Reach (length terms.now) weights (length weights.literals.now) }
    requires known { IsTotalKnown weights terms.now (length weights.literals.now) }
    requires room { length room.old ≡ length terms.now }
    requires clear { AreClear room.old (every_unit weights terms.now) }
    ensures { IsTrue result ↔ IsLinearOf weights.entry terms.now }
{
    let constant = add_all(terms, weights, room);
    if !are_zero(terms, weights, room) {
        return false;
    }
    constant > 0
}
