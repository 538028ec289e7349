//! Whether the sum of multiples is so many times a bound, unit by unit.

ghost use Rattle.std.specs.Prelude.{◌≡◌, ◌<◌, ◌↔◌, length, IsTrue, IfSome};
ghost use Rattle.rule_linear.specs.declared.form.Part.TheVariants.{Coefficient};
ghost use Rattle.rule_linear.specs.Forms.{units, sum_at};
ghost use Rattle.rule_linear.specs.Sides.{AreWithin, Reach};
ghost use Rattle.rule_linear.specs.Walks.{IsTotalKnown};
ghost use Rattle.rule_linear.specs.Tests.{multiple, AgreesAt, Agree, AgreeAll, bound_units, IsGoal};

use crate::bound::{Bound, Weights, bound_for, bound_part, total_part};
use crate::form::{Part, Shape, shape_at};
use int_ranges::exact::mul_exact;
use term_graph::graph::Graph;

/// So many times a bound, or nothing.
#[derive(Clone, Copy, Debug)]
pub struct Target {
    pub factor: i128,
    pub bound: Option<Bound>,
}

/// Whether the number is so many times what the bound has at the unit; 0 where there is no bound.
fn is_multiple(terms: &Graph, number: i128, goal: Target, unit: u32) -> bool
    requires { IsGoal terms.now (length terms.now) goal.bound }
    ensures { IsTrue result ↔ (number ≡ multiple terms.now goal (Coefficient unit)) }
{
    match goal.bound {
        Some(b) => {
            let part = bound_part(terms, b, Part::Coefficient(unit));
            match mul_exact(goal.factor, part) {
                Ok(product) => number == product,
                Err(_) => false,
            }
        }
        None => number == 0,
    }
}

/// Whether the sum of the multiples agrees with so many times the goal at the unit.
fn agrees_at(terms: &Graph, weights: Weights<'_>, goal: Target, unit: u32) -> bool
    requires reach { Reach (length terms.now) weights (length weights.literals.now) }
    requires known { IsTotalKnown weights terms.now (length weights.literals.now) }
    requires goal { IsGoal terms.now (length terms.now) goal.bound }
    ensures { IsTrue result ↔ AgreesAt weights.entry terms.now goal unit }
{
    let end = weights.literals.len();
    let sum = total_part(terms, weights, end, Part::Coefficient(unit));
    is_multiple(terms, sum, goal, unit)
}

/// Whether the sum of the multiples agrees with so many times the goal at each unit of the term.
fn agrees_on(terms: &Graph, weights: Weights<'_>, goal: Target, t: u32) -> bool
    requires term { t < length terms.now }
    requires reach { Reach (length terms.now) weights (length weights.literals.now) }
    requires known { IsTotalKnown weights terms.now (length weights.literals.now) }
    requires goal { IsGoal terms.now (length terms.now) goal.bound }
    ensures { IsTrue result ↔ Agree weights.entry terms.now goal (units (sum_at terms.now t)) }
{
    match shape_at(terms, t) {
        Shape::Number(_) => true,
        Shape::Plus(a, b) => {
            let left = agrees_on(terms, weights, goal, a);
            let right = agrees_on(terms, weights, goal, b);
            left && right
        }
        Shape::Minus(a, b) => {
            let left = agrees_on(terms, weights, goal, a);
            let right = agrees_on(terms, weights, goal, b);
            left && right
        }
        Shape::Times(_, a) => agrees_on(terms, weights, goal, a),
        Shape::Alone => agrees_at(terms, weights, goal, t),
    }
}

/// Whether the sum of the multiples agrees with so many times the goal at each unit of the bound.
pub fn agrees_with(terms: &Graph, weights: Weights<'_>, goal: Target, bound: Option<Bound>) -> bool
    requires sides { IfSome bound (AreWithin (length terms.now)) }
    requires reach { Reach (length terms.now) weights (length weights.literals.now) }
    requires known { IsTotalKnown weights terms.now (length weights.literals.now) }
    requires goal { IsGoal terms.now (length terms.now) goal.bound }
    ensures { IsTrue result ↔ Agree weights.entry terms.now goal (bound_units terms.now bound) }
{
    match bound {
        Some(b) => {
            let left = agrees_on(terms, weights, goal, b.left);
            let right = agrees_on(terms, weights, goal, b.right);
            left && right
        }
        None => true,
    }
}

/// Whether the sum of the multiples agrees with so many times the goal at each unit of the literals' bounds.
pub fn agrees(terms: &Graph, weights: Weights<'_>, goal: Target) -> bool
    requires reach { Reach (length terms.now) weights (length weights.literals.now) }
    requires lengths { length weights.multipliers.now ≡ length weights.literals.now }
    requires known { IsTotalKnown weights terms.now (length weights.literals.now) }
    requires goal { IsGoal terms.now (length terms.now) goal.bound }
    ensures { IsTrue result ↔ AgreeAll weights.entry terms.now goal }
{
    for i in 0..weights.literals.len() {
        let bound = bound_for(terms, weights.sorts, weights.literals[i]);
        if !agrees_with(terms, weights, goal, bound) {
            return false;
        }
    }
    true
}
