//! Exact sums and products, part by part: the first that leaves 128 bits.

ghost use Rattle.std.specs.Prelude.{◌≡◌, ◌<◌, ◌∷◌, ◌+◌, [], length, IfOk, IfErr};
ghost use Rattle.vcc_rules.specs.Law.{IsWithin};
ghost use Rattle.rule_linear.specs.Below.{IsBelow};
ghost use Rattle.rule_linear.specs.Forms.{plus, minus, times, units, number_of, steps, step_at, sum_at, of_shape, FirstLeaves};
ghost use Rattle.rule_linear.specs.Bounds.{Meets, difference, one_step, bound_steps};
ghost use Rattle.rule_linear.specs.declared.form.Part.TheVariants.{Constant};
ghost use Rattle.rule_linear.specs.Sides.{AreWithin, Reach};
ghost use Rattle.rule_linear.specs.Walks.{IsExact, IsKnown, IsBoundKnown, IsJobWithin, job_step, unit_steps, part_steps, AreExact};
ghost use Rattle.rule_linear.specs.Walks.{IsTotalKnown, units_of_two, more_steps, IsMoreKnown, all_steps, IsAllKnown, literal_steps, IsNextKnown, FitElsewhere};

use crate::bound::{Bound, Weights, bound_for, bound_part, total_part};
use crate::form::{Part, Shape, part_at, shape_at, wrapped_difference, wrapped_product};
use int_ranges::exact::{Wide, add_exact, mul_exact, sub_exact};
use term_graph::graph::Graph;

/// What is worked out at each part.
#[derive(Clone, Copy, Debug)]
pub enum Job {
    /// the form of this shape, from the forms of its parts
    Combine(Shape),
    /// the number times the bound
    Multiply(i128, Bound),
    /// the sum of the first multiples, and the number times the bound
    Add(i128, Bound),
}

/// Whether the sum fits.
///
/// # Errors
/// The operands, where it doesn't.
fn add_fits(x: i128, y: i128) -> Result<(), Wide>
    ensures { Meets (plus x y ∷ []) result }
{
    add_exact(x, y)?;
    Ok(())
}

/// Whether the difference fits.
///
/// # Errors
/// The operands, where it doesn't.
fn sub_fits(x: i128, y: i128) -> Result<(), Wide>
    ensures { Meets (minus x y ∷ []) result }
{
    sub_exact(x, y)?;
    Ok(())
}

/// Whether the product fits.
///
/// # Errors
/// The operands, where it doesn't.
fn mul_fits(x: i128, y: i128) -> Result<(), Wide>
    ensures { Meets (times x y ∷ []) result }
{
    mul_exact(x, y)?;
    Ok(())
}

/// Works out the part of a shape's form.
///
/// # Errors
/// The operands, where the result doesn't fit.
fn combine(terms: &Graph, shape: Shape, part: Part) -> Result<(), Wide>
    requires below { IsBelow (length terms.now) shape }
    requires exact { IsExact (step_at (of_shape (sum_at terms.now) 0 shape) part) }
    ensures { Meets (step_at (of_shape (sum_at terms.now) 0 shape) part ∷ []) result }
{
    match shape {
        Shape::Plus(a, b) => add_fits(part_at(terms, a, part), part_at(terms, b, part)),
        Shape::Minus(a, b) => sub_fits(part_at(terms, a, part), part_at(terms, b, part)),
        Shape::Times(n, a) => mul_fits(n, part_at(terms, a, part)),
        Shape::Number(_) => Ok(()),
        Shape::Alone => Ok(()),
    }
}

/// Works out a job at a part.
///
/// # Errors
/// The operands, where the result doesn't fit.
fn take_step(
    terms: &Graph,
    weights: Weights<'_>,
    end: usize,
    job: Job,
    part: Part,
) -> Result<(), Wide>
    requires reach { Reach (length terms.now) weights end }
    requires names { IsJobWithin (length terms.now) job }
    requires exact { IsExact (job_step weights terms.now end job part) }
    ensures { Meets (job_step weights.entry terms.now end job part ∷ []) result }
{
    match job {
        Job::Combine(shape) => combine(terms, shape, part),
        Job::Multiply(m, b) => mul_fits(m, bound_part(terms, b, part)),
        Job::Add(m, b) => {
            let sum = total_part(terms, weights, end, part);
            let number = bound_part(terms, b, part);
            let product = wrapped_product(m, number);
            add_fits(sum, product)
        }
    }
}

/// Works out a job at each unit of the term, in their order.
///
/// # Errors
/// The operands of the first result that doesn't fit.
#[tactic(auto, using(crate::proofs::InOrder::left_leaves, crate::proofs::InOrder::right_meets, crate::proofs::InOrder::left_leaves_minus, crate::proofs::InOrder::right_meets_minus))]
fn walk(terms: &Graph, weights: Weights<'_>, end: usize, job: Job, t: u32) -> Result<(), Wide>
    requires term { t < length terms.now }
    requires reach { Reach (length terms.now) weights end }
    requires names { IsJobWithin (length terms.now) job }
    requires exact { AreExact weights terms.now end job }
    ensures { Meets (unit_steps weights.entry terms.now end job (units (sum_at terms.now t))) result }
{
    match shape_at(terms, t) {
        Shape::Number(_) => Ok(()),
        Shape::Plus(a, b) => {
            walk(terms, weights, end, job, a)?;
            walk(terms, weights, end, job, b)
        }
        Shape::Minus(a, b) => {
            walk(terms, weights, end, job, a)?;
            walk(terms, weights, end, job, b)
        }
        Shape::Times(_, a) => walk(terms, weights, end, job, a),
        Shape::Alone => take_step(terms, weights, end, job, Part::Coefficient(t)),
    }
}

/// Works out a job at each unit of two terms, in their order, and then at the constant.
///
/// # Errors
/// The operands of the first result that doesn't fit.
#[tactic(auto, using(crate::proofs::InOrder::first_units_leave, crate::proofs::InOrder::second_units_leave, crate::proofs::InOrder::both_constant_meets))]
fn walk_two(
    terms: &Graph,
    weights: Weights<'_>,
    end: usize,
    job: Job,
    a: u32,
    b: u32,
) -> Result<(), Wide>
    requires left { a < length terms.now }
    requires right { b < length terms.now }
    requires reach { Reach (length terms.now) weights end }
    requires names { IsJobWithin (length terms.now) job }
    requires exact { AreExact weights terms.now end job }
    ensures { Meets (part_steps weights.entry terms.now end job (units_of_two terms.now a b)) result }
{
    walk(terms, weights, end, job, a)?;
    walk(terms, weights, end, job, b)?;
    take_step(terms, weights, end, job, Part::Constant)
}

/// Works out a job at each unit of the term, in their order, and then at the constant.
///
/// # Errors
/// The operands of the first result that doesn't fit.
#[tactic(auto, using(crate::proofs::InOrder::units_leave, crate::proofs::InOrder::constant_meets))]
fn walk_one(terms: &Graph, weights: Weights<'_>, end: usize, job: Job, a: u32) -> Result<(), Wide>
    requires term { a < length terms.now }
    requires reach { Reach (length terms.now) weights end }
    requires names { IsJobWithin (length terms.now) job }
    requires exact { AreExact weights terms.now end job }
    ensures { Meets (part_steps weights.entry terms.now end job (units (sum_at terms.now a))) result }
{
    walk(terms, weights, end, job, a)?;
    take_step(terms, weights, end, job, Part::Constant)
}

/// Works out a job at each unit of two terms and at the constant, where its results fit at all units that the second
/// lacks. So the units of the first are gone through only to find the first result that doesn't fit.
///
/// # Errors
/// The operands of the first result that doesn't fit.
#[tactic(auto, using(crate::proofs::Known::after_meets))]
fn combine_two(terms: &Graph, weights: Weights<'_>, job: Job, a: u32, b: u32) -> Result<(), Wide>
    requires left { a < length terms.now }
    requires right { b < length terms.now }
    requires reach { Reach (length terms.now) weights 0 }
    requires names { IsJobWithin (length terms.now) job }
    requires exact { AreExact weights terms.now 0 job }
    requires elsewhere { FitElsewhere weights terms.now job b }
    ensures { Meets (part_steps weights.entry terms.now 0 job (units_of_two terms.now a b)) result }
{
    match walk(terms, weights, 0, job, b) {
        Ok(()) => take_step(terms, weights, 0, job, Part::Constant),
        Err(_) => walk_two(terms, weights, 0, job, a, b),
    }
}

/// Works out the form of the term.
///
/// # Errors
/// The operands of the first result that doesn't fit.
#[tactic(auto, using(crate::proofs::Known::number_known, crate::proofs::Known::single_known, crate::proofs::Known::plus_known, crate::proofs::Known::minus_known, crate::proofs::Known::times_known, crate::proofs::Known::plus_left, crate::proofs::Known::plus_right, crate::proofs::Known::plus_whole, crate::proofs::Known::minus_left, crate::proofs::Known::minus_right, crate::proofs::Known::minus_whole, crate::proofs::Known::times_left, crate::proofs::Known::times_whole, crate::proofs::Known::plus_elsewhere, crate::proofs::Known::minus_elsewhere))]
fn form(terms: &Graph, weights: Weights<'_>, t: u32) -> Result<(), Wide>
    requires term { t < length terms.now }
    requires within { IsWithin (length terms.now) weights.literals.now }
    ensures known { IfOk result (λ done. IsKnown (sum_at terms.now t)) }
    ensures wide { IfErr result (FirstLeaves (steps (sum_at terms.now t))) }
{
    match shape_at(terms, t) {
        Shape::Number(_) => Ok(()),
        Shape::Plus(a, b) => {
            form(terms, weights, a)?;
            form(terms, weights, b)?;
            combine_two(terms, weights, Job::Combine(Shape::Plus(a, b)), a, b)?;
            Ok(())
        }
        Shape::Minus(a, b) => {
            form(terms, weights, a)?;
            form(terms, weights, b)?;
            combine_two(terms, weights, Job::Combine(Shape::Minus(a, b)), a, b)?;
            Ok(())
        }
        Shape::Times(n, a) => {
            form(terms, weights, a)?;
            walk_one(terms, weights, 0, Job::Combine(Shape::Times(n, a)), a)?;
            Ok(())
        }
        Shape::Alone => Ok(()),
    }
}

/// Adds the 1 of a strict bound.
///
/// # Errors
/// The operands, where the result doesn't fit.
#[tactic(auto, using(crate::proofs::Adding::none_meets))]
fn add_one(terms: &Graph, b: Bound) -> Result<(), Wide>
    requires sides { AreWithin (length terms.now) b }
    requires known { IsKnown (difference terms.now b) }
    ensures { Meets (one_step b.strict (number_of (difference terms.now b) Constant)) result }
{
    if b.strict {
        let left = part_at(terms, b.left, Part::Constant);
        let right = part_at(terms, b.right, Part::Constant);
        let constant = wrapped_difference(left, right);
        add_fits(constant, 1)
    } else {
        Ok(())
    }
}

/// Works out the form of a bound.
///
/// # Errors
/// The operands of the first result that doesn't fit.
#[tactic(auto, using(crate::proofs::Adding::difference_known, crate::proofs::Adding::bound_known, crate::proofs::Adding::bound_left, crate::proofs::Adding::bound_right, crate::proofs::Adding::bound_whole, crate::proofs::Adding::bound_one, crate::proofs::Known::minus_elsewhere))]
pub fn bound_form(terms: &Graph, weights: Weights<'_>, b: Bound) -> Result<(), Wide>
    requires sides { AreWithin (length terms.now) b }
    requires within { IsWithin (length terms.now) weights.literals.now }
    ensures known { IfOk result (λ done. IsBoundKnown terms.now b) }
    ensures wide { IfErr result (FirstLeaves (bound_steps terms.now b)) }
{
    form(terms, weights, b.left)?;
    form(terms, weights, b.right)?;
    combine_two(
        terms,
        weights,
        Job::Combine(Shape::Minus(b.left, b.right)),
        b.left,
        b.right,
    )?;
    add_one(terms, b)?;
    Ok(())
}

/// Adds a multiple of a bound to the sum of the first multiples.
///
/// # Errors
/// The operands of the first result that doesn't fit.
#[tactic(auto, using(crate::proofs::Adding::products_known, crate::proofs::Adding::sums_known, crate::proofs::InOrder::fit_both, crate::proofs::InOrder::leaves_first, crate::proofs::InOrder::leaves_second))]
fn add_bound(terms: &Graph, weights: Weights<'_>, end: usize, m: i128, b: Bound) -> Result<(), Wide>
    requires sides { AreWithin (length terms.now) b }
    requires reach { Reach (length terms.now) weights end }
    requires known { IsTotalKnown weights terms.now end }
    ensures fit { IfOk result (λ done. IsMoreKnown weights.entry terms.now end m b) }
    ensures wide { IfErr result (FirstLeaves (more_steps weights.entry terms.now end m b)) }
{
    bound_form(terms, weights, b)?;
    walk_two(terms, weights, end, Job::Multiply(m, b), b.left, b.right)?;
    walk_two(terms, weights, end, Job::Add(m, b), b.left, b.right)?;
    Ok(())
}

/// Adds the multiple of the literal at this place to the sum of those before.
///
/// # Errors
/// The operands of the first result that doesn't fit.
#[tactic(auto, using(crate::proofs::Places::next_some, crate::proofs::Places::next_none, crate::proofs::Places::leaves_some))]
fn add_literal(terms: &Graph, weights: Weights<'_>, i: usize) -> Result<(), Wide>
    requires reach { Reach (length terms.now) weights (i + 1) }
    requires known { IsTotalKnown weights terms.now i }
    ensures known { IfOk result (λ done. IsNextKnown weights.entry terms.now i) }
    ensures wide { IfErr result (FirstLeaves (literal_steps weights.entry terms.now i)) }
{
    match bound_for(terms, weights.sorts, weights.literals[i]) {
        Some(b) => add_bound(terms, weights, i, weights.multipliers[i], b),
        None => Ok(()),
    }
}

/// Adds the multiples of the literals' bounds up.
///
/// # Errors
/// The operands of the first result that doesn't fit.
#[tactic(auto, using(crate::proofs::Places::none_known, crate::proofs::Places::start_known, crate::proofs::Places::next_leaves, crate::proofs::Places::next_known, crate::proofs::Places::all_known))]
pub fn add_up(terms: &Graph, weights: Weights<'_>) -> Result<(), Wide>
    requires within { IsWithin (length terms.now) weights.literals.now }
    requires lengths { length weights.multipliers.now ≡ length weights.literals.now }
    ensures known { IfOk result (λ done. IsAllKnown weights.entry terms.now) }
    ensures wide { IfErr result (FirstLeaves (all_steps weights.entry terms.now)) }
{
    for i in 0..weights.literals.len() {
        add_literal(terms, weights, i)?;
    }
    Ok(())
}
