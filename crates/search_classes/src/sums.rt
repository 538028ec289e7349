//! What the sums of bounds come to that the true literals give.

use crate::classes::Classes;
use crate::explain::Explanations;
use crate::forms::{Form, is_unit};
use crate::gaps::first_gap;
use bound_solver::stop::Stop;
use bound_solver::system::{Answer, System, Values};
use cert_format::certificate::RuleName;
use search_clauses::ledger::Ledger;
use search_clauses::literals::{negated, no};
use search_clauses::steps::Number;
use search_clauses::trail::Trail;
use std::alloc::{AllocError, Global};
use terms::term::{Kind, Literal};

/// What the sums come to.
#[derive(Drop)]
pub enum Sums {
    /// the clause of this step is false
    Conflict(u32),
    /// two integers that are to differ get one value in these equations
    Meet(Vec<u32>),
    /// the value of a sum isn't whole: the equation of the sum and the whole number below it
    Gap(u32),
    /// there are values for all
    Settled,
    /// a number left 128 bits, or the turns were spent
    GaveUp,
}

/// What a unit of the sum is replaced by.
#[derive(Clone, Copy)]
struct Exchange {
    unit: u32,
    other: u32,
    factor: i128,
}

/// What the sums of bounds come to.
///
/// # Errors
/// Where memory is refused.
pub fn add_up(
    ledger: &mut Ledger<'_>,
    classes: &Classes,
    trail: &Trail,
    explanations: &mut Explanations,
) -> Result<Sums, AllocError> {
    match attempt(ledger, classes, trail, explanations) {
        Ok(answer) => Ok(answer),
        Err(Stop::Wide) => Ok(Sums::GaveUp),
        Err(Stop::Memory) => Err(AllocError),
    }
}

/// What the sums come to, unless a number leaves 128 bits.
fn attempt(
    ledger: &mut Ledger<'_>,
    classes: &Classes,
    trail: &Trail,
    explanations: &mut Explanations,
) -> Result<Sums, Stop> {
    let mut system = System::new(ledger.alloc);
    let bounds = enter_bounds(ledger, classes, trail, &mut system)?;
    match system.solve()? {
        Answer::GaveUp => Ok(Sums::GaveUp),
        Answer::Values(values) => coincidences(ledger, classes, trail, &values),
        Answer::Contradiction(multipliers) => explanations.refute(
            ledger,
            classes,
            bounds.as_slice(),
            multipliers.as_slice(),
        ),
    }
}

/// Enters what the true literals bound, and gives those that do.
fn enter_bounds(
    ledger: &Ledger<'_>,
    classes: &Classes,
    trail: &Trail,
    system: &mut System,
) -> Result<Vec<Literal>, Stop> {
    let mut bounds = Vec::new(ledger.alloc);
    for place in 0..trail.len() {
        if let Some(literal) = trail.literal(place) {
            if has_bound(ledger, literal) && enter_bound(ledger, classes, system, literal)? {
                bounds.push(literal)?;
            }
        }
    }
    Ok(bounds)
}

/// Whether a literal bounds a sum: an inequation of either sign, or a true equation of integers.
fn has_bound(ledger: &Ledger<'_>, literal: Literal) -> bool {
    match ledger.kind(literal.term) {
        Kind::Le => true,
        Kind::Eq => literal.positive && ledger.is_int_equation(literal.term),
        _ => false,
    }
}

/// Enters the bound of a literal, unless it says nothing.
fn enter_bound(
    ledger: &Ledger<'_>,
    classes: &Classes,
    system: &mut System,
    literal: Literal,
) -> Result<bool, Stop> {
    let mut form = Form::new(ledger.alloc);
    form.add_bound(ledger, literal, 1)?;
    let over = form.over_classes(ledger, classes)?;
    if over.parts.is_empty() && over.constant == 0 {
        return Ok(false);
    }
    let equal = ledger.kind(literal.term) == Kind::Eq;
    system.add(over.parts.as_slice(), over.constant, equal)?;
    Ok(true)
}

/// The equations that are to be false, and whose sides have one value.
fn coincidences(
    ledger: &mut Ledger<'_>,
    classes: &Classes,
    trail: &Trail,
    values: &Values,
) -> Result<Sums, Stop> {
    let mut equations = Vec::new(ledger.alloc);
    for place in 0..trail.len() {
        if let Some(literal) = trail.literal(place) {
            if !literal.positive && ledger.is_int_equation(literal.term) {
                if meets(ledger, classes, values, literal.term)? {
                    equations.push(literal.term)?;
                }
            }
        }
    }
    if equations.is_empty() {
        return match first_gap(ledger, classes, trail, values)? {
            Some(equation) => Ok(Sums::Gap(equation)),
            None => Ok(Sums::Settled),
        };
    }
    Ok(Sums::Meet(equations))
}

/// Whether the sides of an equation have one value.
fn meets(
    ledger: &Ledger<'_>,
    classes: &Classes,
    values: &Values,
    equation: u32,
) -> Result<bool, Stop> {
    let mut form = Form::new(ledger.alloc);
    form.add_term(ledger, ledger.arg(equation, 0), 1)?;
    form.add_term(ledger, ledger.arg(equation, 1), -1)?;
    let over = form.over_classes(ledger, classes)?;
    Ok(values.is_zero(over.parts.as_slice(), over.constant))
}

/// The term that a unit is replaced by: the number in its class, or the unit of the class with the least number.
pub(crate) fn stand_in(ledger: &Ledger<'_>, classes: &Classes, unit: u32) -> u32 {
    if let Some(number) = classes.members.class(unit).number {
        return number;
    }
    let mut least = unit;
    let mut term = unit;
    for _ in 0..classes.members.len() {
        term = classes.members.get(term).next;
        if term == unit {
            return least;
        }
        if term < least && is_unit(ledger, term) {
            least = term;
        }
    }
    least
}

/// A sum of multiples of bounds: what it comes to, the clause that denies those bounds, and the multipliers.
#[derive(Drop)]
struct Combination {
    total: Form,
    clause: Vec<Literal>,
    multipliers: Vec<Number>,
}

impl Combination {
    /// 0, of no bounds.
    fn new(alloc: Global) -> Combination {
        Combination {
            total: Form::new(alloc),
            clause: Vec::new(alloc),
            multipliers: Vec::new(alloc),
        }
    }

    /// Adds a multiple of what a literal bounds.
    fn add(&mut self, ledger: &Ledger<'_>, literal: Literal, multiplier: i128) -> Result<(), Stop> {
        self.total.add_bound(ledger, literal, multiplier)?;
        self.clause.push(negated(literal))?;
        self.multipliers.push(Number::Plain(multiplier))?;
        Ok(())
    }

    /// Replaces a unit, by the equation of it and the other term.
    fn exchange(
        &mut self,
        ledger: &Ledger<'_>,
        exchange: Exchange,
        equation: u32,
    ) -> Result<(), Stop> {
        let opposite = exchange.factor.saturating_mul(-1);
        self.total.add_term(ledger, exchange.unit, exchange.factor)?;
        self.total.add_term(ledger, exchange.other, opposite)?;
        self.clause.push(no(equation))?;
        self.multipliers.push(Number::Plain(exchange.factor))?;
        Ok(())
    }

    /// Whether it comes to a positive number, which is to be at most 0.
    fn is_false(&self) -> bool {
        self.total.parts.is_empty() && self.total.constant > 0
    }
}

impl Explanations {
    /// The step of a clause that is false, since the sum of multiples of the bounds is.
    fn refute(
        &mut self,
        ledger: &mut Ledger<'_>,
        classes: &Classes,
        bounds: &[Literal],
        multipliers: &[i128],
    ) -> Result<Sums, Stop> {
        self.explainer.begin();
        let mut sum = Combination::new(ledger.alloc);
        for (literal, multiplier) in bounds.iter().zip(multipliers) {
            if *multiplier != 0 {
                self.explainer.rest_on(*literal)?;
                sum.add(ledger, *literal, *multiplier)?;
            }
        }
        self.exchange_units(ledger, classes, &mut sum)?;
        if !sum.is_false() {
            return Ok(Sums::GaveUp);
        }
        self.explainer.step(
            ledger,
            RuleName::Linear,
            sum.multipliers.as_slice(),
            sum.clause.as_slice(),
        )?;
        let step = self.explainer.end(ledger, &[])?;
        Ok(Sums::Conflict(step))
    }

    /// Replaces the units of a sum by one for each class.
    fn exchange_units(
        &mut self,
        ledger: &mut Ledger<'_>,
        classes: &Classes,
        sum: &mut Combination,
    ) -> Result<(), Stop> {
        let exchanges = exchanges_of(ledger, classes, &sum.total)?;
        for exchange in exchanges.as_slice() {
            self.explainer.want(exchange.unit, exchange.other)?;
        }
        self.explainer.gather(ledger, classes)?;
        for exchange in exchanges.as_slice() {
            let equation = self
                .explainer
                .derive(ledger, classes, exchange.unit, exchange.other)?;
            sum.exchange(ledger, *exchange, equation)?;
        }
        Ok(())
    }
}

/// What the units of a sum are replaced by, and how many times each equation is added for that.
fn exchanges_of(
    ledger: &Ledger<'_>,
    classes: &Classes,
    total: &Form,
) -> Result<Vec<Exchange>, Stop> {
    let mut exchanges = Vec::new(ledger.alloc);
    for part in total.parts.as_slice() {
        let other = stand_in(ledger, classes, part.unit);
        if other != part.unit {
            exchanges.push(Exchange {
                unit: part.unit,
                other,
                factor: part.factor.saturating_mul(-1),
            })?;
        }
    }
    Ok(exchanges)
}
