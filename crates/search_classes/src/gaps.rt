//! Sums that are whole numbers, and whose values aren't.

use crate::classes::Classes;
use crate::forms::Form;
use crate::sums::stand_in;
use bound_solver::ratio::{product, quotient};
use bound_solver::stop::Stop;
use bound_solver::system::{Monomial, Values};
use search_clauses::ledger::Ledger;
use search_clauses::trail::Trail;
use std::alloc::{AllocError, Global};
use terms::term::Kind;

/// The equation of a sum whose value isn't whole and the whole number below it, where a unit's value isn't. The sum is
/// that of the parts of a row whose factors one of them divides, divided by it, or a unit where no row has two such
/// parts. Rows are the true equations of integers, and what two of them give that takes a unit away.
pub(crate) fn first_gap(
    ledger: &mut Ledger<'_>,
    classes: &Classes,
    trail: &Trail,
    values: &Values,
) -> Result<Option<u32>, Stop> {
    let Some(unit) = values.first_gap() else {
        return Ok(None);
    };
    let rows = rows_of(ledger, classes, trail)?;
    let mut gap = gap_in_rows(ledger, classes, values, rows.as_slice())?;
    if gap.is_none() {
        gap = gap_in_pairs(ledger, classes, values, rows.as_slice())?;
    }
    if gap.is_none() {
        gap = gap_of(ledger, classes, values, &[Monomial { unit, factor: 1 }])?;
    }
    Ok(gap)
}

/// The true equations of integers, over classes.
fn rows_of(ledger: &Ledger<'_>, classes: &Classes, trail: &Trail) -> Result<Vec<Form>, Stop> {
    let mut rows = Vec::new(ledger.alloc);
    for place in 0..trail.len() {
        if let Some(literal) = trail.literal(place) {
            if literal.positive && ledger.is_int_equation(literal.term) {
                let mut form = Form::new(ledger.alloc);
                form.add_bound(ledger, literal, 1)?;
                rows.push(form.over_classes(ledger, classes)?)?;
            }
        }
    }
    Ok(rows)
}

/// Whether the value of a unit of these parts isn't whole.
fn has_gap(values: &Values, parts: &[Monomial]) -> bool {
    for part in parts {
        if values.of(part.unit).bottom() > 1 {
            return true;
        }
    }
    false
}

/// The equation at which a row is to be split.
fn gap_in_rows(
    ledger: &mut Ledger<'_>,
    classes: &Classes,
    values: &Values,
    rows: &[Form],
) -> Result<Option<u32>, Stop> {
    for row in rows {
        if has_gap(values, row.parts.as_slice()) {
            let gap = gap_in(ledger, classes, values, row.parts.as_slice())?;
            if gap.is_some() {
                return Ok(gap);
            }
        }
    }
    Ok(None)
}

/// The equation at which what two rows give is to be split.
fn gap_in_pairs(
    ledger: &mut Ledger<'_>,
    classes: &Classes,
    values: &Values,
    rows: &[Form],
) -> Result<Option<u32>, Stop> {
    for row in rows {
        if has_gap(values, row.parts.as_slice()) {
            let pairs = pairs_of(ledger.alloc, row, rows)?;
            let gap = gap_in_rows(ledger, classes, values, pairs.as_slice())?;
            if gap.is_some() {
                return Ok(gap);
            }
        }
    }
    Ok(None)
}

/// What a row gives with each of the others.
fn pairs_of(alloc: Global, row: &Form, others: &[Form]) -> Result<Vec<Form>, Stop> {
    let mut pairs = Vec::new(alloc);
    for other in others {
        add_pairs(alloc, row, other, &mut pairs)?;
    }
    Ok(pairs)
}

/// Adds what a row gives with another for each unit of both that the other has once: that unit is gone.
fn add_pairs(alloc: Global, row: &Form, other: &Form, pairs: &mut Vec<Form>) -> Result<(), Stop> {
    for part in other.parts.as_slice() {
        let factor = row.factor_of(part.unit);
        if factor != 0 && (part.factor == 1 || part.factor == -1) {
            let multiple = product(factor, product(part.factor, -1)?)?;
            let mut pair = Form::new(alloc);
            pair.add_form(row, 1)?;
            pair.add_form(other, multiple)?;
            pairs.push(pair)?;
        }
    }
    Ok(())
}

/// The equation at which the parts of a row are to be split.
fn gap_in(
    ledger: &mut Ledger<'_>,
    classes: &Classes,
    values: &Values,
    parts: &[Monomial],
) -> Result<Option<u32>, Stop> {
    for part in parts {
        if part.factor > 1 || part.factor < -1 {
            let shares = multiples_of(ledger.alloc, parts, part.factor)?;
            if shares.len() > 1 {
                let gap = gap_of(ledger, classes, values, shares.as_slice())?;
                if gap.is_some() {
                    return Ok(gap);
                }
            }
        }
    }
    Ok(None)
}

/// The parts whose factors the divisor divides, divided by it.
fn multiples_of(alloc: Global, parts: &[Monomial], divisor: i128) -> Result<Vec<Monomial>, Stop> {
    let mut shares = Vec::new(alloc);
    for part in parts {
        let factor = quotient(part.factor, divisor)?;
        if product(factor, divisor)? == part.factor {
            shares.push(Monomial {
                unit: part.unit,
                factor,
            })?;
        }
    }
    Ok(shares)
}

/// The equation of the sum of these parts and the whole number below its value, where that isn't whole.
fn gap_of(
    ledger: &mut Ledger<'_>,
    classes: &Classes,
    values: &Values,
    parts: &[Monomial],
) -> Result<Option<u32>, Stop> {
    let value = values.sum(parts, 0)?;
    if value.bottom() <= 1 {
        return Ok(None);
    }
    let equation = equation_of(ledger, classes, parts, value.floor())?;
    Ok(Some(equation))
}

/// The equation of the sum of these parts and a number; parts with a factor below 0 stand beside the number.
fn equation_of(
    ledger: &mut Ledger<'_>,
    classes: &Classes,
    parts: &[Monomial],
    number: i128,
) -> Result<u32, Stop> {
    let mut left = None;
    let mut right = None;
    if number != 0 {
        right = Some(ledger.add(Kind::Int, number, &[])?);
    }
    for part in parts {
        let unit = stand_in(ledger, classes, part.unit);
        if part.factor > 0 {
            left = Some(plus(ledger, left, unit, part.factor)?);
        } else {
            right = Some(plus(ledger, right, unit, product(part.factor, -1)?)?);
        }
    }
    let left = or_zero(ledger, left)?;
    let right = or_zero(ledger, right)?;
    let equation = ledger.equation(left, right)?;
    Ok(equation)
}

/// The sum, where there is one; else 0.
fn or_zero(ledger: &mut Ledger<'_>, sum: Option<u32>) -> Result<u32, AllocError> {
    match sum {
        Some(sum) => Ok(sum),
        None => ledger.add(Kind::Int, 0, &[]),
    }
}

/// The sum, where there is one, and so many times a unit.
fn plus(
    ledger: &mut Ledger<'_>,
    sum: Option<u32>,
    unit: u32,
    factor: i128,
) -> Result<u32, AllocError> {
    let mut term = unit;
    if factor != 1 {
        let number = ledger.add(Kind::Int, factor, &[])?;
        term = ledger.add(Kind::Mul, 0, &[number, unit])?;
    }
    match sum {
        Some(sum) => ledger.add(Kind::Add, 0, &[sum, term]),
        None => Ok(term),
    }
}
