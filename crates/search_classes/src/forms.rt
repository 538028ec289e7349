//! Integers as sums of multiples of units.

use crate::classes::Classes;
use bound_solver::ratio::{product, sum};
use bound_solver::stop::Stop;
use bound_solver::system::Monomial;
use search_clauses::ledger::Ledger;
use std::alloc::Global;
use terms::term::{Kind, Literal};

/// A sum of multiples of different units, none of them 0 times, and a constant.
#[derive(Drop)]
pub struct Form {
    pub parts: Vec<Monomial>,
    pub constant: i128,
}

/// So many times a term.
#[derive(Clone, Copy)]
struct Multiple {
    term: u32,
    factor: i128,
}

impl Form {
    /// 0
    pub fn new(alloc: Global) -> Form {
        Form {
            parts: Vec::new(alloc),
            constant: 0,
        }
    }

    /// Adds a number.
    fn add_constant(&mut self, number: i128) -> Result<(), Stop> {
        self.constant = sum(self.constant, number)?;
        Ok(())
    }

    /// Adds a multiple of a unit.
    fn add_unit(&mut self, unit: u32, factor: i128) -> Result<(), Stop> {
        if factor == 0 {
            return Ok(());
        }
        for place in 0..self.parts.len() {
            if self.unit_at(place) == Some(unit) {
                return self.add_at(place, factor);
            }
        }
        self.parts.push(Monomial { unit, factor })?;
        Ok(())
    }

    /// How many times the unit is part of the sum.
    pub(crate) fn factor_of(&self, unit: u32) -> i128 {
        for part in self.parts.as_slice() {
            if part.unit == unit {
                return part.factor;
            }
        }
        0
    }

    /// Adds a multiple of the parts of another sum.
    pub(crate) fn add_form(&mut self, other: &Form, factor: i128) -> Result<(), Stop> {
        for part in other.parts.as_slice() {
            self.add_unit(part.unit, product(part.factor, factor)?)?;
        }
        Ok(())
    }

    /// The unit of the part at a place.
    fn unit_at(&self, place: usize) -> Option<u32> {
        match self.parts.get(place) {
            Some(part) => Some(part.unit),
            None => None,
        }
    }

    /// Adds to the factor of a part, which goes where it becomes 0.
    fn add_at(&mut self, place: usize, factor: i128) -> Result<(), Stop> {
        if place >= self.parts.len() {
            return Ok(());
        }
        let changed = sum(self.parts[place].factor, factor)?;
        if changed == 0 {
            let _part = self.parts.swap_remove(place);
            return Ok(());
        }
        self.parts[place].factor = changed;
        Ok(())
    }

    /// Adds a multiple of a term.
    pub fn add_term(&mut self, ledger: &Ledger<'_>, term: u32, factor: i128) -> Result<(), Stop> {
        let mut left = Vec::new(ledger.alloc);
        left.push(Multiple { term, factor })?;
        for _ in 0..u64::MAX {
            let Some(multiple) = left.pop() else {
                return Ok(());
            };
            self.take_apart(ledger, multiple, &mut left)?;
        }
        Ok(())
    }

    /// Adds a multiple of a unit or a number, or leaves multiples of the parts to be added.
    fn take_apart(
        &mut self,
        ledger: &Ledger<'_>,
        multiple: Multiple,
        left: &mut Vec<Multiple>,
    ) -> Result<(), Stop> {
        let Multiple { term, factor } = multiple;
        let first = ledger.arg(term, 0);
        let second = ledger.arg(term, 1);
        match shape_of(ledger, term) {
            Shape::Number => self.add_constant(product(factor, ledger.index(term))?),
            Shape::Unit => self.add_unit(term, factor),
            Shape::Sum(sign) => {
                left.push(Multiple {
                    term: first,
                    factor,
                })?;
                left.push(Multiple {
                    term: second,
                    factor: product(factor, sign)?,
                })?;
                Ok(())
            }
            Shape::Times(number, other) => {
                left.push(Multiple {
                    term: other,
                    factor: product(factor, ledger.index(number))?,
                })?;
                Ok(())
            }
        }
    }

    /// Adds what the literal bounds, where it is true: at most 0, or 0 where it is an equation.
    pub fn add_bound(
        &mut self,
        ledger: &Ledger<'_>,
        literal: Literal,
        factor: i128,
    ) -> Result<(), Stop> {
        let left = ledger.arg(literal.term, 0);
        let right = ledger.arg(literal.term, 1);
        let opposite = product(factor, -1)?;
        if literal.positive {
            self.add_term(ledger, left, factor)?;
            return self.add_term(ledger, right, opposite);
        }
        self.add_term(ledger, right, factor)?;
        self.add_term(ledger, left, opposite)?;
        self.add_constant(factor)
    }

    /// The same over classes: each unit's class in its place, or the number in that.
    pub fn over_classes(&self, ledger: &Ledger<'_>, classes: &Classes) -> Result<Form, Stop> {
        let mut form = Form::new(ledger.alloc);
        form.add_constant(self.constant)?;
        for part in self.parts.as_slice() {
            match classes.members.class(part.unit).number {
                Some(number) => {
                    form.add_constant(product(part.factor, ledger.index(number))?)?;
                }
                None => form.add_unit(classes.members.head(part.unit), part.factor)?,
            }
        }
        Ok(form)
    }
}

/// What an integer is made of.
#[derive(Clone, Copy)]
enum Shape {
    Number,
    Unit,
    /// the first argument, and so many times the second
    Sum(i128),
    /// this number times the other argument
    Times(u32, u32),
}

/// What a term is made of.
fn shape_of(ledger: &Ledger<'_>, term: u32) -> Shape {
    match ledger.kind(term) {
        Kind::Int => Shape::Number,
        Kind::Add => Shape::Sum(1),
        Kind::Sub => Shape::Sum(-1),
        Kind::Mul => product_of(ledger, ledger.arg(term, 0), ledger.arg(term, 1)),
        _ => Shape::Unit,
    }
}

/// What a product is made of: a multiple of a term, where one of the two is a number.
fn product_of(ledger: &Ledger<'_>, left: u32, right: u32) -> Shape {
    if ledger.kind(left) == Kind::Int {
        return Shape::Times(left, right);
    }
    if ledger.kind(right) == Kind::Int {
        return Shape::Times(right, left);
    }
    Shape::Unit
}

/// Whether the term stands for itself in sums.
pub fn is_unit(ledger: &Ledger<'_>, term: u32) -> bool {
    matches!(shape_of(ledger, term), Shape::Unit)
}
