//! Systems of linear bounds.

use crate::multipliers::{common_multiple, whole_multipliers};
use crate::ratio::Ratio;
use crate::stop::Stop;
use crate::tableau::{Tableau, Turn};
use crate::units::{place_of, units_of};
use std::alloc::{AllocError, Global};

/// A number times a unit.
#[derive(Clone, Copy, Debug)]
pub struct Monomial {
    pub unit: u32,
    pub factor: i128,
}

/// That a sum is at most 0, or is 0 where equal. Its parts stand in the system from `start` to `end`.
#[derive(Clone, Copy, Debug)]
struct Bound {
    start: usize,
    end: usize,
    constant: i128,
    equal: bool,
}

/// Bounds that are to hold together.
#[derive(Debug, Drop)]
pub struct System {
    parts: Vec<Monomial>,
    bounds: Vec<Bound>,
    alloc: Global,
}

/// The value of each unit of a system.
#[derive(Debug, Drop)]
pub struct Values {
    units: Vec<u32>,
    values: Vec<Ratio>,
}

/// What a system comes to.
#[derive(Debug, Drop)]
pub enum Answer {
    /// A multiplier for each bound: the sum of the multiples is a positive number, and no bound that isn't an equation
    /// has a negative one.
    Contradiction(Vec<i128>),
    /// Fractions that meet all bounds.
    Values(Values),
    /// A number left 128 bits, or the turns were spent.
    GaveUp,
}

/// How many turns a system may take.
const TURNS: u32 = 5000;

impl Values {
    /// The value of a unit; 0 where the system doesn't have it.
    pub fn of(&self, unit: u32) -> Ratio {
        match place_of(self.units.as_slice(), unit) {
            Some(place) => self.values.get(place).copied().unwrap_or(Ratio::ZERO),
            None => Ratio::ZERO,
        }
    }

    /// Whether the sum is seen to be 0.
    pub fn is_zero(&self, parts: &[Monomial], constant: i128) -> bool {
        match self.sum(parts, constant) {
            Ok(sum) => sum.is_zero(),
            Err(_) => false,
        }
    }

    /// The first unit whose value isn't whole.
    pub fn first_gap(&self) -> Option<u32> {
        for unit in self.units.as_slice() {
            if self.of(*unit).bottom() > 1 {
                return Some(*unit);
            }
        }
        None
    }

    /// A number above 0 that the denominator of each value divides.
    pub fn denominator(&self) -> Result<i128, Stop> {
        common_multiple(self.values.as_slice())
    }

    /// The sum of the parts and the constant.
    pub fn sum(&self, parts: &[Monomial], constant: i128) -> Result<Ratio, Stop> {
        let mut sum = Ratio::whole(constant);
        for part in parts {
            let product = Ratio::whole(part.factor).times(self.of(part.unit))?;
            sum = sum.plus(product)?;
        }
        Ok(sum)
    }
}

impl System {
    /// No bounds.
    pub fn new(alloc: Global) -> System {
        System {
            parts: Vec::new(alloc),
            bounds: Vec::new(alloc),
            alloc,
        }
    }

    /// Adds the bound that the sum of the parts and the constant is at most 0, or is 0 where equal. No unit stands in two
    /// parts, and no factor is 0.
    pub fn add(
        &mut self,
        parts: &[Monomial],
        constant: i128,
        equal: bool,
    ) -> Result<(), AllocError> {
        let start = self.parts.len();
        self.parts.extend_from_slice(parts)?;
        let end = self.parts.len();
        self.bounds.push(Bound {
            start,
            end,
            constant,
            equal,
        })?;
        Ok(())
    }

    /// Values that meet all bounds, or multipliers that show that there are none.
    pub fn solve(&self) -> Result<Answer, AllocError> {
        match self.attempt() {
            Ok(answer) => Ok(answer),
            Err(Stop::Wide) => Ok(Answer::GaveUp),
            Err(Stop::Memory) => Err(AllocError),
        }
    }

    fn attempt(&self) -> Result<Answer, Stop> {
        let units = units_of(self.alloc, self.parts.as_slice())?;
        let mut tableau = Tableau::new(self.alloc, units.len())?;
        for number in 0..self.bounds.len() {
            self.enter(&mut tableau, units.as_slice(), number)?;
        }
        let turn = tableau.start()?;
        self.settle(tableau, units, turn)
    }

    /// Takes turns until values or a contradiction show.
    fn settle(&self, mut tableau: Tableau, units: Vec<u32>, first: Turn) -> Result<Answer, Stop> {
        let mut turn = first;
        for _ in 0..TURNS {
            match turn {
                Turn::Moved => {}
                Turn::Settled => {
                    let values = tableau.values()?;
                    return Ok(Answer::Values(Values { units, values }));
                }
                Turn::Clash(weights) => {
                    let multipliers = whole_multipliers(
                        self.alloc,
                        self.bounds.len(),
                        weights.as_slice(),
                    )?;
                    return Ok(Answer::Contradiction(multipliers));
                }
            }
            turn = tableau.turn()?;
        }
        Ok(Answer::GaveUp)
    }

    fn parts_of(&self, bound: &Bound) -> &[Monomial] {
        self.parts.get(bound.start..bound.end).unwrap_or(&[])
    }

    /// Enters a bound: a number, a limit of a unit, or a row of its own.
    fn enter(&self, tableau: &mut Tableau, units: &[u32], number: usize) -> Result<(), Stop> {
        let Some(bound) = self.bounds.get(number) else {
            return Ok(());
        };
        let parts = self.parts_of(bound);
        match parts {
            [] => tableau.add_number(number, bound.constant, bound.equal),
            [part] => {
                let Some(variable) = place_of(units, part.unit) else {
                    return Ok(());
                };
                tableau.add_limit(variable, number, part.factor, bound.constant, bound.equal)
            }
            _ => {
                let variable = tableau.add_row(units, parts)?;
                tableau.add_limit(variable, number, 1, bound.constant, bound.equal)
            }
        }
    }
}
