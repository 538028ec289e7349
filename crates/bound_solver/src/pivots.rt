//! Rows, and turns that move a variable to its limit.

use crate::ratio::Ratio;
use crate::stop::Stop;
use crate::tableau::{Limit, Tableau, Turn, Variable, Weight};
use std::alloc::Global;

/// A multiple of a variable.
#[derive(Clone, Copy, Debug)]
pub struct Cell {
    pub variable: usize,
    pub factor: Ratio,
}

/// That the basic variable is the sum of the cells, which are of different variables.
#[derive(Debug, Drop)]
pub struct Row {
    basic: usize,
    cells: Vec<Cell>,
}

/// A row whose basic variable is beyond a limit.
#[derive(Clone, Copy, Debug)]
struct Broken {
    place: usize,
    basic: usize,
    limit: Limit,
    falls: bool,
}

impl Row {
    /// A sum without cells.
    pub fn new(alloc: Global, basic: usize) -> Row {
        Row {
            basic,
            cells: Vec::new(alloc),
        }
    }

    /// The number of the variable that is the sum.
    pub fn basic(&self) -> usize {
        self.basic
    }

    /// The cells.
    pub fn cells(&self) -> &[Cell] {
        self.cells.as_slice()
    }

    /// Adds a multiple of a variable.
    pub fn add(&mut self, variable: usize, factor: Ratio) -> Result<(), Stop> {
        let Some(place) = self.place_of(variable) else {
            self.cells.push(Cell { variable, factor })?;
            return Ok(());
        };
        self.add_at(place, factor)
    }

    fn place_of(&self, variable: usize) -> Option<usize> {
        self.cells.iter().position(|cell| cell.variable == variable)
    }

    /// Adds to the factor of a cell, which goes where it becomes 0.
    fn add_at(&mut self, place: usize, factor: Ratio) -> Result<(), Stop> {
        if place >= self.cells.len() {
            return Ok(());
        }
        let sum = self.cells[place].factor.plus(factor)?;
        if sum.is_zero() {
            let _cell = self.cells.swap_remove(place);
            return Ok(());
        }
        self.cells[place].factor = sum;
        Ok(())
    }

    /// The factor of a variable, where it has a cell.
    fn factor_of(&self, variable: usize) -> Option<Ratio> {
        let place = self.place_of(variable)?;
        let cell = self.cells.get(place)?;
        Some(cell.factor)
    }

    /// Puts the other row's sum in the place of its basic variable.
    fn substitute(&mut self, other: &Row) -> Result<(), Stop> {
        let Some(factor) = self.factor_of(other.basic) else {
            return Ok(());
        };
        self.add(other.basic, factor.negated()?)?;
        for cell in other.cells.as_slice() {
            self.add(cell.variable, factor.times(cell.factor)?)?;
        }
        Ok(())
    }

    /// The row that has the other variable as its sum.
    fn solved_for(&self, alloc: Global, variable: usize, factor: Ratio) -> Result<Row, Stop> {
        let inverse = factor.inverse()?;
        let mut row = Row::new(alloc, variable);
        row.add(self.basic, inverse)?;
        let scale = inverse.negated()?;
        for cell in self.cells.as_slice() {
            if cell.variable != variable {
                row.add(cell.variable, scale.times(cell.factor)?)?;
            }
        }
        Ok(row)
    }
}

impl Tableau {
    /// Moves the first sum that is beyond a limit to that limit.
    pub fn turn(&mut self) -> Result<Turn, Stop> {
        let Some(broken) = self.first_broken()? else {
            return Ok(Turn::Settled);
        };
        match self.first_free(broken)? {
            Some(cell) => self.pivot(broken, cell),
            None => self.clash_at(broken),
        }
    }

    /// The row beyond a limit whose basic variable has the least number.
    fn first_broken(&self) -> Result<Option<Broken>, Stop> {
        let mut first: Option<Broken> = None;
        for place in 0..self.rows.len() {
            if let Some(broken) = self.broken_at(place)? {
                let is_first = match first {
                    Some(other) => broken.basic < other.basic,
                    None => true,
                };
                if is_first {
                    first = Some(broken);
                }
            }
        }
        Ok(first)
    }

    fn broken_at(&self, place: usize) -> Result<Option<Broken>, Stop> {
        let Some(row) = self.rows.get(place) else {
            return Ok(None);
        };
        let basic = row.basic();
        let variable = self.variable(basic);
        match beyond(variable)? {
            Some((limit, falls)) => Ok(Some(Broken {
                place,
                basic,
                limit,
                falls,
            })),
            None => Ok(None),
        }
    }

    /// The cell with the least variable that may move so that the sum goes to its limit.
    fn first_free(&self, broken: Broken) -> Result<Option<Cell>, Stop> {
        let Some(row) = self.rows.get(broken.place) else {
            return Ok(None);
        };
        let mut first: Option<Cell> = None;
        for cell in row.cells() {
            let variable = self.variable(cell.variable);
            let is_free = if cell.factor.is_positive() == broken.falls {
                variable.may_fall()?
            } else {
                variable.may_rise()?
            };
            let is_first = match first {
                Some(other) => cell.variable < other.variable,
                None => true,
            };
            if is_free && is_first {
                first = Some(*cell);
            }
        }
        Ok(first)
    }

    /// The limits of the cells show that the sum can't get to its limit.
    fn clash_at(&self, broken: Broken) -> Result<Turn, Stop> {
        let sign = Ratio::whole(if broken.falls { 1 } else { -1 });
        let mut weights = Vec::new(self.alloc);
        weights.push(Weight {
            bound: broken.limit.bound,
            factor: sign.times(broken.limit.factor)?,
        })?;
        let Some(row) = self.rows.get(broken.place) else {
            return Ok(Turn::Clash(weights));
        };
        for cell in row.cells() {
            let factor = sign.times(cell.factor)?.negated()?;
            let variable = self.variable(cell.variable);
            let limit = if cell.factor.is_positive() == broken.falls {
                variable.lower
            } else {
                variable.upper
            };
            if let Some(limit) = limit {
                weights.push(Weight {
                    bound: limit.bound,
                    factor: factor.times(limit.factor)?,
                })?;
            }
        }
        Ok(Turn::Clash(weights))
    }

    /// Exchanges the basic variable with that of the cell, and moves it to its limit.
    fn pivot(&mut self, broken: Broken, cell: Cell) -> Result<Turn, Stop> {
        let Some(row) = self.rows.get(broken.place) else {
            return Ok(Turn::Settled);
        };
        let solved = row.solved_for(self.alloc, cell.variable, cell.factor)?;
        let distance = broken.limit.value.minus(self.variable(broken.basic).value)?;
        let step = distance.times(cell.factor.inverse()?)?;
        self.move_by(cell.variable, step)?;
        for place in 0..self.rows.len() {
            self.carry(place, broken.place, &solved, step)?;
        }
        self.move_by(broken.basic, distance)?;
        if let Some(place) = self.rows.get_mut(broken.place) {
            *place = solved;
        }
        Ok(Turn::Moved)
    }

    fn move_by(&mut self, number: usize, step: Ratio) -> Result<(), Stop> {
        let mut variable = self.variable(number);
        variable.value = variable.value.plus(step)?;
        self.put(number, variable);
        Ok(())
    }

    /// Carries a step of the solved variable into another row.
    fn carry(
        &mut self,
        place: usize,
        skipped: usize,
        solved: &Row,
        step: Ratio,
    ) -> Result<(), Stop> {
        if place == skipped || place >= self.rows.len() {
            return Ok(());
        }
        let Some(factor) = self.rows[place].factor_of(solved.basic) else {
            return Ok(());
        };
        let basic = self.rows[place].basic;
        self.move_by(basic, factor.times(step)?)?;
        self.substitute_at(place, solved)
    }

    fn substitute_at(&mut self, place: usize, solved: &Row) -> Result<(), Stop> {
        match self.rows.get_mut(place) {
            Some(row) => row.substitute(solved),
            None => Ok(()),
        }
    }
}

/// The limit that the value of a variable is beyond, and whether it has to fall to it.
fn beyond(variable: Variable) -> Result<Option<(Limit, bool)>, Stop> {
    if let Some(upper) = variable.upper {
        if upper.value.is_below(variable.value)? {
            return Ok(Some((upper, true)));
        }
    }
    if let Some(lower) = variable.lower {
        if variable.value.is_below(lower.value)? {
            return Ok(Some((lower, false)));
        }
    }
    Ok(None)
}
