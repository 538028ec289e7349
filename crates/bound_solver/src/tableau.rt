//! Variables between limits, of which some are sums of others.

use crate::pivots::Row;
use crate::ratio::Ratio;
use crate::stop::Stop;
use crate::system::Monomial;
use crate::units::place_of;
use std::alloc::Global;

/// A limit of a variable: its value, the bound that gives it, and the factor by which that bound speaks of the variable.
#[derive(Clone, Copy, Debug)]
pub struct Limit {
    pub value: Ratio,
    pub bound: usize,
    pub factor: Ratio,
}

/// A multiple of a bound.
#[derive(Clone, Copy, Debug)]
pub struct Weight {
    pub bound: usize,
    pub factor: Ratio,
}

/// A unit, or the sum of a bound of several.
#[derive(Clone, Copy, Debug)]
pub struct Variable {
    pub value: Ratio,
    pub lower: Option<Limit>,
    pub upper: Option<Limit>,
}

/// What a turn comes to.
#[derive(Debug, Drop)]
pub enum Turn {
    /// A sum was moved to its limit.
    Moved,
    /// All values are within their limits.
    Settled,
    /// A sum of multiples of the bounds is false.
    Clash(Vec<Weight>),
}

/// Variables and rows. The basic variable of a row is the sum of its cells, in values too; all others are within their
/// limits.
#[derive(Debug, Drop)]
pub struct Tableau {
    pub variables: Vec<Variable>,
    pub rows: Vec<Row>,
    pub clash: Option<Weight>,
    pub alloc: Global,
}

impl Variable {
    /// No limits.
    pub const FREE: Variable = Variable {
        value: Ratio::ZERO,
        lower: None,
        upper: None,
    };

    /// Whether the limit is tighter than those above.
    fn lowers(&self, limit: Limit) -> Result<bool, Stop> {
        match self.upper {
            None => Ok(true),
            Some(upper) => limit.value.is_below(upper.value),
        }
    }

    /// Whether the limit is tighter than those below.
    fn raises(&self, limit: Limit) -> Result<bool, Stop> {
        match self.lower {
            None => Ok(true),
            Some(lower) => lower.value.is_below(limit.value),
        }
    }

    /// Whether the value may fall.
    pub fn may_fall(&self) -> Result<bool, Stop> {
        match self.lower {
            None => Ok(true),
            Some(lower) => lower.value.is_below(self.value),
        }
    }

    /// Whether the value may rise.
    pub fn may_rise(&self) -> Result<bool, Stop> {
        match self.upper {
            None => Ok(true),
            Some(upper) => self.value.is_below(upper.value),
        }
    }

    /// A value within the limits, where they don't cross.
    fn first_value(&self) -> Ratio {
        match (self.lower, self.upper) {
            (Some(lower), _) => lower.value,
            (None, Some(upper)) => upper.value,
            (None, None) => Ratio::ZERO,
        }
    }
}

impl Tableau {
    /// So many variables with no limits.
    pub fn new(alloc: Global, units: usize) -> Result<Tableau, Stop> {
        let variables = vec![in alloc; Variable::FREE; units]?;
        Ok(Tableau {
            variables,
            rows: Vec::new(alloc),
            clash: None,
            alloc,
        })
    }

    /// The variable with this number; one without limits where there is none.
    pub fn variable(&self, number: usize) -> Variable {
        self.variables
            .get(number)
            .copied()
            .unwrap_or(Variable::FREE)
    }

    /// Enters a bound without units.
    pub fn add_number(&mut self, bound: usize, constant: i128, equal: bool) -> Result<(), Stop> {
        if constant > 0 {
            self.clash = Some(Weight {
                bound,
                factor: Ratio::ONE,
            });
        }
        if constant < 0 && equal {
            self.clash = Some(Weight {
                bound,
                factor: Ratio::whole(-1),
            });
        }
        Ok(())
    }

    /// Enters that a multiple of the variable and the constant is at most 0, or is 0 where equal.
    pub fn add_limit(
        &mut self,
        variable: usize,
        bound: usize,
        factor: i128,
        constant: i128,
        equal: bool,
    ) -> Result<(), Stop> {
        let value = Ratio::whole(constant)
            .negated()?
            .times(Ratio::new(1, factor)?)?;
        let limit = Limit {
            value,
            bound,
            factor: Ratio::new(1, factor)?,
        };
        let mut changed = self.variable(variable);
        if (equal || factor > 0) && changed.lowers(limit)? {
            changed.upper = Some(limit);
        }
        if (equal || factor < 0) && changed.raises(limit)? {
            changed.lower = Some(limit);
        }
        self.put(variable, changed);
        Ok(())
    }

    /// Puts a variable in the place of another.
    pub fn put(&mut self, number: usize, variable: Variable) {
        if let Some(place) = self.variables.get_mut(number) {
            *place = variable;
        }
    }

    /// Adds a variable that is the sum of the parts, and gives its number.
    pub fn add_row(&mut self, units: &[u32], parts: &[Monomial]) -> Result<usize, Stop> {
        let basic = self.variables.len();
        let mut row = Row::new(self.alloc, basic);
        for part in parts {
            if let Some(variable) = place_of(units, part.unit) {
                row.add(variable, Ratio::whole(part.factor))?;
            }
        }
        self.variables.push(Variable::FREE)?;
        self.rows.push(row)?;
        Ok(basic)
    }

    /// Gives each variable its first value, unless a bound is false by itself or two limits cross.
    pub fn start(&mut self) -> Result<Turn, Stop> {
        if let Some(weight) = self.clash {
            let weights = vec![in self.alloc; weight]?;
            return Ok(Turn::Clash(weights));
        }
        for number in 0..self.variables.len() {
            let mut variable = self.variable(number);
            if let (Some(lower), Some(upper)) = (variable.lower, variable.upper) {
                if upper.value.is_below(lower.value)? {
                    return crossed(self.alloc, lower, upper);
                }
            }
            variable.value = variable.first_value();
            self.put(number, variable);
        }
        self.add_up()?;
        Ok(Turn::Moved)
    }

    /// Gives each basic variable the sum of its row.
    fn add_up(&mut self) -> Result<(), Stop> {
        for place in 0..self.rows.len() {
            let (basic, sum) = self.row_sum(place)?;
            let mut variable = self.variable(basic);
            variable.value = sum;
            self.put(basic, variable);
        }
        Ok(())
    }

    /// The basic variable of a row, and the sum of its cells.
    fn row_sum(&self, place: usize) -> Result<(usize, Ratio), Stop> {
        let mut sum = Ratio::ZERO;
        let Some(row) = self.rows.get(place) else {
            return Ok((self.variables.len(), sum));
        };
        for cell in row.cells() {
            let product = cell.factor.times(self.variable(cell.variable).value)?;
            sum = sum.plus(product)?;
        }
        Ok((row.basic(), sum))
    }

    /// The values of the variables.
    pub fn values(&self) -> Result<Vec<Ratio>, Stop> {
        let mut values = Vec::new(self.alloc);
        for variable in self.variables.as_slice() {
            values.push(variable.value)?;
        }
        Ok(values)
    }
}

/// That a lower limit is above an upper one.
fn crossed(alloc: Global, lower: Limit, upper: Limit) -> Result<Turn, Stop> {
    let mut weights = Vec::new(alloc);
    weights.push(Weight {
        bound: upper.bound,
        factor: upper.factor,
    })?;
    weights.push(Weight {
        bound: lower.bound,
        factor: lower.factor.negated()?,
    })?;
    Ok(Turn::Clash(weights))
}
