//! Fractions of numbers of 128 bits.

use crate::stop::Stop;

/// A fraction in lowest terms.
#[derive(Clone, Copy, Debug, PartialEq, Eq)]
pub struct Ratio {
    top: i128,
    bottom: i128,
}

/// As many steps as the greatest common divisor of two numbers of 128 bits can take.
const DIVISIONS: u32 = 200;

/// The greatest common divisor, with any sign.
pub fn common_divisor(left: i128, right: i128) -> i128 {
    let mut divisor = left;
    let mut next = right;
    for _ in 0..DIVISIONS {
        let Some(rest) = divisor.checked_rem(next) else {
            return divisor;
        };
        divisor = next;
        next = rest;
    }
    divisor
}

/// The sum, unless it is wide.
pub fn sum(left: i128, right: i128) -> Result<i128, Stop> {
    match left.checked_add(right) {
        Some(sum) => Ok(sum),
        None => Err(Stop::Wide),
    }
}

/// The product, unless it is wide.
pub fn product(left: i128, right: i128) -> Result<i128, Stop> {
    match left.checked_mul(right) {
        Some(product) => Ok(product),
        None => Err(Stop::Wide),
    }
}

/// The quotient, unless it is wide or there is none.
pub fn quotient(left: i128, right: i128) -> Result<i128, Stop> {
    match left.checked_div(right) {
        Some(quotient) => Ok(quotient),
        None => Err(Stop::Wide),
    }
}

/// The number without its sign, unless it is wide.
pub fn magnitude(number: i128) -> Result<i128, Stop> {
    if number < 0 {
        return product(number, -1);
    }
    Ok(number)
}

impl Ratio {
    /// 0
    pub const ZERO: Ratio = Ratio { top: 0, bottom: 1 };
    /// 1
    pub const ONE: Ratio = Ratio { top: 1, bottom: 1 };

    /// A whole number as a fraction.
    pub fn whole(number: i128) -> Ratio {
        Ratio {
            top: number,
            bottom: 1,
        }
    }

    /// The fraction in lowest terms, with a denominator above 0.
    pub fn new(top: i128, bottom: i128) -> Result<Ratio, Stop> {
        if bottom == 1 {
            return Ok(Ratio { top, bottom });
        }
        let divisor = common_divisor(top, bottom);
        let top = quotient(top, divisor)?;
        let bottom = quotient(bottom, divisor)?;
        if bottom < 0 {
            let top = product(top, -1)?;
            let bottom = product(bottom, -1)?;
            return Ok(Ratio { top, bottom });
        }
        Ok(Ratio { top, bottom })
    }

    /// The numerator.
    pub fn top(self) -> i128 {
        self.top
    }

    /// The denominator.
    pub fn bottom(self) -> i128 {
        self.bottom
    }

    /// The greatest whole number that isn't above it.
    pub fn floor(self) -> i128 {
        let Some(whole) = self.top.checked_div(self.bottom) else {
            return self.top;
        };
        if self.top < 0 && self.bottom > 1 {
            return whole.saturating_sub(1);
        }
        whole
    }

    /// Whether it is 0.
    pub fn is_zero(self) -> bool {
        self.top == 0
    }

    /// Whether it is above 0.
    pub fn is_positive(self) -> bool {
        self.top > 0
    }

    /// The sum.
    pub fn plus(self, other: Ratio) -> Result<Ratio, Stop> {
        if self.bottom == 1 && other.bottom == 1 {
            let top = sum(self.top, other.top)?;
            return Ok(Ratio { top, bottom: 1 });
        }
        let left = product(self.top, other.bottom)?;
        let right = product(other.top, self.bottom)?;
        let top = sum(left, right)?;
        let bottom = product(self.bottom, other.bottom)?;
        Ratio::new(top, bottom)
    }

    /// The product.
    pub fn times(self, other: Ratio) -> Result<Ratio, Stop> {
        let top = product(self.top, other.top)?;
        let bottom = product(self.bottom, other.bottom)?;
        Ratio::new(top, bottom)
    }

    /// The number with the other sign.
    pub fn negated(self) -> Result<Ratio, Stop> {
        let top = product(self.top, -1)?;
        Ok(Ratio {
            top,
            bottom: self.bottom,
        })
    }

    /// The difference.
    pub fn minus(self, other: Ratio) -> Result<Ratio, Stop> {
        let negated = other.negated()?;
        self.plus(negated)
    }

    /// One divided by it; of 0 there is none.
    pub fn inverse(self) -> Result<Ratio, Stop> {
        Ratio::new(self.bottom, self.top)
    }

    /// Whether it is below the other.
    pub fn is_below(self, other: Ratio) -> Result<bool, Stop> {
        if self.bottom == 1 && other.bottom == 1 {
            return Ok(self.top < other.top);
        }
        let left = product(self.top, other.bottom)?;
        let right = product(other.top, self.bottom)?;
        Ok(left < right)
    }
}
