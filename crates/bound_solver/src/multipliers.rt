//! Whole multipliers out of fractions.

use crate::ratio::{Ratio, common_divisor, magnitude, product, quotient};
use crate::stop::Stop;
use crate::tableau::Weight;
use std::alloc::Global;

/// One multiplier for each bound: the sum of its weights, times one number above 0, which makes all of them whole numbers
/// with no common divisor.
pub fn whole_multipliers(
    alloc: Global,
    bounds: usize,
    weights: &[Weight],
) -> Result<Vec<i128>, Stop> {
    let sums = weight_sums(alloc, bounds, weights)?;
    let multiple = common_multiple(sums.as_slice())?;
    let mut multipliers = Vec::new(alloc);
    let mut divisor = 0;
    for sum in sums.as_slice() {
        let multiplier = product(sum.top(), quotient(multiple, sum.bottom())?)?;
        divisor = common_divisor(divisor, multiplier);
        multipliers.push(multiplier)?;
    }
    divided(alloc, multipliers.as_slice(), magnitude(divisor)?)
}

/// The sum of the weights of each bound.
fn weight_sums(alloc: Global, bounds: usize, weights: &[Weight]) -> Result<Vec<Ratio>, Stop> {
    let mut sums = vec![in alloc; Ratio::ZERO; bounds]?;
    for weight in weights {
        if let Some(sum) = sums.get_mut(weight.bound) {
            *sum = sum.plus(weight.factor)?;
        }
    }
    Ok(sums)
}

/// A number above 0 that each denominator divides.
pub fn common_multiple(ratios: &[Ratio]) -> Result<i128, Stop> {
    let mut multiple = 1;
    for ratio in ratios {
        let divisor = common_divisor(multiple, ratio.bottom());
        multiple = product(quotient(multiple, divisor)?, ratio.bottom())?;
    }
    magnitude(multiple)
}

/// Each number divided by the divisor; as they are where it is 0.
fn divided(alloc: Global, numbers: &[i128], divisor: i128) -> Result<Vec<i128>, Stop> {
    let mut quotients = Vec::new(alloc);
    for number in numbers {
        if divisor == 0 {
            quotients.push(*number)?;
        } else {
            quotients.push(quotient(*number, divisor)?)?;
        }
    }
    Ok(quotients)
}
