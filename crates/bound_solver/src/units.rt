//! The units of a system, in order.

use crate::stop::Stop;
use crate::system::Monomial;
use std::alloc::Global;

/// The units of these parts, each once, in order.
pub fn units_of(alloc: Global, parts: &[Monomial]) -> Result<Vec<u32>, Stop> {
    let mut units = Vec::new(alloc);
    for part in parts {
        units.push(part.unit)?;
    }
    units.sort()?;
    let mut distinct = Vec::new(alloc);
    let mut last = None;
    for unit in units.as_slice() {
        if last != Some(*unit) {
            distinct.push(*unit)?;
        }
        last = Some(*unit);
    }
    Ok(distinct)
}

/// The place of a unit among these.
pub fn place_of(units: &[u32], unit: u32) -> Option<usize> {
    match units.binary_search(&unit) {
        Ok(place) => Some(place),
        Err(_) => None,
    }
}
