//! The ranges of C's integer types, and what pairs of them convert to.

use crate::rows::is;
use int_ranges::ctype::{CType, common_type, in_range};

/// The corners of each type, 0 and the corners of 128 bits, and whether the type has them.
const RANGES: &[(CType, i128, bool)] = &[
    (CType::Int, -2_147_483_648, true),
    (CType::Int, -2_147_483_649, false),
    (CType::Int, 2_147_483_647, true),
    (CType::Int, 2_147_483_648, false),
    (CType::Int, 0, true),
    (CType::Int, -1, true),
    (CType::Unsigned, 0, true),
    (CType::Unsigned, -1, false),
    (CType::Unsigned, 4_294_967_295, true),
    (CType::Unsigned, 4_294_967_296, false),
    (CType::LongLong, -9_223_372_036_854_775_808, true),
    (CType::LongLong, -9_223_372_036_854_775_809, false),
    (CType::LongLong, 9_223_372_036_854_775_807, true),
    (CType::LongLong, 9_223_372_036_854_775_808, false),
    (CType::LongLong, 0, true),
    (CType::LongLong, 4_294_967_296, true),
    (CType::UnsignedLongLong, 0, true),
    (CType::UnsignedLongLong, -1, false),
    (CType::UnsignedLongLong, 18_446_744_073_709_551_615, true),
    (CType::UnsignedLongLong, 18_446_744_073_709_551_616, false),
    (
        CType::Int,
        -170_141_183_460_469_231_731_687_303_715_884_105_728,
        false,
    ),
    (
        CType::Unsigned,
        170_141_183_460_469_231_731_687_303_715_884_105_727,
        false,
    ),
    (
        CType::LongLong,
        -170_141_183_460_469_231_731_687_303_715_884_105_728,
        false,
    ),
    (
        CType::UnsignedLongLong,
        170_141_183_460_469_231_731_687_303_715_884_105_727,
        false,
    ),
];

/// All pairs, and what they convert to.
const PAIRS: &[(CType, CType, CType)] = &[
    (CType::Int, CType::Int, CType::Int),
    (CType::Int, CType::Unsigned, CType::Unsigned),
    (CType::Int, CType::LongLong, CType::LongLong),
    (CType::Int, CType::UnsignedLongLong, CType::UnsignedLongLong),
    (CType::Unsigned, CType::Int, CType::Unsigned),
    (CType::Unsigned, CType::Unsigned, CType::Unsigned),
    (CType::Unsigned, CType::LongLong, CType::LongLong),
    (
        CType::Unsigned,
        CType::UnsignedLongLong,
        CType::UnsignedLongLong,
    ),
    (CType::LongLong, CType::Int, CType::LongLong),
    (CType::LongLong, CType::Unsigned, CType::LongLong),
    (CType::LongLong, CType::LongLong, CType::LongLong),
    (
        CType::LongLong,
        CType::UnsignedLongLong,
        CType::UnsignedLongLong,
    ),
    (CType::UnsignedLongLong, CType::Int, CType::UnsignedLongLong),
    (
        CType::UnsignedLongLong,
        CType::Unsigned,
        CType::UnsignedLongLong,
    ),
    (
        CType::UnsignedLongLong,
        CType::LongLong,
        CType::UnsignedLongLong,
    ),
    (
        CType::UnsignedLongLong,
        CType::UnsignedLongLong,
        CType::UnsignedLongLong,
    ),
];

/// The types of `a + b + c`, which C reads as `(a + b) + c`, and the type of the sum.
const SUMS: &[(CType, CType, CType, CType)] = &[
    (CType::Int, CType::Int, CType::Unsigned, CType::Unsigned),
    (
        CType::Int,
        CType::Unsigned,
        CType::LongLong,
        CType::LongLong,
    ),
    (
        CType::LongLong,
        CType::Unsigned,
        CType::Int,
        CType::LongLong,
    ),
    (
        CType::Unsigned,
        CType::LongLong,
        CType::UnsignedLongLong,
        CType::UnsignedLongLong,
    ),
];

#[test]
fn ranges_end_at_their_corners(rt: HostRuntime) {
    for row in RANGES {
        let (ty, value, _) = *row;
        is(&rt, &(ty, value, in_range(ty, value)), row);
    }
}

#[test]
fn pairs_convert(rt: HostRuntime) {
    for row in PAIRS {
        let (a, b, _) = *row;
        is(&rt, &(a, b, common_type(a, b)), row);
    }
}

#[test]
fn sums_of_three_convert(rt: HostRuntime) {
    for row in SUMS {
        let (a, b, c, _) = *row;
        is(&rt, &(a, b, c, common_type(common_type(a, b), c)), row);
    }
}
