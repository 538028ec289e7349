//! Exact results of 128 bits at their corners.

use crate::rows::is;
use Operation::{Difference, Product, Sum};
use int_ranges::exact::{Wide, add_exact, div_trunc, mul_exact, rem_trunc, sub_exact};

const LEAST: i128 = -170_141_183_460_469_231_731_687_303_715_884_105_728;

const GREATEST: i128 = 170_141_183_460_469_231_731_687_303_715_884_105_727;

/// What is computed of two numbers.
#[derive(Clone, Copy)]
enum Operation {
    Sum,
    Difference,
    Product,
}

/// Operations, their operands, and their exact results; among them 2^64 * 2^63, which is 2^127, and 2^64 * -(2^63), which is the
/// least.
const RESULTS: &[(Operation, i128, i128, Result<i128, Wide>)] = &[
    (Sum, 2, 3, Ok(5)),
    (Sum, -1, 1, Ok(0)),
    (Sum, LEAST, 0, Ok(LEAST)),
    (Sum, GREATEST, 0, Ok(GREATEST)),
    (
        Sum,
        170_141_183_460_469_231_731_687_303_715_884_105_726,
        1,
        Ok(GREATEST),
    ),
    (
        Sum,
        -170_141_183_460_469_231_731_687_303_715_884_105_727,
        -1,
        Ok(LEAST),
    ),
    (Sum, GREATEST, LEAST, Ok(-1)),
    (Sum, GREATEST, 1, Err(Wide { a: GREATEST, b: 1 })),
    (Sum, 1, GREATEST, Err(Wide { a: 1, b: GREATEST })),
    (Sum, LEAST, -1, Err(Wide { a: LEAST, b: -1 })),
    (
        Sum,
        GREATEST,
        GREATEST,
        Err(Wide {
            a: GREATEST,
            b: GREATEST,
        }),
    ),
    (Sum, LEAST, LEAST, Err(Wide { a: LEAST, b: LEAST })),
    (Difference, 3, 5, Ok(-2)),
    (Difference, LEAST, 0, Ok(LEAST)),
    (Difference, LEAST, LEAST, Ok(0)),
    (Difference, GREATEST, GREATEST, Ok(0)),
    (Difference, -1, LEAST, Ok(GREATEST)),
    (
        Difference,
        0,
        GREATEST,
        Ok(-170_141_183_460_469_231_731_687_303_715_884_105_727),
    ),
    (
        Difference,
        -170_141_183_460_469_231_731_687_303_715_884_105_727,
        1,
        Ok(LEAST),
    ),
    (Difference, LEAST, 1, Err(Wide { a: LEAST, b: 1 })),
    (Difference, GREATEST, -1, Err(Wide { a: GREATEST, b: -1 })),
    (Difference, 0, LEAST, Err(Wide { a: 0, b: LEAST })),
    (
        Difference,
        GREATEST,
        LEAST,
        Err(Wide {
            a: GREATEST,
            b: LEAST,
        }),
    ),
    (
        Difference,
        LEAST,
        GREATEST,
        Err(Wide {
            a: LEAST,
            b: GREATEST,
        }),
    ),
    (Product, -3, 5, Ok(-15)),
    (Product, -3, -5, Ok(15)),
    (Product, LEAST, 0, Ok(0)),
    (Product, LEAST, 1, Ok(LEAST)),
    (
        Product,
        GREATEST,
        -1,
        Ok(-170_141_183_460_469_231_731_687_303_715_884_105_727),
    ),
    (
        Product,
        18_446_744_073_709_551_616,
        -9_223_372_036_854_775_808,
        Ok(LEAST),
    ),
    (
        Product,
        18_446_744_073_709_551_616,
        4_611_686_018_427_387_904,
        Ok(85_070_591_730_234_615_865_843_651_857_942_052_864),
    ),
    (
        Product,
        18_446_744_073_709_551_615,
        9_223_372_036_854_775_808,
        Ok(170_141_183_460_469_231_722_463_931_679_029_329_920),
    ),
    (
        Product,
        18_446_744_073_709_551_616,
        9_223_372_036_854_775_808,
        Err(Wide {
            a: 18_446_744_073_709_551_616,
            b: 9_223_372_036_854_775_808,
        }),
    ),
    (Product, LEAST, -1, Err(Wide { a: LEAST, b: -1 })),
    (Product, -1, LEAST, Err(Wide { a: -1, b: LEAST })),
    (Product, LEAST, 2, Err(Wide { a: LEAST, b: 2 })),
    (Product, GREATEST, 2, Err(Wide { a: GREATEST, b: 2 })),
];

/// Dividends, divisors, quotients and remainders: the four combinations of signs, 0, exact divisions, and the corners. One
/// quotient leaves 128 bits.
const QUOTIENTS: &[(i128, i128, Result<i128, Wide>, i128)] = &[
    (7, 2, Ok(3), 1),
    (-7, 2, Ok(-3), -1),
    (7, -2, Ok(-3), 1),
    (-7, -2, Ok(3), -1),
    (8, 2, Ok(4), 0),
    (-8, 2, Ok(-4), 0),
    (8, -2, Ok(-4), 0),
    (-8, -2, Ok(4), 0),
    (1, 3, Ok(0), 1),
    (-1, 3, Ok(0), -1),
    (1, -3, Ok(0), 1),
    (-1, -3, Ok(0), -1),
    (0, 5, Ok(0), 0),
    (0, -5, Ok(0), 0),
    (5, 5, Ok(1), 0),
    (-5, 5, Ok(-1), 0),
    (5, -5, Ok(-1), 0),
    (-5, -5, Ok(1), 0),
    (9, 1, Ok(9), 0),
    (-9, 1, Ok(-9), 0),
    (9, -1, Ok(-9), 0),
    (-9, -1, Ok(9), 0),
    (100, 7, Ok(14), 2),
    (-100, 7, Ok(-14), -2),
    (100, -7, Ok(-14), 2),
    (-100, -7, Ok(14), -2),
    (-2_147_483_648, -1, Ok(2_147_483_648), 0),
    (
        -9_223_372_036_854_775_808,
        -1,
        Ok(9_223_372_036_854_775_808),
        0,
    ),
    (LEAST, 1, Ok(LEAST), 0),
    (
        GREATEST,
        -1,
        Ok(-170_141_183_460_469_231_731_687_303_715_884_105_727),
        0,
    ),
    (
        LEAST,
        2,
        Ok(-85_070_591_730_234_615_865_843_651_857_942_052_864),
        0,
    ),
    (
        GREATEST,
        2,
        Ok(85_070_591_730_234_615_865_843_651_857_942_052_863),
        1,
    ),
    (LEAST, GREATEST, Ok(-1), -1),
    (GREATEST, LEAST, Ok(0), GREATEST),
    (LEAST, LEAST, Ok(1), 0),
    (LEAST, -1, Err(Wide { a: LEAST, b: -1 }), 0),
];

/// The sign of the operation, and its exact result.
fn computed(operation: Operation, a: i128, b: i128) -> (&'static str, Result<i128, Wide>) {
    match operation {
        Sum => ("+", add_exact(a, b)),
        Difference => ("-", sub_exact(a, b)),
        Product => ("*", mul_exact(a, b)),
    }
}

#[test]
fn sums_differences_and_products(rt: HostRuntime) {
    for (operation, a, b, want) in RESULTS {
        let (sign, got) = computed(*operation, *a, *b);
        is(&rt, &(*a, sign, *b, got), &(*a, sign, *b, *want));
    }
}

#[test]
fn quotients_and_remainders(rt: HostRuntime) {
    for row in QUOTIENTS {
        let (a, b, _, _) = *row;
        assert!(rt; b != 0);
        is(&rt, &(a, b, div_trunc(a, b), rem_trunc(a, b)), row);
    }
}

#[test]
fn wide_prints_its_operands(rt: HostRuntime) {
    let wide = Wide { a: -7, b: 12 };
    let text = format!(in rt.alloc(); "{wide}").expect(&rt, "memory for a line");
    is(
        &rt,
        &text.as_str(),
        &"the exact result of -7 and 12 leaves 128 bits",
    );
}
