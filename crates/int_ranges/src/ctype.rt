//! The integer types.

ghost use Rattle.std.specs.Prelude.{◌≡◌, ◌↔◌, IsTrue};
ghost use Rattle.int_ranges.specs.Ranges.{InRange, usual_type};

/// The integer types of C that the language has: `int` and `unsigned` with 32 bits, `long long` and `unsigned long long`
/// with 64, in two's complement.
///
/// From ISO/IEC 9899 6.2.5; the widths are this implementation's.
#[derive(Clone, Copy, Debug, PartialEq, Eq)]
pub enum CType {
    /// `int`: from -2^31 to 2^31 - 1.
    Int,
    /// `unsigned`: from 0 to 2^32 - 1.
    Unsigned,
    /// `long long`: from -2^63 to 2^63 - 1.
    LongLong,
    /// `unsigned long long`: from 0 to 2^64 - 1.
    UnsignedLongLong,
}

/// Whether the type has the value: both ends of its range are in.
pub fn in_range(ty: CType, value: i128) -> bool
    ensures { IsTrue result ↔ InRange ty value }
{
    match ty {
        CType::Int => -2_147_483_648 <= value && value <= 2_147_483_647,
        CType::Unsigned => 0 <= value && value <= 4_294_967_295,
        CType::LongLong => -9_223_372_036_854_775_808 <= value
            && value <= 9_223_372_036_854_775_807,
        CType::UnsignedLongLong => 0 <= value && value <= 18_446_744_073_709_551_615,
    }
}

/// The type to which two operands convert: C's usual arithmetic conversions, from ISO/IEC 9899 6.3.1.8.
///
/// Of two ranks the higher wins, and of one rank the unsigned type. `long long` has every value of `unsigned`, so those two
/// give `long long`.
pub fn common_type(a: CType, b: CType) -> CType
    ensures { result ≡ usual_type a b }
{
    match (a, b) {
        (CType::UnsignedLongLong, _) | (_, CType::UnsignedLongLong) => CType::UnsignedLongLong,
        (CType::LongLong, _) | (_, CType::LongLong) => CType::LongLong,
        (CType::Unsigned, _) | (_, CType::Unsigned) => CType::Unsigned,
        (CType::Int, CType::Int) => CType::Int,
    }
}
