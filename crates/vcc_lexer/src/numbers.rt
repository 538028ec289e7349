//! Numbers.

ghost use Rattle.std.specs.Prelude.{◌≡◌, ◌≢◌, ℕ, ◌+◌, ◌<◌, ◌≤◌, ◌^◌, All, Bool, IfOk, List, MatchBool, MatchOption, Option, drop, true, false, int_le, length, map, pos, slice_index, take};
ghost use Rattle.std.specs.Char.{digit_value};
ghost use Rattle.std.specs.Str.Parse.{digits_value};
ghost use Rattle.int_ranges.specs.Ranges.{greatest_of};
ghost use Rattle.int_ranges.specs.declared.ctype.CType.{CType};
ghost use Rattle.c_syntax.specs.Numbers as numbers;
ghost use Rattle.c_syntax.specs.Numbers.{HasNoLeadingZero, IsSuffix, is_digit, is_digit_of, lower};
ghost use Rattle.c_syntax.specs.Tokens.{IsLongest, IsToken, Word};
ghost use Rattle.c_syntax.specs.Lexing.{word_of};
ghost use Rattle.vcc_lexer.specs.Classes as classes;
ghost use Rattle.vcc_lexer.specs.First.{IsTaken};
ghost use Rattle.vcc_lexer.specs.NumberTexts.{BeginsHexadecimal, HasCounts, HasRuns, Writes, base_of};

use crate::bytes::{Class, byte_at, is_in, run};
use c_syntax::token::TokenKind;
use int_ranges::ctype::CType;

/// How a number is written.
#[derive(Clone, Copy)]
pub enum Base {
    Decimal,
    Hexadecimal,
}

/// How many digits and letters a number has.
#[derive(Clone, Copy)]
pub struct Counts {
    base: Base,
    digits: usize,
    letters: usize,
}

/// What a suffix asks of the type.
#[derive(Clone, Copy)]
pub struct Suffix {
    unsigned: bool,
    long: bool,
}

fn radix(base: Base) -> u64
    ensures { result ≡ numbers.radix (base_of base) }
{
    match base {
        Base::Decimal => 10,
        Base::Hexadecimal => 16,
    }
}

fn prefix_length(base: Base) -> usize
    ensures { result ≡ length (numbers.prefix (base_of base)) }
{
    match base {
        Base::Decimal => 0,
        Base::Hexadecimal => 2,
    }
}

fn digit_class(base: Base) -> Class
    ensures { (b : ℕ) → classes.is_in result b ≡ is_digit_of (base_of base) b }
{
    match base {
        Base::Decimal => Class::Digit,
        Base::Hexadecimal => Class::HexDigit,
    }
}

/// Whether `0x` and a hexadecimal digit stand first.
fn begins_hexadecimal(text: &[u8]) -> bool
    ensures { MatchBool result (BeginsHexadecimal text.now) (BeginsHexadecimal text.now → ⊥) }
{
    byte_at(text, 0) == b'0' && byte_at(text, 1) == b'x' && is_in(Class::HexDigit, byte_at(text, 2))
}

/// How many digits and letters stand behind the prefix.
fn count(base: Base, text: &[u8]) -> Counts
    requires { length (numbers.prefix (base_of base)) ≤ length text.now }
    ensures base { result.base ≡ base }
    ensures runs { HasRuns (base_of base) result.digits result.letters text.now }
{
    let (_, place_after) = text.split_at(prefix_length(base));
    let digits = run(digit_class(base), place_after);
    let (_, rest) = place_after.split_at(digits);
    let letters = run(Class::Letter, rest);
    Counts {
        base,
        digits,
        letters,
    }
}

/// How many digits and letters the number has that stands first.
fn number_counts(text: &[u8]) -> Counts
    requires { is_digit (slice_index text.now 0) ≡ true }
    ensures { HasCounts (base_of result.base) result.digits result.letters text.now }
{
    if begins_hexadecimal(text) {
        return count(Base::Hexadecimal, text);
    }
    count(Base::Decimal, text)
}

fn lower_byte(byte: u8) -> u8
    ensures { result ≡ lower byte }
{
    byte.to_ascii_lowercase()
}

/// Whether the letters, in lower case, are this word.
fn is_spelled(letters: &[u8], word: &[u8]) -> bool
    ensures { MatchBool result (map lower letters.now ≡ word.now) (map lower letters.now ≢ word.now) }
{
    if letters.len() != word.len() {
        return false;
    }
    for (i, byte) in letters.iter().enumerate() {
        if lower_byte(*byte) != word[i] {
            return false;
        }
    }
    true
}

/// What the suffix asks, where the letters are one.
fn suffix_of(letters: &[u8]) -> Option<Suffix>
    ensures { MatchOption result ((u g : Bool) → IsSuffix (map lower letters.now) u g → ⊥) (λ x. IsSuffix (map lower letters.now) x.unsigned x.long) }
{
    if is_spelled(letters, b"") {
        return Some(Suffix {
            unsigned: false,
            long: false,
        });
    }
    if is_spelled(letters, b"u") {
        return Some(Suffix {
            unsigned: true,
            long: false,
        });
    }
    if is_spelled(letters, b"ll") {
        return Some(Suffix {
            unsigned: false,
            long: true,
        });
    }
    if is_spelled(letters, b"ull") {
        return Some(Suffix {
            unsigned: true,
            long: true,
        });
    }
    if is_spelled(letters, b"llu") {
        return Some(Suffix {
            unsigned: true,
            long: true,
        });
    }
    None
}

/// Whether a digit follows a leading 0 in a decimal number.
fn has_leading_zero(base: Base, digits: &[u8]) -> bool
    ensures { MatchBool result (HasNoLeadingZero (base_of base) digits.now → ⊥) (HasNoLeadingZero (base_of base) digits.now) }
{
    match base {
        Base::Decimal => byte_at(digits, 0) == b'0' && digits.len() != 1,
        Base::Hexadecimal => false,
    }
}

/// What a digit counts.
fn value_of_digit(digit: u8) -> u8
    requires { numbers.is_hex_digit digit ≡ true }
    ensures { result ≡ digit_value digit }
{
    match digit {
        b'0'..=b'9' => digit - b'0',
        b'a'..=b'f' => digit - b'a' + 10,
        _ => digit - b'A' + 10,
    }
}

/// The number that the digits write, if it fits 64 bits.
fn value_of_digits(base: Base, digits: &[u8]) -> Option<u64>
    requires { All (λ b. is_digit_of (base_of base) b ≡ true) digits.now }
    ensures { MatchOption result (2 ^ 64 ≤ digits_value (numbers.radix (base_of base)) digits.now) (λ n. n ≡ digits_value (numbers.radix (base_of base)) digits.now) }
{
    let radix = radix(base);
    let mut value: u64 = 0;
    for digit in digits {
        value = value
            .checked_mul(radix)?
            .checked_add(u64::from(value_of_digit(*digit)))?;
    }
    Some(value)
}

/// Whether the type has the value.
fn has_value(ty: CType, value: u64) -> bool
    ensures { result ≡ int_le (pos value) (greatest_of ty) }
{
    match ty {
        CType::Int => value <= 2147483647,
        CType::Unsigned => value <= 4294967295,
        CType::LongLong => value <= 9223372036854775807,
        CType::UnsignedLongLong => value <= 18446744073709551615,
    }
}

/// The first of the types that has the value.
fn first_with(value: u64, types: &[CType]) -> Option<CType>
    ensures { result ≡ numbers.first_with value types.now }
{
    for ty in types {
        if has_value(*ty, value) {
            return Some(*ty);
        }
    }
    None
}

/// The types that a number may have, in their order.
fn types_of(base: Base, suffix: Suffix) -> &'static [CType]
    ensures { result.now ≡ numbers.types_of (base_of base) suffix.unsigned suffix.long }
{
    if suffix.unsigned && suffix.long {
        return &[CType::UnsignedLongLong];
    }
    if suffix.unsigned {
        return &[CType::Unsigned, CType::UnsignedLongLong];
    }
    match (base, suffix.long) {
        (Base::Decimal, true) => &[CType::LongLong],
        (Base::Decimal, false) => &[CType::Int, CType::LongLong],
        (Base::Hexadecimal, true) => &[CType::LongLong, CType::UnsignedLongLong],
        (Base::Hexadecimal, false) => &[
            CType::Int,
            CType::Unsigned,
            CType::LongLong,
            CType::UnsignedLongLong,
        ],
    }
}

/// The value and type of the number that the digits and letters write.
fn value_of(base: Base, digits: &[u8], letters: &[u8]) -> Option<(u64, CType)>
    requires { All (λ b. is_digit_of (base_of base) b ≡ true) digits.now }
    ensures { MatchOption result ((v : ℕ) (ty : CType) → Writes (base_of base) digits.now letters.now v ty → ⊥) (λ x. Writes (base_of base) digits.now letters.now x.0 x.1) }
{
    if has_leading_zero(base, digits) {
        return None;
    }
    let Some(suffix) = suffix_of(letters) else {
        return None;
    };
    let Some(value) = value_of_digits(base, digits) else {
        return None;
    };
    let Some(ty) = first_with(value, types_of(base, suffix)) else {
        return None;
    };
    Some((value, ty))
}

/// The number that stands first, and how many bytes it has; none where what is taken together is no number.
pub fn first_number(text: &[u8]) -> Option<(TokenKind<'_>, usize)>
    requires { is_digit (slice_index text.now 0) ≡ true }
    ensures { MatchOption result ((n : ℕ) × IsLongest text.now n × ((word : Word) → IsToken word (take n text.now) → ⊥)) (λ x. IsTaken text.now (word_of x.0) x.1) }
{
    let counts = number_counts(text);
    let prefix = prefix_length(counts.base);
    let (_, place_after) = text.split_at(prefix);
    let (digits, rest) = place_after.split_at(counts.digits);
    let (letters, _) = rest.split_at(counts.letters);
    let Some((value, ty)) = value_of(counts.base, digits, letters) else {
        return None;
    };
    let length = prefix + counts.digits + counts.letters;
    Some((TokenKind::Number { value, ty }, length))
}
