//! Words: numbers, arguments and literals.

ghost use Rattle.std.specs.Prelude.{IfSome, IfNone, ◌≡◌, ◌+◌, ◌-◌, ◌*◌, ◌^◌, ◌<◌, ◌≤◌, ◌<ℤ◌, ◌∷◌, [], length, negsuc, pos, true, slice_index};
ghost use Rattle.std.specs.Char.{is_ascii_digit};
ghost use Rattle.std.specs.Option.{option_map_or};
ghost use Rattle.cert_lines.specs.Numerals as numeral;
ghost use Rattle.cert_lines.specs.Numerals.{Finds, at_most, digits_at};
ghost use Rattle.cert_lines.specs.Grammar.{words_of};

use terms::term::Literal;

/// The greatest number of 128 bits signed.
const GREATEST_NUMBER: u128 = 170141183460469231731687303715884105727;

/// The greatest number of a term.
const GREATEST_TERM: u128 = 4294967295;

/// The first word of a line, and the words behind it.
pub(crate) fn first_word(line: &[u8]) -> (&[u8], Option<&[u8]>)
    ensures words { words_of line.now ≡ result.0.now ∷ option_map_or (λ rest. words_of rest.now) result.1 [] }
    ensures shorter { IfSome result.1 (λ rest. length rest.now < length line.now) }
{
    for (at, byte) in line.iter().enumerate() {
        if *byte == b' ' {
            return (&line[..at], Some(&line[at + 1..]));
        }
    }
    (line, None)
}

/// The number with one more digit, up to `most`.
fn with_digit(most: u128, value: u128, digit: u8) -> Option<u128>
    requires { is_ascii_digit digit ≡ true }
    ensures found { IfSome result (λ n. (n ≡ value * 10 + (digit - 48)) × (n ≤ most)) }
    ensures none { IfNone result (most < value * 10 + (digit - 48)) }
{
    let next = value
        .checked_mul(10)?
        .checked_add(u128::from(digit - b'0'))?;
    if next > most {
        return None;
    }
    Some(next)
}

/// The number that the digits write, up to `most`, and the bytes behind them.
fn digits(most: u128, bytes: &[u8]) -> Option<(u128, &[u8])>
    ensures reads { Finds (λ x. (x.0, x.1.now)) result (at_most most (digits_at 0 bytes.now)) }
    ensures within { IfSome result (λ x. length x.1.now ≤ length bytes.now) }
{
    let mut value = 0;
    let mut rest = bytes;
    while let Some((byte, following)) = rest.split_first() {
        if !byte.is_ascii_digit() {
            return Some((value, rest));
        }
        value = with_digit(most, value, *byte)?;
        rest = following;
    }
    Some((value, rest))
}

/// A number without a sign, up to `most`.
#[tactic(auto, using(crate::proofs::First::natural_none))]
fn natural(most: u128, bytes: &[u8]) -> Option<(u128, &[u8])>
    ensures reads { Finds (λ x. (x.0, x.1.now)) result (numeral.natural_at most bytes.now) }
    ensures within { IfSome result (λ x. length x.1.now ≤ length bytes.now) }
    ensures most { IfSome result (λ x. x.0 ≤ most) }
{
    let (first, following) = bytes.split_first()?;
    if *first == b'0' {
        return Some((0, following));
    }
    if !first.is_ascii_digit() {
        return None;
    }
    digits(most, bytes)
}

/// The negative number of this size.
fn negative(size: u128) -> i128
    requires { (0 < size) × (size ≤ 2 ^ 127) }
    ensures value { result ≡ negsuc (size - 1) }
    ensures below { result <ℤ pos 0 }
{
    -1 - ((size - 1) as i128)
}

/// A number, and what stands behind it.
#[tactic(auto, using(crate::proofs::First::number_none))]
fn number(bytes: &[u8]) -> Option<(i128, &[u8])>
    ensures reads { Finds (λ x. (x.0, x.1.now)) result (numeral.number_at bytes.now) }
    ensures within { IfSome result (λ x. length x.1.now ≤ length bytes.now) }
{
    let (first, following) = bytes.split_first()?;
    if *first != b'-' {
        let (number, rest) = natural(GREATEST_NUMBER, bytes)?;
        return Some((number as i128, rest));
    }
    let (size, rest) = natural(GREATEST_NUMBER + 1, following)?;
    if size == 0 {
        return None;
    }
    Some((negative(size), rest))
}

/// The number of a term, and what stands behind it.
fn argument(bytes: &[u8]) -> Option<(u32, &[u8])>
    ensures reads { Finds (λ x. (x.0, x.1.now)) result (numeral.natural_at (2 ^ 32 - 1) bytes.now) }
    ensures within { IfSome result (λ x. length x.1.now ≤ length bytes.now) }
{
    let (term, rest) = natural(GREATEST_TERM, bytes)?;
    Some((term as u32, rest))
}

/// A literal, and what stands behind it.
#[tactic(auto, using(crate::proofs::First::literal_none))]
fn literal(bytes: &[u8]) -> Option<(Literal, &[u8])>
    ensures reads { Finds (λ x. (x.0, x.1.now)) result (numeral.literal_at bytes.now) }
    ensures within { IfSome result (λ x. length x.1.now ≤ length bytes.now) }
{
    let (sign, following) = bytes.split_first()?;
    let positive = *sign == b'+';
    if !positive && *sign != b'-' {
        return None;
    }
    let (term, rest) = argument(following)?;
    Some((Literal { term, positive }, rest))
}

/// The number that the word is.
#[tactic(auto, unfolding(crate::specs::Numerals::number_in))]
pub(crate) fn number_in(word: &[u8]) -> Option<i128>
    ensures { Finds (λ n. n) result (numeral.number_in word.now) }
{
    let (number, rest) = number(word)?;
    if !rest.is_empty() {
        return None;
    }
    Some(number)
}

/// The term that the word numbers.
#[tactic(auto, unfolding(crate::specs::Numerals::argument_in))]
pub(crate) fn argument_in(word: &[u8]) -> Option<u32>
    ensures { Finds (λ n. n) result (numeral.argument_in word.now) }
{
    let (term, rest) = argument(word)?;
    if !rest.is_empty() {
        return None;
    }
    Some(term)
}

/// The literal that the word is.
#[tactic(auto, unfolding(crate::specs::Numerals::literal_in))]
pub(crate) fn literal_in(word: &[u8]) -> Option<Literal>
    ensures { Finds (λ l. l) result (numeral.literal_in word.now) }
{
    let (literal, rest) = literal(word)?;
    if !rest.is_empty() {
        return None;
    }
    Some(literal)
}
