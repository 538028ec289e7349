//! Numbers without leading zeros, with `-` before a negative one.

ghost use Rattle.std.specs.Prelude.{IfSome, IfNone, ◌≡◌, ◌+◌, ◌-◌, ◌*◌, ◌^◌, ◌<◌, ◌≤◌, ◌<ℤ◌, length, negsuc, pos, true};
ghost use Rattle.std.specs.Char.{is_ascii_digit};
ghost use Rattle.decimal_text.specs.Reading as reading;
ghost use Rattle.decimal_text.specs.Reading.{Finds, at_most, digits_at, natural_of, number_of};

/// The greatest number of 128 bits.
const GREATEST: u128 = 170141183460469231731687303715884105727;

/// The number with one more digit, up to `most`.
fn with_digit(most: u128, value: u128, digit: u8) -> Option<u128>
    requires { is_ascii_digit digit ≡ true }
    ensures found { IfSome result (λ n. (n ≡ value * 10 + (digit - 48)) × (n ≤ most)) }
    ensures none { IfNone result (most < value * 10 + (digit - 48)) }
{
    let next = value
        .checked_mul(10)?
        .checked_add(u128::from(digit - b'0'))?;
    if next > most {
        return None;
    }
    Some(next)
}

/// The number that the digits write, up to `most`, and the bytes behind them.
fn digits(most: u128, bytes: &[u8]) -> Option<(u128, &[u8])>
    ensures reads { Finds (λ x. (x.0, x.1.now)) result (at_most most (digits_at 0 bytes.now)) }
    ensures within { IfSome result (λ x. length x.1.now ≤ length bytes.now) }
{
    let mut value = 0;
    let mut rest = bytes;
    while let Some((byte, following)) = rest.split_first() {
        if !byte.is_ascii_digit() {
            return Some((value, rest));
        }
        value = with_digit(most, value, *byte)?;
        rest = following;
    }
    Some((value, rest))
}

/// A number without a sign, up to `most`, and the bytes behind it.
#[tactic(auto, using(crate::proofs::First::natural_none))]
pub fn natural(most: u128, bytes: &[u8]) -> Option<(u128, &[u8])>
    ensures reads { Finds (λ x. (x.0, x.1.now)) result (reading.natural_at most bytes.now) }
    ensures within { IfSome result (λ x. length x.1.now ≤ length bytes.now) }
    ensures most { IfSome result (λ x. x.0 ≤ most) }
{
    let (first, following) = bytes.split_first()?;
    if *first == b'0' {
        return Some((0, following));
    }
    if !first.is_ascii_digit() {
        return None;
    }
    digits(most, bytes)
}

/// A number up to `most`, and the bytes behind it.
pub fn count(most: u32, bytes: &[u8]) -> Option<(u32, &[u8])>
    ensures reads { Finds (λ x. (x.0, x.1.now)) result (reading.natural_at most bytes.now) }
    ensures within { IfSome result (λ x. length x.1.now ≤ length bytes.now) }
    ensures most { IfSome result (λ x. x.0 ≤ most) }
{
    let (number, rest) = natural(u128::from(most), bytes)?;
    Some((number as u32, rest))
}

/// The negative number of this size.
fn negative(size: u128) -> i128
    requires { (0 < size) × (size ≤ 2 ^ 127) }
    ensures value { result ≡ negsuc (size - 1) }
    ensures below { result <ℤ pos 0 }
{
    -1 - ((size - 1) as i128)
}

/// A whole number of 128 bits, and the bytes behind it.
#[tactic(auto, using(crate::proofs::First::number_none))]
pub fn number(bytes: &[u8]) -> Option<(i128, &[u8])>
    ensures reads { Finds (λ x. (x.0, x.1.now)) result (reading.number_at bytes.now) }
    ensures within { IfSome result (λ x. length x.1.now ≤ length bytes.now) }
{
    let (first, following) = bytes.split_first()?;
    if *first != b'-' {
        let (number, rest) = natural(GREATEST, bytes)?;
        return Some((number as i128, rest));
    }
    let (size, rest) = natural(GREATEST + 1, following)?;
    if size == 0 {
        return None;
    }
    Some((negative(size), rest))
}

/// The number up to `most` that the text is, and nothing else.
pub fn parse_natural(most: u128, text: &[u8]) -> Option<u128>
    ensures { Finds (λ n. n) result (natural_of most text.now) }
{
    let (number, rest) = natural(most, text)?;
    if !rest.is_empty() {
        return None;
    }
    Some(number)
}

/// The number up to `most` that the text is, and nothing else.
pub fn parse_count(most: u32, text: &[u8]) -> Option<u32>
    ensures reads { Finds (λ n. n) result (natural_of most text.now) }
    ensures most { IfSome result (λ n. n ≤ most) }
{
    let (number, rest) = count(most, text)?;
    if !rest.is_empty() {
        return None;
    }
    Some(number)
}

/// The whole number that the text is, and nothing else.
pub fn parse_number(text: &[u8]) -> Option<i128>
    ensures { Finds (λ n. n) result (number_of text.now) }
{
    let (number, rest) = number(text)?;
    if !rest.is_empty() {
        return None;
    }
    Some(number)
}
