//! Bytes by their classes.

ghost use Rattle.std.specs.Prelude.{◌≡◌, ℕ, ◌<◌, ◌≤◌, true, false, length, slice_index};
ghost use Rattle.vcc_lexer.specs.Classes as spec;

/// What a run of bytes is made of.
#[derive(Clone, Copy)]
pub enum Class {
    Digit,
    HexDigit,
    Letter,
    NameByte,
    /// any byte but a line's end
    WithinLine,
}

/// Whether the byte is of the class.
pub fn is_in(class: Class, byte: u8) -> bool
    ensures { result ≡ spec.is_in class byte }
{
    match class {
        Class::Digit => byte.is_ascii_digit(),
        Class::HexDigit => byte.is_ascii_hexdigit(),
        Class::Letter => byte.is_ascii_alphabetic(),
        Class::NameByte => byte == b'_' || byte.is_ascii_alphanumeric(),
        Class::WithinLine => byte != b'\n',
    }
}

/// The byte at this index, or 0 behind the end.
pub fn byte_at(text: &[u8], index: usize) -> u8
    ensures { result ≡ slice_index text.now index }
{
    if index < text.len() { text[index] } else { 0 }
}

/// How many bytes of the class stand first.
pub fn run(class: Class, text: &[u8]) -> usize
    ensures within { result ≤ length text.now }
    ensures all { (k : ℕ) → k < result → spec.is_in class (slice_index text.now k) ≡ true }
    ensures ends { result < length text.now → spec.is_in class (slice_index text.now result) ≡ false }
{
    for (i, byte) in text.iter().enumerate() {
        if !is_in(class, *byte) {
            return i;
        }
    }
    text.len()
}
