//! The token that stands first.

ghost use Rattle.std.specs.Prelude.{◌≡◌, ℕ, ◌<◌, ◌≤◌, IfErr, IfOk, List, true, length, slice_index};
ghost use Rattle.c_syntax.specs.declared.token.Sign.{Sign};
ghost use Rattle.c_syntax.specs.Numbers.{is_letter};
ghost use Rattle.c_syntax.specs.Tokens.{begins_name};
ghost use Rattle.c_syntax.specs.Lexing.{word_of};
ghost use Rattle.vcc_lexer.specs.First.{IsTaken, NotBegins};
ghost use Rattle.vcc_lexer.specs.Bad.{IsBad};

use crate::bytes::{Class, byte_at, is_in, run};
use crate::numbers::first_number;
use crate::signs::{first_sign, sign_text};
use crate::words::{keyword, spec_word};
use c_syntax::token::TokenKind;

/// Why no token stands first.
#[derive(Clone, Copy)]
pub enum BadFront {
    /// No token begins here.
    Byte,
    /// What has the shape of a number is none.
    Number,
}

/// The name or keyword that stands first, and how many bytes it has.
fn first_name(text: &[u8]) -> (TokenKind<'_>, usize)
    requires begins { begins_name (slice_index text.now 0) ≡ true }
    requires no_sign { (x : Sign) → NotBegins text.now x }
    ensures { IsTaken text.now (word_of result.0) result.1 }
{
    let length = run(Class::NameByte, text);
    let (name, _) = text.split_at(length);
    match keyword(name) {
        Some(key) => (TokenKind::Keyword(key), length),
        None => (TokenKind::Name(name), length),
    }
}

/// The backslash and the name that stand first, and how many bytes they have.
fn first_spec_word(text: &[u8]) -> (TokenKind<'_>, usize)
    requires backslash { slice_index text.now 0 ≡ 92 }
    requires letter { is_letter (slice_index text.now 1) ≡ true }
    ensures { IsTaken text.now (word_of result.0) result.1 }
{
    let (_, place_after) = text.split_at(1);
    let length = run(Class::NameByte, place_after);
    let (name, _) = place_after.split_at(length);
    match spec_word(name) {
        Some(word) => (TokenKind::SpecWord(word), length + 1),
        None => (TokenKind::OtherSpecWord, length + 1),
    }
}

/// The token that stands first, and how many bytes it has.
pub fn first_token(text: &[u8]) -> Result<(TokenKind<'_>, usize), BadFront>
    ensures found { IfOk result (λ x. IsTaken text.now (word_of x.0) x.1) }
    ensures bad { IfErr result (λ e. IsBad text.now e) }
{
    if let Some(sign) = first_sign(text) {
        return Ok((TokenKind::Sign(sign), sign_text(sign).len()));
    }
    let first = byte_at(text, 0);
    if first == b'_' || is_in(Class::Letter, first) {
        return Ok(first_name(text));
    }
    if is_in(Class::Digit, first) {
        return match first_number(text) {
            Some(found) => Ok(found),
            None => Err(BadFront::Number),
        };
    }
    if first == b'\\' && is_in(Class::Letter, byte_at(text, 1)) {
        return Ok(first_spec_word(text));
    }
    Err(BadFront::Byte)
}
