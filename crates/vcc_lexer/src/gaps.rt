//! What stands between tokens.

ghost use Rattle.std.specs.Prelude.{◌≡◌, ◌≢◌, ℕ, ◌+◌, ◌≤◌, ◌++◌, List, MatchBool, MatchOption, length, slice_index};
ghost use Rattle.c_syntax.specs.Lexing.{EndsLine, HasNoEnd};
ghost use Rattle.vcc_lexer.specs.Gaps.{IsBlank, IsBody, IsGap};

use crate::bytes::{Class, byte_at, run};

/// What stands at the front of a text, if it is no token.
#[derive(Clone, Copy)]
pub enum Gap {
    /// So many bytes are skipped.
    Skipped(usize),
    /// A comment without end.
    OpenComment,
    /// Nothing that is skipped.
    Nothing,
}

/// Whether the text ends here, or the line.
fn ends_line(text: &[u8]) -> bool
    ensures { MatchBool result (EndsLine text.now) (EndsLine text.now → ⊥) }
{
    text.is_empty() || byte_at(text, 0) == b'\n'
}

/// How many bytes stand before the first `*/`.
fn body_length(text: &[u8]) -> Option<usize>
    ensures { MatchOption result (HasNoEnd text.now) (λ n. IsBody text.now n) }
{
    for (i, byte) in text.iter().enumerate() {
        if *byte == b'*' && byte_at(text, i + 1) == b'/' {
            return Some(i);
        }
    }
    None
}

/// What a `/` begins.
fn comment(text: &[u8]) -> Gap
    requires { slice_index text.now 0 ≡ 47 }
    ensures { (column : ℕ) → IsGap column text.now result }
{
    if let Some(line) = text.strip_prefix(b"//") {
        return Gap::Skipped(run(Class::WithinLine, line) + 2);
    }
    let Some(body) = text.strip_prefix(b"/*") else {
        return Gap::Nothing;
    };
    let Some(length) = body_length(body) else {
        return Gap::OpenComment;
    };
    Gap::Skipped(length + 4)
}

/// What a `#` begins.
fn include(column: u32, text: &[u8]) -> Gap
    requires { slice_index text.now 0 ≡ 35 }
    ensures { IsGap column text.now result }
{
    if column != 1 {
        return Gap::Nothing;
    }
    let Some(place_after) = text.strip_prefix(b"#include <vcc.h>") else {
        return Gap::Nothing;
    };
    if !ends_line(place_after) {
        return Gap::Nothing;
    }
    Gap::Skipped(16)
}

/// Whether the byte is a blank, a tab, a CR or an LF.
fn is_blank(byte: u8) -> bool
    ensures { MatchBool result (IsBlank byte) (IsBlank byte → ⊥) }
{
    byte == b' ' || byte == b'\t' || byte == b'\r' || byte == b'\n'
}

/// What stands at the front of the text, which begins at this column.
pub fn first_gap(column: u32, text: &[u8]) -> Gap
    ensures { IsGap column text.now result }
{
    let first = byte_at(text, 0);
    if is_blank(first) {
        return Gap::Skipped(1);
    }
    match first {
        b'/' => comment(text),
        b'#' => include(column, text),
        _ => Gap::Nothing,
    }
}
