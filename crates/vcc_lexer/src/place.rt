//! Places in a source.

ghost use Rattle.std.specs.Prelude.{◌≡◌, ℕ, ◌+◌, ◌<◌, ◌≤◌, length};
ghost use Rattle.c_syntax.specs.Lexing as lexing;
ghost use Rattle.vcc_lexer.specs.Places.{position};

use c_syntax::token::Span;

/// Where a byte stands: how many bytes are before it, its line and its column.
#[derive(Clone, Copy)]
pub struct Place {
    pub offset: u32,
    pub span: Span,
}

/// The place behind a byte.
fn behind_byte(byte: u8, from: Place) -> Place
    requires offset { from.offset < 4294967295 }
    requires line { from.span.line < 4294967295 }
    requires column { from.span.column < 4294967295 }
    ensures { position result ≡ lexing.behind_byte byte (position from) }
{
    let Span { line, column } = from.span;
    let span = if byte == b'\n' {
        Span {
            line: line + 1,
            column: 1,
        }
    } else {
        Span {
            line,
            column: column + 1,
        }
    };
    Place {
        offset: from.offset + 1,
        span,
    }
}

/// The place behind a text.
pub fn place_after(text: &[u8], from: Place) -> Place
    requires offset { from.offset + length text.now ≤ 4294967295 }
    requires line { from.span.line + length text.now ≤ 4294967295 }
    requires column { from.span.column + length text.now ≤ 4294967295 }
    requires counted { 0 < from.span.column }
    ensures { position result ≡ lexing.place_after text.now (position from) }
{
    let mut place = from;
    for byte in text {
        place = behind_byte(*byte, place);
    }
    place
}
