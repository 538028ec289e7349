//! What is read: a value, or why there is none.

ghost use Rattle.std.specs.Prelude.{◌≡◌, nat_le, ◌≤◌, true, false, IfOk, IfErr};
ghost use Rattle.reader_expressions.specs.declared.reading.ReadFault.TheVariants.{TooDeep};

use c_syntax::token::Token;

/// A value, how high its tree is, and the tokens behind it.
#[derive(Drop)]
pub struct Parsed<'a, T> {
    pub value: T,
    pub height: u32,
    pub rest: &'a [Token<'a>],
}

/// Why no value is read, with the tokens from the first on that doesn't fit.
#[derive(Clone, Copy)]
pub enum ReadFault<'a> {
    /// No sentence goes on with this token.
    Unexpected(&'a [Token<'a>]),
    /// Only sentences that are too high go on with it.
    TooDeep(&'a [Token<'a>]),
    OutOfMemory,
}

/// A value, or why there is none.
pub type Reading<'a, T> = Result<Parsed<'a, T>, ReadFault<'a>>;

/// Whether trees of this height still have room, at these tokens.
pub fn fits<'a>(least: u32, room: u32, tokens: &'a [Token<'a>]) -> Result<(), ReadFault<'a>>
    ensures ok { IfOk result (λ x. nat_le least room ≡ true) }
    ensures enough { IfOk result (λ x. least ≤ room) }
    ensures err { IfErr result (λ e. (nat_le least room ≡ false) × (e ≡ TooDeep tokens.entry)) }
{
    if room < least {
        return Err(ReadFault::TooDeep(tokens));
    }
    Ok(())
}
