//! What stands around a text, and what names are there.

use crate::places::Places;
use typing_expressions::context::Context;

/// What stands around a text, with the variables of its function.
#[derive(Clone, Copy)]
pub struct Around<'s, 'a> {
    pub context: Context<'s, 'a>,
    pub places: &'s Places<'a>,
}

/// What a bare name is, by its number: a variable of a quantifier, 0 the innermost; one of the function; or a field of `\this`.
#[derive(Clone, Copy, Debug, PartialEq, Eq)]
pub enum Meaning {
    OfQuantifier(u32),
    OfFunction(u32),
    OwnField(u32),
}
