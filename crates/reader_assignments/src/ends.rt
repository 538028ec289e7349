//! What a sign stands behind.

ghost use Rattle.std.specs.Prelude.{◌≡◌, Ok, Err, IfOk, IfErr};
ghost use Rattle.c_syntax.specs.Classes as classes;
ghost use Rattle.reader_expressions.specs.Reading.{Gives, lexemes, one_token};

use c_syntax::token::{Sign, Span};
use reader_expressions::reading::{Parsed, ReadFault, Reading};
use reader_expressions::tokens::take;

/// A value that was read, with the place of the sign that has to stand behind it. The value goes into this call, so a caller
/// holds no tree where the sign is missing.
pub fn ended<'a, T: Drop>(sign: Sign, found: Parsed<'a, T>) -> Reading<'a, (T, Span)>
    ensures value { IfOk result (λ x. x.value.0 ≡ found.entry.value) }
    ensures height { IfOk result (λ x. x.height ≡ found.entry.height) }
    ensures ok { IfOk result (λ x. one_token (classes.sign sign) 0 (λ x. x.place) (lexemes found.entry.rest.now) ≡ Ok (x.value.1, 0, lexemes x.rest.now)) }
    ensures err { IfErr result (λ e. Gives (λ x. x) (Err e) (one_token (classes.sign sign) 0 (λ x. x.place) (lexemes found.entry.rest.now))) }
{
    let end = take(sign, found.rest)?;
    Ok(Parsed {
        value: (found.value, end.value),
        height: found.height,
        rest: end.rest,
    })
}
