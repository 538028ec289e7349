//! What a `)` ends.

ghost use Rattle.std.specs.Prelude.{◌≡◌, Ok, Err, IfOk, IfErr};
ghost use Rattle.c_syntax.specs.Faults.{first_token};
ghost use Rattle.reader_expressions.specs.Reading.{Gives, lexemes};
ghost use Rattle.reader_annotations.specs.Closing.{closing};

use c_syntax::token::Sign;
use reader_assignments::ends::ended;
use reader_expressions::reading::{Parsed, ReadFault, Reading};

/// A value that was read, up to the `)` that has to stand behind it.
#[tactic(auto, using(crate::proofs::Closing::closing_at))]
pub fn close_bracket<'a, T: Drop>(inner: Parsed<'a, T>) -> Reading<'a, T>
    ensures value { IfOk result (λ x. x.value ≡ inner.entry.value) }
    ensures height { IfOk result (λ x. x.height ≡ inner.entry.height) }
    ensures ok { IfOk result (λ x. closing (lexemes inner.entry.rest.now) ≡ Ok ((first_token (lexemes inner.entry.rest.now)).place, 0, lexemes x.rest.now)) }
    ensures err { IfErr result (λ e. Gives (λ x. x) (Err e) (closing (lexemes inner.entry.rest.now))) }
{
    let end = ended(Sign::Close, inner)?;
    let (value, _) = end.value;
    Ok(Parsed {
        value,
        height: end.height,
        rest: end.rest,
    })
}
