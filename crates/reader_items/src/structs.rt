//! Structs behind their names.

ghost use Rattle.std.specs.Prelude.{◌≤◌, ◌<◌, IfOk};
ghost use Rattle.c_syntax.specs.Grammar as g;
ghost use Rattle.reader_expressions.specs.Reading.{Gives, lexemes, part};
ghost use Rattle.reader_items.specs.Views as views;

use crate::members::members;
use c_syntax::items::Member;
use c_syntax::token::{Sign, Token};
use reader_expressions::reading::{Parsed, Reading};
use reader_expressions::tokens::take;
use std::alloc::Global;

/// The members of a struct in their braces, and the `;` behind it.
#[tactic(auto, using(reader_assignments::proofs::Parts::rows))]
pub fn struct_tail<'a>(
    alloc: Global,
    room: u32,
    tokens: &'a [Token<'a>],
) -> Reading<'a, Vec<Member>>
    requires room { room < 1000 }
    ensures gives { Gives views.struct_tail result (part room g.struct_tail (lexemes tokens.now)) }
    ensures low { IfOk result (λ x. x.height ≤ room) }
{
    let open = take(Sign::BraceOpen, tokens)?;
    let found = members(alloc, room, open.rest)?;
    let close = take(Sign::BraceClose, found.rest)?;
    let end = take(Sign::Semicolon, close.rest)?;
    Ok(Parsed {
        value: found.value,
        height: found.height,
        rest: end.rest,
    })
}
