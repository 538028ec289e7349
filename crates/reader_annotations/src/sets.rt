//! Sets of objects.

ghost use Rattle.std.specs.Prelude.{◌≡◌, ◌≤◌, ◌<◌, ◌+◌, IfOk};
ghost use Rattle.c_syntax.specs.Grammar as g;
ghost use Rattle.c_syntax.specs.Views.{exps, members as members_of};
ghost use Rattle.reader_expressions.specs.Reading.{Gives, lexemes, part};
ghost use Rattle.reader_annotations.specs.Rows as rows;

use c_syntax::expressions::Expr;
use c_syntax::ghosts::Members;
use c_syntax::token::{Sign, Token};
use reader_assignments::calls::{begins_code, code, list_or_none};
use reader_expressions::reading::{Parsed, ReadFault, Reading, fits};
use reader_expressions::tokens::{next_is, take};
use std::alloc::Global;

/// Objects in braces.
#[tactic(auto, using(reader_assignments::proofs::Parts::rows))]
pub fn set<'a>(alloc: Global, room: u32, tokens: &'a [Token<'a>]) -> Reading<'a, Vec<Expr>>
    requires room { room < 1000 }
    ensures gives { Gives (λ v. exps v.items) result (part room g.set (lexemes tokens.now)) }
    ensures low { IfOk result (λ x. x.height ≤ room) }
{
    let start = take(Sign::BraceOpen, tokens)?;
    let all = list_or_none(alloc, room, start.rest)?;
    let end = take(Sign::BraceClose, all.rest)?;
    Ok(Parsed {
        value: all.value,
        height: all.height,
        rest: end.rest,
    })
}

/// A set, as what is added or taken away.
#[tactic(auto, using(reader_assignments::proofs::Parts::rows))]
fn several<'a>(alloc: Global, room: u32, tokens: &'a [Token<'a>]) -> Reading<'a, Members>
    requires room { room < 1000 }
    ensures gives { Gives members_of result (part room rows.several (lexemes tokens.now)) }
    ensures low { IfOk result (λ x. x.height ≤ room) }
{
    let all = set(alloc, room, tokens)?;
    Ok(Parsed {
        value: Members::Set(all.value),
        height: all.height,
        rest: all.rest,
    })
}

/// One object, as what is added or taken away.
#[tactic(auto, unfolding(ebnf::specs::Reading::read))]
fn one<'a>(alloc: Global, room: u32, tokens: &'a [Token<'a>]) -> Reading<'a, Members>
    requires room { room < 1000 }
    ensures gives { Gives members_of result (part room rows.one (lexemes tokens.now)) }
    ensures low { IfOk result (λ x. x.height ≤ room) }
{
    let found = code(alloc, room, tokens)?;
    Ok(Parsed {
        value: Members::One(found.value),
        height: found.height,
        rest: found.rest,
    })
}

/// What is added to an owned set or taken from it.
#[tactic(auto, using(crate::proofs::Chosen::set_read, crate::proofs::Chosen::one_read, crate::proofs::Chosen::one_deep, crate::proofs::Chosen::no_member))]
pub fn members<'a>(alloc: Global, room: u32, tokens: &'a [Token<'a>]) -> Reading<'a, Members>
    requires room { room < 1000 }
    ensures gives { Gives members_of result (part room g.members (lexemes tokens.now)) }
    ensures low { IfOk result (λ x. x.height ≤ room) }
{
    if next_is(Sign::BraceOpen, tokens) {
        return several(alloc, room, tokens);
    }
    if !begins_code(tokens) {
        return Err(ReadFault::Unexpected(tokens));
    }
    fits(1, room, tokens)?;
    one(alloc, room, tokens)
}
