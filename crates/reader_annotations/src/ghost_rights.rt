//! Right sides in ghost code, and changes of owned sets.

ghost use Rattle.std.specs.Prelude.{◌≡◌, ◌≤◌, ◌<◌, ◌+◌, Ok, Err, IfOk, IfErr};
ghost use Rattle.std.specs.Option.{option_map};
ghost use Rattle.ebnf.specs.Reading.{reads};
ghost use Rattle.c_syntax.specs.Grammar as g;
ghost use Rattle.c_syntax.specs.Language.{language};
ghost use Rattle.c_syntax.specs.Views.{exp, ghost_rhs as rhs_of, owns};
ghost use Rattle.reader_expressions.specs.Reading.{Gives, lexemes, part, rule_at};
ghost use Rattle.reader_annotations.specs.Rows as rows;

use crate::brackets::close_bracket;
use crate::sets::{members, set};
use c_syntax::expressions::Expr;
use c_syntax::ghosts::{GhostRight, OwnsChange};
use c_syntax::token::{Sign, Span, SpecWord, Token};
use reader_assignments::calls::{begins_code, code};
use reader_expressions::expressions::expression;
use reader_expressions::levels::{Mode, Tier};
use reader_expressions::reading::{Parsed, ReadFault, Reading, fits};
use reader_expressions::tokens::{next_is, next_is_spec, take, take_spec};
use std::alloc::Global;

/// A whole property.
pub fn property<'a>(alloc: Global, room: u32, tokens: &'a [Token<'a>]) -> Reading<'a, Expr>
    requires room { room < 1000 }
    ensures gives { Gives exp result (reads language room (g.Level g.InSpec g.Equivalence) (lexemes tokens.now)) }
    ensures low { IfOk result (λ x. x.height ≤ room) }
{
    expression(alloc, Mode::Spec, Tier::Equivalence, room, tokens)
}

/// `\make_claim`, one level of height down.
#[tactic(auto, unfolding(ebnf::specs::Reading::read_rule), using(reader_assignments::proofs::Parts::rows))]
fn claim_rule<'a>(alloc: Global, room: u32, tokens: &'a [Token<'a>]) -> Reading<'a, GhostRight>
    requires room { room < 1000 }
    ensures gives { Gives rhs_of result (rule_at room g.make_claim (lexemes tokens.now)) }
    ensures low { IfOk result (λ x. x.height ≤ room + 1) }
{
    let word = take_spec(SpecWord::MakeClaim, tokens)?;
    let start = take(Sign::Open, word.rest)?;
    let objects = set(alloc, room, start.rest)?;
    let comma = take(Sign::Comma, objects.rest)?;
    let claimed = property(alloc, room, comma.rest)?;
    let height = objects.height.max(claimed.height) + 1;
    let property = close_bracket(claimed)?;
    Ok(Parsed {
        value: GhostRight::MakeClaim(word.value, objects.value, property.value),
        height,
        rest: property.rest,
    })
}

/// `\make_claim` with the claimed objects and the property.
#[tactic(auto, unfolding(ebnf::specs::Reading::reads))]
fn make_claim<'a>(alloc: Global, room: u32, tokens: &'a [Token<'a>]) -> Reading<'a, GhostRight>
    requires room { room < 1000 }
    ensures gives { Gives rhs_of result (reads language room g.MakeClaim (lexemes tokens.now)) }
    ensures low { IfOk result (λ x. x.height ≤ room) }
{
    if room == 0 {
        return Err(ReadFault::TooDeep(tokens));
    }
    claim_rule(alloc, room - 1, tokens)
}

/// A claim as a right side.
#[tactic(auto, unfolding(ebnf::specs::Reading::read))]
fn claim_right<'a>(alloc: Global, room: u32, tokens: &'a [Token<'a>]) -> Reading<'a, GhostRight>
    requires room { room < 1000 }
    ensures gives { Gives rhs_of result (part room rows.claim_right (lexemes tokens.now)) }
    ensures low { IfOk result (λ x. x.height ≤ room) }
{
    let found = make_claim(alloc, room, tokens)?;
    Ok(found)
}

/// An expression as a right side.
#[tactic(auto, unfolding(ebnf::specs::Reading::read))]
fn value_right<'a>(alloc: Global, room: u32, tokens: &'a [Token<'a>]) -> Reading<'a, GhostRight>
    requires room { room < 1000 }
    ensures gives { Gives rhs_of result (part room rows.value_right (lexemes tokens.now)) }
    ensures low { IfOk result (λ x. x.height ≤ room) }
{
    let found = code(alloc, room, tokens)?;
    Ok(Parsed {
        value: GhostRight::Value(found.value),
        height: found.height,
        rest: found.rest,
    })
}

/// What stands right of `=` in ghost code.
#[tactic(auto, using(crate::proofs::Chosen::claim_read, crate::proofs::Chosen::claim_deep, crate::proofs::Chosen::value_read, crate::proofs::Chosen::value_deep, crate::proofs::Chosen::no_right))]
pub fn ghost_rhs<'a>(alloc: Global, room: u32, tokens: &'a [Token<'a>]) -> Reading<'a, GhostRight>
    requires room { room < 1000 }
    ensures gives { Gives rhs_of result (part room g.ghost_rhs (lexemes tokens.now)) }
    ensures low { IfOk result (λ x. x.height ≤ room) }
{
    if next_is_spec(SpecWord::MakeClaim, tokens) {
        fits(2, room, tokens)?;
        return claim_right(alloc, room, tokens);
    }
    if !begins_code(tokens) {
        return Err(ReadFault::Unexpected(tokens));
    }
    fits(1, room, tokens)?;
    value_right(alloc, room, tokens)
}

/// `;`, if it is there.
#[tactic(auto, unfolding(ebnf::specs::Reading::read, ebnf::specs::Sets::first, ebnf::specs::Sets::low, ebnf::specs::Sets::is_empty))]
pub fn semicolon_or_none<'a>(room: u32, tokens: &'a [Token<'a>]) -> Reading<'a, Option<Span>>
    ensures gives { Gives (λ x. x) result (part room g.semicolon_or_none (lexemes tokens.now)) }
    ensures flat { IfOk result (λ x. x.height ≡ 0) }
{
    if !next_is(Sign::Semicolon, tokens) {
        return Ok(Parsed {
            value: None,
            height: 0,
            rest: tokens,
        });
    }
    let sign = take(Sign::Semicolon, tokens)?;
    Ok(Parsed {
        value: Some(sign.value),
        height: 0,
        rest: sign.rest,
    })
}

/// A value that was read, with the `;` that may stand behind it. The value goes into this call, so a caller holds no tree
/// where the `;` can't be read.
pub fn before_semicolon<'a, T: Drop>(
    room: u32,
    found: Parsed<'a, T>,
) -> Reading<'a, (T, Option<Span>)>
    ensures value { IfOk result (λ x. x.value.0 ≡ found.entry.value) }
    ensures height { IfOk result (λ x. x.height ≡ found.entry.height) }
    ensures ok { IfOk result (λ x. part room g.semicolon_or_none (lexemes found.entry.rest.now) ≡ Ok (x.value.1, 0, lexemes x.rest.now)) }
    ensures err { IfErr result (λ e. Gives (λ x. x) (Err e) (part room g.semicolon_or_none (lexemes found.entry.rest.now))) }
{
    let end = semicolon_or_none(room, found.rest)?;
    Ok(Parsed {
        value: (found.value, end.value),
        height: found.height,
        rest: end.rest,
    })
}

/// `=` and a set.
#[tactic(auto, using(reader_assignments::proofs::Parts::rows))]
fn becomes<'a>(alloc: Global, room: u32, tokens: &'a [Token<'a>]) -> Reading<'a, (Span, OwnsChange)>
    requires room { room < 1000 }
    ensures gives { Gives (λ x. (x.0, owns x.1)) result (part room rows.becomes (lexemes tokens.now)) }
    ensures low { IfOk result (λ x. x.height ≤ room) }
{
    let sign = take(Sign::Assign, tokens)?;
    let all = set(alloc, room, sign.rest)?;
    Ok(Parsed {
        value: (sign.value, OwnsChange::Set(all.value)),
        height: all.height,
        rest: all.rest,
    })
}

/// `+=` and what is added.
#[tactic(auto, using(reader_assignments::proofs::Parts::rows))]
fn joins<'a>(alloc: Global, room: u32, tokens: &'a [Token<'a>]) -> Reading<'a, (Span, OwnsChange)>
    requires room { room < 1000 }
    ensures gives { Gives (λ x. (x.0, owns x.1)) result (part room rows.joins (lexemes tokens.now)) }
    ensures low { IfOk result (λ x. x.height ≤ room) }
{
    let sign = take(Sign::AddAssign, tokens)?;
    let all = members(alloc, room, sign.rest)?;
    Ok(Parsed {
        value: (sign.value, OwnsChange::Add(all.value)),
        height: all.height,
        rest: all.rest,
    })
}

/// `-=` and what is taken away.
#[tactic(auto, using(reader_assignments::proofs::Parts::rows))]
fn leaves<'a>(alloc: Global, room: u32, tokens: &'a [Token<'a>]) -> Reading<'a, (Span, OwnsChange)>
    requires room { room < 1000 }
    ensures gives { Gives (λ x. (x.0, owns x.1)) result (part room rows.leaves (lexemes tokens.now)) }
    ensures low { IfOk result (λ x. x.height ≤ room) }
{
    let sign = take(Sign::SubtractAssign, tokens)?;
    let all = members(alloc, room, sign.rest)?;
    Ok(Parsed {
        value: (sign.value, OwnsChange::Subtract(all.value)),
        height: all.height,
        rest: all.rest,
    })
}

/// How an owned set is changed, with the place of the sign.
#[tactic(auto, using(crate::proofs::Chosen::becomes_read, crate::proofs::Chosen::joins_read, crate::proofs::Chosen::leaves_read, crate::proofs::Chosen::no_change))]
pub fn owns_change<'a>(
    alloc: Global,
    room: u32,
    tokens: &'a [Token<'a>],
) -> Reading<'a, (Span, OwnsChange)>
    requires room { room < 1000 }
    ensures gives { Gives (λ x. (x.0, owns x.1)) result (part room g.owns_change (lexemes tokens.now)) }
    ensures low { IfOk result (λ x. x.height ≤ room) }
{
    if next_is(Sign::Assign, tokens) {
        return becomes(alloc, room, tokens);
    }
    if next_is(Sign::AddAssign, tokens) {
        return joins(alloc, room, tokens);
    }
    if !next_is(Sign::SubtractAssign, tokens) {
        return Err(ReadFault::Unexpected(tokens));
    }
    leaves(alloc, room, tokens)
}
