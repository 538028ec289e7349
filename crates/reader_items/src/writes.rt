//! What a function may write.

ghost use Rattle.std.specs.Prelude.{◌≡◌, ◌≤◌, ◌<◌, ◌+◌, map, IfOk};
ghost use Rattle.ebnf.specs.Sets.{has, first};
ghost use Rattle.ebnf.specs.Derives.{next};
ghost use Rattle.ebnf.specs.Reading.{reads};
ghost use Rattle.c_syntax.specs.Grammar as g;
ghost use Rattle.c_syntax.specs.Language.{language};
ghost use Rattle.c_syntax.specs.Views.{exp, written as written_of};
ghost use Rattle.reader_expressions.specs.Reading.{Gives, lexemes, part, rule_at, entered, extended};
ghost use Rattle.reader_items.specs.Rows as rows;

use c_syntax::expressions::Expr;
use c_syntax::items::WritesItem;
use c_syntax::token::{Sign, SpecWord, Token};
use reader_annotations::ghost_rights::property;
use reader_assignments::calls::begins_code;
use reader_expressions::forms::form_at;
use reader_expressions::memory::{add, single};
use reader_expressions::reading::{Parsed, ReadFault, Reading, fits};
use reader_expressions::tokens::{next_is, next_is_spec, take, take_spec};
use std::alloc::Global;

/// Whether a whole property begins with the next token.
#[tactic(auto, using(crate::proofs::Begins::code_begins, crate::proofs::Begins::form_begins, crate::proofs::Begins::none_begins))]
pub fn begins_property<'a>(tokens: &'a [Token<'a>]) -> bool
    ensures { result ≡ has (first language g.whole_spec) (next language (lexemes tokens.now)) }
{
    if begins_code(tokens) {
        return true;
    }
    match form_at(tokens) {
        Some(_) => true,
        None => false,
    }
}

/// A property in brackets.
#[tactic(auto, unfolding(ebnf::specs::Reading::read))]
fn inside_property<'a>(alloc: Global, room: u32, tokens: &'a [Token<'a>]) -> Reading<'a, Expr>
    requires room { room < 1000 }
    ensures gives { Gives exp result (part room rows.inside_spec (lexemes tokens.now)) }
    ensures low { IfOk result (λ x. x.height ≤ room) }
{
    let open = take(Sign::Open, tokens)?;
    let found = property(alloc, room, open.rest)?;
    let close = take(Sign::Close, found.rest)?;
    Ok(Parsed {
        value: found.value,
        height: found.height,
        rest: close.rest,
    })
}

/// `\span` and an object.
#[tactic(auto, unfolding(ebnf::specs::Reading::read_rule), using(reader_assignments::proofs::Parts::rows))]
fn span_of<'a>(alloc: Global, room: u32, tokens: &'a [Token<'a>]) -> Reading<'a, WritesItem>
    requires room { room < 1000 }
    ensures gives { Gives written_of result (rule_at room rows.span_of (lexemes tokens.now)) }
    ensures low { IfOk result (λ x. x.height ≤ room + 1) }
{
    let word = take_spec(SpecWord::Span, tokens)?;
    let object = inside_property(alloc, room, word.rest)?;
    Ok(Parsed {
        value: WritesItem::Span(word.value, object.value),
        height: object.height + 1,
        rest: object.rest,
    })
}

/// `\extent` and an object.
#[tactic(auto, unfolding(ebnf::specs::Reading::read_rule), using(reader_assignments::proofs::Parts::rows))]
fn extent_of<'a>(alloc: Global, room: u32, tokens: &'a [Token<'a>]) -> Reading<'a, WritesItem>
    requires room { room < 1000 }
    ensures gives { Gives written_of result (rule_at room rows.extent_of (lexemes tokens.now)) }
    ensures low { IfOk result (λ x. x.height ≤ room + 1) }
{
    let word = take_spec(SpecWord::Extent, tokens)?;
    let object = inside_property(alloc, room, word.rest)?;
    Ok(Parsed {
        value: WritesItem::Extent(word.value, object.value),
        height: object.height + 1,
        rest: object.rest,
    })
}

/// `\span` or `\extent` with its object, one level of height down.
#[tactic(auto, using(crate::proofs::Written::span_read, crate::proofs::Written::span_deep, crate::proofs::Written::extent_read, crate::proofs::Written::extent_deep, crate::proofs::Written::no_reach))]
fn reach_rule<'a>(alloc: Global, room: u32, tokens: &'a [Token<'a>]) -> Reading<'a, WritesItem>
    requires room { room < 1000 }
    ensures gives { Gives written_of result (rule_at room g.writes_of (lexemes tokens.now)) }
    ensures low { IfOk result (λ x. x.height ≤ room + 1) }
{
    if next_is_spec(SpecWord::Span, tokens) {
        fits(1, room, tokens)?;
        return span_of(alloc, room, tokens);
    }
    if !next_is_spec(SpecWord::Extent, tokens) {
        return Err(ReadFault::Unexpected(tokens));
    }
    fits(1, room, tokens)?;
    extent_of(alloc, room, tokens)
}

/// `\span` or `\extent` with its object.
#[tactic(auto, unfolding(ebnf::specs::Reading::reads))]
fn reach<'a>(alloc: Global, room: u32, tokens: &'a [Token<'a>]) -> Reading<'a, WritesItem>
    requires room { room < 1000 }
    ensures gives { Gives written_of result (reads language room g.WritesOf (lexemes tokens.now)) }
    ensures low { IfOk result (λ x. x.height ≤ room) }
{
    if room == 0 {
        return Err(ReadFault::TooDeep(tokens));
    }
    reach_rule(alloc, room - 1, tokens)
}

/// `\span` or `\extent`, as what is written.
#[tactic(auto, unfolding(ebnf::specs::Reading::read))]
fn reach_written<'a>(alloc: Global, room: u32, tokens: &'a [Token<'a>]) -> Reading<'a, WritesItem>
    requires room { room < 1000 }
    ensures gives { Gives written_of result (part room rows.reach (lexemes tokens.now)) }
    ensures low { IfOk result (λ x. x.height ≤ room) }
{
    let found = reach(alloc, room, tokens)?;
    Ok(found)
}

/// An object, as what is written.
#[tactic(auto, unfolding(ebnf::specs::Reading::read))]
fn object_written<'a>(alloc: Global, room: u32, tokens: &'a [Token<'a>]) -> Reading<'a, WritesItem>
    requires room { room < 1000 }
    ensures gives { Gives written_of result (part room rows.object (lexemes tokens.now)) }
    ensures low { IfOk result (λ x. x.height ≤ room) }
{
    let found = property(alloc, room, tokens)?;
    Ok(Parsed {
        value: WritesItem::Object(found.value),
        height: found.height,
        rest: found.rest,
    })
}

/// Whether `\span` or `\extent` comes next.
#[tactic(auto, unfolding(ebnf::specs::Sets::first))]
fn begins_reach<'a>(tokens: &'a [Token<'a>]) -> bool
    ensures { result ≡ has (first language rows.reach) (next language (lexemes tokens.now)) }
{
    next_is_spec(SpecWord::Span, tokens) || next_is_spec(SpecWord::Extent, tokens)
}

/// An item of a writes list.
#[tactic(auto, using(crate::proofs::Written::reach_read, crate::proofs::Written::reach_deep, crate::proofs::Written::object_read, crate::proofs::Written::object_deep, crate::proofs::Written::nothing_written))]
pub fn written<'a>(alloc: Global, room: u32, tokens: &'a [Token<'a>]) -> Reading<'a, WritesItem>
    requires room { room < 1000 }
    ensures gives { Gives written_of result (part room g.written (lexemes tokens.now)) }
    ensures low { IfOk result (λ x. x.height ≤ room) }
{
    if begins_reach(tokens) {
        fits(2, room, tokens)?;
        return reach_written(alloc, room, tokens);
    }
    if !begins_property(tokens) {
        return Err(ReadFault::Unexpected(tokens));
    }
    fits(1, room, tokens)?;
    object_written(alloc, room, tokens)
}

/// The first item of a writes list.
fn first_written<'a>(
    alloc: Global,
    room: u32,
    tokens: &'a [Token<'a>],
) -> Reading<'a, Vec<WritesItem>>
    requires room { room < 1000 }
    ensures gives { Gives (λ v. map written_of v.items) result (rows.alone (part room g.written (lexemes tokens.now))) }
    ensures low { IfOk result (λ x. x.height ≤ room) }
{
    let found = written(alloc, room, tokens)?;
    let height = found.height;
    let all = single(alloc, found.value)?;
    Ok(Parsed {
        value: all,
        height,
        rest: found.rest,
    })
}

/// A comma, and one more item behind it.
#[tactic(auto, using(reader_assignments::proofs::Parts::rows))]
fn further_written<'a>(alloc: Global, room: u32, tokens: &'a [Token<'a>]) -> Reading<'a, WritesItem>
    requires room { room < 1000 }
    ensures gives { Gives written_of result (part room rows.further_written (lexemes tokens.now)) }
    ensures low { IfOk result (λ x. x.height ≤ room) }
{
    let comma = take(Sign::Comma, tokens)?;
    let found = written(alloc, room, comma.rest)?;
    Ok(Parsed {
        value: found.value,
        height: found.height,
        rest: found.rest,
    })
}

/// One more item behind those that were found.
#[tactic(auto, unfolding(ebnf::specs::Sets::low))]
fn add_written<'a>(
    alloc: Global,
    room: u32,
    found: Parsed<'a, Vec<WritesItem>>,
) -> Reading<'a, Vec<WritesItem>>
    requires room { room < 1000 }
    requires low { found.height ≤ room }
    ensures gives { Gives (λ v. map written_of v.items) result (extended (map written_of found.entry.value.items) found.entry.height (entered room rows.further_written (lexemes found.entry.rest.now))) }
    ensures low { IfOk result (λ x. x.height ≤ room) }
{
    fits(1, room, found.rest)?;
    let next = further_written(alloc, room, found.rest)?;
    let height = found.height.max(next.height);
    let mut all = found.value;
    add(&mut all, next.value)?;
    Ok(Parsed {
        value: all,
        height,
        rest: next.rest,
    })
}

/// The items of a writes list, with commas between.
pub fn written_list<'a>(
    alloc: Global,
    room: u32,
    tokens: &'a [Token<'a>],
) -> Reading<'a, Vec<WritesItem>>
    requires room { room < 1000 }
    ensures gives { Gives (λ v. map written_of v.items) result (part room rows.all_written (lexemes tokens.now)) }
    ensures low { IfOk result (λ x. x.height ≤ room) }
{
    let first = first_written(alloc, room, tokens)?;
    let mut found = first;
    'more: while next_is(Sign::Comma, found.rest) {
        found = add_written(alloc, room, found)?;
    }
    Ok(found)
}
