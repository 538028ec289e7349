//! The attributes of structs.

ghost use Rattle.std.specs.Prelude.{◌≡◌, ◌++◌, OnOk, IfOk, IfErr};
ghost use Rattle.c_syntax.specs.Grammar as g;
ghost use Rattle.reader_expressions.specs.Reading.{Gives, IsOutOfMemory, lexemes, part, through, entered, extended};
ghost use Rattle.reader_items.specs.Rows as rows;

use c_syntax::token::{Keyword, Sign, Token};
use c_syntax::tree::Attribute;
use reader_expressions::memory::{add, single};
use reader_expressions::reading::{Parsed, ReadFault, Reading};
use reader_expressions::tokens::{next_is, next_is_key, take, take_key};
use std::alloc::Global;

/// The attribute that this word stands for.
#[tactic(auto, unfolding(ebnf::specs::Reading::read))]
fn attribute_by<'a>(
    word: Keyword,
    attribute: Attribute,
    tokens: &'a [Token<'a>],
) -> Reading<'a, Attribute>
    ensures gives { Gives (λ x. x) result (part 0 (rows.attribute_by word attribute) (lexemes tokens.now)) }
    ensures flat { IfOk result (λ x. x.height ≡ 0) }
{
    let found = take_key(word, tokens)?;
    Ok(Parsed {
        value: attribute,
        height: 0,
        rest: found.rest,
    })
}

/// An attribute.
#[tactic(auto, unfolding(ebnf::specs::Reading::read, ebnf::specs::Sets::first, ebnf::specs::Sets::low, ebnf::specs::Sets::is_empty))]
fn attribute<'a>(room: u32, tokens: &'a [Token<'a>]) -> Reading<'a, Attribute>
    ensures gives { Gives (λ x. x) result (part room g.attribute (lexemes tokens.now)) }
    ensures flat { IfOk result (λ x. x.height ≡ 0) }
{
    if next_is_key(Keyword::Claimable, tokens) {
        return attribute_by(Keyword::Claimable, Attribute::Claimable, tokens);
    }
    if next_is_key(Keyword::DynamicOwns, tokens) {
        return attribute_by(Keyword::DynamicOwns, Attribute::DynamicOwns, tokens);
    }
    attribute_by(Keyword::VolatileOwns, Attribute::VolatileOwns, tokens)
}

/// The first attribute of a list.
fn first_attribute<'a>(
    alloc: Global,
    room: u32,
    tokens: &'a [Token<'a>],
) -> Reading<'a, Vec<Attribute>>
    ensures gives { Gives (λ v. v.items) result (rows.alone (part room g.attribute (lexemes tokens.now))) }
    ensures flat { IfOk result (λ x. x.height ≡ 0) }
{
    let found = attribute(room, tokens)?;
    Ok(Parsed {
        value: single(alloc, found.value)?,
        height: 0,
        rest: found.rest,
    })
}

/// A comma, and one more attribute behind it.
#[tactic(auto, using(reader_assignments::proofs::Parts::rows))]
fn further_attribute<'a>(room: u32, tokens: &'a [Token<'a>]) -> Reading<'a, Attribute>
    ensures gives { Gives (λ x. x) result (part room rows.further_attribute (lexemes tokens.now)) }
    ensures flat { IfOk result (λ x. x.height ≡ 0) }
{
    let comma = take(Sign::Comma, tokens)?;
    let found = attribute(room, comma.rest)?;
    Ok(Parsed {
        value: found.value,
        height: 0,
        rest: found.rest,
    })
}

/// One more attribute behind those that were found.
#[tactic(auto, unfolding(ebnf::specs::Sets::low))]
fn add_attribute<'a>(room: u32, found: Parsed<'a, Vec<Attribute>>) -> Reading<'a, Vec<Attribute>>
    requires flat { found.height ≡ 0 }
    ensures gives { Gives (λ v. v.items) result (extended found.entry.value.items found.entry.height (entered room rows.further_attribute (lexemes found.entry.rest.now))) }
    ensures flat { IfOk result (λ x. x.height ≡ 0) }
{
    let next = further_attribute(room, found.rest)?;
    let mut all = found.value;
    add(&mut all, next.value)?;
    Ok(Parsed {
        value: all,
        height: 0,
        rest: next.rest,
    })
}

/// Attributes with commas between.
fn attributes_inside<'a>(
    alloc: Global,
    room: u32,
    tokens: &'a [Token<'a>],
) -> Reading<'a, Vec<Attribute>>
    ensures gives { Gives (λ v. v.items) result (part room rows.all_attributes (lexemes tokens.now)) }
    ensures flat { IfOk result (λ x. x.height ≡ 0) }
{
    let first = first_attribute(alloc, room, tokens)?;
    let mut found = first;
    'more: while next_is(Sign::Comma, found.rest) {
        found = add_attribute(room, found)?;
    }
    Ok(found)
}

/// One list of attributes.
#[tactic(auto, using(reader_assignments::proofs::Parts::rows))]
pub fn attribute_list<'a>(
    alloc: Global,
    room: u32,
    tokens: &'a [Token<'a>],
) -> Reading<'a, Vec<Attribute>>
    ensures gives { Gives (λ v. v.items) result (part room g.attribute_list (lexemes tokens.now)) }
    ensures flat { IfOk result (λ x. x.height ≡ 0) }
{
    let start = take(Sign::Annotation, tokens)?;
    let found = attributes_inside(alloc, room, start.rest)?;
    let end = take(Sign::Close, found.rest)?;
    Ok(Parsed {
        value: found.value,
        height: 0,
        rest: end.rest,
    })
}

/// These attributes behind those.
fn add_all<'a>(all: &mut Vec<Attribute>, more: &[Attribute]) -> Result<(), ReadFault<'a>>
    ensures ok { OnOk result (all.new.items ≡ all.old.items ++ more.now) }
    ensures err { IfErr result IsOutOfMemory }
{
    match all.extend_from_slice(more) {
        Ok(()) => Ok(()),
        Err(_) => Err(ReadFault::OutOfMemory),
    }
}

/// One more list of attributes behind those that were found.
#[tactic(auto, unfolding(ebnf::specs::Sets::low))]
fn add_list<'a>(
    alloc: Global,
    room: u32,
    found: Parsed<'a, Vec<Attribute>>,
) -> Reading<'a, Vec<Attribute>>
    requires flat { found.height ≡ 0 }
    ensures gives { Gives (λ v. v.items) result (through found.entry.value.items found.entry.height (entered room g.attribute_list (lexemes found.entry.rest.now))) }
    ensures flat { IfOk result (λ x. x.height ≡ 0) }
{
    let next = attribute_list(alloc, room, found.rest)?;
    let mut joined = found.value;
    add_all(&mut joined, &next.value)?;
    Ok(Parsed {
        value: joined,
        height: 0,
        rest: next.rest,
    })
}

/// The attributes in front of a struct: a list of them, and any further lists.
pub fn attributes<'a>(
    alloc: Global,
    room: u32,
    tokens: &'a [Token<'a>],
) -> Reading<'a, Vec<Attribute>>
    ensures gives { Gives (λ v. v.items) result (part room rows.attributes (lexemes tokens.now)) }
    ensures flat { IfOk result (λ x. x.height ≡ 0) }
{
    let first = attribute_list(alloc, room, tokens)?;
    let mut found = first;
    'more: while next_is(Sign::Annotation, found.rest) {
        found = add_list(alloc, room, found)?;
    }
    Ok(found)
}
