//! The members of structs.

ghost use Rattle.std.specs.Prelude.{◌≡◌, ◌≤◌, ◌<◌, ◌+◌, map, IfOk};
ghost use Rattle.ebnf.specs.Sets.{has, first};
ghost use Rattle.ebnf.specs.Derives.{next};
ghost use Rattle.ebnf.specs.Reading.{reads};
ghost use Rattle.c_syntax.specs.Items as i;
ghost use Rattle.c_syntax.specs.Grammar as g;
ghost use Rattle.c_syntax.specs.Language.{language};
ghost use Rattle.c_syntax.specs.Views.{ty, field as field_of, member as member_of};
ghost use Rattle.reader_expressions.specs.Reading.{Gives, lexemes, part, rule_at, entered, extended};
ghost use Rattle.reader_items.specs.Rows as rows;
ghost use Rattle.reader_items.specs.Views as views;

use c_syntax::expressions::{Expr, ValueType};
use c_syntax::items::{FieldDeclaration, Member};
use c_syntax::statements::Invariant;
use c_syntax::token::{Keyword, Sign, Span, SpecWord, Token};
use reader_annotations::annotations::invariant_tail;
use reader_annotations::ghost_rights::semicolon_or_none;
use reader_expressions::memory::add;
use reader_expressions::reading::{Parsed, ReadFault, Reading, fits};
use reader_expressions::tokens::{
    next_is, next_is_key, next_is_spec, take, take_key, take_name, take_spec,
};
use reader_expressions::types::{Typed, int_type};
use std::alloc::Global;

/// A member behind its `_(`, without the place of that sign.
#[derive(Drop)]
pub enum Annotated {
    Invariant(Expr),
    Field(FieldDeclaration),
}

/// `volatile`, if it is there.
#[tactic(auto, unfolding(ebnf::specs::Reading::read, ebnf::specs::Sets::first, ebnf::specs::Sets::low, ebnf::specs::Sets::is_empty))]
fn volatile_or_none<'a>(room: u32, tokens: &'a [Token<'a>]) -> Reading<'a, bool>
    ensures gives { Gives (λ x. x) result (part room rows.volatile (lexemes tokens.now)) }
    ensures flat { IfOk result (λ x. x.height ≡ 0) }
{
    if !next_is_key(Keyword::Volatile, tokens) {
        return Ok(Parsed {
            value: false,
            height: 0,
            rest: tokens,
        });
    }
    let word = take_key(Keyword::Volatile, tokens)?;
    Ok(Parsed {
        value: true,
        height: 0,
        rest: word.rest,
    })
}

/// A pointer to a struct, whose name counts for no height.
#[tactic(auto, unfolding(ebnf::specs::Reading::read))]
fn leaf_pointer<'a>(alloc: Global, room: u32, tokens: &'a [Token<'a>]) -> Typed<'a>
    ensures gives { Gives (λ x. (x.0, ty x.1)) result (part room g.leaf_pointer (lexemes tokens.now)) }
    ensures flat { IfOk result (λ x. x.height ≡ 0) }
{
    let word = take_key(Keyword::Struct, tokens)?;
    let name = take_name(alloc, 0, word.rest)?;
    let star = take(Sign::Star, name.rest)?;
    Ok(Parsed {
        value: (word.value, ValueType::Pointer(name.value)),
        height: 0,
        rest: star.rest,
    })
}

/// The type of a field.
#[tactic(auto, unfolding(ebnf::specs::Reading::read, ebnf::specs::Sets::first, ebnf::specs::Sets::low, ebnf::specs::Sets::is_empty))]
fn field_type<'a>(alloc: Global, room: u32, tokens: &'a [Token<'a>]) -> Typed<'a>
    ensures gives { Gives (λ x. (x.0, ty x.1)) result (part room g.field_type (lexemes tokens.now)) }
    ensures flat { IfOk result (λ x. x.height ≡ 0) }
{
    if !next_is_key(Keyword::Struct, tokens) {
        return int_type(room, tokens);
    }
    leaf_pointer(alloc, room, tokens)
}

/// The type of a ghost field.
#[tactic(auto, unfolding(ebnf::specs::Reading::read, ebnf::specs::Sets::first, ebnf::specs::Sets::low, ebnf::specs::Sets::is_empty))]
fn ghost_type<'a>(alloc: Global, room: u32, tokens: &'a [Token<'a>]) -> Typed<'a>
    ensures gives { Gives (λ x. (x.0, ty x.1)) result (part room g.ghost_type (lexemes tokens.now)) }
    ensures flat { IfOk result (λ x. x.height ≡ 0) }
{
    if next_is_spec(SpecWord::Object, tokens) {
        let word = take_spec(SpecWord::Object, tokens)?;
        return Ok(Parsed {
            value: (word.value, ValueType::Object),
            height: 0,
            rest: word.rest,
        });
    }
    if next_is_spec(SpecWord::Claim, tokens) {
        let word = take_spec(SpecWord::Claim, tokens)?;
        return Ok(Parsed {
            value: (word.value, ValueType::Claim),
            height: 0,
            rest: word.rest,
        });
    }
    field_type(alloc, room, tokens)
}

/// A field.
#[tactic(auto, using(reader_assignments::proofs::Parts::rows))]
fn member_field<'a>(
    alloc: Global,
    room: u32,
    tokens: &'a [Token<'a>],
) -> Reading<'a, FieldDeclaration>
    ensures gives { Gives (λ x. i.Field (field_of x)) result (part room g.member_field (lexemes tokens.now)) }
    ensures flat { IfOk result (λ x. x.height ≡ 0) }
{
    let mark = volatile_or_none(room, tokens)?;
    let ty = field_type(alloc, room, mark.rest)?;
    let name = take_name(alloc, 0, ty.rest)?;
    let end = take(Sign::Semicolon, name.rest)?;
    let (_, declared) = ty.value;
    Ok(Parsed {
        value: FieldDeclaration {
            is_ghost: false,
            is_volatile: mark.value,
            ty: declared,
            name: name.value,
        },
        height: 0,
        rest: end.rest,
    })
}

/// `ghost` and a field, up to the end.
#[tactic(auto, using(reader_assignments::proofs::Parts::rows))]
fn ghost_field<'a>(
    alloc: Global,
    room: u32,
    tokens: &'a [Token<'a>],
) -> Reading<'a, FieldDeclaration>
    ensures gives { Gives views.ghost_field result (part room g.ghost_field (lexemes tokens.now)) }
    ensures flat { IfOk result (λ x. x.height ≡ 0) }
{
    let word = take_key(Keyword::Ghost, tokens)?;
    let mark = volatile_or_none(room, word.rest)?;
    let ty = ghost_type(alloc, room, mark.rest)?;
    let name = take_name(alloc, 0, ty.rest)?;
    let semicolon = semicolon_or_none(room, name.rest)?;
    let end = take(Sign::Close, semicolon.rest)?;
    let (_, declared) = ty.value;
    Ok(Parsed {
        value: FieldDeclaration {
            is_ghost: true,
            is_volatile: mark.value,
            ty: declared,
            name: name.value,
        },
        height: 0,
        rest: end.rest,
    })
}

/// `invariant` and the property, as a member.
#[tactic(auto, using(reader_assignments::proofs::Parts::rows))]
fn invariant_member<'a>(alloc: Global, room: u32, tokens: &'a [Token<'a>]) -> Reading<'a, Annotated>
    requires room { room < 1000 }
    ensures gives { Gives views.annotated result (part room rows.invariant_member (lexemes tokens.now)) }
    ensures low { IfOk result (λ x. x.height ≤ room) }
{
    let found = invariant_tail(alloc, room, tokens)?;
    Ok(Parsed {
        value: Annotated::Invariant(found.value),
        height: found.height,
        rest: found.rest,
    })
}

/// A ghost field, as a member.
fn ghost_member<'a>(alloc: Global, room: u32, tokens: &'a [Token<'a>]) -> Reading<'a, Annotated>
    ensures gives { Gives views.annotated result (part room g.ghost_field (lexemes tokens.now)) }
    ensures low { IfOk result (λ x. x.height ≤ room) }
{
    let found = ghost_field(alloc, room, tokens)?;
    Ok(Parsed {
        value: Annotated::Field(found.value),
        height: 0,
        rest: found.rest,
    })
}

/// A member behind its `_(`.
#[tactic(auto, using(crate::proofs::MemberKinds::invariant_read, crate::proofs::MemberKinds::invariant_deep, crate::proofs::MemberKinds::ghost_read, crate::proofs::MemberKinds::no_annotation))]
fn member_annotation<'a>(
    alloc: Global,
    room: u32,
    tokens: &'a [Token<'a>],
) -> Reading<'a, Annotated>
    requires room { room < 1000 }
    ensures gives { Gives views.annotated result (part room g.member_annotation (lexemes tokens.now)) }
    ensures low { IfOk result (λ x. x.height ≤ room) }
{
    if next_is_key(Keyword::Invariant, tokens) {
        fits(1, room, tokens)?;
        return invariant_member(alloc, room, tokens);
    }
    if !next_is_key(Keyword::Ghost, tokens) {
        return Err(ReadFault::Unexpected(tokens));
    }
    ghost_member(alloc, room, tokens)
}

/// The member, with the place of its `_(`.
fn member_at(span: Span, annotated: Annotated) -> Member
    ensures { member_of result ≡ views.annotated annotated span }
{
    match annotated {
        Annotated::Invariant(property) => Member::Invariant(Invariant { span, property }),
        Annotated::Field(field) => Member::Field(field),
    }
}

/// An invariant or a ghost field, one level of height down.
#[tactic(auto, unfolding(ebnf::specs::Reading::read_rule), using(reader_assignments::proofs::Parts::rows))]
fn annotated_member<'a>(alloc: Global, room: u32, tokens: &'a [Token<'a>]) -> Reading<'a, Member>
    requires room { room < 1000 }
    ensures gives { Gives member_of result (rule_at room rows.annotated_member (lexemes tokens.now)) }
    ensures low { IfOk result (λ x. x.height ≤ room + 1) }
{
    let start = take(Sign::Annotation, tokens)?;
    let found = member_annotation(alloc, room, start.rest)?;
    Ok(Parsed {
        value: member_at(start.value, found.value),
        height: found.height + 1,
        rest: found.rest,
    })
}

/// A field, one level of height down.
#[tactic(auto, unfolding(ebnf::specs::Reading::read_rule))]
fn plain_member<'a>(alloc: Global, room: u32, tokens: &'a [Token<'a>]) -> Reading<'a, Member>
    ensures gives { Gives member_of result (rule_at room rows.plain_member (lexemes tokens.now)) }
    ensures low { IfOk result (λ x. x.height ≤ room + 1) }
{
    let found = member_field(alloc, room, tokens)?;
    Ok(Parsed {
        value: Member::Field(found.value),
        height: 1,
        rest: found.rest,
    })
}

/// Whether a field that is no ghost field comes next.
#[tactic(auto, unfolding(ebnf::specs::Sets::first, ebnf::specs::Sets::is_empty))]
fn begins_field<'a>(tokens: &'a [Token<'a>]) -> bool
    ensures { result ≡ has (first language g.member_field) (next language (lexemes tokens.now)) }
{
    next_is_key(Keyword::Volatile, tokens)
        || next_is_key(Keyword::Int, tokens)
        || next_is_key(Keyword::Long, tokens)
        || next_is_key(Keyword::Unsigned, tokens)
        || next_is_key(Keyword::Struct, tokens)
}

/// A member, one level of height down.
#[tactic(auto, using(crate::proofs::MemberKinds::plain_read, crate::proofs::MemberKinds::annotated_read, crate::proofs::MemberKinds::no_member))]
fn member_rule<'a>(alloc: Global, room: u32, tokens: &'a [Token<'a>]) -> Reading<'a, Member>
    requires room { room < 1000 }
    ensures gives { Gives member_of result (rule_at room g.member_of (lexemes tokens.now)) }
    ensures low { IfOk result (λ x. x.height ≤ room + 1) }
{
    if begins_field(tokens) {
        return plain_member(alloc, room, tokens);
    }
    if !next_is(Sign::Annotation, tokens) {
        return Err(ReadFault::Unexpected(tokens));
    }
    annotated_member(alloc, room, tokens)
}

/// A member of a struct.
#[tactic(auto, unfolding(ebnf::specs::Reading::reads))]
pub fn member<'a>(alloc: Global, room: u32, tokens: &'a [Token<'a>]) -> Reading<'a, Member>
    requires room { room < 1000 }
    ensures gives { Gives member_of result (reads language room g.MemberOf (lexemes tokens.now)) }
    ensures low { IfOk result (λ x. x.height ≤ room) }
{
    if room == 0 {
        return Err(ReadFault::TooDeep(tokens));
    }
    member_rule(alloc, room - 1, tokens)
}

/// Whether a member comes next.
#[tactic(auto, unfolding(ebnf::specs::Sets::first, ebnf::specs::Sets::is_empty))]
fn begins_member<'a>(tokens: &'a [Token<'a>]) -> bool
    ensures { result ≡ has (first language rows.one_member) (next language (lexemes tokens.now)) }
{
    next_is_key(Keyword::Volatile, tokens)
        || next_is_key(Keyword::Int, tokens)
        || next_is_key(Keyword::Long, tokens)
        || next_is_key(Keyword::Unsigned, tokens)
        || next_is_key(Keyword::Struct, tokens)
        || next_is(Sign::Annotation, tokens)
}

/// One more member behind those that were found.
#[tactic(auto, unfolding(ebnf::specs::Reading::read, ebnf::specs::Sets::low))]
fn add_member<'a>(
    alloc: Global,
    room: u32,
    found: Parsed<'a, Vec<Member>>,
) -> Reading<'a, Vec<Member>>
    requires room { room < 1000 }
    requires low { found.height ≤ room }
    ensures gives { Gives (λ v. map member_of v.items) result (extended (map member_of found.entry.value.items) found.entry.height (entered room rows.one_member (lexemes found.entry.rest.now))) }
    ensures low { IfOk result (λ x. x.height ≤ room) }
{
    fits(1, room, found.rest)?;
    let next = member(alloc, room, found.rest)?;
    let height = found.height.max(next.height);
    let mut all = found.value;
    add(&mut all, next.value)?;
    Ok(Parsed {
        value: all,
        height,
        rest: next.rest,
    })
}

/// The members of a struct, as many as there are.
pub fn members<'a>(alloc: Global, room: u32, tokens: &'a [Token<'a>]) -> Reading<'a, Vec<Member>>
    requires room { room < 1000 }
    ensures gives { Gives (λ v. map member_of v.items) result (part room rows.members (lexemes tokens.now)) }
    ensures low { IfOk result (λ x. x.height ≤ room) }
{
    let mut found = Parsed {
        value: Vec::new(alloc),
        height: 0,
        rest: tokens,
    };
    'more: while begins_member(found.rest) {
        found = add_member(alloc, room, found)?;
    }
    Ok(found)
}
