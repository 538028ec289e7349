//! Structs and functions.

ghost use Rattle.std.specs.Prelude.{◌≡◌, ◌≤◌, ◌<◌, ◌+◌, true, IfOk};
ghost use Rattle.std.specs.Option.{option_map};
ghost use Rattle.ebnf.specs.Sets.{has, first};
ghost use Rattle.ebnf.specs.Derives.{next};
ghost use Rattle.ebnf.specs.Reading.{reads};
ghost use Rattle.c_syntax.specs.Grammar as g;
ghost use Rattle.c_syntax.specs.Language.{language};
ghost use Rattle.c_syntax.specs.Views.{id, ty, item as item_of};
ghost use Rattle.reader_expressions.specs.Reading.{Gives, lexemes, part, rule_at};
ghost use Rattle.reader_program.specs.Rows as rows;
ghost use Rattle.reader_program.specs.Views as views;

use crate::functions::{FunctionTail, function_at, function_tail};
use c_syntax::expressions::{Identifier, ValueType};
use c_syntax::items::{Item, Member, Struct};
use c_syntax::token::{Keyword, Sign, Span, Token};
use c_syntax::tree::Attribute;
use reader_expressions::reading::{Parsed, ReadFault, Reading, fits};
use reader_expressions::tokens::{next_is, next_is_key, take, take_key, take_name};
use reader_expressions::types::int_type;
use reader_items::attributes::attributes;
use reader_items::structs::struct_tail;
use std::alloc::Global;

/// A function that gives a pointer, behind the name of the struct.
#[derive(Drop)]
pub struct PointerFunction {
    pub name: Identifier,
    pub following: FunctionTail,
}

/// What stands behind `struct` and a name.
#[derive(Drop)]
pub enum StructWord {
    Struct(Vec<Member>),
    Function(PointerFunction),
}

/// A struct without its attributes.
#[derive(Drop)]
pub struct NamedStruct {
    pub span: Span,
    pub name: Identifier,
    pub members: Vec<Member>,
}

/// The type of a function's value, with the place of its first token; none for `void`.
#[tactic(auto, unfolding(ebnf::specs::Reading::read, ebnf::specs::Sets::first, ebnf::specs::Sets::low, ebnf::specs::Sets::is_empty))]
pub fn result_type<'a>(room: u32, tokens: &'a [Token<'a>]) -> Reading<'a, (Span, Option<ValueType>)>
    ensures gives { Gives (λ x. (x.0, option_map ty x.1)) result (part room g.result_type (lexemes tokens.now)) }
    ensures flat { IfOk result (λ x. x.height ≡ 0) }
{
    if next_is_key(Keyword::Void, tokens) {
        let word = take_key(Keyword::Void, tokens)?;
        return Ok(Parsed {
            value: (word.value, None),
            height: 0,
            rest: word.rest,
        });
    }
    let found = int_type(room, tokens)?;
    let (span, ty) = found.value;
    Ok(Parsed {
        value: (span, Some(ty)),
        height: 0,
        rest: found.rest,
    })
}

/// `*`, and a function that gives a pointer.
#[tactic(auto, using(reader_assignments::proofs::Parts::rows))]
pub fn pointer_function<'a>(
    alloc: Global,
    room: u32,
    tokens: &'a [Token<'a>],
) -> Reading<'a, PointerFunction>
    requires room { room < 1000 }
    requires fits { 1 ≤ room }
    ensures gives { Gives views.pointer_function result (part room g.pointer_function (lexemes tokens.now)) }
    ensures low { IfOk result (λ x. x.height ≤ room) }
{
    let star = take(Sign::Star, tokens)?;
    let name = take_name(alloc, 1, star.rest)?;
    let following = function_tail(alloc, room, name.rest)?;
    let height = name.height.max(following.height);
    Ok(Parsed {
        value: PointerFunction {
            name: name.value,
            following: following.value,
        },
        height,
        rest: following.rest,
    })
}

/// The members of a struct, behind its name.
#[tactic(auto, using(reader_assignments::proofs::Parts::rows))]
fn plain_struct<'a>(alloc: Global, room: u32, tokens: &'a [Token<'a>]) -> Reading<'a, StructWord>
    requires room { room < 1000 }
    ensures gives { Gives views.struct_word result (part room rows.plain_struct (lexemes tokens.now)) }
    ensures low { IfOk result (λ x. x.height ≤ room) }
{
    let found = struct_tail(alloc, room, tokens)?;
    Ok(Parsed {
        value: StructWord::Struct(found.value),
        height: found.height,
        rest: found.rest,
    })
}

/// A function that gives a pointer, behind the name of the struct.
fn pointer_tail<'a>(alloc: Global, room: u32, tokens: &'a [Token<'a>]) -> Reading<'a, StructWord>
    requires room { room < 1000 }
    requires fits { 1 ≤ room }
    ensures gives { Gives views.struct_word result (part room g.pointer_function (lexemes tokens.now)) }
    ensures low { IfOk result (λ x. x.height ≤ room) }
{
    let found = pointer_function(alloc, room, tokens)?;
    Ok(Parsed {
        value: StructWord::Function(found.value),
        height: found.height,
        rest: found.rest,
    })
}

/// What stands behind `struct` and a name.
#[tactic(auto, using(crate::proofs::ItemKinds::plain_read, crate::proofs::ItemKinds::pointer_read, crate::proofs::ItemKinds::no_struct_word))]
fn behind_struct_name<'a>(
    alloc: Global,
    room: u32,
    tokens: &'a [Token<'a>],
) -> Reading<'a, StructWord>
    requires room { room < 1000 }
    requires fits { 1 ≤ room }
    ensures gives { Gives views.struct_word result (part room rows.behind_struct_name (lexemes tokens.now)) }
    ensures low { IfOk result (λ x. x.height ≤ room) }
{
    if next_is(Sign::BraceOpen, tokens) {
        return plain_struct(alloc, room, tokens);
    }
    if !next_is(Sign::Star, tokens) {
        return Err(ReadFault::Unexpected(tokens));
    }
    pointer_tail(alloc, room, tokens)
}

/// A struct with no attributes, or a function that gives a pointer.
fn item_at(alloc: Global, span: Span, name: Identifier, following: StructWord) -> Item
    ensures { item_of result ≡ views.struct_word following (id name) span }
{
    match following {
        StructWord::Struct(members) => Item::Struct(Struct {
            attributes: Vec::new(alloc),
            span,
            name,
            members,
        }),
        StructWord::Function(found) => Item::Function(function_at(
            span,
            Some(ValueType::Pointer(name)),
            found.name,
            found.following,
        )),
    }
}

/// An item that begins with `struct`, one level of height down.
#[tactic(auto, unfolding(ebnf::specs::Reading::read_rule), using(reader_assignments::proofs::Parts::rows))]
fn struct_or_function<'a>(alloc: Global, room: u32, tokens: &'a [Token<'a>]) -> Reading<'a, Item>
    requires room { room < 1000 }
    requires fits { 1 ≤ room }
    ensures gives { Gives item_of result (rule_at room rows.struct_or_function (lexemes tokens.now)) }
    ensures low { IfOk result (λ x. x.height ≤ room + 1) }
{
    let word = take_key(Keyword::Struct, tokens)?;
    let name = take_name(alloc, 1, word.rest)?;
    let following = behind_struct_name(alloc, room, name.rest)?;
    let height = name.height.max(following.height) + 1;
    Ok(Parsed {
        value: item_at(alloc, word.value, name.value, following.value),
        height,
        rest: following.rest,
    })
}

/// A function that gives a number or nothing, one level of height down.
#[tactic(auto, unfolding(ebnf::specs::Reading::read_rule), using(reader_assignments::proofs::Parts::rows))]
fn typed_function<'a>(alloc: Global, room: u32, tokens: &'a [Token<'a>]) -> Reading<'a, Item>
    requires room { room < 1000 }
    requires fits { 1 ≤ room }
    ensures gives { Gives item_of result (rule_at room rows.typed_function (lexemes tokens.now)) }
    ensures low { IfOk result (λ x. x.height ≤ room + 1) }
{
    let ty = result_type(room, tokens)?;
    let name = take_name(alloc, 1, ty.rest)?;
    let following = function_tail(alloc, room, name.rest)?;
    let height = name.height.max(following.height) + 1;
    let (span, value) = ty.value;
    Ok(Parsed {
        value: Item::Function(function_at(span, value, name.value, following.value)),
        height,
        rest: following.rest,
    })
}

/// A struct behind its attributes.
#[tactic(auto, using(reader_assignments::proofs::Parts::rows))]
fn named_struct<'a>(alloc: Global, room: u32, tokens: &'a [Token<'a>]) -> Reading<'a, NamedStruct>
    requires room { room < 1000 }
    requires fits { 1 ≤ room }
    ensures gives { Gives views.named_struct result (part room rows.named_struct (lexemes tokens.now)) }
    ensures low { IfOk result (λ x. x.height ≤ room) }
{
    let word = take_key(Keyword::Struct, tokens)?;
    let name = take_name(alloc, 1, word.rest)?;
    let members = struct_tail(alloc, room, name.rest)?;
    let height = name.height.max(members.height);
    Ok(Parsed {
        value: NamedStruct {
            span: word.value,
            name: name.value,
            members: members.value,
        },
        height,
        rest: members.rest,
    })
}

/// The struct with its attributes.
fn struct_at(attributes: Vec<Attribute>, named: NamedStruct) -> Item
    ensures { item_of result ≡ views.named_struct named attributes.items }
{
    Item::Struct(Struct {
        attributes,
        span: named.span,
        name: named.name,
        members: named.members,
    })
}

/// A struct with attributes.
#[tactic(auto, using(crate::proofs::Attributed::parts_read))]
fn attributed_struct<'a>(alloc: Global, room: u32, tokens: &'a [Token<'a>]) -> Reading<'a, Item>
    requires room { room < 1000 }
    requires fits { 1 ≤ room }
    ensures gives { Gives item_of result (part room rows.attributed (lexemes tokens.now)) }
    ensures low { IfOk result (λ x. x.height ≤ room) }
{
    let all = attributes(alloc, room, tokens)?;
    let named = named_struct(alloc, room, all.rest)?;
    Ok(Parsed {
        value: struct_at(all.value, named.value),
        height: named.height,
        rest: named.rest,
    })
}

/// A struct with attributes, one level of height down.
#[tactic(auto, unfolding(ebnf::specs::Reading::read_rule))]
fn attributed_rule<'a>(alloc: Global, room: u32, tokens: &'a [Token<'a>]) -> Reading<'a, Item>
    requires room { room < 1000 }
    requires fits { 1 ≤ room }
    ensures gives { Gives item_of result (rule_at room rows.attributed_rule (lexemes tokens.now)) }
    ensures low { IfOk result (λ x. x.height ≤ room + 1) }
{
    let found = attributed_struct(alloc, room, tokens)?;
    Ok(Parsed {
        value: found.value,
        height: found.height + 1,
        rest: found.rest,
    })
}

/// Whether an item comes next.
#[tactic(auto, unfolding(ebnf::specs::Sets::first))]
pub fn begins_item<'a>(tokens: &'a [Token<'a>]) -> bool
    ensures { result ≡ has (first language rows.one_item) (next language (lexemes tokens.now)) }
{
    next_is(Sign::Annotation, tokens)
        || next_is_key(Keyword::Struct, tokens)
        || next_is_key(Keyword::Void, tokens)
        || next_is_key(Keyword::Int, tokens)
        || next_is_key(Keyword::Long, tokens)
        || next_is_key(Keyword::Unsigned, tokens)
}

/// An item, where one comes next and there is room for one.
#[tactic(auto, using(crate::proofs::ItemKinds::attributed_read, crate::proofs::ItemKinds::struct_read, crate::proofs::ItemKinds::function_read))]
fn begun_item<'a>(alloc: Global, room: u32, tokens: &'a [Token<'a>]) -> Reading<'a, Item>
    requires room { room < 1000 }
    requires fits { 1 ≤ room }
    requires begins { has (first language rows.one_item) (next language (lexemes tokens.now)) ≡ true }
    ensures gives { Gives item_of result (rule_at room g.item_of (lexemes tokens.now)) }
    ensures low { IfOk result (λ x. x.height ≤ room + 1) }
{
    if next_is(Sign::Annotation, tokens) {
        return attributed_rule(alloc, room, tokens);
    }
    if next_is_key(Keyword::Struct, tokens) {
        return struct_or_function(alloc, room, tokens);
    }
    typed_function(alloc, room, tokens)
}

/// An item, one level of height down.
#[tactic(auto, using(crate::proofs::ItemKinds::no_item, crate::proofs::ItemKinds::item_deep))]
fn item_rule<'a>(alloc: Global, room: u32, tokens: &'a [Token<'a>]) -> Reading<'a, Item>
    requires room { room < 1000 }
    ensures gives { Gives item_of result (rule_at room g.item_of (lexemes tokens.now)) }
    ensures low { IfOk result (λ x. x.height ≤ room + 1) }
{
    if !begins_item(tokens) {
        return Err(ReadFault::Unexpected(tokens));
    }
    fits(1, room, tokens)?;
    begun_item(alloc, room, tokens)
}

/// A struct or a function.
#[tactic(auto, unfolding(ebnf::specs::Reading::reads))]
pub fn item<'a>(alloc: Global, room: u32, tokens: &'a [Token<'a>]) -> Reading<'a, Item>
    requires room { room < 1000 }
    ensures gives { Gives item_of result (reads language room g.ItemOf (lexemes tokens.now)) }
    ensures low { IfOk result (λ x. x.height ≤ room) }
{
    if room == 0 {
        return Err(ReadFault::TooDeep(tokens));
    }
    item_rule(alloc, room - 1, tokens)
}
