//! Types.

ghost use Rattle.std.specs.Prelude.{◌≡◌, ◌==◌, ◌≤◌, IfOk};
ghost use Rattle.std.specs.Option.{option_map};
ghost use Rattle.c_syntax.specs.Grammar as g;
ghost use Rattle.c_syntax.specs.Views.{id, ty};
ghost use Rattle.reader_expressions.specs.Reading.{Gives, lexemes, part};
ghost use Rattle.reader_expressions.specs.Types as types;

use crate::memory::boxed;
use crate::reading::{Parsed, ReadFault, Reading, fits};
use crate::tokens::{next_is_key, next_is_spec, take, take_key, take_name, take_spec};
use c_syntax::expressions::{Identifier, ValueType};
use c_syntax::token::{Keyword, Sign, Span, SpecWord, Token};
use int_ranges::ctype::CType;
use std::alloc::Global;

/// A type, with the place of its first token.
pub type Typed<'a> = Reading<'a, (Span, ValueType)>;

/// `struct`, a name and `*`, with the place of the word. The name counts as so high.
#[tactic(auto, unfolding(ebnf::specs::Reading::read))]
pub fn struct_pointer<'a>(
    alloc: Global,
    room: u32,
    tokens: &'a [Token<'a>],
) -> Reading<'a, (Span, Identifier)>
    ensures gives { Gives (λ x. (x.0, id x.1)) result (part room g.struct_pointer (lexemes tokens.now)) }
    ensures high { IfOk result (λ x. x.height ≡ 1) }
{
    let word = take_key(Keyword::Struct, tokens)?;
    let name = take_name(alloc, 1, word.rest)?;
    let star = take(Sign::Star, name.rest)?;
    Ok(Parsed {
        value: (word.value, name.value),
        height: name.height,
        rest: star.rest,
    })
}

/// `int`, if it is there.
#[tactic(auto, unfolding(ebnf::specs::Reading::read, ebnf::specs::Sets::first, ebnf::specs::Sets::low, ebnf::specs::Sets::is_empty))]
fn maybe_int<'a>(room: u32, tokens: &'a [Token<'a>]) -> Reading<'a, Option<Span>>
    ensures gives { Gives (λ x. x) result (part room g.maybe_int (lexemes tokens.now)) }
    ensures flat { IfOk result (λ x. x.height ≡ 0) }
{
    if !next_is_key(Keyword::Int, tokens) {
        return Ok(Parsed {
            value: None,
            height: 0,
            rest: tokens,
        });
    }
    let word = take_key(Keyword::Int, tokens)?;
    Ok(Parsed {
        value: Some(word.value),
        height: 0,
        rest: word.rest,
    })
}

/// What follows the word `unsigned`.
#[tactic(auto, unfolding(ebnf::specs::Reading::read, ebnf::specs::Sets::first, ebnf::specs::Sets::low, ebnf::specs::Sets::is_empty))]
fn unsigned_behind<'a>(room: u32, tokens: &'a [Token<'a>]) -> Reading<'a, ValueType>
    ensures gives { Gives ty result (part room g.unsigned_behind (lexemes tokens.now)) }
    ensures flat { IfOk result (λ x. x.height ≡ 0) }
{
    if !next_is_key(Keyword::Long, tokens) {
        let last = maybe_int(room, tokens)?;
        return Ok(Parsed {
            value: ValueType::Integer(CType::Unsigned),
            height: 0,
            rest: last.rest,
        });
    }
    let first = take_key(Keyword::Long, tokens)?;
    let second = take_key(Keyword::Long, first.rest)?;
    let last = maybe_int(room, second.rest)?;
    Ok(Parsed {
        value: ValueType::Integer(CType::UnsignedLongLong),
        height: 0,
        rest: last.rest,
    })
}

/// `int`
#[tactic(auto, unfolding(ebnf::specs::Reading::read))]
fn plain_int<'a>(tokens: &'a [Token<'a>]) -> Typed<'a>
    ensures gives { Gives (λ x. (x.0, ty x.1)) result (part 0 types.plain_int (lexemes tokens.now)) }
    ensures flat { IfOk result (λ x. x.height ≡ 0) }
{
    let word = take_key(Keyword::Int, tokens)?;
    Ok(Parsed {
        value: (word.value, ValueType::Integer(CType::Int)),
        height: 0,
        rest: word.rest,
    })
}

/// `long long`
#[tactic(auto, unfolding(ebnf::specs::Reading::read))]
fn long_long<'a>(room: u32, tokens: &'a [Token<'a>]) -> Typed<'a>
    ensures gives { Gives (λ x. (x.0, ty x.1)) result (part room types.long_long (lexemes tokens.now)) }
    ensures flat { IfOk result (λ x. x.height ≡ 0) }
{
    let word = take_key(Keyword::Long, tokens)?;
    let second = take_key(Keyword::Long, word.rest)?;
    let last = maybe_int(room, second.rest)?;
    Ok(Parsed {
        value: (word.value, ValueType::Integer(CType::LongLong)),
        height: 0,
        rest: last.rest,
    })
}

/// `unsigned long long` and the like.
#[tactic(auto, unfolding(ebnf::specs::Reading::read))]
fn unsigned<'a>(room: u32, tokens: &'a [Token<'a>]) -> Typed<'a>
    ensures gives { Gives (λ x. (x.0, ty x.1)) result (part room types.unsigned (lexemes tokens.now)) }
    ensures flat { IfOk result (λ x. x.height ≡ 0) }
{
    let word = take_key(Keyword::Unsigned, tokens)?;
    let ty = unsigned_behind(room, word.rest)?;
    Ok(Parsed {
        value: (word.value, ty.value),
        height: 0,
        rest: ty.rest,
    })
}

/// `long long`, `unsigned long long` and the like.
#[tactic(auto, unfolding(ebnf::specs::Reading::read, ebnf::specs::Sets::first, ebnf::specs::Sets::low, ebnf::specs::Sets::is_empty))]
pub fn int_type<'a>(room: u32, tokens: &'a [Token<'a>]) -> Typed<'a>
    ensures gives { Gives (λ x. (x.0, ty x.1)) result (part room g.int_type (lexemes tokens.now)) }
    ensures flat { IfOk result (λ x. x.height ≡ 0) }
{
    if next_is_key(Keyword::Int, tokens) {
        return plain_int(tokens);
    }
    if next_is_key(Keyword::Long, tokens) {
        return long_long(room, tokens);
    }
    unsigned(room, tokens)
}

/// The type of a variable of code.
#[tactic(auto, unfolding(ebnf::specs::Reading::read, ebnf::specs::Sets::first, ebnf::specs::Sets::low, ebnf::specs::Sets::is_empty))]
pub fn ctype<'a>(alloc: Global, room: u32, tokens: &'a [Token<'a>]) -> Typed<'a>
    ensures gives { Gives (λ x. (x.0, ty x.1)) result (part room g.ctype (lexemes tokens.now)) }
    ensures low { IfOk result (λ x. x.height ≤ 1) }
{
    if !next_is_key(Keyword::Struct, tokens) {
        return int_type(room, tokens);
    }
    fits(1, room, tokens)?;
    let pointer = struct_pointer(alloc, room, tokens)?;
    let (word, name) = pointer.value;
    Ok(Parsed {
        value: (word, ValueType::Pointer(name)),
        height: pointer.height,
        rest: pointer.rest,
    })
}

/// The type of a ghost variable.
#[tactic(auto, unfolding(ebnf::specs::Reading::read, ebnf::specs::Sets::first, ebnf::specs::Sets::low, ebnf::specs::Sets::is_empty))]
pub fn gtype<'a>(alloc: Global, room: u32, tokens: &'a [Token<'a>]) -> Typed<'a>
    ensures gives { Gives (λ x. (x.0, ty x.1)) result (part room g.gtype (lexemes tokens.now)) }
    ensures low { IfOk result (λ x. x.height ≤ 1) }
{
    if next_is_spec(SpecWord::Object, tokens) {
        let word = take_spec(SpecWord::Object, tokens)?;
        return Ok(Parsed {
            value: (word.value, ValueType::Object),
            height: 0,
            rest: word.rest,
        });
    }
    if next_is_spec(SpecWord::Claim, tokens) {
        let word = take_spec(SpecWord::Claim, tokens)?;
        return Ok(Parsed {
            value: (word.value, ValueType::Claim),
            height: 0,
            rest: word.rest,
        });
    }
    ctype(alloc, room, tokens)
}

/// The type of a ghost variable, in a box.
pub fn boxed_gtype<'a>(
    alloc: Global,
    room: u32,
    tokens: &'a [Token<'a>],
) -> Reading<'a, Box<(Span, ValueType)>>
    ensures gives { Gives (λ b. (b.value.0, ty b.value.1)) result (part room g.gtype (lexemes tokens.now)) }
    ensures low { IfOk result (λ x. x.height ≤ 1) }
{
    let found = gtype(alloc, room, tokens)?;
    let value = boxed(alloc, found.value)?;
    Ok(Parsed {
        value,
        height: found.height,
        rest: found.rest,
    })
}
