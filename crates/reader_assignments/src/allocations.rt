//! `malloc`.

ghost use Rattle.std.specs.Prelude.{◌≡◌, ◌≤◌, ◌<◌, ◌+◌, IfOk};
ghost use Rattle.ebnf.specs.Reading.{reads};
ghost use Rattle.c_syntax.specs.Grammar as g;
ghost use Rattle.c_syntax.specs.Language.{language};
ghost use Rattle.c_syntax.specs.Views.{id};
ghost use Rattle.reader_expressions.specs.Reading.{Gives, lexemes, part, rule_at};
ghost use Rattle.reader_assignments.specs.Rows as rows;

use c_syntax::expressions::Identifier;
use c_syntax::token::{Keyword, Sign, Span, Token};
use reader_expressions::reading::{Parsed, ReadFault, Reading};
use reader_expressions::tokens::{take, take_key, take_name};
use std::alloc::Global;

/// `struct`, a name and two closing brackets.
#[tactic(auto, unfolding(ebnf::specs::Reading::read))]
fn struct_inside<'a>(alloc: Global, room: u32, tokens: &'a [Token<'a>]) -> Reading<'a, Identifier>
    ensures gives { Gives (λ x b z a m. id x) result (part room rows.struct_inside (lexemes tokens.now)) }
    ensures high { IfOk result (λ x. x.height ≡ 1) }
{
    let word = take_key(Keyword::Struct, tokens)?;
    let name = take_name(alloc, 1, word.rest)?;
    let inner = take(Sign::Close, name.rest)?;
    let outer = take(Sign::Close, inner.rest)?;
    Ok(Parsed {
        value: name.value,
        height: 1,
        rest: outer.rest,
    })
}

/// What follows the word `malloc`: the struct's name.
#[tactic(auto, unfolding(ebnf::specs::Reading::read))]
pub fn size_of<'a>(alloc: Global, room: u32, tokens: &'a [Token<'a>]) -> Reading<'a, Identifier>
    ensures gives { Gives (λ x m. id x) result (part room g.size_of (lexemes tokens.now)) }
    ensures high { IfOk result (λ x. x.height ≡ 1) }
{
    let outer = take(Sign::Open, tokens)?;
    let word = take_key(Keyword::Sizeof, outer.rest)?;
    let inner = take(Sign::Open, word.rest)?;
    let name = struct_inside(alloc, room, inner.rest)?;
    Ok(name)
}

/// `malloc`, one level of height down.
#[tactic(auto, unfolding(ebnf::specs::Reading::read, ebnf::specs::Reading::read_rule))]
fn allocation_rule<'a>(
    alloc: Global,
    room: u32,
    tokens: &'a [Token<'a>],
) -> Reading<'a, (Span, Identifier)>
    ensures gives { Gives (λ x. (x.0, id x.1)) result (rule_at room g.allocation (lexemes tokens.now)) }
    ensures high { IfOk result (λ x. x.height ≡ 2) }
{
    let word = take_key(Keyword::Malloc, tokens)?;
    let size = size_of(alloc, room, word.rest)?;
    Ok(Parsed {
        value: (word.value, size.value),
        height: 2,
        rest: size.rest,
    })
}

/// `malloc` without a cast.
#[tactic(auto, unfolding(ebnf::specs::Reading::reads))]
pub fn allocation<'a>(
    alloc: Global,
    room: u32,
    tokens: &'a [Token<'a>],
) -> Reading<'a, (Span, Identifier)>
    ensures gives { Gives (λ x. (x.0, id x.1)) result (reads language room g.Allocation (lexemes tokens.now)) }
    ensures high { IfOk result (λ x. x.height ≡ 2) }
{
    if room == 0 {
        return Err(ReadFault::TooDeep(tokens));
    }
    allocation_rule(alloc, room - 1, tokens)
}
