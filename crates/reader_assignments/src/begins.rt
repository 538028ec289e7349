//! What a right side begins with: an expression, or a cast in front of a `malloc`.

ghost use Rattle.std.specs.Prelude.{◌≡◌, ◌≤◌, ◌<◌, ◌+◌, true, IfOk};
ghost use Rattle.ebnf.specs.Reading.{reads};
ghost use Rattle.c_syntax.specs.Grammar as g;
ghost use Rattle.c_syntax.specs.Language.{language};
ghost use Rattle.c_syntax.specs.Views.{id};
ghost use Rattle.reader_expressions.specs.Reading.{Gives, lexemes, rule_at};
ghost use Rattle.reader_assignments.specs.Rows as rows;
ghost use Rattle.reader_assignments.specs.Views as views;

use crate::calls::code;
use c_syntax::expressions::{Expr, Identifier};
use c_syntax::token::{Keyword, Sign, Token};
use reader_expressions::reading::{Parsed, ReadFault, Reading, fits};
use reader_expressions::tokens::{is_sign, next_is_key, take};
use reader_expressions::types::struct_pointer;
use std::alloc::Global;

/// An expression, or the struct of a cast.
#[derive(Drop)]
pub enum Begun {
    Plain(Expr),
    Cast(Identifier),
}

/// A cast, one level of height down.
#[tactic(auto, unfolding(ebnf::specs::Reading::read, ebnf::specs::Reading::read_rule))]
fn cast_rule<'a>(alloc: Global, room: u32, tokens: &'a [Token<'a>]) -> Reading<'a, Identifier>
    ensures gives { Gives views.cast result (rule_at room rows.cast (lexemes tokens.now)) }
    ensures high { IfOk result (λ x. x.height ≡ 2) }
{
    let start = take(Sign::Open, tokens)?;
    let found = struct_pointer(alloc, room, start.rest)?;
    let (_, name) = found.value;
    let end = take(Sign::Close, found.rest)?;
    Ok(Parsed {
        value: name,
        height: 2,
        rest: end.rest,
    })
}

/// Whether `(` and `struct` come next.
fn begins_cast<'a>(tokens: &'a [Token<'a>]) -> bool
    ensures { result ≡ rows.begins_cast (lexemes tokens.now) }
{
    match tokens.split_first() {
        Some((first, rest)) => is_sign(first, Sign::Open) && next_is_key(Keyword::Struct, rest),
        None => false,
    }
}

/// A cast, where one comes next.
#[tactic(auto, using(crate::proofs::Begun::cast_ok, crate::proofs::Begun::cast_err, crate::proofs::Begun::cast_deep))]
fn cast<'a>(alloc: Global, room: u32, tokens: &'a [Token<'a>]) -> Reading<'a, Identifier>
    requires room { room < 1000 }
    requires begins { rows.begins_cast (lexemes tokens.now) ≡ true }
    ensures gives { Gives views.cast result (reads language room g.Start (lexemes tokens.now)) }
    ensures low { IfOk result (λ x. (1 ≤ room) × (x.height ≤ room)) }
{
    fits(2, room, tokens)?;
    cast_rule(alloc, room - 1, tokens)
}

/// What a right side begins with.
#[tactic(auto, using(crate::proofs::Begun::plain_read))]
pub fn start<'a>(alloc: Global, room: u32, tokens: &'a [Token<'a>]) -> Reading<'a, Begun>
    requires room { room < 1000 }
    ensures gives { Gives views.begun result (reads language room g.Start (lexemes tokens.now)) }
    ensures low { IfOk result (λ x. x.height ≤ room) }
{
    if begins_cast(tokens) {
        let found = cast(alloc, room, tokens)?;
        return Ok(Parsed {
            value: Begun::Cast(found.value),
            height: found.height,
            rest: found.rest,
        });
    }
    let found = code(alloc, room, tokens)?;
    Ok(Parsed {
        value: Begun::Plain(found.value),
        height: found.height,
        rest: found.rest,
    })
}
