//! What stands right of `=`.

ghost use Rattle.std.specs.Prelude.{◌≡◌, ◌≤◌, ◌<◌, ◌+◌, false, IfOk, IfErr};
ghost use Rattle.c_syntax.specs.Expressions as e;
ghost use Rattle.c_syntax.specs.Grammar as g;
ghost use Rattle.c_syntax.specs.Views.{id, exp, rhs as rhs_of};
ghost use Rattle.reader_expressions.specs.Reading.{Gives, lexemes, part};
ghost use Rattle.reader_assignments.specs.Rows as rows;
ghost use Rattle.reader_assignments.specs.Views as views;

use crate::allocations::{allocation, size_of};
use crate::begins::{Begun, start};
use crate::calls::{begins_code, call_tail};
use crate::interlocked::{begins_locked, interlocked_call};
use c_syntax::expressions::{Call, Expr, Identifier, Right};
use c_syntax::token::{Keyword, Sign, Span, Token};
use reader_expressions::reading::{Parsed, ReadFault, Reading, fits};
use reader_expressions::tokens::{next_is, next_is_key, take_key};
use std::alloc::Global;

/// A right side that is done, or that may turn out to be a call.
#[derive(Drop)]
pub enum Pending {
    Done(Right),
    Open(Expr),
}

/// `malloc` behind a cast.
#[tactic(auto, using(crate::proofs::Parts::rows))]
fn malloc_tail<'a>(
    alloc: Global,
    room: u32,
    tokens: &'a [Token<'a>],
) -> Reading<'a, (Span, Identifier)>
    ensures gives { Gives views.malloc_tail result (part room rows.malloc_tail (lexemes tokens.now)) }
    ensures high { IfOk result (λ x. x.height ≡ 1) }
{
    let word = take_key(Keyword::Malloc, tokens)?;
    let size = size_of(alloc, room, word.rest)?;
    Ok(Parsed {
        value: (word.value, size.value),
        height: 1,
        rest: size.rest,
    })
}

/// An expression, or a `malloc` behind a cast.
#[tactic(auto, using(crate::proofs::Pends::cast_ok, crate::proofs::Pends::cast_err, crate::proofs::Pends::plain_read, crate::proofs::Pends::none_read))]
fn cast_done<'a>(alloc: Global, room: u32, tokens: &'a [Token<'a>]) -> Reading<'a, Pending>
    requires room { room < 1000 }
    requires enough { 1 ≤ room }
    ensures gives { Gives views.pending result (part room g.cast_done (lexemes tokens.now)) }
    ensures low { IfOk result (λ x. x.height ≤ room) }
{
    let begun = start(alloc, room, tokens)?;
    let Parsed {
        value,
        height,
        rest,
    } = begun;
    match value {
        Begun::Plain(value) => Ok(Parsed {
            value: Pending::Open(value),
            height,
            rest,
        }),
        Begun::Cast(name) => {
            let found = malloc_tail(alloc, room, rest)?;
            let (span, size) = found.value;
            Ok(Parsed {
                value: Pending::Done(Right::Malloc(Some(name), span, size)),
                height: height.max(found.height),
                rest: found.rest,
            })
        }
    }
}

/// The name that the expression is, or else the expression.
fn bare_name(value: Expr) -> Result<Identifier, Expr>
    ensures some { IfOk result (λ x. exp value ≡ e.Name (id x)) }
    ensures other { IfErr result (λ x. (exp x ≡ exp value) × (g.is_bare (g.Open (exp value)) ≡ false)) }
{
    match value {
        Expr::Name(name) => Ok(name),
        other => Err(other),
    }
}

/// Goes on behind a name: where a bracket comes next, it is called.
#[tactic(auto, using(crate::proofs::Pends::called_read, crate::proofs::Pends::called_err, crate::proofs::Pends::uncalled_read))]
fn name_or_call<'a>(alloc: Global, room: u32, left: Parsed<'a, Identifier>) -> Reading<'a, Right>
    requires room { room < 1000 }
    requires low { left.height ≤ room }
    ensures gives { Gives rhs_of result (rows.name_or_call room (id left.entry.value) left.entry.height (lexemes left.entry.rest.now)) }
    ensures low { IfOk result (λ x. x.height ≤ room) }
{
    if !next_is(Sign::Open, left.rest) {
        return Ok(Parsed {
            value: Right::Value(Expr::Name(left.value)),
            height: left.height,
            rest: left.rest,
        });
    }
    let call = call_tail(alloc, room, left.rest)?;
    let height = left.height.max(call.height);
    Ok(Parsed {
        value: Right::Call(Call {
            function: left.value,
            arguments: call.value.plain,
            ghost_arguments: call.value.ghosts,
        }),
        height,
        rest: call.rest,
    })
}

/// An expression, a call, or a `malloc` behind a cast.
#[tactic(auto, using(crate::proofs::Pends::pending_err, crate::proofs::Pends::done_read, crate::proofs::Pends::name_read, crate::proofs::Pends::open_read))]
fn value_or_call<'a>(alloc: Global, room: u32, tokens: &'a [Token<'a>]) -> Reading<'a, Right>
    requires room { room < 1000 }
    requires enough { 1 ≤ room }
    ensures gives { Gives rhs_of result (part room rows.value_or_call (lexemes tokens.now)) }
    ensures low { IfOk result (λ x. x.height ≤ room) }
{
    let pending = cast_done(alloc, room, tokens)?;
    let Parsed {
        value,
        height,
        rest,
    } = pending;
    let found = match value {
        Pending::Done(value) => return Ok(Parsed {
            value,
            height,
            rest,
        }),
        Pending::Open(value) => value,
    };
    match bare_name(found) {
        Ok(value) => name_or_call(
            alloc,
            room,
            Parsed {
                value,
                height,
                rest,
            },
        ),
        Err(other) => Ok(Parsed {
            value: Right::Value(other),
            height,
            rest,
        }),
    }
}

/// A `malloc` without a cast.
#[tactic(auto, unfolding(ebnf::specs::Reading::read))]
fn malloc_right<'a>(alloc: Global, room: u32, tokens: &'a [Token<'a>]) -> Reading<'a, Right>
    ensures gives { Gives rhs_of result (part room rows.malloc_right (lexemes tokens.now)) }
    ensures high { IfOk result (λ x. x.height ≡ 2) }
{
    let found = allocation(alloc, room, tokens)?;
    let (span, size) = found.value;
    Ok(Parsed {
        value: Right::Malloc(None, span, size),
        height: 2,
        rest: found.rest,
    })
}

/// An Interlocked call.
#[tactic(auto, unfolding(ebnf::specs::Reading::read))]
fn locked_right<'a>(alloc: Global, room: u32, tokens: &'a [Token<'a>]) -> Reading<'a, Right>
    requires room { room < 1000 }
    ensures gives { Gives rhs_of result (part room rows.locked_right (lexemes tokens.now)) }
    ensures low { IfOk result (λ x. x.height ≤ room) }
{
    let found = interlocked_call(alloc, room, tokens)?;
    let (call, other) = found.value;
    Ok(Parsed {
        value: Right::Interlocked(call, other),
        height: found.height,
        rest: found.rest,
    })
}

/// What stands right of `=`.
#[tactic(auto, using(crate::proofs::Chosen::malloc_read, crate::proofs::Chosen::malloc_deep, crate::proofs::Chosen::locked_read, crate::proofs::Chosen::locked_deep, crate::proofs::Chosen::value_read, crate::proofs::Chosen::value_deep, crate::proofs::Chosen::none_read))]
pub fn rhs<'a>(alloc: Global, room: u32, tokens: &'a [Token<'a>]) -> Reading<'a, Right>
    requires room { room < 1000 }
    ensures gives { Gives rhs_of result (part room g.rhs (lexemes tokens.now)) }
    ensures low { IfOk result (λ x. x.height ≤ room) }
{
    if next_is_key(Keyword::Malloc, tokens) {
        fits(2, room, tokens)?;
        return malloc_right(alloc, room, tokens);
    }
    if begins_locked(tokens) {
        fits(3, room, tokens)?;
        return locked_right(alloc, room, tokens);
    }
    if !begins_code(tokens) {
        return Err(ReadFault::Unexpected(tokens));
    }
    fits(1, room, tokens)?;
    value_or_call(alloc, room, tokens)
}
