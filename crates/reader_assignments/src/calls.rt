//! What stands in the brackets of a call.

ghost use Rattle.std.specs.Prelude.{◌≡◌, ◌≤◌, ◌<◌, ◌+◌, IfOk};
ghost use Rattle.ebnf.specs.Sets.{has, first};
ghost use Rattle.ebnf.specs.Derives.{next};
ghost use Rattle.ebnf.specs.Reading.{reads};
ghost use Rattle.c_syntax.specs.Grammar as g;
ghost use Rattle.c_syntax.specs.Language.{language};
ghost use Rattle.c_syntax.specs.Views.{exp, exps};
ghost use Rattle.reader_expressions.specs.Reading.{Gives, lexemes, part, rule_at, entered, extended};
ghost use Rattle.reader_assignments.specs.Rows as rows;
ghost use Rattle.reader_assignments.specs.Views as views;

use crate::ends::ended;
use c_syntax::expressions::Expr;
use c_syntax::token::{Keyword, Sign, Token};
use reader_expressions::expressions::{expression, list};
use reader_expressions::levels::{Mode, Tier};
use reader_expressions::memory::add;
use reader_expressions::reading::{Parsed, ReadFault, Reading, fits};
use reader_expressions::tokens::{
    next_is, next_is_key, next_is_name, next_is_number, take, take_key,
};
use std::alloc::Global;

/// The arguments of a call, and its ghost arguments.
#[derive(Drop)]
pub struct Arguments {
    pub plain: Vec<Expr>,
    pub ghosts: Vec<Expr>,
}

/// An expression of code.
pub fn code<'a>(alloc: Global, room: u32, tokens: &'a [Token<'a>]) -> Reading<'a, Expr>
    requires room { room < 1000 }
    ensures gives { Gives exp result (reads language room (g.Level g.Code g.Choice) (lexemes tokens.now)) }
    ensures low { IfOk result (λ x. x.height ≤ room) }
{
    expression(alloc, Mode::Code, Tier::Choice, room, tokens)
}

/// Whether an expression of code begins with the next token.
#[tactic(auto, unfolding(ebnf::specs::Sets::first))]
pub fn begins_code<'a>(tokens: &'a [Token<'a>]) -> bool
    ensures { result ≡ has (first language g.code) (next language (lexemes tokens.now)) }
{
    next_is(Sign::Not, tokens)
        || next_is(Sign::Minus, tokens)
        || next_is_name(tokens)
        || next_is_number(tokens)
        || next_is_key(Keyword::Null, tokens)
        || next_is(Sign::Open, tokens)
}

/// Expressions with commas between, or none.
#[tactic(auto, using(crate::proofs::Listed::some_listed, crate::proofs::Listed::none_listed, crate::proofs::Listed::too_deep))]
pub fn list_or_none<'a>(alloc: Global, room: u32, tokens: &'a [Token<'a>]) -> Reading<'a, Vec<Expr>>
    requires room { room < 1000 }
    ensures gives { Gives (λ v. exps v.items) result (part room (g.list_or_none g.code) (lexemes tokens.now)) }
    ensures low { IfOk result (λ x. x.height ≤ room) }
{
    if !begins_code(tokens) {
        return Ok(Parsed {
            value: Vec::new(alloc),
            height: 0,
            rest: tokens,
        });
    }
    fits(1, room, tokens)?;
    list(alloc, Mode::Code, Tier::Choice, room, tokens)
}

/// A ghost argument, one level of height down.
#[tactic(auto, unfolding(ebnf::specs::Reading::read, ebnf::specs::Reading::read_rule))]
fn ghost_argument_rule<'a>(alloc: Global, room: u32, tokens: &'a [Token<'a>]) -> Reading<'a, Expr>
    requires room { room < 1000 }
    ensures gives { Gives exp result (rule_at room g.ghost_argument (lexemes tokens.now)) }
    ensures low { IfOk result (λ x. x.height ≤ room + 1) }
{
    let start = take(Sign::Annotation, tokens)?;
    let word = take_key(Keyword::Ghost, start.rest)?;
    let found = code(alloc, room, word.rest)?;
    let end = ended(Sign::Close, found)?;
    let (value, _) = end.value;
    Ok(Parsed {
        value,
        height: end.height + 1,
        rest: end.rest,
    })
}

/// A ghost argument.
#[tactic(auto, unfolding(ebnf::specs::Reading::reads))]
fn ghost_argument<'a>(alloc: Global, room: u32, tokens: &'a [Token<'a>]) -> Reading<'a, Expr>
    requires room { room < 1000 }
    ensures gives { Gives exp result (reads language room g.GhostArgument (lexemes tokens.now)) }
    ensures low { IfOk result (λ x. x.height ≤ room) }
{
    if room == 0 {
        return Err(ReadFault::TooDeep(tokens));
    }
    ghost_argument_rule(alloc, room - 1, tokens)
}

/// One more ghost argument behind those that were found.
#[tactic(auto, unfolding(ebnf::specs::Reading::read, ebnf::specs::Sets::low))]
fn add_ghost<'a>(alloc: Global, room: u32, found: Parsed<'a, Vec<Expr>>) -> Reading<'a, Vec<Expr>>
    requires room { room < 1000 }
    requires low { found.height ≤ room }
    ensures gives { Gives (λ v. exps v.items) result (extended (exps found.entry.value.items) found.entry.height (entered room rows.ghost_argument (lexemes found.entry.rest.now))) }
    ensures low { IfOk result (λ x. x.height ≤ room) }
{
    fits(2, room, found.rest)?;
    let next = ghost_argument(alloc, room, found.rest)?;
    let height = found.height.max(next.height);
    let mut all = found.value;
    add(&mut all, next.value)?;
    Ok(Parsed {
        value: all,
        height,
        rest: next.rest,
    })
}

/// Ghost arguments, as many as there are.
pub fn ghost_arguments<'a>(
    alloc: Global,
    room: u32,
    tokens: &'a [Token<'a>],
) -> Reading<'a, Vec<Expr>>
    requires room { room < 1000 }
    ensures gives { Gives (λ v. exps v.items) result (part room g.ghost_arguments (lexemes tokens.now)) }
    ensures low { IfOk result (λ x. x.height ≤ room) }
{
    let mut found = Parsed {
        value: Vec::new(alloc),
        height: 0,
        rest: tokens,
    };
    while next_is(Sign::Annotation, found.rest) {
        found = add_ghost(alloc, room, found)?;
    }
    Ok(found)
}

/// The brackets of a call, with what stands in them.
#[tactic(auto, using(crate::proofs::Parts::rows))]
pub fn call_tail<'a>(alloc: Global, room: u32, tokens: &'a [Token<'a>]) -> Reading<'a, Arguments>
    requires room { room < 1000 }
    ensures gives { Gives views.call result (part room g.call_tail (lexemes tokens.now)) }
    ensures low { IfOk result (λ x. x.height ≤ room) }
{
    let start = take(Sign::Open, tokens)?;
    let plain = list_or_none(alloc, room, start.rest)?;
    let ghosts = ghost_arguments(alloc, room, plain.rest)?;
    let end = take(Sign::Close, ghosts.rest)?;
    Ok(Parsed {
        value: Arguments {
            plain: plain.value,
            ghosts: ghosts.value,
        },
        height: plain.height.max(ghosts.height),
        rest: end.rest,
    })
}
