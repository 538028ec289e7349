//! Left sides: a name or something else, with arrows behind.

ghost use Rattle.std.specs.Prelude.{◌≡◌, ◌≤◌, ◌<◌, ◌+◌, max, suc, IfOk};
ghost use Rattle.ebnf.specs.Reading.{reads};
ghost use Rattle.c_syntax.specs.Grammar as g;
ghost use Rattle.c_syntax.specs.Language.{language};
ghost use Rattle.c_syntax.specs.Views.{exp};
ghost use Rattle.reader_expressions.specs.Levels.{joined};
ghost use Rattle.reader_expressions.specs.Reading.{Gives, lexemes, part, rule_at};
ghost use Rattle.reader_assignments.specs.Places as places;

use c_syntax::expressions::{Expr, Identifier};
use c_syntax::token::{Sign, Span, Token};
use reader_expressions::arrows::arrows;
use reader_expressions::expressions::{primary, unnamed};
use reader_expressions::leaves::named;
use reader_expressions::levels::Mode;
use reader_expressions::memory::boxed;
use reader_expressions::reading::{Parsed, ReadFault, Reading};
use reader_expressions::tokens::{take, take_name};
use std::alloc::Global;

/// A name and arrows, one level of height down.
#[tactic(auto, using(crate::proofs::Chained::name_read))]
fn name_rule<'a>(alloc: Global, room: u32, tokens: &'a [Token<'a>]) -> Reading<'a, Expr>
    requires room { room < 1000 }
    ensures gives { Gives exp result (rule_at room g.name_place (lexemes tokens.now)) }
    ensures low { IfOk result (λ x. x.height ≤ room + 1) }
{
    let name = named(alloc, tokens)?;
    arrows(alloc, Mode::Code, room, name)
}

/// A name with arrows behind.
#[tactic(auto, unfolding(ebnf::specs::Reading::reads))]
pub fn name_place<'a>(alloc: Global, room: u32, tokens: &'a [Token<'a>]) -> Reading<'a, Expr>
    requires room { room < 1000 }
    ensures gives { Gives exp result (reads language room g.NamePlace (lexemes tokens.now)) }
    ensures low { IfOk result (λ x. x.height ≤ room) }
{
    if room == 0 {
        return Err(ReadFault::TooDeep(tokens));
    }
    name_rule(alloc, room - 1, tokens)
}

/// An arrow and a field.
#[tactic(auto, unfolding(ebnf::specs::Reading::read))]
fn arrow<'a>(alloc: Global, tokens: &'a [Token<'a>]) -> Reading<'a, (Span, Identifier)>
    ensures gives { Gives places.arrow result (part 0 g.arrow (lexemes tokens.now)) }
    ensures high { IfOk result (λ x. x.height ≡ 1) }
{
    let sign = take(Sign::Arrow, tokens)?;
    let name = take_name(alloc, 1, sign.rest)?;
    Ok(Parsed {
        value: (sign.value, name.value),
        height: 1,
        rest: name.rest,
    })
}

/// Goes on with an arrow.
fn after_arrow<'a>(alloc: Global, left: Parsed<'a, Expr>) -> Reading<'a, Expr>
    requires low { left.height ≤ 1000 }
    ensures gives { Gives exp result (joined (exp left.entry.value) left.entry.height (part 0 g.arrow (lexemes left.entry.rest.now))) }
    ensures high { IfOk result (λ x. x.height ≡ suc (max left.entry.height 1)) }
{
    let held = boxed(alloc, left.value)?;
    let following = arrow(alloc, left.rest)?;
    let (span, field) = following.value;
    let height = left.height.max(following.height) + 1;
    Ok(Parsed {
        value: Expr::Field(span, held, field),
        height,
        rest: following.rest,
    })
}

/// A number, `NULL` or brackets, as an expression of its own.
#[tactic(auto, unfolding(ebnf::specs::Reading::reads))]
pub fn unnamed_whole<'a>(alloc: Global, room: u32, tokens: &'a [Token<'a>]) -> Reading<'a, Expr>
    requires room { room < 1000 }
    ensures gives { Gives exp result (reads language room g.Unnamed (lexemes tokens.now)) }
    ensures low { IfOk result (λ x. (1 ≤ room) × (x.height ≤ room)) }
{
    if room == 0 {
        return Err(ReadFault::TooDeep(tokens));
    }
    unnamed(alloc, Mode::Code, room - 1, tokens)
}

/// An expression without operators, as one of its own.
#[tactic(auto, unfolding(ebnf::specs::Reading::reads))]
fn primary_whole<'a>(alloc: Global, room: u32, tokens: &'a [Token<'a>]) -> Reading<'a, Expr>
    requires room { room < 1000 }
    ensures gives { Gives exp result (reads language room (g.Primary g.Code) (lexemes tokens.now)) }
    ensures low { IfOk result (λ x. (1 ≤ room) × (x.height ≤ room)) }
{
    if room == 0 {
        return Err(ReadFault::TooDeep(tokens));
    }
    primary(alloc, Mode::Code, room - 1, tokens)
}

/// Something other than a name and arrows, one level of height down.
#[tactic(auto, using(crate::proofs::Chained::other_read))]
fn other_rule<'a>(alloc: Global, room: u32, tokens: &'a [Token<'a>]) -> Reading<'a, Expr>
    requires room { room < 1000 }
    ensures gives { Gives exp result (rule_at room g.other_place (lexemes tokens.now)) }
    ensures low { IfOk result (λ x. x.height ≤ room + 1) }
{
    let first = unnamed_whole(alloc, room, tokens)?;
    let place = after_arrow(alloc, first)?;
    arrows(alloc, Mode::Code, room, place)
}

/// Something other than a name, with one arrow behind at least.
#[tactic(auto, unfolding(ebnf::specs::Reading::reads))]
pub fn other_place<'a>(alloc: Global, room: u32, tokens: &'a [Token<'a>]) -> Reading<'a, Expr>
    requires room { room < 1000 }
    ensures gives { Gives exp result (reads language room g.OtherPlace (lexemes tokens.now)) }
    ensures low { IfOk result (λ x. x.height ≤ room) }
{
    if room == 0 {
        return Err(ReadFault::TooDeep(tokens));
    }
    other_rule(alloc, room - 1, tokens)
}

/// Anything and arrows, one level of height down.
#[tactic(auto, using(crate::proofs::Chained::any_read))]
fn any_rule<'a>(alloc: Global, room: u32, tokens: &'a [Token<'a>]) -> Reading<'a, Expr>
    requires room { room < 1000 }
    ensures gives { Gives exp result (rule_at room g.any_place (lexemes tokens.now)) }
    ensures low { IfOk result (λ x. x.height ≤ room + 1) }
{
    let first = primary_whole(alloc, room, tokens)?;
    let place = after_arrow(alloc, first)?;
    arrows(alloc, Mode::Code, room, place)
}

/// Anything with one arrow behind at least.
#[tactic(auto, unfolding(ebnf::specs::Reading::reads))]
pub fn any_place<'a>(alloc: Global, room: u32, tokens: &'a [Token<'a>]) -> Reading<'a, Expr>
    requires room { room < 1000 }
    ensures gives { Gives exp result (reads language room g.AnyPlace (lexemes tokens.now)) }
    ensures low { IfOk result (λ x. x.height ≤ room) }
{
    if room == 0 {
        return Err(ReadFault::TooDeep(tokens));
    }
    any_rule(alloc, room - 1, tokens)
}
