//! Left sides in ghost code, which may end with `->\owns`.

ghost use Rattle.std.specs.Prelude.{◌≡◌, ◌≤◌, ◌<◌, ◌+◌, suc, max, IfOk};
ghost use Rattle.ebnf.specs.Reading.{reads};
ghost use Rattle.c_syntax.specs.Grammar as g;
ghost use Rattle.c_syntax.specs.Language.{language};
ghost use Rattle.c_syntax.specs.Views.{exp};
ghost use Rattle.reader_expressions.specs.Levels.{joined, one_link};
ghost use Rattle.reader_expressions.specs.Reading.{Gives, lexemes, part, rule_at};
ghost use Rattle.reader_annotations.specs.Rows as rows;
ghost use Rattle.reader_annotations.specs.Views as views;

use c_syntax::expressions::{Expr, Identifier};
use c_syntax::token::{Sign, Span, SpecWord, Token};
use reader_assignments::places::unnamed_whole;
use reader_expressions::leaves::named;
use reader_expressions::memory::boxed;
use reader_expressions::reading::{Parsed, ReadFault, Reading, fits};
use reader_expressions::tokens::{next_is, next_is_name, take, take_name, take_spec};
use std::alloc::Global;

/// What stands behind an arrow in ghost code.
#[derive(Drop)]
pub enum Suffix {
    Field(Identifier),
    Owns(Span),
}

/// A field, or `\owns`.
#[tactic(auto, unfolding(ebnf::specs::Reading::read, ebnf::specs::Sets::first, ebnf::specs::Sets::low, ebnf::specs::Sets::is_empty))]
fn behind_arrow<'a>(alloc: Global, room: u32, tokens: &'a [Token<'a>]) -> Reading<'a, Suffix>
    ensures gives { Gives views.suffix result (part room rows.suffix (lexemes tokens.now)) }
    ensures low { IfOk result (λ x. x.height ≤ room) }
{
    if next_is_name(tokens) {
        fits(1, room, tokens)?;
        let name = take_name(alloc, 1, tokens)?;
        return Ok(Parsed {
            value: Suffix::Field(name.value),
            height: 1,
            rest: name.rest,
        });
    }
    let word = take_spec(SpecWord::Owns, tokens)?;
    Ok(Parsed {
        value: Suffix::Owns(word.value),
        height: 0,
        rest: word.rest,
    })
}

/// An arrow, and what stands behind it.
#[tactic(auto, using(reader_assignments::proofs::Parts::rows))]
fn arrow<'a>(alloc: Global, room: u32, tokens: &'a [Token<'a>]) -> Reading<'a, (Span, Suffix)>
    ensures gives { Gives views.arrow result (part room g.ghost_arrow (lexemes tokens.now)) }
    ensures low { IfOk result (λ x. x.height ≤ room) }
{
    let sign = take(Sign::Arrow, tokens)?;
    let following = behind_arrow(alloc, room, sign.rest)?;
    Ok(Parsed {
        value: (sign.value, following.value),
        height: following.height,
        rest: following.rest,
    })
}

/// An expression with an arrow and a suffix behind.
fn suffixed(suffix: Suffix, arrow: Span, left: Box<Expr>) -> Expr
    ensures { exp result ≡ views.suffix suffix arrow (exp left.value) }
{
    match suffix {
        Suffix::Field(name) => Expr::Field(arrow, left, name),
        Suffix::Owns(word) => Expr::Owns(arrow, left, word),
    }
}

/// Goes on with an arrow, where what stands in front is boxed.
fn behind_boxed<'a>(alloc: Global, room: u32, left: Parsed<'a, Box<Expr>>) -> Reading<'a, Expr>
    requires room { room < 1000 }
    requires low { left.height ≤ room }
    ensures gives { Gives exp result (joined (exp left.entry.value.value) left.entry.height (part room g.ghost_arrow (lexemes left.entry.rest.now))) }
    ensures low { IfOk result (λ x. x.height ≤ room + 1) }
{
    let following = arrow(alloc, room, left.rest)?;
    let (span, suffix) = following.value;
    let height = left.height.max(following.height) + 1;
    Ok(Parsed {
        value: suffixed(suffix, span, left.value),
        height,
        rest: following.rest,
    })
}

/// Goes on with an arrow.
fn after_arrow<'a>(alloc: Global, room: u32, left: Parsed<'a, Expr>) -> Reading<'a, Expr>
    requires room { room < 1000 }
    requires low { left.height ≤ room }
    ensures gives { Gives exp result (joined (exp left.entry.value) left.entry.height (part room g.ghost_arrow (lexemes left.entry.rest.now))) }
    ensures low { IfOk result (λ x. x.height ≤ room + 1) }
{
    let value = boxed(alloc, left.value)?;
    let held = Parsed {
        value,
        height: left.height,
        rest: left.rest,
    };
    behind_boxed(alloc, room, held)
}

/// Goes on with an arrow, where there is room for it.
#[tactic(auto, unfolding(ebnf::specs::Sets::low))]
fn one_arrow<'a>(alloc: Global, room: u32, left: Parsed<'a, Expr>) -> Reading<'a, Expr>
    requires room { room < 1000 }
    ensures gives { Gives exp result (one_link room g.ghost_arrow (exp left.entry.value) left.entry.height (lexemes left.entry.rest.now)) }
    ensures low { IfOk result (λ x. x.height ≤ room + 1) }
{
    let value = boxed(alloc, left.value)?;
    fits(left.height, room, left.rest)?;
    let held = Parsed {
        value,
        height: left.height,
        rest: left.rest,
    };
    behind_boxed(alloc, room, held)
}

/// Whether an expression ends with `->\owns`.
pub fn is_owns(value: &Expr) -> bool
    ensures { result ≡ g.is_owns (exp value.now) }
{
    match value {
        Expr::Owns(..) => true,
        _ => false,
    }
}

/// Whether an arrow goes on with the expression.
#[tactic(auto, using(crate::proofs::GhostLinks::no_owns))]
fn goes_on<'a>(value: &Expr, tokens: &'a [Token<'a>]) -> bool
    ensures { result ≡ rows.goes_on (exp value.now) (lexemes tokens.now) }
{
    !is_owns(value) && next_is(Sign::Arrow, tokens)
}

/// Goes on with arrows. Each adds a level of height, so there are no more of them than there is room.
fn arrows<'a>(alloc: Global, room: u32, left: Parsed<'a, Expr>) -> Reading<'a, Expr>
    requires room { room < 1000 }
    requires low { left.height ≤ room + 1 }
    ensures gives { Gives exp result (rows.linked (room + 1) room (exp left.entry.value) left.entry.height (lexemes left.entry.rest.now)) }
    ensures low { IfOk result (λ x. x.height ≤ room + 1) }
{
    let mut found = left;
    for _ in 0..room + 1 {
        if !goes_on(&found.value, found.rest) {
            return Ok(found);
        }
        found = one_arrow(alloc, room, found)?;
    }
    if goes_on(&found.value, found.rest) {
        let rest = found.rest;
        drop(found);
        return Err(ReadFault::TooDeep(rest));
    }
    Ok(found)
}

/// A name and arrows, one level of height down.
#[tactic(auto, using(crate::proofs::GhostLinks::name_read))]
fn name_rule<'a>(alloc: Global, room: u32, tokens: &'a [Token<'a>]) -> Reading<'a, Expr>
    requires room { room < 1000 }
    ensures gives { Gives exp result (rule_at room g.ghost_name (lexemes tokens.now)) }
    ensures low { IfOk result (λ x. x.height ≤ room + 1) }
{
    let name = named(alloc, tokens)?;
    arrows(alloc, room, name)
}

/// A name with arrows behind.
#[tactic(auto, unfolding(ebnf::specs::Reading::reads))]
pub fn ghost_name<'a>(alloc: Global, room: u32, tokens: &'a [Token<'a>]) -> Reading<'a, Expr>
    requires room { room < 1000 }
    ensures gives { Gives exp result (reads language room g.GhostName (lexemes tokens.now)) }
    ensures low { IfOk result (λ x. x.height ≤ room) }
{
    if room == 0 {
        return Err(ReadFault::TooDeep(tokens));
    }
    name_rule(alloc, room - 1, tokens)
}

/// Something other than a name and arrows, one level of height down.
#[tactic(auto, using(crate::proofs::GhostLinks::other_read))]
fn other_rule<'a>(alloc: Global, room: u32, tokens: &'a [Token<'a>]) -> Reading<'a, Expr>
    requires room { room < 1000 }
    ensures gives { Gives exp result (rule_at room g.ghost_other (lexemes tokens.now)) }
    ensures low { IfOk result (λ x. x.height ≤ room + 1) }
{
    let first = unnamed_whole(alloc, room, tokens)?;
    let place = after_arrow(alloc, room, first)?;
    arrows(alloc, room, place)
}

/// Something other than a name, with one arrow behind at least.
#[tactic(auto, unfolding(ebnf::specs::Reading::reads))]
pub fn ghost_other<'a>(alloc: Global, room: u32, tokens: &'a [Token<'a>]) -> Reading<'a, Expr>
    requires room { room < 1000 }
    ensures gives { Gives exp result (reads language room g.GhostOther (lexemes tokens.now)) }
    ensures low { IfOk result (λ x. x.height ≤ room) }
{
    if room == 0 {
        return Err(ReadFault::TooDeep(tokens));
    }
    other_rule(alloc, room - 1, tokens)
}
