//! What stands behind arrows.

ghost use Rattle.std.specs.Prelude.{◌≡◌, ◌≤◌, ◌<◌, ◌+◌, true, IfOk};
ghost use Rattle.ebnf.specs.Sets.{has, first, low};
ghost use Rattle.ebnf.specs.Derives.{next};
ghost use Rattle.c_syntax.specs.declared.tree.Status.{Status};
ghost use Rattle.c_syntax.specs.Classes as classes;
ghost use Rattle.c_syntax.specs.Grammar as g;
ghost use Rattle.c_syntax.specs.Language.{language};
ghost use Rattle.c_syntax.specs.Views.{id, exp};
ghost use Rattle.reader_expressions.specs.Levels as levels;
ghost use Rattle.reader_expressions.specs.Levels.{mode_of, linked, joined, one_link};
ghost use Rattle.reader_expressions.specs.Suffixes as suffixes;
ghost use Rattle.reader_expressions.specs.Reading.{Gives, lexemes, part};

use crate::levels::Mode;
use crate::memory::boxed;
use crate::reading::{Parsed, ReadFault, Reading, fits};
use crate::tokens::{is_sign, next_is, next_is_name, next_is_spec, take, take_name, take_spec};
use c_syntax::expressions::{Expr, Identifier};
use c_syntax::token::{Sign, Span, SpecWord, Token};
use c_syntax::tree::Status;
use std::alloc::Global;

/// What stands behind an arrow.
#[derive(Drop)]
pub enum Suffix {
    Field(Identifier),
    Status(Span, Status),
}

/// A word that stands for a status.
#[tactic(auto, unfolding(ebnf::specs::Reading::read))]
fn status<'a>(word: SpecWord, status: Status, tokens: &'a [Token<'a>]) -> Reading<'a, Suffix>
    ensures gives { Gives suffixes.suffix result (part 0 (g.status (classes.spec word) status) (lexemes tokens.now)) }
    ensures flat { IfOk result (λ x. x.height ≡ 0) }
{
    let found = take_spec(word, tokens)?;
    Ok(Parsed {
        value: Suffix::Status(found.value, status),
        height: 0,
        rest: found.rest,
    })
}

/// What may stand behind an arrow in an annotation.
#[tactic(auto, unfolding(ebnf::specs::Reading::read, ebnf::specs::Sets::first, ebnf::specs::Sets::low, ebnf::specs::Sets::is_empty))]
fn spec_suffix<'a>(alloc: Global, room: u32, tokens: &'a [Token<'a>]) -> Reading<'a, Suffix>
    ensures gives { Gives suffixes.suffix result (part room (g.suffix g.InSpec) (lexemes tokens.now)) }
    ensures low { IfOk result (λ x. (x.height ≤ 1) × (x.height ≤ room)) }
{
    if next_is_name(tokens) {
        fits(1, room, tokens)?;
        return code_suffix(alloc, tokens);
    }
    if next_is_spec(SpecWord::Closed, tokens) {
        return status(SpecWord::Closed, Status::Closed, tokens);
    }
    if next_is_spec(SpecWord::Owner, tokens) {
        return status(SpecWord::Owner, Status::Owner, tokens);
    }
    status(SpecWord::ClaimCount, Status::ClaimCount, tokens)
}

/// What may stand behind an arrow in code.
#[tactic(auto, unfolding(ebnf::specs::Reading::read))]
fn code_suffix<'a>(alloc: Global, tokens: &'a [Token<'a>]) -> Reading<'a, Suffix>
    ensures gives { Gives suffixes.suffix result (part 0 g.field (lexemes tokens.now)) }
    ensures high { IfOk result (λ x. x.height ≡ 1) }
{
    let name = take_name(alloc, 1, tokens)?;
    Ok(Parsed {
        value: Suffix::Field(name.value),
        height: 1,
        rest: name.rest,
    })
}

/// What may stand behind an arrow.
#[tactic(auto, unfolding(ebnf::specs::Reading::read, ebnf::specs::Sets::low))]
fn suffix_of<'a>(
    alloc: Global,
    mode: Mode,
    room: u32,
    tokens: &'a [Token<'a>],
) -> Reading<'a, Suffix>
    ensures gives { Gives suffixes.suffix result (part room (g.suffix (mode_of mode)) (lexemes tokens.now)) }
    ensures low { IfOk result (λ x. (x.height ≤ 1) × (low language (levels.arrow (mode_of mode)) ≤ room → x.height ≤ room)) }
{
    match mode {
        Mode::Code => code_suffix(alloc, tokens),
        Mode::Spec => spec_suffix(alloc, room, tokens),
    }
}

/// An expression with an arrow and a suffix behind.
fn suffixed(suffix: Suffix, arrow: Span, left: Box<Expr>) -> Expr
    ensures { exp result ≡ suffixes.suffix suffix arrow (exp left.value) }
{
    match suffix {
        Suffix::Field(name) => Expr::Field(arrow, left, name),
        Suffix::Status(span, status) => Expr::Status(arrow, left, span, status),
    }
}

/// How high what stands behind an arrow is at least.
#[tactic(auto, unfolding(ebnf::specs::Sets::low))]
fn least(mode: Mode) -> u32
    ensures is { result ≡ low language (levels.arrow (mode_of mode)) }
    ensures small { result ≤ 1 }
{
    match mode {
        Mode::Code => 1,
        Mode::Spec => 0,
    }
}

/// Goes on with the arrow that comes next.
#[tactic(auto, unfolding(ebnf::specs::Reading::read))]
fn one_arrow<'a>(alloc: Global, mode: Mode, room: u32, left: Parsed<'a, Expr>) -> Reading<'a, Expr>
    requires room { room < 1000 }
    ensures gives { Gives exp result (one_link room (levels.arrow (mode_of mode)) (exp left.entry.value) left.entry.height (lexemes left.entry.rest.now)) }
    ensures low { IfOk result (λ x. x.height ≤ room + 1) }
{
    let held = boxed(alloc, left.value)?;
    fits(left.height.max(least(mode)), room, left.rest)?;
    let arrow = take(Sign::Arrow, left.rest)?;
    let following = suffix_of(alloc, mode, room, arrow.rest)?;
    let height = left.height.max(following.height) + 1;
    Ok(Parsed {
        value: suffixed(following.value, arrow.value, held),
        height,
        rest: following.rest,
    })
}

/// The arrow that has to come next, in an annotation.
#[tactic(auto, unfolding(ebnf::specs::Reading::read))]
pub fn first_arrow<'a>(alloc: Global, room: u32, left: Parsed<'a, Expr>) -> Reading<'a, Expr>
    requires room { room < 1000 }
    requires low { left.height ≤ room }
    ensures gives { Gives exp result (joined (exp left.entry.value) left.entry.height (part room g.spec_arrow (lexemes left.entry.rest.now))) }
    ensures low { IfOk result (λ x. x.height ≤ room + 1) }
{
    let held = boxed(alloc, left.value)?;
    let arrow = take(Sign::Arrow, left.rest)?;
    let following = spec_suffix(alloc, room, arrow.rest)?;
    let height = left.height.max(following.height) + 1;
    Ok(Parsed {
        value: suffixed(following.value, arrow.value, held),
        height,
        rest: following.rest,
    })
}

/// Goes on with arrows. Each adds a level of height, so there are no more of them than there is room.
pub fn arrows<'a>(alloc: Global, mode: Mode, room: u32, left: Parsed<'a, Expr>) -> Reading<'a, Expr>
    requires room { room < 1000 }
    requires low { left.height ≤ room + 1 }
    ensures gives { Gives exp result (linked (room + 1) room (levels.arrow (mode_of mode)) (exp left.entry.value) left.entry.height (lexemes left.entry.rest.now)) }
    ensures low { IfOk result (λ x. x.height ≤ room + 1) }
{
    let mut found = left;
    for _ in 0..room + 1 {
        if !next_is(Sign::Arrow, found.rest) {
            return Ok(found);
        }
        found = one_arrow(alloc, mode, room, found)?;
    }
    if next_is(Sign::Arrow, found.rest) {
        let rest = found.rest;
        drop(found);
        return Err(ReadFault::TooDeep(rest));
    }
    Ok(found)
}

/// Whether a suffix that leaves an expression stands behind an arrow.
#[tactic(auto, unfolding(ebnf::specs::Sets::first, ebnf::specs::Sets::is_empty))]
fn begins_suffix<'a>(tokens: &'a [Token<'a>]) -> bool
    ensures { result ≡ has (first language suffixes.more) (next language (lexemes tokens.now)) }
{
    next_is_name(tokens)
        || next_is_spec(SpecWord::Closed, tokens)
        || next_is_spec(SpecWord::Owner, tokens)
        || next_is_spec(SpecWord::ClaimCount, tokens)
}

/// Whether an arrow comes next, with a suffix behind that leaves an expression.
fn next_goes_on<'a>(tokens: &'a [Token<'a>]) -> bool
    ensures { result ≡ suffixes.goes_on (lexemes tokens.now) }
{
    match tokens.split_first() {
        Some((first, rest)) => is_sign(first, Sign::Arrow) && begins_suffix(rest),
        None => false,
    }
}

/// A suffix that leaves an expression, as it goes with its arrow's token.
fn climb_suffix<'a>(alloc: Global, room: u32, tokens: &'a [Token<'a>]) -> Reading<'a, Suffix>
    ensures gives { Gives suffixes.with_token result (part room suffixes.more (lexemes tokens.now)) }
    ensures low { IfOk result (λ x. x.height ≤ 1) }
{
    let found = spec_suffix(alloc, room, tokens)?;
    Ok(found)
}

/// Goes on with an arrow that leaves an expression.
fn climb_step<'a>(alloc: Global, room: u32, left: Parsed<'a, Expr>) -> Reading<'a, Expr>
    requires room { room < 1000 }
    requires low { left.height ≤ room }
    ensures gives { Gives exp result (suffixes.step room (exp left.entry.value) left.entry.height (lexemes left.entry.rest.now)) }
    ensures low { IfOk result (λ x. x.height ≤ room) }
{
    let held = boxed(alloc, left.value)?;
    let arrow = take(Sign::Arrow, left.rest)?;
    fits(left.height.max(1) + 1, room, arrow.rest)?;
    let following = climb_suffix(alloc, room, arrow.rest)?;
    let height = left.height.max(following.height) + 1;
    Ok(Parsed {
        value: suffixed(following.value, arrow.value, held),
        height,
        rest: following.rest,
    })
}

/// Ends with `->\owns`.
#[tactic(auto, unfolding(ebnf::specs::Reading::read))]
fn climb_end<'a>(alloc: Global, left: Parsed<'a, Expr>) -> Reading<'a, Expr>
    requires low { left.height ≤ 1000 }
    ensures gives { Gives exp result (suffixes.end 0 (exp left.entry.value) left.entry.height (lexemes left.entry.rest.now)) }
    ensures high { IfOk result (λ x. x.height ≡ left.entry.height + 1) }
{
    let held = boxed(alloc, left.value)?;
    let arrow = take(Sign::Arrow, left.rest)?;
    let word = take_spec(SpecWord::Owns, arrow.rest)?;
    Ok(Parsed {
        value: Expr::Owns(arrow.value, held, word.value),
        height: left.height + 1,
        rest: word.rest,
    })
}

/// Goes on with arrows up to `->\owns`. Each adds a level of height, so there are no more of them than there is room.
pub fn climb<'a>(alloc: Global, room: u32, left: Parsed<'a, Expr>) -> Reading<'a, Expr>
    requires room { room < 1000 }
    requires low { left.height ≤ room }
    ensures gives { Gives exp result (suffixes.climbed (room + 1) room (exp left.entry.value) left.entry.height (lexemes left.entry.rest.now)) }
    ensures low { IfOk result (λ x. x.height ≤ room + 1) }
{
    let mut found = left;
    for _ in 0..room + 1 {
        if !next_goes_on(found.rest) {
            return climb_end(alloc, found);
        }
        found = climb_step(alloc, room, found)?;
    }
    let rest = found.rest;
    drop(found);
    Err(ReadFault::Unexpected(rest))
}
