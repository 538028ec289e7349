//! Statements that begin with `_(`, up to the block that one holds.

ghost use Rattle.std.specs.Prelude.{◌≡◌, ◌≤◌, ◌<◌, ◌+◌, IfOk};
ghost use Rattle.c_syntax.specs.Grammar as g;
ghost use Rattle.reader_expressions.specs.Reading.{lexemes, part, rule_at};
ghost use Rattle.reader_statements.specs.Fronts.{Begins};
ghost use Rattle.reader_statements.specs.Rows as rows;
ghost use Rattle.reader_statements.specs.Rows.{at_span, higher};

use crate::blocks::{BlockFront, Front};
use crate::kinds::{Annotation, annotation_at};
use c_syntax::statements::Stmt;
use c_syntax::token::{Keyword, Sign, Span, Token};
use reader_annotations::annotations::{assert_tail, ghost_tail, unwrap_tail, wrap_tail};
use reader_assignments::calls::code;
use reader_assignments::ends::ended;
use reader_expressions::expressions::list;
use reader_expressions::levels::{Mode, Tier};
use reader_expressions::memory::boxed;
use reader_expressions::reading::{Parsed, ReadFault, Reading, fits};
use reader_expressions::tokens::{take, take_key};
use std::alloc::Global;

/// `assert ..` behind the `_(`, whose place is this.
fn assertion<'a>(
    alloc: Global,
    span: Span,
    room: u32,
    tokens: &'a [Token<'a>],
) -> Reading<'a, Front>
    requires room { room < 1000 }
    ensures begins { Begins room result (higher (at_span span (part room rows.assert_ (lexemes tokens.now)))) }
    ensures low { IfOk result (λ x. x.height ≤ room + 1) }
{
    let found = assert_tail(alloc, room, tokens)?;
    let value = boxed(alloc, Stmt::Assert(span, found.value))?;
    Ok(Parsed {
        value: Front::Whole(value),
        height: found.height + 1,
        rest: found.rest,
    })
}

/// `ghost ..` behind the `_(`, whose place is this.
fn ghost_statement<'a>(
    alloc: Global,
    span: Span,
    room: u32,
    tokens: &'a [Token<'a>],
) -> Reading<'a, Front>
    requires room { room < 1000 }
    ensures begins { Begins room result (higher (at_span span (part room rows.ghost (lexemes tokens.now)))) }
    ensures low { IfOk result (λ x. x.height ≤ room + 1) }
{
    let found = ghost_tail(alloc, room, tokens)?;
    let value = boxed(alloc, Stmt::Ghost(span, found.value))?;
    Ok(Parsed {
        value: Front::Whole(value),
        height: found.height + 1,
        rest: found.rest,
    })
}

/// `wrap ..` behind the `_(`, whose place is this.
fn wrap<'a>(alloc: Global, span: Span, room: u32, tokens: &'a [Token<'a>]) -> Reading<'a, Front>
    requires room { room < 1000 }
    ensures begins { Begins room result (higher (at_span span (part room rows.wrap_ (lexemes tokens.now)))) }
    ensures low { IfOk result (λ x. x.height ≤ room + 1) }
{
    let found = wrap_tail(alloc, room, tokens)?;
    let value = boxed(alloc, Stmt::Wrap(span, found.value))?;
    Ok(Parsed {
        value: Front::Whole(value),
        height: found.height + 1,
        rest: found.rest,
    })
}

/// `unwrap ..` behind the `_(`, whose place is this.
fn unwrap_statement<'a>(
    alloc: Global,
    span: Span,
    room: u32,
    tokens: &'a [Token<'a>],
) -> Reading<'a, Front>
    requires room { room < 1000 }
    ensures begins { Begins room result (higher (at_span span (part room rows.unwrap (lexemes tokens.now)))) }
    ensures low { IfOk result (λ x. x.height ≤ room + 1) }
{
    let found = unwrap_tail(alloc, room, tokens)?;
    let value = boxed(alloc, Stmt::Unwrap(span, found.value))?;
    Ok(Parsed {
        value: Front::Whole(value),
        height: found.height + 1,
        rest: found.rest,
    })
}

/// `unwrapping ..` behind the `_(`, in front of its block.
fn unwrapping<'a>(
    alloc: Global,
    span: Span,
    room: u32,
    tokens: &'a [Token<'a>],
) -> Reading<'a, Front>
    requires room { room < 1000 }
    ensures begins { Begins room result (higher (at_span span (part room rows.unwrapping (lexemes tokens.now)))) }
    ensures low { IfOk result (λ x. x.height ≤ room + 1) }
{
    let word = take_key(Keyword::Unwrapping, tokens)?;
    let object = code(alloc, room, word.rest)?;
    let close = ended(Sign::Close, object)?;
    let (object, _) = close.value;
    Ok(Parsed {
        value: Front::Annotation(BlockFront::Unwrapping(span, object)),
        height: close.height + 1,
        rest: close.rest,
    })
}

/// `atomic ..` behind the `_(`, in front of its block.
fn atomic<'a>(alloc: Global, span: Span, room: u32, tokens: &'a [Token<'a>]) -> Reading<'a, Front>
    requires room { room < 1000 }
    ensures begins { Begins room result (higher (at_span span (part room rows.atomic (lexemes tokens.now)))) }
    ensures low { IfOk result (λ x. x.height ≤ room + 1) }
{
    let word = take_key(Keyword::Atomic, tokens)?;
    let objects = list(alloc, Mode::Code, Tier::Choice, room, word.rest)?;
    let close = ended(Sign::Close, objects)?;
    let (objects, _) = close.value;
    Ok(Parsed {
        value: Front::Annotation(BlockFront::Atomic(span, objects)),
        height: close.height + 1,
        rest: close.rest,
    })
}

/// This form behind the `_(`.
fn of_form<'a>(
    alloc: Global,
    form: Annotation,
    span: Span,
    room: u32,
    tokens: &'a [Token<'a>],
) -> Reading<'a, Front>
    requires room { room < 1000 }
    ensures begins { Begins room result (higher (at_span span (part room (rows.annotation_of form) (lexemes tokens.now)))) }
    ensures low { IfOk result (λ x. x.height ≤ room + 1) }
{
    match form {
        Annotation::Assert => assertion(alloc, span, room, tokens),
        Annotation::Ghost => ghost_statement(alloc, span, room, tokens),
        Annotation::Wrap => wrap(alloc, span, room, tokens),
        Annotation::Unwrap => unwrap_statement(alloc, span, room, tokens),
        Annotation::Unwrapping => unwrapping(alloc, span, room, tokens),
        Annotation::Atomic => atomic(alloc, span, room, tokens),
    }
}

/// A statement behind its `_(`, whose place is this.
fn annotated<'a>(
    alloc: Global,
    span: Span,
    room: u32,
    tokens: &'a [Token<'a>],
) -> Reading<'a, Front>
    requires room { room < 1000 }
    ensures begins { Begins room result (higher (at_span span (part room g.annotated (lexemes tokens.now)))) }
    ensures low { IfOk result (λ x. x.height ≤ room + 1) }
{
    let Some(form) = annotation_at(tokens) else {
        return Err(ReadFault::Unexpected(tokens));
    };
    fits(1, room, tokens)?;
    of_form(alloc, form, span, room, tokens)
}

/// A statement that begins with `_(`, one level of height down.
#[tactic(auto, using(crate::proofs::Openings::annotation_is))]
pub fn annotation<'a>(alloc: Global, room: u32, tokens: &'a [Token<'a>]) -> Reading<'a, Front>
    requires room { room < 1000 }
    ensures begins { Begins room result (rule_at room rows.annotation (lexemes tokens.now)) }
    ensures low { IfOk result (λ x. x.height ≤ room + 1) }
{
    let sign = take(Sign::Annotation, tokens)?;
    annotated(alloc, sign.value, room, sign.rest)
}
