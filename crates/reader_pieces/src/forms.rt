//! The forms of annotations, behind their `_(`.

ghost use Rattle.std.specs.Prelude.{◌≡◌, ◌≤◌, ◌<◌, IfOk};
ghost use Rattle.reader_expressions.specs.Reading.{Gives, lexemes, part};
ghost use Rattle.reader_pieces.specs.Annotations as spec;
ghost use Rattle.reader_pieces.specs.Annotations.{view};
ghost use Rattle.reader_pieces.specs.Shapes.{at_span, form_of};

use crate::tree::Annotation;
use crate::words::{Form, form_at};
use c_syntax::statements::Invariant;
use c_syntax::token::{Keyword, Span, Token};
use reader_annotations::annotations::{
    assert_tail, ghost_tail, invariant_tail, unwrap_tail, wrap_tail,
};
use reader_annotations::brackets::close_bracket;
use reader_assignments::calls::code;
use reader_expressions::expressions::list;
use reader_expressions::levels::{Mode, Tier};
use reader_expressions::reading::{Parsed, ReadFault, Reading, fits};
use reader_expressions::tokens::{next_is_key, take_key};
use std::alloc::Global;

/// `assert` and what is asserted, behind the `_(`, whose place is this.
#[tactic(auto, using(crate::proofs::Links::assert_read))]
fn assertion<'a>(
    alloc: Global,
    span: Span,
    room: u32,
    tokens: &'a [Token<'a>],
) -> Reading<'a, Annotation>
    requires room { room < 1000 }
    ensures gives { Gives view result (at_span span (part room spec.assert_form (lexemes tokens.now))) }
    ensures low { IfOk result (λ x. x.height ≤ room) }
{
    let found = assert_tail(alloc, room, tokens)?;
    Ok(Parsed {
        value: Annotation::Assert(span, found.value),
        height: found.height,
        rest: found.rest,
    })
}

/// `ghost` and a ghost statement.
#[tactic(auto, using(crate::proofs::Links::ghost_read))]
fn ghost_statement<'a>(
    alloc: Global,
    span: Span,
    room: u32,
    tokens: &'a [Token<'a>],
) -> Reading<'a, Annotation>
    requires room { room < 1000 }
    ensures gives { Gives view result (at_span span (part room spec.ghost_form (lexemes tokens.now))) }
    ensures low { IfOk result (λ x. x.height ≤ room) }
{
    let found = ghost_tail(alloc, room, tokens)?;
    Ok(Parsed {
        value: Annotation::Ghost(span, found.value),
        height: found.height,
        rest: found.rest,
    })
}

/// `wrap` and an object.
#[tactic(auto, using(crate::proofs::Links::wrap_read))]
fn wrap<'a>(
    alloc: Global,
    span: Span,
    room: u32,
    tokens: &'a [Token<'a>],
) -> Reading<'a, Annotation>
    requires room { room < 1000 }
    ensures gives { Gives view result (at_span span (part room spec.wrap_form (lexemes tokens.now))) }
    ensures low { IfOk result (λ x. x.height ≤ room) }
{
    let found = wrap_tail(alloc, room, tokens)?;
    Ok(Parsed {
        value: Annotation::Wrap(span, found.value),
        height: found.height,
        rest: found.rest,
    })
}

/// `unwrap` and an object.
#[tactic(auto, using(crate::proofs::Links::unwrap_read))]
fn unwrap_form<'a>(
    alloc: Global,
    span: Span,
    room: u32,
    tokens: &'a [Token<'a>],
) -> Reading<'a, Annotation>
    requires room { room < 1000 }
    ensures gives { Gives view result (at_span span (part room spec.unwrap_form (lexemes tokens.now))) }
    ensures low { IfOk result (λ x. x.height ≤ room) }
{
    let found = unwrap_tail(alloc, room, tokens)?;
    Ok(Parsed {
        value: Annotation::Unwrap(span, found.value),
        height: found.height,
        rest: found.rest,
    })
}

/// `unwrapping` and an object.
#[tactic(auto, using(reader_assignments::proofs::Parts::rows))]
fn before_unwrapping<'a>(
    alloc: Global,
    span: Span,
    room: u32,
    tokens: &'a [Token<'a>],
) -> Reading<'a, Annotation>
    requires room { room < 1000 }
    ensures gives { Gives view result (at_span span (part room spec.unwrapping_form (lexemes tokens.now))) }
    ensures low { IfOk result (λ x. x.height ≤ room) }
{
    let word = take_key(Keyword::Unwrapping, tokens)?;
    let object = close_bracket(code(alloc, room, word.rest)?)?;
    Ok(Parsed {
        value: Annotation::Unwrapping(span, object.value),
        height: object.height,
        rest: object.rest,
    })
}

/// `atomic` and the objects.
#[tactic(auto, using(reader_assignments::proofs::Parts::rows))]
fn before_atomic<'a>(
    alloc: Global,
    span: Span,
    room: u32,
    tokens: &'a [Token<'a>],
) -> Reading<'a, Annotation>
    requires room { room < 1000 }
    ensures gives { Gives view result (at_span span (part room spec.atomic_form (lexemes tokens.now))) }
    ensures low { IfOk result (λ x. x.height ≤ room) }
{
    let word = take_key(Keyword::Atomic, tokens)?;
    let objects = close_bracket(list(alloc, Mode::Code, Tier::Choice, room, word.rest)?)?;
    Ok(Parsed {
        value: Annotation::Atomic(span, objects.value),
        height: objects.height,
        rest: objects.rest,
    })
}

/// `invariant` and the property.
#[tactic(auto, using(reader_assignments::proofs::Parts::rows))]
fn loop_invariant<'a>(
    alloc: Global,
    span: Span,
    room: u32,
    tokens: &'a [Token<'a>],
) -> Reading<'a, Annotation>
    requires room { room < 1000 }
    ensures gives { Gives view result (at_span span (part room spec.invariant_form (lexemes tokens.now))) }
    ensures low { IfOk result (λ x. x.height ≤ room) }
{
    let found = invariant_tail(alloc, room, tokens)?;
    Ok(Parsed {
        value: Annotation::Invariant(Invariant {
            span,
            property: found.value,
        }),
        height: found.height,
        rest: found.rest,
    })
}

/// This form.
fn of_form<'a>(
    alloc: Global,
    form: Form,
    span: Span,
    room: u32,
    tokens: &'a [Token<'a>],
) -> Reading<'a, Annotation>
    requires room { room < 1000 }
    ensures gives { Gives view result (at_span span (part room (form_of form) (lexemes tokens.now))) }
    ensures low { IfOk result (λ x. x.height ≤ room) }
{
    match form {
        Form::Assert => assertion(alloc, span, room, tokens),
        Form::Ghost => ghost_statement(alloc, span, room, tokens),
        Form::Wrap => wrap(alloc, span, room, tokens),
        Form::Unwrap => unwrap_form(alloc, span, room, tokens),
        Form::Unwrapping => before_unwrapping(alloc, span, room, tokens),
        Form::Atomic => before_atomic(alloc, span, room, tokens),
    }
}

/// The form of a statement.
#[tactic(auto, using(crate::proofs::Choices::statement_fits, crate::proofs::Choices::statement_high, crate::proofs::Choices::statement_none))]
pub fn of_statement<'a>(
    alloc: Global,
    span: Span,
    room: u32,
    tokens: &'a [Token<'a>],
) -> Reading<'a, Annotation>
    requires room { room < 1000 }
    ensures gives { Gives view result (at_span span (part room spec.of_statement (lexemes tokens.now))) }
    ensures low { IfOk result (λ x. x.height ≤ room) }
{
    let Some(form) = form_at(tokens) else {
        return Err(ReadFault::Unexpected(tokens));
    };
    fits(1, room, tokens)?;
    of_form(alloc, form, span, room, tokens)
}

/// An invariant, or the form of a statement.
#[tactic(auto, using(crate::proofs::Choices::invariant_fits, crate::proofs::Choices::invariant_high, crate::proofs::Choices::beside_invariant))]
pub fn of_loop<'a>(
    alloc: Global,
    span: Span,
    room: u32,
    tokens: &'a [Token<'a>],
) -> Reading<'a, Annotation>
    requires room { room < 1000 }
    ensures gives { Gives view result (at_span span (part room spec.of_loop (lexemes tokens.now))) }
    ensures low { IfOk result (λ x. x.height ≤ room) }
{
    if next_is_key(Keyword::Invariant, tokens) {
        fits(1, room, tokens)?;
        return loop_invariant(alloc, span, room, tokens);
    }
    of_statement(alloc, span, room, tokens)
}

/// The form of a ghost statement.
#[tactic(auto, using(crate::proofs::Choices::wrap_fits, crate::proofs::Choices::wrap_high, crate::proofs::Choices::unwrap_fits, crate::proofs::Choices::unwrap_high, crate::proofs::Choices::no_wrap))]
pub fn of_ghost<'a>(
    alloc: Global,
    span: Span,
    room: u32,
    tokens: &'a [Token<'a>],
) -> Reading<'a, Annotation>
    requires room { room < 1000 }
    ensures gives { Gives view result (at_span span (part room spec.of_ghost (lexemes tokens.now))) }
    ensures low { IfOk result (λ x. x.height ≤ room) }
{
    if next_is_key(Keyword::Wrap, tokens) {
        fits(1, room, tokens)?;
        return wrap(alloc, span, room, tokens);
    }
    if !next_is_key(Keyword::Unwrap, tokens) {
        return Err(ReadFault::Unexpected(tokens));
    }
    fits(1, room, tokens)?;
    unwrap_form(alloc, span, room, tokens)
}
