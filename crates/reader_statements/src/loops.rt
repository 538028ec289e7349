//! Parts of loops that hold no statement, and what stands behind a body.

ghost use Rattle.std.specs.Prelude.{◌≡◌, ◌≤◌, ◌<◌, ◌+◌, true, IfOk, IfErr, Err};
ghost use Rattle.std.specs.Option.{option_map};
ghost use Rattle.ebnf.specs.Sets.{has};
ghost use Rattle.ebnf.specs.Derives.{next};
ghost use Rattle.ebnf.specs.Reading.{reads};
ghost use Rattle.c_syntax.specs.Grammar as g;
ghost use Rattle.c_syntax.specs.Language.{language};
ghost use Rattle.c_syntax.specs.Views as views;
ghost use Rattle.reader_expressions.specs.Reading.{Gives, lexemes, part, rule_at, extended};
ghost use Rattle.reader_statements.specs.Fronts.{loop_end};
ghost use Rattle.reader_statements.specs.Loops.{invariants as invariants_of};
ghost use Rattle.reader_statements.specs.Rows as rows;
ghost use Rattle.reader_statements.specs.Views.{body, do_end as end_of, in_box, maybe_boxed};
ghost use Rattle.reader_statements.specs.declared.blocks.Body.{Body};
ghost use Rattle.reader_statements.specs.declared.blocks.LoopFront.TheVariants as fronts;

use crate::blocks::{Body, LoopFront};
use crate::simple::inside;
use c_syntax::expressions::{Assignment, Expr};
use c_syntax::statements::{Invariant, Stmt};
use c_syntax::token::{Keyword, Sign, Span, Token};
use reader_annotations::annotations::invariant_tail;
use reader_assignments::assignments::assigned;
use reader_assignments::ends::ended;
use reader_expressions::memory::{add, boxed};
use reader_expressions::reading::{Parsed, ReadFault, Reading, fits};
use reader_expressions::tokens::{
    is_sign, next_is, next_is_key, next_is_name, next_is_number, take, take_key,
};
use std::alloc::Global;
use tree_building::pair_with;

/// What stands behind the body of a `do`: the place of the word `while`, and the condition.
#[tactic(auto, using(reader_assignments::proofs::Parts::rows))]
fn do_end<'a>(alloc: Global, room: u32, tokens: &'a [Token<'a>]) -> Reading<'a, (Span, Expr)>
    requires room { room < 1000 }
    ensures gives { Gives end_of result (part room (rows.do_end (λ x. x)) (lexemes tokens.now)) }
    ensures low { IfOk result (λ x. x.height ≤ room) }
{
    let word = take_key(Keyword::While, tokens)?;
    let condition = inside(alloc, room, word.rest)?;
    let end = ended(Sign::Semicolon, condition)?;
    let (condition, _) = end.value;
    Ok(Parsed {
        value: (word.value, condition),
        height: end.height,
        rest: end.rest,
    })
}

/// `do` with its body, up to its end.
fn do_loop<'a>(
    alloc: Global,
    room: u32,
    span: Span,
    height: u32,
    found: Parsed<'a, Body>,
) -> Reading<'a, Box<Stmt>>
    requires room { room < 1000 }
    requires high { height ≤ room + 1 }
    requires low { found.height ≤ room }
    ensures gives { Gives in_box result (loop_end room (fronts.Do span) height (body found.entry.value) found.entry.height (lexemes found.entry.rest.now)) }
    ensures low { IfOk result (λ x. x.height ≤ room + 1) }
{
    let (held, end) = pair_with(found.value, do_end(alloc, room, found.rest))?;
    let (place, condition) = end.value;
    let whole = height.max(found.height.max(end.height) + 1);
    let value = boxed(
        alloc,
        Stmt::Do(span, held.invariants, held.inner, place, condition),
    )?;
    Ok(Parsed {
        value,
        height: whole,
        rest: end.rest,
    })
}

/// What is in the box, if there is one.
fn unboxed<T>(held: Option<Box<T>>) -> Option<T>
    ensures { result ≡ option_map (λ b. b.value) held }
{
    match held {
        Some(held) => Some(Box::into_inner(held)),
        None => None,
    }
}

/// A loop with this front, which is so high, and this body, up to its end.
pub fn with_body<'a>(
    alloc: Global,
    room: u32,
    front: LoopFront,
    height: u32,
    found: Parsed<'a, Body>,
) -> Reading<'a, Box<Stmt>>
    requires room { room < 1000 }
    requires high { height ≤ room + 1 }
    requires low { found.height ≤ room }
    ensures gives { Gives in_box result (loop_end room front height (body found.entry.value) found.entry.height (lexemes found.entry.rest.now)) }
    ensures low { IfOk result (λ x. x.height ≤ room + 1) }
{
    let whole = height.max(found.height + 1);
    match front {
        LoopFront::While(span, condition) => {
            let value = boxed(
                alloc,
                Stmt::While(span, condition, found.value.invariants, found.value.inner),
            )?;
            Ok(Parsed {
                value,
                height: whole,
                rest: found.rest,
            })
        }
        LoopFront::Do(span) => do_loop(alloc, room, span, height, found),
        LoopFront::For(span, first, condition, change) => {
            let value = boxed(
                alloc,
                Stmt::For(
                    span,
                    unboxed(first),
                    condition,
                    unboxed(change),
                    found.value.invariants,
                    found.value.inner,
                ),
            )?;
            Ok(Parsed {
                value,
                height: whole,
                rest: found.rest,
            })
        }
    }
}

/// Whether an assignment of a `for` begins with the next token.
fn begins_assigned<'a>(tokens: &'a [Token<'a>]) -> bool
    ensures { result ≡ has (language.begins g.Assigned) (next language (lexemes tokens.now)) }
{
    next_is_name(tokens)
        || next_is_number(tokens)
        || next_is_key(Keyword::Null, tokens)
        || next_is(Sign::Open, tokens)
}

/// An assignment of a `for`, if there is one.
#[tactic(auto, using(reader_assignments::proofs::Parts::rows, crate::proofs::Options::assigned_some, crate::proofs::Options::assigned_none, crate::proofs::Options::assigned_high))]
pub fn maybe_assigned<'a>(
    alloc: Global,
    room: u32,
    tokens: &'a [Token<'a>],
) -> Reading<'a, Option<Box<Assignment>>>
    requires room { room < 1000 }
    ensures gives { Gives maybe_boxed result (part room (g.optional rows.assigned_part) (lexemes tokens.now)) }
    ensures low { IfOk result (λ x. x.height ≤ room) }
{
    if !begins_assigned(tokens) {
        return Ok(Parsed {
            value: None,
            height: 0,
            rest: tokens,
        });
    }
    fits(2, room, tokens)?;
    let found = assigned(alloc, room, tokens)?;
    let value = boxed(alloc, found.value)?;
    Ok(Parsed {
        value: Some(value),
        height: found.height,
        rest: found.rest,
    })
}

/// Whether `_(` and `invariant` come next.
fn begins_invariant<'a>(tokens: &'a [Token<'a>]) -> bool
    ensures { result ≡ rows.begins_invariant (lexemes tokens.now) }
{
    match tokens.split_first() {
        Some((first, rest)) => {
            is_sign(first, Sign::Annotation) && next_is_key(Keyword::Invariant, rest)
        }
        None => false,
    }
}

/// An invariant, one level of height down.
#[tactic(auto, unfolding(ebnf::specs::Reading::read_rule), using(reader_assignments::proofs::Parts::rows))]
fn invariant_rule<'a>(alloc: Global, room: u32, tokens: &'a [Token<'a>]) -> Reading<'a, Invariant>
    requires room { room < 1000 }
    ensures gives { Gives views.invariant result (rule_at room rows.invariant (lexemes tokens.now)) }
    ensures low { IfOk result (λ x. x.height ≤ room + 1) }
{
    let sign = take(Sign::Annotation, tokens)?;
    let found = invariant_tail(alloc, room, sign.rest)?;
    Ok(Parsed {
        value: Invariant {
            span: sign.value,
            property: found.value,
        },
        height: found.height + 1,
        rest: found.rest,
    })
}

/// An invariant in front of a loop's body.
fn invariant<'a>(alloc: Global, room: u32, tokens: &'a [Token<'a>]) -> Reading<'a, Invariant>
    requires room { room < 1000 }
    ensures gives { Gives views.invariant result (rows.invariant_at room (lexemes tokens.now)) }
    ensures low { IfOk result (λ x. x.height ≤ room) }
{
    fits(2, room, tokens)?;
    invariant_rule(alloc, room - 1, tokens)
}

/// One more invariant behind those that were found.
fn one_more<'a>(
    alloc: Global,
    room: u32,
    found: Parsed<'a, Vec<Invariant>>,
) -> Reading<'a, Vec<Invariant>>
    requires room { room < 1000 }
    requires low { found.height ≤ room }
    ensures gives { Gives invariants_of result (extended (invariants_of found.entry.value) found.entry.height (rows.invariant_at room (lexemes found.entry.rest.now))) }
    ensures low { IfOk result (λ x. x.height ≤ room) }
{
    let next = invariant(alloc, room, found.rest)?;
    let height = found.height.max(next.height);
    let mut all = found.value;
    add(&mut all, next.value)?;
    Ok(Parsed {
        value: all,
        height,
        rest: next.rest,
    })
}

/// Invariants in front of a loop's body, as many as there are; the body is read behind them.
pub fn invariants<'a>(
    alloc: Global,
    room: u32,
    tokens: &'a [Token<'a>],
) -> Reading<'a, Vec<Invariant>>
    requires room { room < 1000 }
    ensures ok { IfOk result (λ x. part room g.loop_body (lexemes tokens.now) ≡ rows.bodied (invariants_of x.value) x.height (reads language room g.Statement (lexemes x.rest.now))) }
    ensures err { IfErr result (λ e. Gives body (Err e) (part room g.loop_body (lexemes tokens.now))) }
    ensures low { IfOk result (λ x. x.height ≤ room) }
{
    let mut found = Parsed {
        value: Vec::new(alloc),
        height: 0,
        rest: tokens,
    };
    while begins_invariant(found.rest) {
        found = one_more(alloc, room, found)?;
    }
    Ok(found)
}
