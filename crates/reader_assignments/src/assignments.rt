//! Assignments.

ghost use Rattle.std.specs.Prelude.{◌≡◌, ◌≤◌, ◌<◌, ◌+◌, IfOk};
ghost use Rattle.ebnf.specs.Sets.{has, first_rule};
ghost use Rattle.ebnf.specs.Derives.{next};
ghost use Rattle.ebnf.specs.Reading.{reads};
ghost use Rattle.c_syntax.specs.Grammar as g;
ghost use Rattle.c_syntax.specs.Language.{language};
ghost use Rattle.c_syntax.specs.Views.{exp, assignment};
ghost use Rattle.reader_expressions.specs.Reading.{Gives, lexemes, part, rule_at};
ghost use Rattle.reader_assignments.specs.Rows as rows;
ghost use Rattle.reader_assignments.specs.Views as views;

use crate::calls::code;
use crate::places::{name_place, other_place};
use crate::rights::rhs;
use c_syntax::expressions::{Assignment, Change, Expr};
use c_syntax::token::{Keyword, Sign, Span, Token};
use reader_expressions::memory::boxed;
use reader_expressions::reading::{Parsed, ReadFault, Reading, fits};
use reader_expressions::tokens::{next_is, next_is_key, next_is_name, next_is_number, take};
use std::alloc::Global;

/// What stands behind a left side: the sign's place, and the change.
#[derive(Drop)]
pub struct Following {
    pub span: Span,
    pub change: Change,
}

/// `=` and a right side.
#[tactic(auto, using(crate::proofs::Parts::rows))]
fn set_tail<'a>(alloc: Global, room: u32, tokens: &'a [Token<'a>]) -> Reading<'a, Following>
    requires room { room < 1000 }
    ensures gives { Gives views.following result (part room rows.set_tail (lexemes tokens.now)) }
    ensures low { IfOk result (λ x. x.height ≤ room) }
{
    let sign = take(Sign::Assign, tokens)?;
    let right = rhs(alloc, room, sign.rest)?;
    Ok(Parsed {
        value: Following {
            span: sign.value,
            change: Change::Set(right.value),
        },
        height: right.height,
        rest: right.rest,
    })
}

/// `+=` and an expression.
#[tactic(auto, unfolding(ebnf::specs::Reading::read))]
fn add_behind<'a>(alloc: Global, room: u32, tokens: &'a [Token<'a>]) -> Reading<'a, Following>
    requires room { room < 1000 }
    ensures gives { Gives views.following result (part room rows.add_behind (lexemes tokens.now)) }
    ensures low { IfOk result (λ x. x.height ≤ room) }
{
    let sign = take(Sign::AddAssign, tokens)?;
    let right = code(alloc, room, sign.rest)?;
    Ok(Parsed {
        value: Following {
            span: sign.value,
            change: Change::Add(right.value),
        },
        height: right.height,
        rest: right.rest,
    })
}

/// `-=` and an expression.
#[tactic(auto, unfolding(ebnf::specs::Reading::read))]
fn subtract_behind<'a>(alloc: Global, room: u32, tokens: &'a [Token<'a>]) -> Reading<'a, Following>
    requires room { room < 1000 }
    ensures gives { Gives views.following result (part room rows.subtract_behind (lexemes tokens.now)) }
    ensures low { IfOk result (λ x. x.height ≤ room) }
{
    let sign = take(Sign::SubtractAssign, tokens)?;
    let right = code(alloc, room, sign.rest)?;
    Ok(Parsed {
        value: Following {
            span: sign.value,
            change: Change::Subtract(right.value),
        },
        height: right.height,
        rest: right.rest,
    })
}

/// `++` or `--`.
#[tactic(auto, unfolding(ebnf::specs::Reading::read, ebnf::specs::Sets::first, ebnf::specs::Sets::low, ebnf::specs::Sets::is_empty))]
fn step_behind<'a>(room: u32, tokens: &'a [Token<'a>]) -> Reading<'a, Following>
    ensures gives { Gives views.following result (part room rows.step_behind (lexemes tokens.now)) }
    ensures flat { IfOk result (λ x. x.height ≡ 0) }
{
    if next_is(Sign::Increment, tokens) {
        let sign = take(Sign::Increment, tokens)?;
        return Ok(Parsed {
            value: Following {
                span: sign.value,
                change: Change::Increment,
            },
            height: 0,
            rest: sign.rest,
        });
    }
    let sign = take(Sign::Decrement, tokens)?;
    Ok(Parsed {
        value: Following {
            span: sign.value,
            change: Change::Decrement,
        },
        height: 0,
        rest: sign.rest,
    })
}

/// What stands behind a left side.
#[tactic(auto, using(crate::proofs::Changes::set_read, crate::proofs::Changes::set_deep, crate::proofs::Changes::add_read, crate::proofs::Changes::add_deep, crate::proofs::Changes::subtract_read, crate::proofs::Changes::subtract_deep, crate::proofs::Changes::step_read))]
pub fn assignment_tail<'a>(
    alloc: Global,
    room: u32,
    tokens: &'a [Token<'a>],
) -> Reading<'a, Following>
    requires room { room < 1000 }
    ensures gives { Gives views.following result (part room g.assignment_tail (lexemes tokens.now)) }
    ensures low { IfOk result (λ x. x.height ≤ room) }
{
    if next_is(Sign::Assign, tokens) {
        fits(1, room, tokens)?;
        return set_tail(alloc, room, tokens);
    }
    if next_is(Sign::AddAssign, tokens) {
        fits(1, room, tokens)?;
        return add_behind(alloc, room, tokens);
    }
    if next_is(Sign::SubtractAssign, tokens) {
        fits(1, room, tokens)?;
        return subtract_behind(alloc, room, tokens);
    }
    step_behind(room, tokens)
}

/// Goes on behind a left side.
fn assign_to<'a>(alloc: Global, room: u32, left: Parsed<'a, Expr>) -> Reading<'a, Assignment>
    requires room { room < 1000 }
    requires low { left.height ≤ room }
    ensures gives { Gives assignment result (rows.assigned room (exp left.entry.value) left.entry.height (lexemes left.entry.rest.now)) }
    ensures low { IfOk result (λ x. x.height ≤ room + 1) }
{
    let held = boxed(alloc, left.value)?;
    let following = assignment_tail(alloc, room, left.rest)?;
    let height = left.height.max(following.height) + 1;
    Ok(Parsed {
        value: Assignment {
            left: Box::into_inner(held),
            span: following.value.span,
            change: following.value.change,
        },
        height,
        rest: following.rest,
    })
}

/// An assignment to a name and its fields, one level of height down.
#[tactic(auto, using(crate::proofs::Changes::name_assigned))]
fn assigned_name<'a>(alloc: Global, room: u32, tokens: &'a [Token<'a>]) -> Reading<'a, Assignment>
    requires room { room < 1000 }
    ensures gives { Gives assignment result (rule_at room rows.assigned_name (lexemes tokens.now)) }
    ensures low { IfOk result (λ x. x.height ≤ room + 1) }
{
    let left = name_place(alloc, room, tokens)?;
    assign_to(alloc, room, left)
}

/// An assignment to something else, one level of height down.
#[tactic(auto, using(crate::proofs::Changes::other_assigned))]
fn assigned_other<'a>(alloc: Global, room: u32, tokens: &'a [Token<'a>]) -> Reading<'a, Assignment>
    requires room { room < 1000 }
    ensures gives { Gives assignment result (rule_at room rows.assigned_other (lexemes tokens.now)) }
    ensures low { IfOk result (λ x. x.height ≤ room + 1) }
{
    let left = other_place(alloc, room, tokens)?;
    assign_to(alloc, room, left)
}

/// Whether something else than a name begins here.
#[tactic(auto, unfolding(ebnf::specs::Sets::first_rule, ebnf::specs::Sets::first, ebnf::specs::Sets::is_empty))]
fn begins_other<'a>(tokens: &'a [Token<'a>]) -> bool
    ensures { result ≡ has (first_rule language rows.assigned_other) (next language (lexemes tokens.now)) }
{
    next_is_number(tokens) || next_is_key(Keyword::Null, tokens) || next_is(Sign::Open, tokens)
}

/// An assignment, one level of height down.
#[tactic(auto, using(crate::proofs::Changes::name_read, crate::proofs::Changes::name_deep, crate::proofs::Changes::other_read, crate::proofs::Changes::other_deep, crate::proofs::Changes::none_read))]
fn assigned_rule<'a>(alloc: Global, room: u32, tokens: &'a [Token<'a>]) -> Reading<'a, Assignment>
    requires room { room < 1000 }
    ensures gives { Gives assignment result (rule_at room g.assigned (lexemes tokens.now)) }
    ensures low { IfOk result (λ x. x.height ≤ room + 1) }
{
    if next_is_name(tokens) {
        fits(1, room, tokens)?;
        return assigned_name(alloc, room, tokens);
    }
    if !begins_other(tokens) {
        return Err(ReadFault::Unexpected(tokens));
    }
    fits(2, room, tokens)?;
    assigned_other(alloc, room, tokens)
}

/// An assignment of a `for`.
#[tactic(auto, unfolding(ebnf::specs::Reading::reads))]
pub fn assigned<'a>(alloc: Global, room: u32, tokens: &'a [Token<'a>]) -> Reading<'a, Assignment>
    requires room { room < 1000 }
    ensures gives { Gives assignment result (reads language room g.Assigned (lexemes tokens.now)) }
    ensures low { IfOk result (λ x. x.height ≤ room) }
{
    if room == 0 {
        return Err(ReadFault::TooDeep(tokens));
    }
    assigned_rule(alloc, room - 1, tokens)
}
