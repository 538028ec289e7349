//! Interlocked calls.

ghost use Rattle.std.specs.Prelude.{◌≡◌, ◌≤◌, ◌<◌, ◌+◌, true, IfOk};
ghost use Rattle.ebnf.specs.Sets.{has, first};
ghost use Rattle.ebnf.specs.Derives.{next};
ghost use Rattle.ebnf.specs.Reading.{reads};
ghost use Rattle.c_syntax.specs.Grammar as g;
ghost use Rattle.c_syntax.specs.Language.{language};
ghost use Rattle.c_syntax.specs.Views.{inter, exps, comparison as comparison_of};
ghost use Rattle.reader_expressions.specs.Reading.{Gives, lexemes, part, rule_at, entered, extended};
ghost use Rattle.reader_assignments.specs.Rows as rows;
ghost use Rattle.reader_assignments.specs.Views as views;

use crate::calls::code;
use crate::places::any_place;
use c_syntax::expressions::{Compared, Expr, InterlockedCall};
use c_syntax::token::{Keyword, Sign, Span, Token};
use c_syntax::tree::Interlocked;
use reader_expressions::memory::{add, boxed};
use reader_expressions::reading::{Parsed, ReadFault, Reading, fits};
use reader_expressions::tokens::{next_is, next_is_key, take, take_key};
use std::alloc::Global;

/// The word of an Interlocked function.
#[tactic(auto, unfolding(ebnf::specs::Reading::read))]
fn locked_by<'a>(
    word: Keyword,
    function: Interlocked,
    tokens: &'a [Token<'a>],
) -> Reading<'a, (Span, Interlocked)>
    ensures gives { Gives (λ x. x) result (part 0 (rows.locked_by word function) (lexemes tokens.now)) }
    ensures flat { IfOk result (λ x. x.height ≡ 0) }
{
    let found = take_key(word, tokens)?;
    Ok(Parsed {
        value: (found.value, function),
        height: 0,
        rest: found.rest,
    })
}

/// The word of any Interlocked function.
#[tactic(auto, unfolding(ebnf::specs::Reading::read, ebnf::specs::Sets::first, ebnf::specs::Sets::low, ebnf::specs::Sets::is_empty))]
fn locked_word<'a>(room: u32, tokens: &'a [Token<'a>]) -> Reading<'a, (Span, Interlocked)>
    ensures gives { Gives (λ x. x) result (part room g.locked_word (lexemes tokens.now)) }
    ensures flat { IfOk result (λ x. x.height ≡ 0) }
{
    if next_is_key(Keyword::CompareExchange, tokens) {
        return locked_by(
            Keyword::CompareExchange,
            Interlocked::CompareExchange,
            tokens,
        );
    }
    if next_is_key(Keyword::Exchange, tokens) {
        return locked_by(Keyword::Exchange, Interlocked::Exchange, tokens);
    }
    if next_is_key(Keyword::Increment, tokens) {
        return locked_by(Keyword::Increment, Interlocked::Increment, tokens);
    }
    locked_by(Keyword::Decrement, Interlocked::Decrement, tokens)
}

/// Whether the word of an Interlocked function comes next.
#[tactic(auto, unfolding(ebnf::specs::Sets::first, ebnf::specs::Sets::is_empty))]
pub fn begins_locked<'a>(tokens: &'a [Token<'a>]) -> bool
    ensures { result ≡ has (first language rows.locked_call) (next language (lexemes tokens.now)) }
{
    next_is_key(Keyword::CompareExchange, tokens)
        || next_is_key(Keyword::Exchange, tokens)
        || next_is_key(Keyword::Increment, tokens)
        || next_is_key(Keyword::Decrement, tokens)
}

/// A comma and an argument, behind those that were found.
#[tactic(auto, unfolding(ebnf::specs::Reading::read, ebnf::specs::Sets::low))]
fn add_argument<'a>(
    alloc: Global,
    room: u32,
    found: Parsed<'a, Vec<Expr>>,
) -> Reading<'a, Vec<Expr>>
    requires room { room < 1000 }
    requires low { found.height ≤ room }
    ensures gives { Gives (λ v. exps v.items) result (extended (exps found.entry.value.items) found.entry.height (entered room rows.further (lexemes found.entry.rest.now))) }
    ensures low { IfOk result (λ x. x.height ≤ room) }
{
    fits(1, room, found.rest)?;
    let comma = take(Sign::Comma, found.rest)?;
    let next = code(alloc, room, comma.rest)?;
    let height = found.height.max(next.height);
    let mut all = found.value;
    add(&mut all, next.value)?;
    Ok(Parsed {
        value: all,
        height,
        rest: next.rest,
    })
}

/// Further arguments, each behind a comma.
fn further<'a>(alloc: Global, room: u32, tokens: &'a [Token<'a>]) -> Reading<'a, Vec<Expr>>
    requires room { room < 1000 }
    ensures gives { Gives (λ v. exps v.items) result (part room rows.all_further (lexemes tokens.now)) }
    ensures low { IfOk result (λ x. x.height ≤ room) }
{
    let mut found = Parsed {
        value: Vec::new(alloc),
        height: 0,
        rest: tokens,
    };
    while next_is(Sign::Comma, found.rest) {
        found = add_argument(alloc, room, found)?;
    }
    Ok(found)
}

/// An Interlocked call's arguments: `&` and a field, and further ones.
#[tactic(auto, using(crate::proofs::Parts::rows))]
fn locked_arguments<'a>(
    alloc: Global,
    room: u32,
    tokens: &'a [Token<'a>],
) -> Reading<'a, (Expr, Vec<Expr>)>
    requires room { room < 1000 }
    ensures gives { Gives views.locked_arguments result (part room rows.locked_arguments (lexemes tokens.now)) }
    ensures low { IfOk result (λ x. x.height ≤ room) }
{
    let start = take(Sign::Open, tokens)?;
    let mark = take(Sign::Ampersand, start.rest)?;
    let field = any_place(alloc, room, mark.rest)?;
    let held = boxed(alloc, field.value)?;
    let others = further(alloc, room, field.rest)?;
    let end = take(Sign::Close, others.rest)?;
    Ok(Parsed {
        value: (Box::into_inner(held), others.value),
        height: field.height.max(others.height),
        rest: end.rest,
    })
}

/// An Interlocked call that is compared with nothing.
#[tactic(auto, unfolding(ebnf::specs::Reading::read_rule), using(crate::proofs::Parts::rows))]
fn locked_call<'a>(
    alloc: Global,
    room: u32,
    tokens: &'a [Token<'a>],
) -> Reading<'a, InterlockedCall>
    requires room { room < 1000 }
    ensures gives { Gives views.uncompared result (rule_at room rows.locked (lexemes tokens.now)) }
    ensures low { IfOk result (λ x. x.height ≤ room + 1) }
{
    let word = locked_word(room, tokens)?;
    let (span, function) = word.value;
    let following = locked_arguments(alloc, room, word.rest)?;
    let (field, arguments) = following.value;
    Ok(Parsed {
        value: InterlockedCall {
            span,
            function,
            field,
            arguments,
        },
        height: following.height + 1,
        rest: following.rest,
    })
}

/// `==` or `!=`, and what is compared with.
#[tactic(auto, unfolding(ebnf::specs::Reading::read))]
fn compared_by<'a>(
    alloc: Global,
    room: u32,
    sign: Sign,
    is_equal: bool,
    tokens: &'a [Token<'a>],
) -> Reading<'a, Compared>
    requires room { room < 1000 }
    ensures gives { Gives comparison_of result (part room (rows.compared sign is_equal) (lexemes tokens.now)) }
    ensures low { IfOk result (λ x. x.height ≤ room) }
{
    let found = take(sign, tokens)?;
    let other = code(alloc, room, found.rest)?;
    Ok(Parsed {
        value: Compared {
            span: found.value,
            is_equal,
            other: other.value,
        },
        height: other.height,
        rest: other.rest,
    })
}

/// What an Interlocked call's earlier value is compared with.
#[tactic(auto, using(crate::proofs::Compares::equal, crate::proofs::Compares::unequal))]
fn comparison<'a>(alloc: Global, room: u32, tokens: &'a [Token<'a>]) -> Reading<'a, Compared>
    requires room { room < 1000 }
    requires enough { 1 ≤ room }
    requires begins { has (first language g.comparison) (next language (lexemes tokens.now)) ≡ true }
    ensures gives { Gives comparison_of result (part room g.comparison (lexemes tokens.now)) }
    ensures low { IfOk result (λ x. x.height ≤ room) }
{
    if next_is(Sign::Equal, tokens) {
        return compared_by(alloc, room, Sign::Equal, true, tokens);
    }
    compared_by(alloc, room, Sign::NotEqual, false, tokens)
}

/// Whether a comparison comes next.
#[tactic(auto, unfolding(ebnf::specs::Sets::first, ebnf::specs::Sets::is_empty))]
fn begins_comparison<'a>(tokens: &'a [Token<'a>]) -> bool
    ensures { result ≡ has (first language g.comparison) (next language (lexemes tokens.now)) }
{
    next_is(Sign::Equal, tokens) || next_is(Sign::NotEqual, tokens)
}

/// An Interlocked call, with what it is compared with.
pub type LockedCall = (InterlockedCall, Option<Compared>);

/// Goes on with a comparison, if there is one.
#[tactic(auto, using(crate::proofs::Compares::low_comparison))]
fn compare<'a>(
    alloc: Global,
    room: u32,
    left: Parsed<'a, InterlockedCall>,
) -> Reading<'a, LockedCall>
    requires room { room < 1000 }
    requires low { left.height ≤ room + 1 }
    ensures gives { Gives views.locked result (rows.compare room (inter left.entry.value) left.entry.height (lexemes left.entry.rest.now)) }
    ensures low { IfOk result (λ x. x.height ≤ room + 1) }
{
    if !begins_comparison(left.rest) {
        return Ok(Parsed {
            value: (left.value, None),
            height: left.height,
            rest: left.rest,
        });
    }
    let call = boxed(alloc, left.value)?;
    fits(left.height.max(1), room, left.rest)?;
    let other = comparison(alloc, room, left.rest)?;
    let height = left.height.max(other.height) + 1;
    Ok(Parsed {
        value: (Box::into_inner(call), Some(other.value)),
        height,
        rest: other.rest,
    })
}

/// An Interlocked call, one level of height down.
#[tactic(auto, using(crate::proofs::Compares::call_ok, crate::proofs::Compares::call_err))]
fn interlocked_rule<'a>(
    alloc: Global,
    room: u32,
    tokens: &'a [Token<'a>],
) -> Reading<'a, LockedCall>
    requires room { room < 1000 }
    ensures gives { Gives views.locked result (rule_at room g.interlocked_call (lexemes tokens.now)) }
    ensures low { IfOk result (λ x. x.height ≤ room + 1) }
{
    let call = locked_call(alloc, room, tokens)?;
    compare(alloc, room, call)
}

/// An Interlocked call, with what it is compared with.
#[tactic(auto, unfolding(ebnf::specs::Reading::reads))]
pub fn interlocked_call<'a>(
    alloc: Global,
    room: u32,
    tokens: &'a [Token<'a>],
) -> Reading<'a, LockedCall>
    requires room { room < 1000 }
    ensures gives { Gives views.locked result (reads language room g.InterlockedCall (lexemes tokens.now)) }
    ensures low { IfOk result (λ x. x.height ≤ room) }
{
    if room == 0 {
        return Err(ReadFault::TooDeep(tokens));
    }
    interlocked_rule(alloc, room - 1, tokens)
}
