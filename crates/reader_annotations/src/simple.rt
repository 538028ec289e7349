//! Ghost statements that hold no others.

ghost use Rattle.std.specs.Prelude.{◌≡◌, ◌≤◌, ◌<◌, ◌+◌, IfOk};
ghost use Rattle.std.specs.Option.{option_map};
ghost use Rattle.c_syntax.specs.Grammar as g;
ghost use Rattle.c_syntax.specs.Views.{exp, ghost as ghost_of, ghost_rhs as rhs_of};
ghost use Rattle.reader_expressions.specs.Reading.{Gives, lexemes, part, rule_at};
ghost use Rattle.reader_annotations.specs.Rows as rows;
ghost use Rattle.reader_annotations.specs.Views as views;

use crate::ghost_places::{ghost_name, ghost_other, is_owns};
use crate::ghost_rights::{before_semicolon, ghost_rhs, owns_change, semicolon_or_none};
use crate::sets::set;
use c_syntax::expressions::Expr;
use c_syntax::ghosts::{GhostRight, GhostStmt, OwnsChange};
use c_syntax::token::{Keyword, Sign, Span, SpecWord, Token};
use reader_assignments::calls::code;
use reader_assignments::ends::ended;
use reader_expressions::memory::boxed;
use reader_expressions::reading::{Parsed, ReadFault, Reading, fits};
use reader_expressions::tokens::{next_is, next_is_key, take, take_key, take_name, take_spec};
use reader_expressions::types::gtype;
use std::alloc::Global;

/// The place of an expression's first token.
pub fn first_place(value: &Expr) -> Span
    ensures { result ≡ g.first_place (exp value.now) }
{
    match value {
        Expr::Number(span, _, _) => *span,
        Expr::Name(name) => name.span,
        Expr::Null(span) => *span,
        Expr::Constant(span, _) => *span,
        Expr::Group(span, _) => *span,
        Expr::Field(_, left, _) => first_place(left),
        Expr::Status(_, left, _, _) => first_place(left),
        Expr::Owns(_, left, _) => first_place(left),
        Expr::Unary(span, _, _) => *span,
        Expr::Binary(_, _, left, _) => first_place(left),
        Expr::Conditional(_, left, _, _) => first_place(left),
        Expr::Apply(span, _, _) => *span,
        Expr::Several(span, _, _) => *span,
        Expr::ClaimsObject(span, _, _) => *span,
        Expr::Claims(span, _, _) => *span,
        Expr::Approves(span, _) => *span,
        Expr::Quantified(span, _, _, _, _) => *span,
    }
}

/// `=` and a right side.
#[tactic(auto, using(reader_assignments::proofs::Parts::rows))]
fn first_right<'a>(alloc: Global, room: u32, tokens: &'a [Token<'a>]) -> Reading<'a, GhostRight>
    requires room { room < 1000 }
    ensures gives { Gives rhs_of result (part room g.ghost_first (lexemes tokens.now)) }
    ensures low { IfOk result (λ x. x.height ≤ room) }
{
    let sign = take(Sign::Assign, tokens)?;
    let right = ghost_rhs(alloc, room, sign.rest)?;
    Ok(Parsed {
        value: right.value,
        height: right.height,
        rest: right.rest,
    })
}

/// A first value.
#[tactic(auto, using(reader_assignments::proofs::Parts::rows))]
fn some_value<'a>(
    alloc: Global,
    room: u32,
    tokens: &'a [Token<'a>],
) -> Reading<'a, Option<GhostRight>>
    requires room { room < 1000 }
    ensures gives { Gives (option_map rhs_of) result (part room rows.some_value (lexemes tokens.now)) }
    ensures low { IfOk result (λ x. x.height ≤ room) }
{
    let right = first_right(alloc, room, tokens)?;
    Ok(Parsed {
        value: Some(right.value),
        height: right.height,
        rest: right.rest,
    })
}

/// A first value, if there is one.
#[tactic(auto, using(crate::proofs::Chosen::some_value_read, crate::proofs::Chosen::some_value_deep, crate::proofs::Chosen::no_value))]
fn first_value<'a>(
    alloc: Global,
    room: u32,
    tokens: &'a [Token<'a>],
) -> Reading<'a, Option<GhostRight>>
    requires room { room < 1000 }
    ensures gives { Gives (option_map rhs_of) result (part room rows.first_value (lexemes tokens.now)) }
    ensures low { IfOk result (λ x. x.height ≤ room) }
{
    if !next_is(Sign::Assign, tokens) {
        return Ok(Parsed {
            value: None,
            height: 0,
            rest: tokens,
        });
    }
    fits(1, room, tokens)?;
    some_value(alloc, room, tokens)
}

/// A ghost variable.
#[tactic(auto, unfolding(ebnf::specs::Reading::read_rule), using(reader_assignments::proofs::Parts::rows))]
pub fn declared<'a>(alloc: Global, room: u32, tokens: &'a [Token<'a>]) -> Reading<'a, GhostStmt>
    requires room { room < 1000 }
    requires enough { 1 ≤ room }
    ensures gives { Gives ghost_of result (rule_at room rows.declared (lexemes tokens.now)) }
    ensures low { IfOk result (λ x. x.height ≤ room + 1) }
{
    let typed = gtype(alloc, room, tokens)?;
    let name = take_name(alloc, 1, typed.rest)?;
    let first = first_value(alloc, room, name.rest)?;
    let height = typed.height.max(name.height).max(first.height) + 1;
    let end = before_semicolon(room, first)?;
    let (span, ty) = typed.value;
    let (value, _) = end.value;
    Ok(Parsed {
        value: GhostStmt::Declare(span, ty, name.value, value),
        height,
        rest: end.rest,
    })
}

/// What stands behind an owned set.
#[tactic(auto, using(reader_assignments::proofs::Parts::rows))]
fn owns_tail<'a>(
    alloc: Global,
    room: u32,
    tokens: &'a [Token<'a>],
) -> Reading<'a, (Span, OwnsChange)>
    requires room { room < 1000 }
    ensures gives { Gives views.owns_tail result (part room g.owns_set (lexemes tokens.now)) }
    ensures low { IfOk result (λ x. x.height ≤ room) }
{
    let change = owns_change(alloc, room, tokens)?;
    let end = before_semicolon(room, change)?;
    let (value, _) = end.value;
    Ok(Parsed {
        value,
        height: end.height,
        rest: end.rest,
    })
}

/// What stands behind another left side.
#[tactic(auto, using(reader_assignments::proofs::Parts::rows))]
fn set_tail<'a>(
    alloc: Global,
    room: u32,
    tokens: &'a [Token<'a>],
) -> Reading<'a, (Span, GhostRight)>
    requires room { room < 1000 }
    ensures gives { Gives views.set_tail result (part room g.ghost_set (lexemes tokens.now)) }
    ensures low { IfOk result (λ x. x.height ≤ room) }
{
    let sign = take(Sign::Assign, tokens)?;
    let right = ghost_rhs(alloc, room, sign.rest)?;
    let end = before_semicolon(room, right)?;
    let (value, _) = end.value;
    Ok(Parsed {
        value: (sign.value, value),
        height: end.height,
        rest: end.rest,
    })
}

/// Goes on behind an owned set.
fn change_owns<'a>(alloc: Global, room: u32, left: Parsed<'a, Expr>) -> Reading<'a, GhostStmt>
    requires room { room < 1000 }
    requires low { left.height ≤ room }
    ensures gives { Gives ghost_of result (rows.following room g.owns_set (exp left.entry.value) left.entry.height (lexemes left.entry.rest.now)) }
    ensures low { IfOk result (λ x. x.height ≤ room + 1) }
{
    let place = first_place(&left.value);
    let held = boxed(alloc, left.value)?;
    let found = owns_tail(alloc, room, left.rest)?;
    let (span, effect) = found.value;
    let height = left.height.max(found.height) + 1;
    Ok(Parsed {
        value: GhostStmt::Owns(place, Box::into_inner(held), span, effect),
        height,
        rest: found.rest,
    })
}

/// Goes on behind another left side.
fn set_to<'a>(alloc: Global, room: u32, left: Parsed<'a, Expr>) -> Reading<'a, GhostStmt>
    requires room { room < 1000 }
    requires low { left.height ≤ room }
    ensures gives { Gives ghost_of result (rows.following room g.ghost_set (exp left.entry.value) left.entry.height (lexemes left.entry.rest.now)) }
    ensures low { IfOk result (λ x. x.height ≤ room + 1) }
{
    let place = first_place(&left.value);
    let held = boxed(alloc, left.value)?;
    let found = set_tail(alloc, room, left.rest)?;
    let (span, right) = found.value;
    let height = left.height.max(found.height) + 1;
    Ok(Parsed {
        value: GhostStmt::Assign(place, Box::into_inner(held), span, right),
        height,
        rest: found.rest,
    })
}

/// Goes on behind a left side.
fn assign_to<'a>(alloc: Global, room: u32, left: Parsed<'a, Expr>) -> Reading<'a, GhostStmt>
    requires room { room < 1000 }
    requires low { left.height ≤ room }
    ensures gives { Gives ghost_of result (rows.assigned room (exp left.entry.value) left.entry.height (lexemes left.entry.rest.now)) }
    ensures low { IfOk result (λ x. x.height ≤ room + 1) }
{
    if is_owns(&left.value) {
        return change_owns(alloc, room, left);
    }
    set_to(alloc, room, left)
}

/// A change of a name and its fields, or of an owned set.
#[tactic(auto, using(crate::proofs::Assigns::name_read))]
pub fn assigned_name<'a>(
    alloc: Global,
    room: u32,
    tokens: &'a [Token<'a>],
) -> Reading<'a, GhostStmt>
    requires room { room < 1000 }
    ensures gives { Gives ghost_of result (rule_at room rows.assigned_name (lexemes tokens.now)) }
    ensures low { IfOk result (λ x. x.height ≤ room + 1) }
{
    let left = ghost_name(alloc, room, tokens)?;
    assign_to(alloc, room, left)
}

/// A change of something else.
#[tactic(auto, using(crate::proofs::Assigns::other_read))]
pub fn assigned_other<'a>(
    alloc: Global,
    room: u32,
    tokens: &'a [Token<'a>],
) -> Reading<'a, GhostStmt>
    requires room { room < 1000 }
    ensures gives { Gives ghost_of result (rule_at room rows.assigned_other (lexemes tokens.now)) }
    ensures low { IfOk result (λ x. x.height ≤ room + 1) }
{
    let left = ghost_other(alloc, room, tokens)?;
    assign_to(alloc, room, left)
}

/// The claimed objects of `\destroy_claim`, up to its end.
#[tactic(auto, using(reader_assignments::proofs::Parts::rows))]
fn destroyed_set<'a>(alloc: Global, room: u32, tokens: &'a [Token<'a>]) -> Reading<'a, Vec<Expr>>
    requires room { room < 1000 }
    ensures gives { Gives views.destroyed result (part room rows.destroyed_set (lexemes tokens.now)) }
    ensures low { IfOk result (λ x. x.height ≤ room) }
{
    let comma = take(Sign::Comma, tokens)?;
    let all = set(alloc, room, comma.rest)?;
    let end = take(Sign::Close, all.rest)?;
    let last = semicolon_or_none(room, end.rest)?;
    Ok(Parsed {
        value: all.value,
        height: all.height,
        rest: last.rest,
    })
}

/// `\destroy_claim`
#[tactic(auto, unfolding(ebnf::specs::Reading::read_rule), using(reader_assignments::proofs::Parts::rows))]
pub fn destroyed<'a>(alloc: Global, room: u32, tokens: &'a [Token<'a>]) -> Reading<'a, GhostStmt>
    requires room { room < 1000 }
    ensures gives { Gives ghost_of result (rule_at room rows.destroyed (lexemes tokens.now)) }
    ensures low { IfOk result (λ x. x.height ≤ room + 1) }
{
    let word = take_spec(SpecWord::DestroyClaim, tokens)?;
    let start = take(Sign::Open, word.rest)?;
    let claim = code(alloc, room, start.rest)?;
    let held = boxed(alloc, claim.value)?;
    let all = destroyed_set(alloc, room, claim.rest)?;
    let height = claim.height.max(all.height) + 1;
    Ok(Parsed {
        value: GhostStmt::DestroyClaim(word.value, Box::into_inner(held), all.value),
        height,
        rest: all.rest,
    })
}

/// An object that is wrapped or unwrapped.
#[derive(Drop)]
pub enum Wrapping {
    Wrap(Expr),
    Unwrap(Expr),
}

/// `wrap` and an object.
#[tactic(auto, unfolding(ebnf::specs::Reading::read))]
fn wrap_of<'a>(alloc: Global, room: u32, tokens: &'a [Token<'a>]) -> Reading<'a, Wrapping>
    requires room { room < 1000 }
    ensures gives { Gives views.wrapping result (part room rows.wrap_of (lexemes tokens.now)) }
    ensures low { IfOk result (λ x. x.height ≤ room) }
{
    let word = take_key(Keyword::Wrap, tokens)?;
    let object = code(alloc, room, word.rest)?;
    Ok(Parsed {
        value: Wrapping::Wrap(object.value),
        height: object.height,
        rest: object.rest,
    })
}

/// `unwrap` and an object.
#[tactic(auto, unfolding(ebnf::specs::Reading::read))]
fn unwrap_of<'a>(alloc: Global, room: u32, tokens: &'a [Token<'a>]) -> Reading<'a, Wrapping>
    requires room { room < 1000 }
    ensures gives { Gives views.wrapping result (part room rows.unwrap_of (lexemes tokens.now)) }
    ensures low { IfOk result (λ x. x.height ≤ room) }
{
    let word = take_key(Keyword::Unwrap, tokens)?;
    let object = code(alloc, room, word.rest)?;
    Ok(Parsed {
        value: Wrapping::Unwrap(object.value),
        height: object.height,
        rest: object.rest,
    })
}

/// `wrap` or `unwrap`, and an object.
#[tactic(auto, using(crate::proofs::Chosen::wrap_read, crate::proofs::Chosen::wrap_deep, crate::proofs::Chosen::unwrap_read, crate::proofs::Chosen::unwrap_deep, crate::proofs::Chosen::no_wrap))]
fn wrap_or_unwrap<'a>(alloc: Global, room: u32, tokens: &'a [Token<'a>]) -> Reading<'a, Wrapping>
    requires room { room < 1000 }
    ensures gives { Gives views.wrapping result (part room g.ghost_wrap (lexemes tokens.now)) }
    ensures low { IfOk result (λ x. x.height ≤ room) }
{
    if next_is_key(Keyword::Wrap, tokens) {
        fits(1, room, tokens)?;
        return wrap_of(alloc, room, tokens);
    }
    if !next_is_key(Keyword::Unwrap, tokens) {
        return Err(ReadFault::Unexpected(tokens));
    }
    fits(1, room, tokens)?;
    unwrap_of(alloc, room, tokens)
}

/// The statement that wraps or unwraps.
fn placed(span: Span, wrapping: Wrapping) -> GhostStmt
    ensures { ghost_of result ≡ views.wrapping wrapping span }
{
    match wrapping {
        Wrapping::Wrap(object) => GhostStmt::Wrap(span, object),
        Wrapping::Unwrap(object) => GhostStmt::Unwrap(span, object),
    }
}

/// `_(wrap ..)` or `_(unwrap ..)`
#[tactic(auto, unfolding(ebnf::specs::Reading::read_rule), using(reader_assignments::proofs::Parts::rows))]
pub fn wrapped<'a>(alloc: Global, room: u32, tokens: &'a [Token<'a>]) -> Reading<'a, GhostStmt>
    requires room { room < 1000 }
    ensures gives { Gives ghost_of result (rule_at room rows.wrapped (lexemes tokens.now)) }
    ensures low { IfOk result (λ x. x.height ≤ room + 1) }
{
    let start = take(Sign::Annotation, tokens)?;
    let found = wrap_or_unwrap(alloc, room, start.rest)?;
    let end = ended(Sign::Close, found)?;
    let last = before_semicolon(room, end)?;
    let ((object, _), _) = last.value;
    Ok(Parsed {
        value: placed(start.value, object),
        height: last.height + 1,
        rest: last.rest,
    })
}
