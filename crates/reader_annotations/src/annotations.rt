//! What stands behind `_(` of an annotation that holds no statement of code.

ghost use Rattle.std.specs.Prelude.{◌≡◌, ◌≤◌, ◌<◌, ◌+◌, IfOk};
ghost use Rattle.reader_expressions.specs.Reading.{Gives, lexemes, part};
ghost use Rattle.reader_annotations.specs.Rows as rows;
ghost use Rattle.reader_annotations.specs.Views as views;

use crate::brackets::close_bracket;
use crate::ghost_rights::property;
use crate::ghosts::ghost_body;
use c_syntax::expressions::Expr;
use c_syntax::ghosts::GhostStmt;
use c_syntax::token::{Keyword, Token};
use reader_assignments::calls::code;
use reader_expressions::reading::{ReadFault, Reading};
use reader_expressions::tokens::take_key;
use std::alloc::Global;

/// `assert` and what is asserted.
#[tactic(auto, unfolding(ebnf::specs::Reading::read))]
pub fn assert_tail<'a>(alloc: Global, room: u32, tokens: &'a [Token<'a>]) -> Reading<'a, Expr>
    requires room { room < 1000 }
    ensures gives { Gives views.asserted result (part room rows.assert_tail (lexemes tokens.now)) }
    ensures low { IfOk result (λ x. x.height ≤ room) }
{
    let word = take_key(Keyword::Assert, tokens)?;
    let whole = close_bracket(property(alloc, room, word.rest)?)?;
    Ok(whole)
}

/// `ghost` and a ghost statement.
#[tactic(auto, unfolding(ebnf::specs::Reading::read))]
pub fn ghost_tail<'a>(alloc: Global, room: u32, tokens: &'a [Token<'a>]) -> Reading<'a, GhostStmt>
    requires room { room < 1000 }
    ensures gives { Gives views.ghostly result (part room rows.ghost_tail (lexemes tokens.now)) }
    ensures low { IfOk result (λ x. x.height ≤ room) }
{
    let word = take_key(Keyword::Ghost, tokens)?;
    let whole = close_bracket(ghost_body(alloc, room, word.rest)?)?;
    Ok(whole)
}

/// `wrap` and an object.
#[tactic(auto, unfolding(ebnf::specs::Reading::read))]
pub fn wrap_tail<'a>(alloc: Global, room: u32, tokens: &'a [Token<'a>]) -> Reading<'a, Expr>
    requires room { room < 1000 }
    ensures gives { Gives views.wrapped result (part room rows.wrap_tail (lexemes tokens.now)) }
    ensures low { IfOk result (λ x. x.height ≤ room) }
{
    let word = take_key(Keyword::Wrap, tokens)?;
    let whole = close_bracket(code(alloc, room, word.rest)?)?;
    Ok(whole)
}

/// `unwrap` and an object.
#[tactic(auto, unfolding(ebnf::specs::Reading::read))]
pub fn unwrap_tail<'a>(alloc: Global, room: u32, tokens: &'a [Token<'a>]) -> Reading<'a, Expr>
    requires room { room < 1000 }
    ensures gives { Gives views.unwrapped result (part room rows.unwrap_tail (lexemes tokens.now)) }
    ensures low { IfOk result (λ x. x.height ≤ room) }
{
    let word = take_key(Keyword::Unwrap, tokens)?;
    let whole = close_bracket(code(alloc, room, word.rest)?)?;
    Ok(whole)
}

/// `invariant` and the property.
#[tactic(auto, unfolding(ebnf::specs::Reading::read))]
pub fn invariant_tail<'a>(alloc: Global, room: u32, tokens: &'a [Token<'a>]) -> Reading<'a, Expr>
    requires room { room < 1000 }
    ensures gives { Gives views.kept result (part room rows.invariant_tail (lexemes tokens.now)) }
    ensures low { IfOk result (λ x. x.height ≤ room) }
{
    let word = take_key(Keyword::Invariant, tokens)?;
    let whole = close_bracket(property(alloc, room, word.rest)?)?;
    Ok(whole)
}
