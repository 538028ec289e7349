//! An expression of code by itself.

ghost use Rattle.std.specs.Prelude.{◌≡◌, ℕ, ◌<◌, ◌≤◌, List, drop, length, IfOk, IfErr};
ghost use Rattle.ebnf.specs.Derives.{IsPhrase, next};
ghost use Rattle.ebnf.specs.Sets.{has};
ghost use Rattle.ebnf.specs.Verdict.{HasEnd};
ghost use Rattle.c_syntax.specs.Expressions.{Exp};
ghost use Rattle.c_syntax.specs.Language.{begins, language};
ghost use Rattle.c_syntax.specs.Lexing.{Lexeme};
ghost use Rattle.c_syntax.specs.Views.{exp};
ghost use Rattle.reader_expressions.specs.Reading.{lexemes};
ghost use Rattle.annot_syntax.specs.Pieces as spec;
ghost use Rattle.annot_syntax.specs.Pieces.{IsExpression, IsFaultOrMemory, IsOnlyExpression};

use c_source::fault::SourceFault;
use c_syntax::expressions::Expr;
use c_syntax::token::Token;
use reader_assignments::calls::begins_code;
use reader_expressions::expressions::expression;
use reader_expressions::levels::{Mode, Tier};
use reader_expressions::reading::ReadFault;
use reader_program::faults::first_place;
use std::alloc::Global;

/// How high an item may be.
pub const MOST_LEVELS: u32 = 200;

/// The fault of tokens where there is no room for any expression.
fn no_room<'a>(tokens: &'a [Token<'a>]) -> SourceFault
    requires { HasEnd language (lexemes tokens.now) }
    ensures { IsFaultOrMemory 0 (lexemes tokens.now) result }
{
    let place = first_place(tokens);
    if begins_code(tokens) {
        SourceFault::TooDeep(place)
    } else {
        SourceFault::Unexpected(place)
    }
}

/// The expression at the front of the tokens from this place on, with so many levels around it, and the place behind it: the
/// longest list of tokens with which an expression begins. The last token is the end.
pub fn read_expression<'a>(
    alloc: Global,
    tokens: &'a [Token<'a>],
    at: usize,
    above: u32,
) -> Result<(Expr, usize), SourceFault>
    requires end { HasEnd language (lexemes tokens.now) }
    requires at { at < length tokens.now }
    requires above { above ≤ 200 }
    ensures found { IfOk result (λ x. IsExpression (spec.room_within above) (drop at (lexemes tokens.now)) (exp x.0) (drop x.1 (lexemes tokens.now))) }
    ensures fault { IfErr result (IsFaultOrMemory (spec.room_within above) (drop at (lexemes tokens.now))) }
    // Where an expression stands there that is low enough, it is found.
    ensures only { IsOnlyExpression (spec.room_within above) (lexemes tokens.now) (drop at (lexemes tokens.now)) result }
{
    let (_, here) = tokens.split_at(at);
    if above == MOST_LEVELS {
        return Err(no_room(here));
    }
    match expression(alloc, Mode::Code, Tier::Choice, MOST_LEVELS - above, here) {
        Ok(found) => {
            let place = tokens.len().saturating_sub(found.rest.len());
            Ok((found.value, place))
        }
        Err(ReadFault::Unexpected(rest)) => Err(SourceFault::Unexpected(first_place(rest))),
        Err(ReadFault::TooDeep(rest)) => Err(SourceFault::TooDeep(first_place(rest))),
        Err(ReadFault::OutOfMemory) => Err(SourceFault::OutOfMemory),
    }
}
