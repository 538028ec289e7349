//! Which fault of a source a token is.

ghost use Rattle.std.specs.Prelude.{◌≡◌, ◌-◌, ◌≤◌, ◌==◌, not, List, [], ◌∷◌, ◌++◌, length, take};
ghost use Rattle.ebnf.specs.Derives.{next};
ghost use Rattle.c_syntax.specs.Classes as classes;
ghost use Rattle.c_syntax.specs.Language.{language};
ghost use Rattle.c_syntax.specs.Lexing.{Lexeme, lexeme, word_of};
ghost use Rattle.c_syntax.specs.Faults as spec;
ghost use Rattle.reader_expressions.specs.Reading.{lexemes};
ghost use Rattle.reader_program.specs.Faults.{IsUnexpected};

use c_source::fault::SourceFault;
use c_syntax::token::{Keyword, Sign, Span, Token, TokenKind};
use reader_expressions::tokens::is_sign;

/// Whether the token is the end of the text.
fn is_end(token: &Token<'_>) -> bool
    ensures { result ≡ (classes.class (lexeme token.now) == 0) }
{
    match token.kind {
        TokenKind::End => true,
        _ => false,
    }
}

/// Whether the text ends here.
pub fn next_is_end<'a>(tokens: &'a [Token<'a>]) -> bool
    ensures { result ≡ (next language (lexemes tokens.now) == 0) }
{
    match tokens.first() {
        Some(first) => is_end(first),
        None => true,
    }
}

/// Whether the keyword is a form behind `_(` somewhere.
fn is_form_word(keyword: Keyword) -> bool
    ensures { result ≡ spec.is_form_word keyword }
{
    match keyword {
        Keyword::Claimable
        | Keyword::DynamicOwns
        | Keyword::VolatileOwns
        | Keyword::Invariant
        | Keyword::Ghost
        | Keyword::Requires
        | Keyword::Ensures
        | Keyword::Maintains
        | Keyword::Writes
        | Keyword::Assert
        | Keyword::Wrap
        | Keyword::Unwrap
        | Keyword::Unwrapping
        | Keyword::Atomic => true,
        _ => false,
    }
}

/// Whether the token is a name or a keyword, and no form anywhere.
fn is_no_form(token: &Token<'_>) -> bool
    ensures { result ≡ spec.is_no_form (lexeme token.now).word }
{
    match token.kind {
        TokenKind::Name(_) => true,
        TokenKind::Keyword(keyword) => !is_form_word(keyword),
        _ => false,
    }
}

/// Whether the last of these tokens is `_(`.
#[tactic(auto, using(crate::proofs::Fronts::ends_at))]
fn ends_with_annotation<'a>(tokens: &'a [Token<'a>]) -> bool
    ensures { result ≡ spec.ends_with_annotation (lexemes tokens.now) }
{
    match tokens.split_last() {
        Some((last, _)) => is_sign(last, Sign::Annotation),
        None => false,
    }
}

/// The place of the first of these tokens.
pub fn first_place<'a>(tokens: &'a [Token<'a>]) -> Span
    ensures { result ≡ (spec.first_token (lexemes tokens.now)).place }
{
    match tokens.first() {
        Some(first) => first.span,
        None => Span { line: 1, column: 1 },
    }
}

/// Whether the first of these tokens is a name or a keyword, and no form anywhere.
fn begins_with_no_form<'a>(tokens: &'a [Token<'a>]) -> bool
    ensures { result ≡ spec.is_no_form (spec.first_token (lexemes tokens.now)).word }
{
    match tokens.first() {
        Some(first) => is_no_form(first),
        None => false,
    }
}

/// The fault of the tokens at the first of the rest, with which no item goes on.
#[tactic(auto, using(crate::proofs::Fronts::front_is))]
pub fn unexpected<'a>(tokens: &'a [Token<'a>], rest: &'a [Token<'a>]) -> SourceFault
    ensures { IsUnexpected (lexemes tokens.now) (lexemes rest.now) result }
{
    let place = first_place(rest);
    let count = tokens.len().saturating_sub(rest.len());
    let front = &tokens[..count];
    if ends_with_annotation(front) && begins_with_no_form(rest) {
        SourceFault::UnknownForm(place)
    } else {
        SourceFault::Unexpected(place)
    }
}

/// The place of the last of these tokens.
#[tactic(auto, using(crate::proofs::Fronts::last_is))]
pub fn last_place<'a>(tokens: &'a [Token<'a>]) -> Span
    ensures { (before : List Lexeme) (last : Lexeme) → lexemes tokens.now ≡ before ++ last ∷ [] → result ≡ last.place }
{
    match tokens.split_last() {
        Some((last, _)) => last.span,
        None => Span { line: 1, column: 1 },
    }
}
