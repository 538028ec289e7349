//! Words behind `_(`.

ghost use Rattle.std.specs.Prelude.{◌≡◌, ◌≢◌, MatchOption};
ghost use Rattle.ebnf.specs.Derives.{next};
ghost use Rattle.c_syntax.specs.Classes as classes;
ghost use Rattle.c_syntax.specs.Language.{language};
ghost use Rattle.c_syntax.specs.Lexing.{lexeme};
ghost use Rattle.reader_expressions.specs.Reading.{lexemes};
ghost use Rattle.reader_pieces.specs.declared.words.Form.{Form};
ghost use Rattle.reader_pieces.specs.Shapes.{form_class};

use c_syntax::token::{Keyword, Token, TokenKind};

/// A form that is a statement.
#[derive(Clone, Copy, Debug, PartialEq, Eq)]
pub enum Form {
    Assert,
    Ghost,
    Wrap,
    Unwrap,
    Unwrapping,
    Atomic,
}

/// The form that the keyword begins.
fn form_of_keyword(keyword: Keyword) -> Option<Form>
    ensures { MatchOption result ((x : Form) → classes.key keyword ≢ form_class x) (λ x. classes.key keyword ≡ form_class x) }
{
    match keyword {
        Keyword::Assert => Some(Form::Assert),
        Keyword::Ghost => Some(Form::Ghost),
        Keyword::Wrap => Some(Form::Wrap),
        Keyword::Unwrap => Some(Form::Unwrap),
        Keyword::Unwrapping => Some(Form::Unwrapping),
        Keyword::Atomic => Some(Form::Atomic),
        _ => None,
    }
}

/// The form that the token begins.
fn form_of_token(token: &Token<'_>) -> Option<Form>
    ensures { MatchOption result ((x : Form) → classes.class (lexeme token.now) ≢ form_class x) (λ x. classes.class (lexeme token.now) ≡ form_class x) }
{
    match token.kind {
        TokenKind::Keyword(keyword) => form_of_keyword(keyword),
        _ => None,
    }
}

/// The form that begins here.
pub fn form_at<'a>(tokens: &'a [Token<'a>]) -> Option<Form>
    ensures { MatchOption result ((x : Form) → next language (lexemes tokens.now) ≢ form_class x) (λ x. next language (lexemes tokens.now) ≡ form_class x) }
{
    match tokens.first() {
        Some(first) => form_of_token(first),
        None => None,
    }
}
