//! Kinds of statements.

ghost use Rattle.std.specs.Prelude.{◌≡◌, ◌≢◌, true, false, ℕ, MatchOption};
ghost use Rattle.ebnf.specs.Sets.{has};
ghost use Rattle.ebnf.specs.Derives.{next};
ghost use Rattle.c_syntax.specs.Classes as classes;
ghost use Rattle.c_syntax.specs.Lexing.{lexeme};
ghost use Rattle.c_syntax.specs.Grammar as g;
ghost use Rattle.c_syntax.specs.Language.{language};
ghost use Rattle.reader_expressions.specs.Reading.{lexemes};
ghost use Rattle.reader_statements.specs.declared.kinds.Kind.{Kind};
ghost use Rattle.reader_statements.specs.declared.kinds.Annotation.{Annotation};
ghost use Rattle.reader_statements.specs.Rows as rows;

use c_syntax::token::{Keyword, Sign, Token, TokenKind};
use reader_expressions::tokens::next_is;

/// A kind of statement that doesn't begin with `_(`.
#[derive(Clone, Copy)]
pub enum Kind {
    Block,
    Skip,
    Declaration,
    /// a left side that begins with a name, or a call
    Named,
    /// a left side that begins otherwise
    Other,
    Branch,
    While,
    Do,
    For,
    Return,
    Spawn,
    Free,
}

/// The kind of statement that begins with the keyword.
fn of_keyword(keyword: Keyword) -> Option<Kind>
    ensures { MatchOption result ((x : Kind) → has (rows.kind_begins x) (classes.key keyword) ≡ false) (λ x. has (rows.kind_begins x) (classes.key keyword) ≡ true) }
{
    match keyword {
        Keyword::Int | Keyword::Long | Keyword::Unsigned | Keyword::Struct => {
            Some(Kind::Declaration)
        }
        Keyword::Null => Some(Kind::Other),
        Keyword::If => Some(Kind::Branch),
        Keyword::While => Some(Kind::While),
        Keyword::Do => Some(Kind::Do),
        Keyword::For => Some(Kind::For),
        Keyword::Return => Some(Kind::Return),
        Keyword::VccSpawn => Some(Kind::Spawn),
        Keyword::Free => Some(Kind::Free),
        _ => None,
    }
}

/// The kind of statement that begins with the sign.
fn of_sign(sign: Sign) -> Option<Kind>
    ensures { MatchOption result ((x : Kind) → has (rows.kind_begins x) (classes.sign sign) ≡ false) (λ x. has (rows.kind_begins x) (classes.sign sign) ≡ true) }
{
    match sign {
        Sign::BraceOpen => Some(Kind::Block),
        Sign::Semicolon => Some(Kind::Skip),
        Sign::Open => Some(Kind::Other),
        _ => None,
    }
}

/// The kind of statement that begins with the token.
fn of_token(token: &Token<'_>) -> Option<Kind>
    ensures { MatchOption result ((x : Kind) → has (rows.kind_begins x) (classes.class (lexeme token.now)) ≡ false) (λ x. has (rows.kind_begins x) (classes.class (lexeme token.now)) ≡ true) }
{
    match token.kind {
        TokenKind::Name(_) => Some(Kind::Named),
        TokenKind::Number { .. } => Some(Kind::Other),
        TokenKind::Keyword(keyword) => of_keyword(keyword),
        TokenKind::Sign(sign) => of_sign(sign),
        _ => None,
    }
}

/// The kind of statement that begins here.
pub fn kind_at<'a>(tokens: &'a [Token<'a>]) -> Option<Kind>
    ensures { MatchOption result ((x : Kind) → has (rows.kind_begins x) (next language (lexemes tokens.now)) ≡ false) (λ x. has (rows.kind_begins x) (next language (lexemes tokens.now)) ≡ true) }
{
    match tokens.first() {
        Some(first) => of_token(first),
        None => None,
    }
}

/// Whether a statement begins here.
#[tactic(auto, using(crate::proofs::Forms::begins_kind, crate::proofs::Forms::begins_none))]
pub fn begins_statement<'a>(tokens: &'a [Token<'a>]) -> bool
    ensures { result ≡ has (language.begins g.Statement) (next language (lexemes tokens.now)) }
{
    match kind_at(tokens) {
        Some(_) => true,
        None => next_is(Sign::Annotation, tokens),
    }
}

/// How high what stands in a statement is at least.
pub fn least(kind: Kind) -> u32
    ensures { result ≡ rows.kind_low kind }
{
    match kind {
        Kind::Block | Kind::Skip | Kind::Return => 0,
        Kind::Other => 2,
        _ => 1,
    }
}

/// A form behind `_(` that is a statement.
#[derive(Clone, Copy)]
pub enum Annotation {
    Assert,
    Ghost,
    Wrap,
    Unwrap,
    Unwrapping,
    Atomic,
}

/// The form that the keyword begins.
fn form_of_keyword(keyword: Keyword) -> Option<Annotation>
    ensures { MatchOption result ((x : Annotation) → classes.key keyword ≢ rows.annotation_class x) (λ x. classes.key keyword ≡ rows.annotation_class x) }
{
    match keyword {
        Keyword::Assert => Some(Annotation::Assert),
        Keyword::Ghost => Some(Annotation::Ghost),
        Keyword::Wrap => Some(Annotation::Wrap),
        Keyword::Unwrap => Some(Annotation::Unwrap),
        Keyword::Unwrapping => Some(Annotation::Unwrapping),
        Keyword::Atomic => Some(Annotation::Atomic),
        _ => None,
    }
}

/// The form that the token begins.
fn form_of_token(token: &Token<'_>) -> Option<Annotation>
    ensures { MatchOption result ((x : Annotation) → classes.class (lexeme token.now) ≢ rows.annotation_class x) (λ x. classes.class (lexeme token.now) ≡ rows.annotation_class x) }
{
    match token.kind {
        TokenKind::Keyword(keyword) => form_of_keyword(keyword),
        _ => None,
    }
}

/// The form that begins here.
pub fn annotation_at<'a>(tokens: &'a [Token<'a>]) -> Option<Annotation>
    ensures { MatchOption result ((x : Annotation) → next language (lexemes tokens.now) ≢ rows.annotation_class x) (λ x. next language (lexemes tokens.now) ≡ rows.annotation_class x) }
{
    match tokens.first() {
        Some(first) => form_of_token(first),
        None => None,
    }
}
