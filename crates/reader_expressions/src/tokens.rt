//! Single tokens.

ghost use Rattle.std.specs.Prelude.{◌≡◌, ◌==◌, ◌≤◌, IfOk, MatchOption, false};
ghost use Rattle.ebnf.specs.Derives.{next};
ghost use Rattle.c_syntax.specs.Lexing.{lexeme};
ghost use Rattle.c_syntax.specs.Classes as classes;
ghost use Rattle.c_syntax.specs.Language.{language};
ghost use Rattle.c_syntax.specs.Grammar.{id_of};
ghost use Rattle.c_syntax.specs.Views.{id};
ghost use Rattle.reader_expressions.specs.Levels as levels;
ghost use Rattle.reader_expressions.specs.Reading.{Gives, lexemes, one_token};

use crate::memory::copied;
use crate::reading::{Parsed, ReadFault, Reading};
use c_syntax::expressions::Identifier;
use c_syntax::token::{Keyword, Sign, Span, SpecWord, Token, TokenKind};
use c_syntax::tree::{BinaryOperator, UnaryOperator};
use std::alloc::Global;

/// Whether the token is this sign.
pub fn is_sign(token: &Token<'_>, sign: Sign) -> bool
    ensures { result ≡ (classes.class (lexeme token.now) == classes.sign sign) }
{
    match token.kind {
        TokenKind::Sign(found) => found == sign,
        _ => false,
    }
}

/// Whether the token is this keyword.
fn is_key(token: &Token<'_>, keyword: Keyword) -> bool
    ensures { result ≡ (classes.class (lexeme token.now) == classes.key keyword) }
{
    match token.kind {
        TokenKind::Keyword(found) => found == keyword,
        _ => false,
    }
}

/// Whether the token is this word of a spec.
fn is_spec(token: &Token<'_>, word: SpecWord) -> bool
    ensures { result ≡ (classes.class (lexeme token.now) == classes.spec word) }
{
    match token.kind {
        TokenKind::SpecWord(found) => found == word,
        _ => false,
    }
}

/// Whether this sign comes next.
pub fn next_is<'a>(sign: Sign, tokens: &'a [Token<'a>]) -> bool
    ensures { result ≡ (next language (lexemes tokens.now) == classes.sign sign) }
{
    match tokens.first() {
        Some(first) => is_sign(first, sign),
        None => false,
    }
}

/// Whether this keyword comes next.
pub fn next_is_key<'a>(keyword: Keyword, tokens: &'a [Token<'a>]) -> bool
    ensures { result ≡ (next language (lexemes tokens.now) == classes.key keyword) }
{
    match tokens.first() {
        Some(first) => is_key(first, keyword),
        None => false,
    }
}

/// Whether this word of a spec comes next.
pub fn next_is_spec<'a>(word: SpecWord, tokens: &'a [Token<'a>]) -> bool
    ensures { result ≡ (next language (lexemes tokens.now) == classes.spec word) }
{
    match tokens.first() {
        Some(first) => is_spec(first, word),
        None => false,
    }
}

/// The place of this sign.
pub fn take<'a>(sign: Sign, tokens: &'a [Token<'a>]) -> Reading<'a, Span>
    ensures gives { Gives (λ x. x) result (one_token (classes.sign sign) 0 (λ x. x.place) (lexemes tokens.now)) }
    ensures flat { IfOk result (λ x. x.height ≡ 0) }
{
    let Some((first, rest)) = tokens.split_first() else {
        return Err(ReadFault::Unexpected(tokens));
    };
    if !is_sign(first, sign) {
        return Err(ReadFault::Unexpected(tokens));
    }
    Ok(Parsed {
        value: first.span,
        height: 0,
        rest,
    })
}

/// The place of this keyword.
pub fn take_key<'a>(keyword: Keyword, tokens: &'a [Token<'a>]) -> Reading<'a, Span>
    ensures gives { Gives (λ x. x) result (one_token (classes.key keyword) 0 (λ x. x.place) (lexemes tokens.now)) }
    ensures flat { IfOk result (λ x. x.height ≡ 0) }
{
    let Some((first, rest)) = tokens.split_first() else {
        return Err(ReadFault::Unexpected(tokens));
    };
    if !is_key(first, keyword) {
        return Err(ReadFault::Unexpected(tokens));
    }
    Ok(Parsed {
        value: first.span,
        height: 0,
        rest,
    })
}

/// The place of this word of a spec.
pub fn take_spec<'a>(word: SpecWord, tokens: &'a [Token<'a>]) -> Reading<'a, Span>
    ensures gives { Gives (λ x. x) result (one_token (classes.spec word) 0 (λ x. x.place) (lexemes tokens.now)) }
    ensures flat { IfOk result (λ x. x.height ≡ 0) }
{
    let Some((first, rest)) = tokens.split_first() else {
        return Err(ReadFault::Unexpected(tokens));
    };
    if !is_spec(first, word) {
        return Err(ReadFault::Unexpected(tokens));
    }
    Ok(Parsed {
        value: first.span,
        height: 0,
        rest,
    })
}

/// The name that the token is.
fn name_of<'a>(token: &Token<'a>) -> Option<&'a [u8]>
    ensures { MatchOption result ((classes.class (lexeme token.now) == 1) ≡ false) (λ x. (classes.class (lexeme token.now) ≡ 1) × (x.now ≡ (id_of (lexeme token.now)).name)) }
{
    match token.kind {
        TokenKind::Name(found) => Some(found),
        _ => None,
    }
}

/// A name, which counts as so high.
pub fn take_name<'a>(alloc: Global, height: u32, tokens: &'a [Token<'a>]) -> Reading<'a, Identifier>
    ensures gives { Gives id result (one_token 1 height id_of (lexemes tokens.now)) }
    ensures high { IfOk result (λ x. x.height ≡ height) }
{
    let Some((first, rest)) = tokens.split_first() else {
        return Err(ReadFault::Unexpected(tokens));
    };
    let Some(name) = name_of(first) else {
        return Err(ReadFault::Unexpected(tokens));
    };
    let name = copied(alloc, name)?;
    Ok(Parsed {
        value: Identifier {
            span: first.span,
            name,
        },
        height,
        rest,
    })
}

/// Whether the token is this operator.
fn is_operator(token: &Token<'_>, operator: BinaryOperator) -> bool
    ensures { result ≡ (classes.class (lexeme token.now) == levels.class_of operator) }
{
    match operator {
        BinaryOperator::Times => is_sign(token, Sign::Star),
        BinaryOperator::Over => is_sign(token, Sign::Slash),
        BinaryOperator::Modulo => is_sign(token, Sign::Percent),
        BinaryOperator::Plus => is_sign(token, Sign::Plus),
        BinaryOperator::Minus => is_sign(token, Sign::Minus),
        BinaryOperator::Less => is_sign(token, Sign::Less),
        BinaryOperator::LessEqual => is_sign(token, Sign::LessEqual),
        BinaryOperator::Greater => is_sign(token, Sign::Greater),
        BinaryOperator::GreaterEqual => is_sign(token, Sign::GreaterEqual),
        BinaryOperator::In => is_spec(token, SpecWord::In),
        BinaryOperator::Equal => is_sign(token, Sign::Equal),
        BinaryOperator::NotEqual => is_sign(token, Sign::NotEqual),
        BinaryOperator::And => is_sign(token, Sign::And),
        BinaryOperator::Or => is_sign(token, Sign::Or),
        BinaryOperator::Implies => is_sign(token, Sign::Implies),
        BinaryOperator::Equivalent => is_sign(token, Sign::Equivalent),
    }
}

/// The place of this operator.
pub fn take_operator<'a>(operator: BinaryOperator, tokens: &'a [Token<'a>]) -> Reading<'a, Span>
    ensures gives { Gives (λ x. x) result (one_token (levels.class_of operator) 0 (λ x. x.place) (lexemes tokens.now)) }
    ensures flat { IfOk result (λ x. x.height ≡ 0) }
{
    let Some((first, rest)) = tokens.split_first() else {
        return Err(ReadFault::Unexpected(tokens));
    };
    if !is_operator(first, operator) {
        return Err(ReadFault::Unexpected(tokens));
    }
    Ok(Parsed {
        value: first.span,
        height: 0,
        rest,
    })
}

/// Whether a name comes next.
pub fn next_is_name<'a>(tokens: &'a [Token<'a>]) -> bool
    ensures { result ≡ (next language (lexemes tokens.now) == 1) }
{
    match tokens.first() {
        Some(first) => is_name(first),
        None => false,
    }
}

/// Whether the token is a name.
fn is_name(token: &Token<'_>) -> bool
    ensures { result ≡ (classes.class (lexeme token.now) == 1) }
{
    match token.kind {
        TokenKind::Name(_) => true,
        _ => false,
    }
}

/// Whether a number comes next.
pub fn next_is_number<'a>(tokens: &'a [Token<'a>]) -> bool
    ensures { result ≡ (next language (lexemes tokens.now) == 2) }
{
    match tokens.first() {
        Some(first) => is_number(first),
        None => false,
    }
}

/// Whether the token is a number.
fn is_number(token: &Token<'_>) -> bool
    ensures { result ≡ (classes.class (lexeme token.now) == 2) }
{
    match token.kind {
        TokenKind::Number { .. } => true,
        _ => false,
    }
}

/// The place of this operator.
#[tactic(auto)]
pub fn take_unary<'a>(operator: UnaryOperator, tokens: &'a [Token<'a>]) -> Reading<'a, Span>
    ensures gives { Gives (λ x. x) result (one_token (levels.unary_class operator) 0 (λ x. x.place) (lexemes tokens.now)) }
    ensures flat { IfOk result (λ x. x.height ≡ 0) }
{
    match operator {
        UnaryOperator::Not => take(Sign::Not, tokens),
        UnaryOperator::Negate => take(Sign::Minus, tokens),
    }
}
