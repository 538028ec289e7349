//! Expressions of one token.

ghost use Rattle.std.specs.Prelude.{◌≡◌, ◌==◌, false, MatchOption, IfOk};
ghost use Rattle.c_syntax.specs.Classes as classes;
ghost use Rattle.c_syntax.specs.Lexing.{lexeme};
ghost use Rattle.c_syntax.specs.Grammar as g;
ghost use Rattle.c_syntax.specs.Views.{exp};
ghost use Rattle.reader_expressions.specs.Forms as forms;
ghost use Rattle.reader_expressions.specs.Reading.{Gives, lexemes, one_token, rule_at};

use crate::forms::{
    Pair, word_of_constant, word_of_function, word_of_list, word_of_pair, word_of_quantifier,
};
use crate::reading::{Parsed, ReadFault, Reading};
use crate::tokens::{take_key, take_name, take_spec};
use c_syntax::expressions::Expr;
use c_syntax::token::{Keyword, Span, Token, TokenKind};
use c_syntax::tree::{Constant, ListWord, Quantifier, SpecFunction};
use std::alloc::Global;

/// A name.
#[tactic(auto, unfolding(ebnf::specs::Reading::read, ebnf::specs::Reading::read_rule))]
pub fn named<'a>(alloc: Global, tokens: &'a [Token<'a>]) -> Reading<'a, Expr>
    ensures gives { Gives exp result (rule_at 0 g.named (lexemes tokens.now)) }
    ensures high { IfOk result (λ x. x.height ≡ 1) }
{
    let name = take_name(alloc, 0, tokens)?;
    Ok(Parsed {
        value: Expr::Name(name.value),
        height: 1,
        rest: name.rest,
    })
}

/// The number that the token is.
fn number_of(token: &Token<'_>) -> Option<Expr>
    ensures { MatchOption result ((classes.class (lexeme token.now) == 2) ≡ false) (λ x. (classes.class (lexeme token.now) ≡ 2) × (exp x ≡ g.number_exp (lexeme token.now).place (lexeme token.now).word)) }
{
    match token.kind {
        TokenKind::Number { value, ty } => Some(Expr::Number(token.span, value, ty)),
        _ => None,
    }
}

/// A number.
#[tactic(auto, unfolding(ebnf::specs::Reading::read, ebnf::specs::Reading::read_rule))]
pub fn number<'a>(tokens: &'a [Token<'a>]) -> Reading<'a, Expr>
    ensures gives { Gives exp result (rule_at 0 g.number (lexemes tokens.now)) }
    ensures high { IfOk result (λ x. x.height ≡ 1) }
{
    let Some((first, rest)) = tokens.split_first() else {
        return Err(ReadFault::Unexpected(tokens));
    };
    let Some(value) = number_of(first) else {
        return Err(ReadFault::Unexpected(tokens));
    };
    Ok(Parsed {
        value,
        height: 1,
        rest,
    })
}

/// `NULL`
#[tactic(auto, unfolding(ebnf::specs::Reading::read, ebnf::specs::Reading::read_rule))]
pub fn null<'a>(tokens: &'a [Token<'a>]) -> Reading<'a, Expr>
    ensures gives { Gives exp result (rule_at 0 g.null (lexemes tokens.now)) }
    ensures high { IfOk result (λ x. x.height ≡ 1) }
{
    let word = take_key(Keyword::Null, tokens)?;
    Ok(Parsed {
        value: Expr::Null(word.value),
        height: 1,
        rest: word.rest,
    })
}

/// A word that stands for a value.
#[tactic(auto, unfolding(ebnf::specs::Reading::read, ebnf::specs::Reading::read_rule))]
pub fn constant<'a>(value: Constant, tokens: &'a [Token<'a>]) -> Reading<'a, Expr>
    ensures gives { Gives exp result (rule_at 0 (forms.constant value) (lexemes tokens.now)) }
    ensures high { IfOk result (λ x. x.height ≡ 1) }
{
    let word = take_spec(word_of_constant(value), tokens)?;
    Ok(Parsed {
        value: Expr::Constant(word.value, value),
        height: 1,
        rest: word.rest,
    })
}

/// The place of the word of a function.
pub fn take_function<'a>(function: SpecFunction, tokens: &'a [Token<'a>]) -> Reading<'a, Span>
    ensures gives { Gives (λ x. x) result (one_token (forms.function_class function) 0 (λ x. x.place) (lexemes tokens.now)) }
    ensures flat { IfOk result (λ x. x.height ≡ 0) }
{
    take_spec(word_of_function(function), tokens)
}

/// The place of the word of a list.
pub fn take_list_word<'a>(word: ListWord, tokens: &'a [Token<'a>]) -> Reading<'a, Span>
    ensures gives { Gives (λ x. x) result (one_token (forms.list_class word) 0 (λ x. x.place) (lexemes tokens.now)) }
    ensures flat { IfOk result (λ x. x.height ≡ 0) }
{
    take_spec(word_of_list(word), tokens)
}

/// The place of the word of two arguments.
pub fn take_pair<'a>(pair: Pair, tokens: &'a [Token<'a>]) -> Reading<'a, Span>
    ensures gives { Gives (λ x. x) result (one_token (forms.pair_class pair) 0 (λ x. x.place) (lexemes tokens.now)) }
    ensures flat { IfOk result (λ x. x.height ≡ 0) }
{
    take_spec(word_of_pair(pair), tokens)
}

/// The place of the word of a quantifier.
pub fn take_quantifier<'a>(quantifier: Quantifier, tokens: &'a [Token<'a>]) -> Reading<'a, Span>
    ensures gives { Gives (λ x. x) result (one_token (forms.quantifier_class quantifier) 0 (λ x. x.place) (lexemes tokens.now)) }
    ensures flat { IfOk result (λ x. x.height ≡ 0) }
{
    take_spec(word_of_quantifier(quantifier), tokens)
}
