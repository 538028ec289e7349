//! The words of annotations that begin an expression.

ghost use Rattle.std.specs.Prelude.{◌≡◌, ◌≢◌, false, MatchOption, IfSome, IfNone};
ghost use Rattle.ebnf.specs.Sets.{has, first_rule};
ghost use Rattle.ebnf.specs.Derives.{next};
ghost use Rattle.c_syntax.specs.Classes as classes;
ghost use Rattle.c_syntax.specs.Expressions as e;
ghost use Rattle.c_syntax.specs.Lexing.{lexeme};
ghost use Rattle.c_syntax.specs.Language.{language};
ghost use Rattle.c_syntax.specs.Views.{exp, exps};
ghost use Rattle.c_syntax.specs.Grammar as g;
ghost use Rattle.reader_expressions.specs.declared.forms.Form.{Form};
ghost use Rattle.reader_expressions.specs.Forms as forms;
ghost use Rattle.reader_expressions.specs.Levels.{tier_of};
ghost use Rattle.reader_expressions.specs.Reading.{lexemes};

use crate::levels::Tier;
use c_syntax::expressions::Expr;
use c_syntax::token::{Span, SpecWord, Token, TokenKind};
use c_syntax::tree::{Constant, ListWord, Quantifier, SpecFunction};

/// A word of two arguments.
#[derive(Clone, Copy)]
pub enum Pair {
    ClaimsObject,
    Claims,
}

/// What a word begins.
#[derive(Clone, Copy)]
pub enum Form {
    Constant(Constant),
    Function(SpecFunction),
    Several(ListWord),
    Pair(Pair),
    Approval,
    Quantifier(Quantifier),
}

/// The form that the word begins.
fn of_word(word: SpecWord) -> Option<Form>
    ensures { MatchOption result ((f : Form) → classes.spec word ≢ forms.class_of f) (λ f. classes.spec word ≡ forms.class_of f) }
{
    match word {
        SpecWord::True => Some(Form::Constant(Constant::True)),
        SpecWord::False => Some(Form::Constant(Constant::False)),
        SpecWord::This => Some(Form::Constant(Constant::This)),
        SpecWord::Me => Some(Form::Constant(Constant::Me)),
        SpecWord::Result => Some(Form::Constant(Constant::Result)),
        SpecWord::Old => Some(Form::Function(SpecFunction::Old)),
        SpecWord::Unchanged => Some(Form::Function(SpecFunction::Unchanged)),
        SpecWord::Wrapped => Some(Form::Function(SpecFunction::Wrapped)),
        SpecWord::WrappedUnclaimed => Some(Form::Function(SpecFunction::WrappedUnclaimed)),
        SpecWord::Mutable => Some(Form::Function(SpecFunction::Mutable)),
        SpecWord::Fresh => Some(Form::Function(SpecFunction::Fresh)),
        SpecWord::Mine => Some(Form::Several(ListWord::Mine)),
        SpecWord::ClaimsOnly => Some(Form::Several(ListWord::ClaimsOnly)),
        SpecWord::ClaimsObject => Some(Form::Pair(Pair::ClaimsObject)),
        SpecWord::Claims => Some(Form::Pair(Pair::Claims)),
        SpecWord::Approves => Some(Form::Approval),
        SpecWord::Forall => Some(Form::Quantifier(Quantifier::ForAll)),
        SpecWord::Exists => Some(Form::Quantifier(Quantifier::Exists)),
        _ => None,
    }
}

/// The form that the token begins.
fn of_token(token: &Token<'_>) -> Option<Form>
    ensures { MatchOption result ((f : Form) → classes.class (lexeme token.now) ≢ forms.class_of f) (λ f. classes.class (lexeme token.now) ≡ forms.class_of f) }
{
    match token.kind {
        TokenKind::SpecWord(word) => of_word(word),
        _ => None,
    }
}

/// The form that the next token begins.
pub fn form_at<'a>(tokens: &'a [Token<'a>]) -> Option<Form>
    ensures { MatchOption result ((f : Form) → next language (lexemes tokens.now) ≢ forms.class_of f) (λ f. next language (lexemes tokens.now) ≡ forms.class_of f) }
{
    match tokens.first() {
        Some(first) => of_token(first),
        None => None,
    }
}

/// Whether it is a quantifier.
fn is_quantifier(form: Form) -> bool
    ensures { result ≡ forms.is_quantifier form }
{
    match form {
        Form::Quantifier(_) => true,
        _ => false,
    }
}

/// The form that the next token begins, if an owned set may begin with it.
pub fn set_form_at<'a>(tokens: &'a [Token<'a>]) -> Option<Form>
    ensures some { IfSome result (λ f. (next language (lexemes tokens.now) ≡ forms.class_of f) × (forms.is_quantifier f ≡ false)) }
    ensures none { IfNone result (has (first_rule language g.spec_word) (next language (lexemes tokens.now)) ≡ false) }
{
    let Some(form) = form_at(tokens) else {
        return None;
    };
    if is_quantifier(form) {
        return None;
    }
    Some(form)
}

/// How high what stands in a form is at least.
pub fn least(form: Form) -> u32
    ensures { result ≡ forms.form_low form }
{
    match form {
        Form::Constant(_) => 0,
        Form::Approval => 2,
        _ => 1,
    }
}

/// The word of a constant.
pub fn word_of_constant(value: Constant) -> SpecWord
    ensures { classes.spec result ≡ forms.constant_class value }
{
    match value {
        Constant::True => SpecWord::True,
        Constant::False => SpecWord::False,
        Constant::This => SpecWord::This,
        Constant::Me => SpecWord::Me,
        Constant::Result => SpecWord::Result,
    }
}

/// The word of a function.
pub fn word_of_function(function: SpecFunction) -> SpecWord
    ensures { classes.spec result ≡ forms.function_class function }
{
    match function {
        SpecFunction::Old => SpecWord::Old,
        SpecFunction::Unchanged => SpecWord::Unchanged,
        SpecFunction::Wrapped => SpecWord::Wrapped,
        SpecFunction::WrappedUnclaimed => SpecWord::WrappedUnclaimed,
        SpecFunction::Mutable => SpecWord::Mutable,
        SpecFunction::Fresh => SpecWord::Fresh,
    }
}

/// The level of a function's argument.
pub fn argument_tier(function: SpecFunction) -> Tier
    ensures { tier_of result ≡ forms.argument_tier function }
{
    match function {
        SpecFunction::Old | SpecFunction::Unchanged => Tier::Equivalence,
        _ => Tier::Choice,
    }
}

/// The word of a pair.
pub fn word_of_pair(pair: Pair) -> SpecWord
    ensures { classes.spec result ≡ forms.pair_class pair }
{
    match pair {
        Pair::ClaimsObject => SpecWord::ClaimsObject,
        Pair::Claims => SpecWord::Claims,
    }
}

/// The level of a pair's second argument.
pub fn second_tier(pair: Pair) -> Tier
    ensures { tier_of result ≡ forms.second_tier pair }
{
    match pair {
        Pair::ClaimsObject => Tier::Choice,
        Pair::Claims => Tier::Equivalence,
    }
}

/// A pair's word with its arguments.
pub fn joined(pair: Pair, span: Span, first: Box<Expr>, second: Box<Expr>) -> Expr
    ensures { exp result ≡ forms.pair_of pair (exp first.value) (exp second.value) span }
{
    match pair {
        Pair::ClaimsObject => Expr::ClaimsObject(span, first, second),
        Pair::Claims => Expr::Claims(span, first, second),
    }
}

/// The word of a list.
pub fn word_of_list(word: ListWord) -> SpecWord
    ensures { classes.spec result ≡ forms.list_class word }
{
    match word {
        ListWord::Mine => SpecWord::Mine,
        ListWord::ClaimsOnly => SpecWord::ClaimsOnly,
    }
}

/// A list's word with its arguments.
pub fn several_of(word: ListWord, span: Span, all: Vec<Expr>) -> Expr
    ensures { exp result ≡ e.Several span word (g.exps_of (exps all.items)) }
{
    Expr::Several(span, word, all)
}

/// The word of a quantifier.
pub fn word_of_quantifier(quantifier: Quantifier) -> SpecWord
    ensures { classes.spec result ≡ forms.quantifier_class quantifier }
{
    match quantifier {
        Quantifier::ForAll => SpecWord::Forall,
        Quantifier::Exists => SpecWord::Exists,
    }
}
