//! The levels of expressions.

ghost use Rattle.std.specs.Prelude.{◌≡◌, ◌≢◌, ◌==◌, ◌&&◌, ◌||◌, true, MatchOption, IfSome, IfNone};
ghost use Rattle.c_syntax.specs.Grammar as g;
ghost use Rattle.ebnf.specs.Derives.{next};
ghost use Rattle.ebnf.specs.Sets.{has, first};
ghost use Rattle.c_syntax.specs.declared.tree.BinaryOperator.{BinaryOperator};
ghost use Rattle.c_syntax.specs.Language.{language};
ghost use Rattle.c_syntax.specs.Classes as classes;
ghost use Rattle.c_syntax.specs.Lexing.{lexeme};
ghost use Rattle.reader_expressions.specs.Levels as levels;
ghost use Rattle.reader_expressions.specs.Levels.{tier_of, mode_of, link, number};
ghost use Rattle.reader_expressions.specs.Reading.{lexemes};

use crate::tokens::next_is;
use c_syntax::token::{Sign, SpecWord, Token, TokenKind};
use c_syntax::tree::BinaryOperator;

/// Code, or an annotation.
#[derive(Clone, Copy)]
pub enum Mode {
    Code,
    Spec,
}

/// The levels from the operators that bind tightest on; code has none above `?:`.
#[derive(Clone, Copy)]
pub enum Tier {
    Prefix,
    Product,
    Sum,
    Order,
    Equality,
    Conjunction,
    Disjunction,
    Choice,
    Implication,
    Equivalence,
}

/// The level of a whole expression.
pub fn top(mode: Mode) -> Tier
    ensures { result ≡ levels.top mode }
{
    match mode {
        Mode::Code => Tier::Choice,
        Mode::Spec => Tier::Equivalence,
    }
}

/// Whether it is the level of the operators that bind tightest.
pub fn is_prefix(tier: Tier) -> bool
    ensures { result ≡ (number (tier_of tier) == 0) }
{
    match tier {
        Tier::Prefix => true,
        _ => false,
    }
}

/// The level of the left operand.
pub fn below(tier: Tier) -> Tier
    ensures { tier_of result ≡ levels.below (tier_of tier) }
{
    match tier {
        Tier::Prefix | Tier::Product => Tier::Prefix,
        Tier::Sum => Tier::Product,
        Tier::Order => Tier::Sum,
        Tier::Equality => Tier::Order,
        Tier::Conjunction => Tier::Equality,
        Tier::Disjunction => Tier::Conjunction,
        Tier::Choice => Tier::Disjunction,
        Tier::Implication => Tier::Choice,
        Tier::Equivalence => Tier::Implication,
    }
}

/// The level of an operator.
pub fn own(operator: BinaryOperator) -> Tier
    ensures { tier_of result ≡ levels.own operator }
{
    match operator {
        BinaryOperator::Times | BinaryOperator::Over | BinaryOperator::Modulo => Tier::Product,
        BinaryOperator::Plus | BinaryOperator::Minus => Tier::Sum,
        BinaryOperator::Less
        | BinaryOperator::LessEqual
        | BinaryOperator::Greater
        | BinaryOperator::GreaterEqual
        | BinaryOperator::In => Tier::Order,
        BinaryOperator::Equal | BinaryOperator::NotEqual => Tier::Equality,
        BinaryOperator::And => Tier::Conjunction,
        BinaryOperator::Or => Tier::Disjunction,
        BinaryOperator::Implies => Tier::Implication,
        BinaryOperator::Equivalent => Tier::Equivalence,
    }
}

/// The level of an operator's right operand.
pub fn right(operator: BinaryOperator) -> Tier
    ensures { tier_of result ≡ levels.right operator }
{
    match operator {
        BinaryOperator::Implies => own(operator),
        _ => below(own(operator)),
    }
}

/// Whether there is such an operator: code lacks three of them.
fn stands(mode: Mode, operator: BinaryOperator) -> bool
    ensures { result ≡ levels.stands (mode_of mode) operator }
{
    match mode {
        Mode::Spec => true,
        Mode::Code => match operator {
            BinaryOperator::In | BinaryOperator::Implies | BinaryOperator::Equivalent => false,
            _ => true,
        },
    }
}

/// The operator that the sign is.
fn of_sign(sign: Sign) -> Option<BinaryOperator>
    ensures { MatchOption result ((o : BinaryOperator) → classes.sign sign ≢ levels.class_of o) (λ o. classes.sign sign ≡ levels.class_of o) }
{
    match sign {
        Sign::Star => Some(BinaryOperator::Times),
        Sign::Slash => Some(BinaryOperator::Over),
        Sign::Percent => Some(BinaryOperator::Modulo),
        Sign::Plus => Some(BinaryOperator::Plus),
        Sign::Minus => Some(BinaryOperator::Minus),
        Sign::Less => Some(BinaryOperator::Less),
        Sign::LessEqual => Some(BinaryOperator::LessEqual),
        Sign::Greater => Some(BinaryOperator::Greater),
        Sign::GreaterEqual => Some(BinaryOperator::GreaterEqual),
        Sign::Equal => Some(BinaryOperator::Equal),
        Sign::NotEqual => Some(BinaryOperator::NotEqual),
        Sign::And => Some(BinaryOperator::And),
        Sign::Or => Some(BinaryOperator::Or),
        Sign::Implies => Some(BinaryOperator::Implies),
        Sign::Equivalent => Some(BinaryOperator::Equivalent),
        _ => None,
    }
}

/// The operator that the token is.
fn of_token(token: &Token<'_>) -> Option<BinaryOperator>
    ensures { MatchOption result ((o : BinaryOperator) → classes.class (lexeme token.now) ≢ levels.class_of o) (λ o. classes.class (lexeme token.now) ≡ levels.class_of o) }
{
    match token.kind {
        TokenKind::Sign(sign) => of_sign(sign),
        TokenKind::SpecWord(SpecWord::In) => Some(BinaryOperator::In),
        _ => None,
    }
}

/// The operator that comes next.
fn next_operator<'a>(tokens: &'a [Token<'a>]) -> Option<BinaryOperator>
    ensures { MatchOption result ((o : BinaryOperator) → next language (lexemes tokens.now) ≢ levels.class_of o) (λ o. next language (lexemes tokens.now) ≡ levels.class_of o) }
{
    match tokens.first() {
        Some(first) => of_token(first),
        None => None,
    }
}

/// A level's number, from the operators that bind tightest on.
fn rank(tier: Tier) -> u8
    ensures { result ≡ number (tier_of tier) }
{
    match tier {
        Tier::Prefix => 0,
        Tier::Product => 1,
        Tier::Sum => 2,
        Tier::Order => 3,
        Tier::Equality => 4,
        Tier::Conjunction => 5,
        Tier::Disjunction => 6,
        Tier::Choice => 7,
        Tier::Implication => 8,
        Tier::Equivalence => 9,
    }
}

/// Whether the operator stands on this level.
fn is_own(mode: Mode, tier: Tier, operator: BinaryOperator) -> bool
    ensures { result ≡ ((number (levels.own operator) == number (tier_of tier)) && levels.stands (mode_of mode) operator) }
{
    rank(own(operator)) == rank(tier) && stands(mode, operator)
}

/// The operator of this level that comes next.
pub fn operator_at<'a>(mode: Mode, tier: Tier, tokens: &'a [Token<'a>]) -> Option<BinaryOperator>
    ensures some { IfSome result (λ o. (next language (lexemes tokens.now) ≡ levels.class_of o) × (levels.own o ≡ tier_of tier) × (levels.stands (mode_of mode) o ≡ true)) }
    ensures none { IfNone result ((has (first language (link (mode_of mode) (tier_of tier))) (next language (lexemes tokens.now)) ≡ true) → (tier_of tier ≡ g.Choice)) }
{
    let Some(operator) = next_operator(tokens) else {
        return None;
    };
    if !is_own(mode, tier, operator) {
        return None;
    }
    Some(operator)
}

/// Whether an operator of this level comes next.
pub fn is_link<'a>(mode: Mode, tier: Tier, tokens: &'a [Token<'a>]) -> bool
    ensures { result ≡ has (first language (link (mode_of mode) (tier_of tier))) (next language (lexemes tokens.now)) }
{
    if rank(tier) == 7 {
        return next_is(Sign::Question, tokens);
    }
    match operator_at(mode, tier, tokens) {
        Some(_) => true,
        None => false,
    }
}
