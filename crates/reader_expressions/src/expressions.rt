//! Expressions.

ghost use Rattle.std.specs.Prelude.{◌≡◌, ◌==◌, ◌≤◌, ◌<◌, ◌+◌, ◌^◌, true, IfOk, IsTrue};
ghost use Rattle.ebnf.specs.Reading.{reads};
ghost use Rattle.ebnf.specs.Sets.{has, first};
ghost use Rattle.ebnf.specs.Derives.{next};
ghost use Rattle.c_syntax.specs.Grammar as g;
ghost use Rattle.c_syntax.specs.Language.{language};
ghost use Rattle.c_syntax.specs.Views.{id, exp, exps};
ghost use Rattle.reader_expressions.specs.Levels as levels;
ghost use Rattle.reader_expressions.specs.Levels.{mode_of, tier_of, level, link, linked, joined, one_link};
ghost use Rattle.reader_expressions.specs.Forms as forms;
ghost use Rattle.reader_expressions.specs.Joints as joints;
ghost use Rattle.reader_expressions.specs.Lists.{behind_comma};
ghost use Rattle.reader_expressions.specs.Operands as operands;
ghost use Rattle.reader_expressions.specs.Reading.{Gives, lexemes, part, rule_at, extended, entered};

use crate::approvals::approval;
use crate::arrows::{arrows, climb, first_arrow};
use crate::forms::{
    Form, Pair, argument_tier, form_at, joined, least, second_tier, set_form_at, several_of,
};
use crate::joints::{Joint, least_behind, next_joins, quantifier_at};
use crate::leaves::{
    constant, named, null, number, take_function, take_list_word, take_pair, take_quantifier,
};
use crate::levels::{Mode, Tier, below, is_link, is_prefix, operator_at, right, top};
use crate::memory::{add, boxed, single};
use crate::operands::{Operand, following};
use crate::reading::{Parsed, ReadFault, Reading, fits};
use crate::tokens::{
    next_is, next_is_key, next_is_name, next_is_number, next_is_spec, take, take_name,
    take_operator, take_unary,
};
use crate::types::boxed_gtype;
use c_syntax::expressions::Expr;
use c_syntax::token::{Keyword, Sign, SpecWord, Token};
use c_syntax::tree::{BinaryOperator, ListWord, Quantifier, SpecFunction, UnaryOperator};
use std::alloc::Global;

/// An expression of this level, no higher than room.
pub fn expression<'a>(
    alloc: Global,
    mode: Mode,
    tier: Tier,
    room: u32,
    tokens: &'a [Token<'a>],
) -> Reading<'a, Expr>
    requires room { room < 1000 }
    ensures gives { Gives exp result (reads language room (level mode tier) (lexemes tokens.now)) }
    ensures low { IfOk result (λ x. x.height ≤ room) }
{
    unboxed_operand(alloc, Operand::Level(mode, tier), room, tokens)
}

/// An expression of this level, whose parts have room for so much height.
#[cycle(expressions)]
fn on_level<'a>(
    alloc: Global,
    mode: Mode,
    tier: Tier,
    room: u32,
    tokens: &'a [Token<'a>],
) -> Reading<'a, Expr>
    requires room { room < 1000 }
    ensures gives { Gives exp result (rule_at room (g.rule (level mode tier)) (lexemes tokens.now)) }
    ensures low { IfOk result (λ x. x.height ≤ room + 1) }
{
    if is_prefix(tier) {
        return prefix(alloc, mode, room, tokens);
    }
    let left = on_level(alloc, mode, below(tier), room, tokens)?;
    links(alloc, mode, tier, room, left)
}

/// Goes on with the operators of this level. Each adds a level of height, so there are no more of them than there is room.
#[cycle(expressions)]
fn links<'a>(
    alloc: Global,
    mode: Mode,
    tier: Tier,
    room: u32,
    left: Parsed<'a, Expr>,
) -> Reading<'a, Expr>
    requires room { room < 1000 }
    requires low { left.height ≤ room + 1 }
    ensures gives { Gives exp result (linked (room + 1) room (link (mode_of mode) (tier_of tier)) (exp left.entry.value) left.entry.height (lexemes left.entry.rest.now)) }
    ensures low { IfOk result (λ x. x.height ≤ room + 1) }
{
    let mut found = left;
    'chain: for _ in 0..room + 1 {
        if !is_link(mode, tier, found.rest) {
            return Ok(found);
        }
        found = one_link(alloc, mode, tier, room, found)?;
    }
    if is_link(mode, tier, found.rest) {
        let rest = found.rest;
        drop(found);
        return Err(ReadFault::TooDeep(rest));
    }
    Ok(found)
}

/// Goes on with the operator of this level that comes next.
#[cycle(expressions)]
fn one_link<'a>(
    alloc: Global,
    mode: Mode,
    tier: Tier,
    room: u32,
    left: Parsed<'a, Expr>,
) -> Reading<'a, Expr>
    requires room { room < 1000 }
    requires begins { has (first language (link (mode_of mode) (tier_of tier))) (next language (lexemes left.rest.now)) ≡ true }
    ensures gives { Gives exp result (levels.one_link room (link (mode_of mode) (tier_of tier)) (exp left.entry.value) left.entry.height (lexemes left.entry.rest.now)) }
    ensures low { IfOk result (λ x. x.height ≤ room + 1) }
{
    let held = Parsed {
        value: boxed(alloc, left.value)?,
        height: left.height,
        rest: left.rest,
    };
    fits(left.height.max(1), room, left.rest)?;
    if next_is_spec(SpecWord::In, left.rest) {
        fits(2, room, left.rest)?;
        return operation(alloc, BinaryOperator::In, Operand::OwnedSet, room, held);
    }
    match operator_at(mode, tier, left.rest) {
        None => conditional(alloc, mode, room, held),
        Some(operator) => {
            let operand = Operand::Level(mode, right(operator));
            operation(alloc, operator, operand, room, held)
        }
    }
}

/// `?`, an expression, `:` and another.
#[cycle(expressions)]
#[tactic(auto, unfolding(ebnf::specs::Reading::read))]
fn conditional<'a>(
    alloc: Global,
    mode: Mode,
    room: u32,
    left: Parsed<'a, Box<Expr>>,
) -> Reading<'a, Expr>
    requires room { room < 1000 }
    requires low { left.height ≤ room }
    ensures gives { Gives exp result (joined (exp left.entry.value.value) left.entry.height (part room (levels.conditional (mode_of mode)) (lexemes left.entry.rest.now))) }
    ensures low { IfOk result (λ x. x.height ≤ room + 1) }
{
    let choice = Operand::Level(mode, Tier::Choice);
    let question = take(Sign::Question, left.rest)?;
    let yes = operand(alloc, choice, room, question.rest)?;
    let colon = take(Sign::Colon, yes.rest)?;
    let no = operand(alloc, choice, room, colon.rest)?;
    let height = left.height.max(yes.height).max(no.height) + 1;
    Ok(Parsed {
        value: Expr::Conditional(question.value, left.value, yes.value, no.value),
        height,
        rest: no.rest,
    })
}

/// An operator and what stands right of it.
#[cycle(expressions)]
#[tactic(auto, unfolding(ebnf::specs::Reading::read))]
fn operation<'a>(
    alloc: Global,
    operator: BinaryOperator,
    right: Operand,
    room: u32,
    left: Parsed<'a, Box<Expr>>,
) -> Reading<'a, Expr>
    requires room { room < 1000 }
    requires low { left.height ≤ room }
    ensures gives { Gives exp result (joined (exp left.entry.value.value) left.entry.height (part room (operands.operation operator right) (lexemes left.entry.rest.now))) }
    ensures low { IfOk result (λ x. x.height ≤ room + 1) }
{
    let sign = take_operator(operator, left.rest)?;
    let other = operand(alloc, right, room, sign.rest)?;
    let height = left.height.max(other.height) + 1;
    Ok(Parsed {
        value: Expr::Binary(sign.value, operator, left.value, other.value),
        height,
        rest: other.rest,
    })
}

/// An operand, in a box.
#[cycle(expressions)]
fn operand<'a>(
    alloc: Global,
    operand: Operand,
    room: u32,
    tokens: &'a [Token<'a>],
) -> Reading<'a, Box<Expr>>
    requires room { room < 1000 }
    ensures gives { Gives (λ b. exp b.value) result (operands.outcome room operand (lexemes tokens.now)) }
    ensures placed { Gives (λ b. exp b.value) result (part room (operands.at operand) (lexemes tokens.now)) }
    ensures low { IfOk result (λ x. x.height ≤ room) }
{
    let found = unboxed_operand(alloc, operand, room, tokens)?;
    let value = boxed(alloc, found.value)?;
    Ok(Parsed {
        value,
        height: found.height,
        rest: found.rest,
    })
}

/// An operand.
#[cycle(expressions)]
fn unboxed_operand<'a>(
    alloc: Global,
    operand: Operand,
    room: u32,
    tokens: &'a [Token<'a>],
) -> Reading<'a, Expr>
    requires room { room < 1000 }
    ensures gives { Gives exp result (operands.outcome room operand (lexemes tokens.now)) }
    ensures low { IfOk result (λ x. x.height ≤ room) }
{
    if room == 0 {
        return Err(ReadFault::TooDeep(tokens));
    }
    match operand {
        Operand::Level(mode, tier) => on_level(alloc, mode, tier, room - 1, tokens),
        Operand::OwnedSet => owned_set(alloc, room - 1, tokens),
        Operand::Membership => memberships(alloc, room - 1, tokens),
        Operand::SetBody => set_body(alloc, room - 1, tokens),
    }
}

/// An expression with `!` or `-` in front, or one with arrows behind.
#[cycle(expressions)]
fn prefix<'a>(alloc: Global, mode: Mode, room: u32, tokens: &'a [Token<'a>]) -> Reading<'a, Expr>
    requires room { room < 1000 }
    ensures gives { Gives exp result (rule_at room (g.rule (g.Level (mode_of mode) g.Prefix)) (lexemes tokens.now)) }
    ensures low { IfOk result (λ x. x.height ≤ room + 1) }
{
    if next_is(Sign::Not, tokens) {
        fits(1, room, tokens)?;
        return unary(alloc, mode, UnaryOperator::Not, room, tokens);
    }
    if next_is(Sign::Minus, tokens) {
        fits(1, room, tokens)?;
        return unary(alloc, mode, UnaryOperator::Negate, room, tokens);
    }
    let left = primary(alloc, mode, room, tokens)?;
    arrows(alloc, mode, room, left)
}

/// An operator and its operand.
#[cycle(expressions)]
#[tactic(auto, unfolding(ebnf::specs::Reading::read, ebnf::specs::Reading::read_rule))]
fn unary<'a>(
    alloc: Global,
    mode: Mode,
    operator: UnaryOperator,
    room: u32,
    tokens: &'a [Token<'a>],
) -> Reading<'a, Expr>
    requires room { room < 1000 }
    ensures gives { Gives exp result (rule_at room (levels.unary (mode_of mode) operator) (lexemes tokens.now)) }
    ensures low { IfOk result (λ x. x.height ≤ room + 1) }
{
    let sign = take_unary(operator, tokens)?;
    let inner = operand(alloc, Operand::Level(mode, Tier::Prefix), room, sign.rest)?;
    Ok(Parsed {
        value: Expr::Unary(sign.value, operator, inner.value),
        height: inner.height + 1,
        rest: inner.rest,
    })
}

/// An expression that no operator stands in, but in brackets.
#[cycle(expressions)]
pub fn primary<'a>(
    alloc: Global,
    mode: Mode,
    room: u32,
    tokens: &'a [Token<'a>],
) -> Reading<'a, Expr>
    requires room { room < 1000 }
    ensures gives { Gives exp result (rule_at room (g.primary (mode_of mode)) (lexemes tokens.now)) }
    ensures low { IfOk result (λ x. x.height ≤ room + 1) }
{
    if next_is_name(tokens) {
        return named(alloc, tokens);
    }
    match mode {
        Mode::Code => unnamed(alloc, Mode::Code, room, tokens),
        Mode::Spec => match form_at(tokens) {
            None => unnamed(alloc, Mode::Spec, room, tokens),
            Some(form) => formed(alloc, form, room, tokens),
        },
    }
}

/// A number, `NULL` or an expression in brackets.
#[cycle(expressions)]
pub fn unnamed<'a>(
    alloc: Global,
    mode: Mode,
    room: u32,
    tokens: &'a [Token<'a>],
) -> Reading<'a, Expr>
    requires room { room < 1000 }
    ensures gives { Gives exp result (rule_at room (g.unnamed (mode_of mode)) (lexemes tokens.now)) }
    ensures low { IfOk result (λ x. x.height ≤ room + 1) }
{
    if next_is_number(tokens) {
        return number(tokens);
    }
    if next_is_key(Keyword::Null, tokens) {
        return null(tokens);
    }
    if !next_is(Sign::Open, tokens) {
        return Err(ReadFault::Unexpected(tokens));
    }
    fits(1, room, tokens)?;
    group(alloc, mode, room, tokens)
}

/// An expression in brackets.
#[cycle(expressions)]
#[tactic(auto, using(crate::proofs::Primaries::brackets), unfolding(ebnf::specs::Reading::read, ebnf::specs::Reading::read_rule))]
fn group<'a>(alloc: Global, mode: Mode, room: u32, tokens: &'a [Token<'a>]) -> Reading<'a, Expr>
    requires room { room < 1000 }
    ensures gives { Gives exp result (rule_at room (g.group (mode_of mode)) (lexemes tokens.now)) }
    ensures low { IfOk result (λ x. x.height ≤ room + 1) }
{
    let open = take(Sign::Open, tokens)?;
    let inner = operand(alloc, Operand::Level(mode, top(mode)), room, open.rest)?;
    let close = take(Sign::Close, inner.rest)?;
    let height = height_in_brackets(inner.height);
    Ok(Parsed {
        value: Expr::Group(open.value, inner.value),
        height,
        rest: close.rest,
    })
}

/// How high an expression in brackets is.
fn height_in_brackets(inner: u32) -> u32
    requires room { inner < 1000 }
    ensures { result ≡ inner + 1 }
{
    inner + 1
}

/// An expression that begins with the word of a form.
#[cycle(expressions)]
fn formed<'a>(alloc: Global, form: Form, room: u32, tokens: &'a [Token<'a>]) -> Reading<'a, Expr>
    requires room { room < 1000 }
    requires here { next language (lexemes tokens.now) ≡ forms.class_of form }
    ensures gives { Gives exp result (rule_at room (g.primary g.InSpec) (lexemes tokens.now)) }
    ensures low { IfOk result (λ x. x.height ≤ room + 1) }
{
    fits(least(form), room, tokens)?;
    worded(alloc, form, room, tokens)
}

/// What a form's word begins.
#[cycle(expressions)]
fn worded<'a>(alloc: Global, form: Form, room: u32, tokens: &'a [Token<'a>]) -> Reading<'a, Expr>
    requires room { room < 1000 }
    requires fits { forms.form_low form ≤ room }
    ensures gives { Gives exp result (rule_at room (forms.rule_of form) (lexemes tokens.now)) }
    ensures low { IfOk result (λ x. x.height ≤ room + 1) }
{
    match form {
        Form::Constant(value) => constant(value, tokens),
        Form::Function(function) => apply(alloc, function, room, tokens),
        Form::Several(word) => several(alloc, word, room, tokens),
        Form::Pair(pair) => paired(alloc, pair, room, tokens),
        Form::Approval => approval(alloc, tokens),
        Form::Quantifier(quantifier) => {
            let body = Operand::Level(Mode::Spec, Tier::Equivalence);
            quantified(alloc, quantifier, body, room, tokens)
        }
    }
}

/// A word of one argument.
#[cycle(expressions)]
#[tactic(auto, unfolding(ebnf::specs::Reading::read, ebnf::specs::Reading::read_rule))]
fn apply<'a>(
    alloc: Global,
    function: SpecFunction,
    room: u32,
    tokens: &'a [Token<'a>],
) -> Reading<'a, Expr>
    requires room { room < 1000 }
    ensures gives { Gives exp result (rule_at room (forms.apply function) (lexemes tokens.now)) }
    ensures low { IfOk result (λ x. x.height ≤ room + 1) }
{
    let word = take_function(function, tokens)?;
    let open = take(Sign::Open, word.rest)?;
    let level = Operand::Level(Mode::Spec, argument_tier(function));
    let argument = operand(alloc, level, room, open.rest)?;
    let close = take(Sign::Close, argument.rest)?;
    Ok(Parsed {
        value: Expr::Apply(word.value, function, argument.value),
        height: argument.height + 1,
        rest: close.rest,
    })
}

/// A word of two arguments.
#[cycle(expressions)]
#[tactic(auto, unfolding(ebnf::specs::Reading::read, ebnf::specs::Reading::read_rule))]
fn paired<'a>(alloc: Global, pair: Pair, room: u32, tokens: &'a [Token<'a>]) -> Reading<'a, Expr>
    requires room { room < 1000 }
    ensures gives { Gives exp result (rule_at room (forms.paired pair) (lexemes tokens.now)) }
    ensures low { IfOk result (λ x. x.height ≤ room + 1) }
{
    let word = take_pair(pair, tokens)?;
    let open = take(Sign::Open, word.rest)?;
    let first = operand(
        alloc,
        Operand::Level(Mode::Spec, Tier::Choice),
        room,
        open.rest,
    )?;
    let comma = take(Sign::Comma, first.rest)?;
    let level = Operand::Level(Mode::Spec, second_tier(pair));
    let second = operand(alloc, level, room, comma.rest)?;
    let close = take(Sign::Close, second.rest)?;
    let height = first.height.max(second.height) + 1;
    Ok(Parsed {
        value: joined(pair, word.value, first.value, second.value),
        height,
        rest: close.rest,
    })
}

/// A list's word and its arguments.
#[cycle(expressions)]
#[tactic(auto, unfolding(ebnf::specs::Reading::read, ebnf::specs::Reading::read_rule))]
fn several<'a>(
    alloc: Global,
    list_word: ListWord,
    room: u32,
    tokens: &'a [Token<'a>],
) -> Reading<'a, Expr>
    requires room { room < 1000 }
    ensures gives { Gives exp result (rule_at room (forms.several list_word) (lexemes tokens.now)) }
    ensures low { IfOk result (λ x. x.height ≤ room + 1) }
{
    let word = take_list_word(list_word, tokens)?;
    let open = take(Sign::Open, word.rest)?;
    let all = list(alloc, Mode::Spec, Tier::Choice, room, open.rest)?;
    let close = take(Sign::Close, all.rest)?;
    Ok(Parsed {
        value: several_of(list_word, word.value, all.value),
        height: all.height + 1,
        rest: close.rest,
    })
}

/// A quantifier and its body.
#[cycle(expressions)]
#[tactic(auto, unfolding(ebnf::specs::Reading::read, ebnf::specs::Reading::read_rule))]
fn quantified<'a>(
    alloc: Global,
    quantifier: Quantifier,
    body: Operand,
    room: u32,
    tokens: &'a [Token<'a>],
) -> Reading<'a, Expr>
    requires room { room < 1000 }
    requires fits { 0 < room }
    ensures gives { Gives exp result (rule_at room (operands.quantified quantifier body) (lexemes tokens.now)) }
    ensures low { IfOk result (λ x. x.height ≤ room + 1) }
{
    let word = take_quantifier(quantifier, tokens)?;
    let ty = boxed_gtype(alloc, room, word.rest)?;
    let name = take_name(alloc, 1, ty.rest)?;
    let semicolon = take(Sign::Semicolon, name.rest)?;
    let held = operand(alloc, body, room, semicolon.rest)?;
    let height = ty.height.max(name.height).max(held.height) + 1;
    let (_, declared) = Box::into_inner(ty.value);
    Ok(Parsed {
        value: Expr::Quantified(word.value, quantifier, declared, name.value, held.value),
        height,
        rest: held.rest,
    })
}

/// Expressions of this level, with commas between.
#[cycle(expressions)]
pub fn list<'a>(
    alloc: Global,
    mode: Mode,
    tier: Tier,
    room: u32,
    tokens: &'a [Token<'a>],
) -> Reading<'a, Vec<Expr>>
    requires room { room < 1000 }
    ensures gives { Gives (λ v. exps v.items) result (part room (g.list (levels.whole mode tier)) (lexemes tokens.now)) }
    ensures low { IfOk result (λ x. x.height ≤ room) }
{
    let first = unboxed_operand(alloc, Operand::Level(mode, tier), room, tokens)?;
    let mut found = Parsed {
        value: single(alloc, first.value)?,
        height: first.height,
        rest: first.rest,
    };
    'more: while next_is(Sign::Comma, found.rest) {
        found = one_more(alloc, mode, tier, room, found)?;
    }
    Ok(found)
}

/// A comma, and one more expression.
#[cycle(expressions)]
#[tactic(auto, using(crate::proofs::Vectors::pushed), unfolding(ebnf::specs::Reading::read, ebnf::specs::Sets::low))]
fn one_more<'a>(
    alloc: Global,
    mode: Mode,
    tier: Tier,
    room: u32,
    before: Parsed<'a, Vec<Expr>>,
) -> Reading<'a, Vec<Expr>>
    requires room { room < 1000 }
    requires low { before.height ≤ room }
    ensures gives { Gives (λ v. exps v.items) result (extended (exps before.entry.value.items) before.entry.height (entered room (behind_comma (levels.whole mode tier)) (lexemes before.entry.rest.now))) }
    ensures low { IfOk result (λ x. x.height ≤ room) }
{
    let mut all = before.value;
    fits(1, room, before.rest)?;
    let comma = take(Sign::Comma, before.rest)?;
    let next = unboxed_operand(alloc, Operand::Level(mode, tier), room, comma.rest)?;
    add(&mut all, next.value)?;
    Ok(Parsed {
        value: all,
        height: before.height.max(next.height),
        rest: next.rest,
    })
}

/// An expression that ends with `->\owns`.
#[cycle(expressions)]
fn owned_set<'a>(alloc: Global, room: u32, tokens: &'a [Token<'a>]) -> Reading<'a, Expr>
    requires room { room < 1000 }
    ensures gives { Gives exp result (rule_at room g.owned_set (lexemes tokens.now)) }
    ensures low { IfOk result (λ x. x.height ≤ room + 1) }
{
    let left = set_start(alloc, room, tokens)?;
    climb(alloc, room, left)
}

/// What an owned set begins with: a primary of an annotation.
#[cycle(expressions)]
fn set_start<'a>(alloc: Global, room: u32, tokens: &'a [Token<'a>]) -> Reading<'a, Expr>
    requires room { room < 1000 }
    ensures gives { Gives exp result (reads language room g.SetStart (lexemes tokens.now)) }
    ensures low { IfOk result (λ x. x.height ≤ room) }
{
    if room == 0 {
        return Err(ReadFault::TooDeep(tokens));
    }
    match quantifier_at(tokens) {
        None => set_primary(alloc, room - 1, tokens),
        Some(quantifier) => set_quantifier(alloc, quantifier, room - 1, tokens),
    }
}

/// A primary of an annotation that is no quantifier.
#[cycle(expressions)]
fn set_primary<'a>(alloc: Global, room: u32, tokens: &'a [Token<'a>]) -> Reading<'a, Expr>
    requires room { room < 1000 }
    ensures gives { Gives exp result (rule_at room g.set_primary (lexemes tokens.now)) }
    ensures low { IfOk result (λ x. x.height ≤ room + 1) }
{
    if next_is_name(tokens) {
        return named(alloc, tokens);
    }
    match set_form_at(tokens) {
        None => unnamed(alloc, Mode::Spec, room, tokens),
        Some(form) => formed(alloc, form, room, tokens),
    }
}

/// The quantifier that comes next, right of `\in`.
#[cycle(expressions)]
fn set_quantifier<'a>(
    alloc: Global,
    quantifier: Quantifier,
    room: u32,
    tokens: &'a [Token<'a>],
) -> Reading<'a, Expr>
    requires room { room < 1000 }
    requires here { next language (lexemes tokens.now) ≡ forms.quantifier_class quantifier }
    ensures gives { Gives exp result (rule_at room g.set_quantifier (lexemes tokens.now)) }
    ensures low { IfOk result (λ x. x.height ≤ room + 1) }
{
    fits(3, room, tokens)?;
    quantified(alloc, quantifier, Operand::SetBody, room, tokens)
}

/// The body of a quantifier right of `\in`: memberships, `&&` between, and `==>` above.
#[cycle(expressions)]
fn set_body<'a>(alloc: Global, room: u32, tokens: &'a [Token<'a>]) -> Reading<'a, Expr>
    requires room { room < 1000 }
    ensures gives { Gives exp result (rule_at room g.set_body (lexemes tokens.now)) }
    ensures low { IfOk result (λ x. x.height ≤ room + 1) }
{
    let left = set_conjunction(alloc, room, tokens)?;
    joined_behind(alloc, Joint::Implies, room, left)
}

/// Memberships with `&&` between.
#[cycle(expressions)]
fn set_conjunction<'a>(alloc: Global, room: u32, tokens: &'a [Token<'a>]) -> Reading<'a, Expr>
    requires room { room < 1000 }
    ensures gives { Gives exp result (rule_at room g.set_conjunction (lexemes tokens.now)) }
    ensures low { IfOk result (λ x. x.height ≤ room + 1) }
{
    let left = memberships(alloc, room, tokens)?;
    joined_behind(alloc, Joint::And, room, left)
}

/// An element, and `\in` with an owned set, once at least.
#[cycle(expressions)]
fn memberships<'a>(alloc: Global, room: u32, tokens: &'a [Token<'a>]) -> Reading<'a, Expr>
    requires room { room < 1000 }
    ensures gives { Gives exp result (rule_at room g.memberships (lexemes tokens.now)) }
    ensures low { IfOk result (λ x. x.height ≤ room + 1) }
{
    let left = first_membership(alloc, room, tokens)?;
    joined_behind(alloc, Joint::In, room, left)
}

/// An element, and `\in` with an owned set.
#[cycle(expressions)]
fn first_membership<'a>(alloc: Global, room: u32, tokens: &'a [Token<'a>]) -> Reading<'a, Expr>
    requires room { room < 1000 }
    ensures gives { Gives exp result (rule_at room g.first_membership (lexemes tokens.now)) }
    ensures low { IfOk result (λ x. x.height ≤ room + 1) }
{
    let left = element(alloc, room, tokens)?;
    let held = Parsed {
        value: boxed(alloc, left.value)?,
        height: left.height,
        rest: left.rest,
    };
    operation(alloc, BinaryOperator::In, Operand::OwnedSet, room, held)
}

/// What stands left of an `\in` in such a body: a primary with arrows behind.
#[cycle(expressions)]
fn element<'a>(alloc: Global, room: u32, tokens: &'a [Token<'a>]) -> Reading<'a, Expr>
    requires room { room < 1000 }
    ensures gives { Gives exp result (reads language room g.Element (lexemes tokens.now)) }
    ensures low { IfOk result (λ x. x.height ≤ room) }
{
    if room == 0 {
        return Err(ReadFault::TooDeep(tokens));
    }
    let left = element_start(alloc, room - 1, tokens)?;
    arrows(alloc, Mode::Spec, room - 1, left)
}

/// What an element begins with: a quantifier has an arrow behind.
#[cycle(expressions)]
fn element_start<'a>(alloc: Global, room: u32, tokens: &'a [Token<'a>]) -> Reading<'a, Expr>
    requires room { room < 1000 }
    ensures gives { Gives exp result (rule_at room g.element_start (lexemes tokens.now)) }
    ensures low { IfOk result (λ x. x.height ≤ room + 1) }
{
    let Some(quantifier) = quantifier_at(tokens) else {
        return set_primary(alloc, room, tokens);
    };
    fits(4, room, tokens)?;
    quantified_field(alloc, quantifier, room, tokens)
}

/// A quantifier with an arrow behind.
#[cycle(expressions)]
fn quantified_field<'a>(
    alloc: Global,
    quantifier: Quantifier,
    room: u32,
    tokens: &'a [Token<'a>],
) -> Reading<'a, Expr>
    requires room { room < 1000 }
    requires fits { 0 < room }
    requires here { next language (lexemes tokens.now) ≡ forms.quantifier_class quantifier }
    ensures gives { Gives exp result (rule_at room g.quantified_field (lexemes tokens.now)) }
    ensures low { IfOk result (λ x. x.height ≤ room + 1) }
{
    let left = set_quantifier(alloc, quantifier, room - 1, tokens)?;
    first_arrow(alloc, room, left)
}

/// Goes on with this joint. Each adds a level of height, so there are no more of them than there is room.
#[cycle(expressions)]
fn joined_behind<'a>(
    alloc: Global,
    joint: Joint,
    room: u32,
    left: Parsed<'a, Expr>,
) -> Reading<'a, Expr>
    requires room { room < 1000 }
    requires low { left.height ≤ room + 1 }
    ensures gives { Gives exp result (linked (room + 1) room (joints.following joint) (exp left.entry.value) left.entry.height (lexemes left.entry.rest.now)) }
    ensures low { IfOk result (λ x. x.height ≤ room + 1) }
{
    let mut found = left;
    'chain: for _ in 0..room + 1 {
        if !next_joins(joint, found.rest) {
            return Ok(found);
        }
        found = one_joint(alloc, joint, room, found)?;
    }
    if next_joins(joint, found.rest) {
        let rest = found.rest;
        drop(found);
        return Err(ReadFault::TooDeep(rest));
    }
    Ok(found)
}

/// Goes on with the joint that comes next.
#[cycle(expressions)]
fn one_joint<'a>(
    alloc: Global,
    joint: Joint,
    room: u32,
    left: Parsed<'a, Expr>,
) -> Reading<'a, Expr>
    requires room { room < 1000 }
    ensures gives { Gives exp result (levels.one_link room (joints.following joint) (exp left.entry.value) left.entry.height (lexemes left.entry.rest.now)) }
    ensures low { IfOk result (λ x. x.height ≤ room + 1) }
{
    let held = Parsed {
        value: boxed(alloc, left.value)?,
        height: left.height,
        rest: left.rest,
    };
    fits(left.height.max(least_behind(joint)), room, left.rest)?;
    let (operator, right) = following(joint);
    operation(alloc, operator, right, room, held)
}
