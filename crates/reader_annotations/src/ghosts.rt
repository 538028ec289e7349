//! Ghost statements.

ghost use Rattle.std.specs.Prelude.{◌≡◌, ◌≤◌, ◌<◌, ◌+◌, true, map, IfOk, IfErr};
ghost use Rattle.std.specs.Option.{option_map};
ghost use Rattle.ebnf.specs.Sets.{has, first};
ghost use Rattle.ebnf.specs.Derives.{next};
ghost use Rattle.ebnf.specs.Reading.{reads};
ghost use Rattle.c_syntax.specs.Ghosts as h;
ghost use Rattle.c_syntax.specs.Grammar as g;
ghost use Rattle.c_syntax.specs.Language.{language};
ghost use Rattle.c_syntax.specs.Views.{exp, ghost as ghost_of};
ghost use Rattle.reader_expressions.specs.Reading.{Gives, lexemes, part, rule_at, entered, extended};
ghost use Rattle.reader_annotations.specs.Rows as rows;

use crate::brackets::close_bracket;
use crate::ghost_rights::semicolon_or_none;
use crate::simple::{assigned_name, assigned_other, declared, destroyed, wrapped};
use c_syntax::expressions::Expr;
use c_syntax::ghosts::GhostStmt;
use c_syntax::token::{Keyword, Sign, Span, SpecWord, Token};
use reader_assignments::calls::code;
use reader_expressions::memory::{add, boxed};
use reader_expressions::reading::{Parsed, ReadFault, Reading, fits};
use reader_expressions::tokens::{
    next_is, next_is_key, next_is_name, next_is_number, next_is_spec, take, take_key,
};
use std::alloc::Global;

/// Whether the type of a ghost variable comes next.
#[tactic(auto, unfolding(ebnf::specs::Sets::first, ebnf::specs::Sets::is_empty))]
fn begins_type<'a>(tokens: &'a [Token<'a>]) -> bool
    ensures { result ≡ has (first language g.gtype) (next language (lexemes tokens.now)) }
{
    next_is_key(Keyword::Int, tokens)
        || next_is_key(Keyword::Long, tokens)
        || next_is_key(Keyword::Unsigned, tokens)
        || next_is_key(Keyword::Struct, tokens)
        || next_is_spec(SpecWord::Object, tokens)
        || next_is_spec(SpecWord::Claim, tokens)
}

/// Whether a number, `NULL` or a bracket comes next.
#[tactic(auto, unfolding(ebnf::specs::Sets::first, ebnf::specs::Sets::is_empty))]
fn begins_other<'a>(tokens: &'a [Token<'a>]) -> bool
    ensures { result ≡ has (first language rows.other) (next language (lexemes tokens.now)) }
{
    next_is_number(tokens) || next_is_key(Keyword::Null, tokens) || next_is(Sign::Open, tokens)
}

/// Whether a ghost statement comes next.
#[tactic(auto, unfolding(ebnf::specs::Sets::first, ebnf::specs::Sets::is_empty))]
fn begins_statement<'a>(tokens: &'a [Token<'a>]) -> bool
    ensures { result ≡ has (first language rows.statement) (next language (lexemes tokens.now)) }
{
    begins_type(tokens)
        || next_is_name(tokens)
        || begins_other(tokens)
        || next_is_spec(SpecWord::DestroyClaim, tokens)
        || next_is(Sign::Annotation, tokens)
        || next_is_key(Keyword::If, tokens)
}

/// An expression in brackets.
#[tactic(auto, unfolding(ebnf::specs::Reading::read))]
fn in_brackets<'a>(alloc: Global, room: u32, tokens: &'a [Token<'a>]) -> Reading<'a, Expr>
    requires room { room < 1000 }
    ensures gives { Gives exp result (part room rows.in_brackets (lexemes tokens.now)) }
    ensures low { IfOk result (λ x. x.height ≤ room) }
{
    let start = take(Sign::Open, tokens)?;
    let whole = close_bracket(code(alloc, room, start.rest)?)?;
    Ok(whole)
}

/// An `if`, with an `else` where there is one.
fn if_of(
    span: Span,
    condition: Expr,
    then: Box<GhostStmt>,
    other: Option<Box<GhostStmt>>,
) -> GhostStmt
    ensures { ghost_of result ≡ g.ghost_if span (exp condition) (ghost_of then.value) (option_map (λ x. ghost_of x.value) other) }
{
    match other {
        None => GhostStmt::If(span, condition, then),
        Some(other) => GhostStmt::IfElse(span, condition, then, other),
    }
}

/// A block of ghost statements.
fn block_of(span: Span, all: Vec<GhostStmt>) -> GhostStmt
    ensures { ghost_of result ≡ h.Block span (g.ghosts_of (map ghost_of all.items)) }
{
    GhostStmt::Block(span, all)
}

/// `else` and a statement.
#[cycle(statement)]
#[tactic(auto, using(reader_assignments::proofs::Parts::rows))]
fn some_else<'a>(
    alloc: Global,
    room: u32,
    tokens: &'a [Token<'a>],
) -> Reading<'a, Option<Box<GhostStmt>>>
    requires room { room < 1000 }
    ensures gives { Gives (option_map (λ x. ghost_of x.value)) result (part room rows.some_else (lexemes tokens.now)) }
    ensures low { IfOk result (λ x. x.height ≤ room) }
{
    let word = take_key(Keyword::Else, tokens)?;
    let body = ghost_body(alloc, room, word.rest)?;
    let held = boxed(alloc, body.value)?;
    Ok(Parsed {
        value: Some(held),
        height: body.height,
        rest: body.rest,
    })
}

/// `else` and a statement, if they are there.
#[cycle(statement)]
#[tactic(auto, using(crate::proofs::Chosen::else_read, crate::proofs::Chosen::else_deep, crate::proofs::Chosen::no_else))]
fn else_or_none<'a>(
    alloc: Global,
    room: u32,
    tokens: &'a [Token<'a>],
) -> Reading<'a, Option<Box<GhostStmt>>>
    requires room { room < 1000 }
    ensures gives { Gives (option_map (λ x. ghost_of x.value)) result (part room rows.else_or_none (lexemes tokens.now)) }
    ensures low { IfOk result (λ x. x.height ≤ room) }
{
    if !next_is_key(Keyword::Else, tokens) {
        return Ok(Parsed {
            value: None,
            height: 0,
            rest: tokens,
        });
    }
    fits(1, room, tokens)?;
    some_else(alloc, room, tokens)
}

/// An `if`, one level of height down.
#[cycle(statement)]
#[tactic(auto, unfolding(ebnf::specs::Reading::read_rule), using(reader_assignments::proofs::Parts::rows))]
fn if_rule<'a>(alloc: Global, room: u32, tokens: &'a [Token<'a>]) -> Reading<'a, GhostStmt>
    requires room { room < 1000 }
    ensures gives { Gives ghost_of result (rule_at room rows.if_rule (lexemes tokens.now)) }
    ensures low { IfOk result (λ x. x.height ≤ room + 1) }
{
    let word = take_key(Keyword::If, tokens)?;
    let condition = in_brackets(alloc, room, word.rest)?;
    let test = boxed(alloc, condition.value)?;
    let then = ghost_body(alloc, room, condition.rest)?;
    let held = boxed(alloc, then.value)?;
    let other = else_or_none(alloc, room, then.rest)?;
    let end = semicolon_or_none(room, other.rest)?;
    let height = condition.height.max(then.height).max(other.height) + 1;
    Ok(Parsed {
        value: if_of(word.value, Box::into_inner(test), held, other.value),
        height,
        rest: end.rest,
    })
}

/// A ghost statement, where one comes next and there is room for one.
#[cycle(statement)]
#[tactic(auto, using(crate::proofs::Statements::declared_read, crate::proofs::Statements::name_read, crate::proofs::Statements::other_read, crate::proofs::Statements::other_deep, crate::proofs::Statements::destroyed_read, crate::proofs::Statements::wrapped_read, crate::proofs::Statements::if_read))]
fn chosen<'a>(alloc: Global, room: u32, tokens: &'a [Token<'a>]) -> Reading<'a, GhostStmt>
    requires room { room < 1000 }
    requires enough { 1 ≤ room }
    requires begins { has (first language rows.statement) (next language (lexemes tokens.now)) ≡ true }
    ensures gives { Gives ghost_of result (rule_at room g.ghost_statement (lexemes tokens.now)) }
    ensures low { IfOk result (λ x. x.height ≤ room + 1) }
{
    if begins_type(tokens) {
        return declared(alloc, room, tokens);
    }
    if next_is_name(tokens) {
        return assigned_name(alloc, room, tokens);
    }
    if begins_other(tokens) {
        fits(2, room, tokens)?;
        return assigned_other(alloc, room, tokens);
    }
    if next_is_spec(SpecWord::DestroyClaim, tokens) {
        return destroyed(alloc, room, tokens);
    }
    if next_is(Sign::Annotation, tokens) {
        return wrapped(alloc, room, tokens);
    }
    if_rule(alloc, room, tokens)
}

/// A ghost statement, one level of height down.
#[cycle(statement)]
#[tactic(auto, using(crate::proofs::Statements::none_read, crate::proofs::Statements::deep_read))]
fn statement_rule<'a>(alloc: Global, room: u32, tokens: &'a [Token<'a>]) -> Reading<'a, GhostStmt>
    requires room { room < 1000 }
    ensures gives { Gives ghost_of result (rule_at room g.ghost_statement (lexemes tokens.now)) }
    ensures low { IfOk result (λ x. x.height ≤ room + 1) }
{
    if !begins_statement(tokens) {
        return Err(ReadFault::Unexpected(tokens));
    }
    fits(1, room, tokens)?;
    chosen(alloc, room, tokens)
}

/// A ghost statement that is no block.
#[cycle(statement)]
#[tactic(auto, unfolding(ebnf::specs::Reading::reads))]
pub fn ghost_statement<'a>(
    alloc: Global,
    room: u32,
    tokens: &'a [Token<'a>],
) -> Reading<'a, GhostStmt>
    requires room { room < 1000 }
    ensures gives { Gives ghost_of result (reads language room g.GhostStatement (lexemes tokens.now)) }
    ensures low { IfOk result (λ x. x.height ≤ room) }
{
    if room == 0 {
        return Err(ReadFault::TooDeep(tokens));
    }
    statement_rule(alloc, room - 1, tokens)
}

/// One more ghost statement behind those that were found.
#[cycle(statement)]
#[tactic(auto, unfolding(ebnf::specs::Reading::read, ebnf::specs::Sets::low))]
fn add_statement<'a>(
    alloc: Global,
    room: u32,
    found: Parsed<'a, Vec<GhostStmt>>,
) -> Reading<'a, Vec<GhostStmt>>
    requires room { room < 1000 }
    requires low { found.height ≤ room }
    ensures gives { Gives (λ v. map ghost_of v.items) result (extended (map ghost_of found.entry.value.items) found.entry.height (entered room rows.statement (lexemes found.entry.rest.now))) }
    ensures low { IfOk result (λ x. x.height ≤ room) }
{
    fits(2, room, found.rest)?;
    let next = ghost_statement(alloc, room, found.rest)?;
    let height = found.height.max(next.height);
    let mut all = found.value;
    add(&mut all, next.value)?;
    Ok(Parsed {
        value: all,
        height,
        rest: next.rest,
    })
}

/// Ghost statements, as many as there are.
#[cycle(statement)]
fn statements<'a>(alloc: Global, room: u32, tokens: &'a [Token<'a>]) -> Reading<'a, Vec<GhostStmt>>
    requires room { room < 1000 }
    ensures gives { Gives (λ v. map ghost_of v.items) result (part room rows.statements (lexemes tokens.now)) }
    ensures low { IfOk result (λ x. x.height ≤ room) }
{
    let mut found = Parsed {
        value: Vec::new(alloc),
        height: 0,
        rest: tokens,
    };
    while begins_statement(found.rest) {
        found = add_statement(alloc, room, found)?;
    }
    Ok(found)
}

/// A block, one level of height down.
#[cycle(statement)]
#[tactic(auto, unfolding(ebnf::specs::Reading::read_rule), using(reader_assignments::proofs::Parts::rows))]
fn block_rule<'a>(alloc: Global, room: u32, tokens: &'a [Token<'a>]) -> Reading<'a, GhostStmt>
    requires room { room < 1000 }
    ensures gives { Gives ghost_of result (rule_at room rows.block (lexemes tokens.now)) }
    ensures low { IfOk result (λ x. x.height ≤ room + 1) }
{
    let start = take(Sign::BraceOpen, tokens)?;
    let all = statements(alloc, room, start.rest)?;
    let end = take(Sign::BraceClose, all.rest)?;
    Ok(Parsed {
        value: block_of(start.value, all.value),
        height: all.height + 1,
        rest: end.rest,
    })
}

/// A ghost statement or a block, one level of height down.
#[cycle(statement)]
#[tactic(auto, using(crate::proofs::Statements::block_read, crate::proofs::Statements::body_read))]
fn body_rule<'a>(alloc: Global, room: u32, tokens: &'a [Token<'a>]) -> Reading<'a, GhostStmt>
    requires room { room < 1000 }
    ensures gives { Gives ghost_of result (rule_at room g.ghost_body (lexemes tokens.now)) }
    ensures low { IfOk result (λ x. x.height ≤ room + 1) }
{
    if next_is(Sign::BraceOpen, tokens) {
        return block_rule(alloc, room, tokens);
    }
    statement_rule(alloc, room, tokens)
}

/// A ghost statement or a block of them.
#[cycle(statement)]
#[tactic(auto, unfolding(ebnf::specs::Reading::reads))]
pub fn ghost_body<'a>(alloc: Global, room: u32, tokens: &'a [Token<'a>]) -> Reading<'a, GhostStmt>
    requires room { room < 1000 }
    ensures gives { Gives ghost_of result (reads language room g.GhostBody (lexemes tokens.now)) }
    ensures low { IfOk result (λ x. x.height ≤ room) }
{
    if room == 0 {
        return Err(ReadFault::TooDeep(tokens));
    }
    body_rule(alloc, room - 1, tokens)
}
