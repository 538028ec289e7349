//! The clauses of contracts.

ghost use Rattle.std.specs.Prelude.{◌≡◌, ◌≤◌, ◌<◌, ◌+◌, true, map, IfOk};
ghost use Rattle.ebnf.specs.Sets.{has, first};
ghost use Rattle.ebnf.specs.Derives.{next};
ghost use Rattle.ebnf.specs.Reading.{reads};
ghost use Rattle.c_syntax.specs.Grammar as g;
ghost use Rattle.c_syntax.specs.Language.{language};
ghost use Rattle.c_syntax.specs.Views.{clause as clause_of};
ghost use Rattle.reader_expressions.specs.Reading.{Gives, lexemes, part, rule_at, entered, extended};
ghost use Rattle.reader_items.specs.Rows as rows;
ghost use Rattle.reader_items.specs.Views as views;

use crate::writes::written_list;
use c_syntax::expressions::Expr;
use c_syntax::items::{Clause, WritesItem};
use c_syntax::token::{Keyword, Sign, Span, Token};
use c_syntax::tree::Condition;
use reader_annotations::ghost_rights::property;
use reader_expressions::memory::add;
use reader_expressions::reading::{Parsed, ReadFault, Reading, fits};
use reader_expressions::tokens::{next_is, next_is_key, take, take_key};
use std::alloc::Global;

/// A clause without the place of its `_(`.
#[derive(Drop)]
pub enum Promise {
    Condition(Condition, Expr),
    Writes(Vec<WritesItem>),
}

/// The word of a condition.
fn word_of(condition: Condition) -> Keyword
    ensures { result ≡ rows.condition_word condition }
{
    match condition {
        Condition::Requires => Keyword::Requires,
        Condition::Ensures => Keyword::Ensures,
        Condition::Maintains => Keyword::Maintains,
    }
}

/// The word of a condition, and the property.
#[tactic(auto, unfolding(ebnf::specs::Reading::read))]
fn condition<'a>(
    alloc: Global,
    condition: Condition,
    room: u32,
    tokens: &'a [Token<'a>],
) -> Reading<'a, Promise>
    requires room { room < 1000 }
    ensures gives { Gives views.promise result (part room (rows.condition condition) (lexemes tokens.now)) }
    ensures low { IfOk result (λ x. x.height ≤ room) }
{
    let word = take_key(word_of(condition), tokens)?;
    let found = property(alloc, room, word.rest)?;
    Ok(Parsed {
        value: Promise::Condition(condition, found.value),
        height: found.height,
        rest: found.rest,
    })
}

/// `writes`, and what may be written.
#[tactic(auto, using(reader_assignments::proofs::Parts::rows))]
fn writes<'a>(alloc: Global, room: u32, tokens: &'a [Token<'a>]) -> Reading<'a, Promise>
    requires room { room < 1000 }
    ensures gives { Gives views.promise result (part room rows.writes (lexemes tokens.now)) }
    ensures low { IfOk result (λ x. x.height ≤ room) }
{
    let word = take_key(Keyword::Writes, tokens)?;
    let found = written_list(alloc, room, word.rest)?;
    Ok(Parsed {
        value: Promise::Writes(found.value),
        height: found.height,
        rest: found.rest,
    })
}

/// Whether the word of a clause comes next.
#[tactic(auto, unfolding(ebnf::specs::Sets::first, ebnf::specs::Sets::is_empty))]
fn begins_promise<'a>(tokens: &'a [Token<'a>]) -> bool
    ensures { result ≡ has (first language g.clause_tail) (next language (lexemes tokens.now)) }
{
    next_is_key(Keyword::Requires, tokens)
        || next_is_key(Keyword::Ensures, tokens)
        || next_is_key(Keyword::Maintains, tokens)
        || next_is_key(Keyword::Writes, tokens)
}

/// What stands behind `_(`, where the word of a clause comes next and there is room for one.
#[tactic(auto, using(crate::proofs::Promises::requires_read, crate::proofs::Promises::ensures_read, crate::proofs::Promises::maintains_read, crate::proofs::Promises::writes_read))]
fn begun_promise<'a>(alloc: Global, room: u32, tokens: &'a [Token<'a>]) -> Reading<'a, Promise>
    requires room { room < 1000 }
    requires enough { 1 ≤ room }
    requires begins { has (first language g.clause_tail) (next language (lexemes tokens.now)) ≡ true }
    ensures gives { Gives views.promise result (part room g.clause_tail (lexemes tokens.now)) }
    ensures low { IfOk result (λ x. x.height ≤ room) }
{
    if next_is_key(Keyword::Requires, tokens) {
        return condition(alloc, Condition::Requires, room, tokens);
    }
    if next_is_key(Keyword::Ensures, tokens) {
        return condition(alloc, Condition::Ensures, room, tokens);
    }
    if next_is_key(Keyword::Maintains, tokens) {
        return condition(alloc, Condition::Maintains, room, tokens);
    }
    writes(alloc, room, tokens)
}

/// What stands behind `_(`.
#[tactic(auto, using(crate::proofs::Promises::no_promise, crate::proofs::Promises::promise_deep))]
fn clause_tail<'a>(alloc: Global, room: u32, tokens: &'a [Token<'a>]) -> Reading<'a, Promise>
    requires room { room < 1000 }
    ensures gives { Gives views.promise result (part room g.clause_tail (lexemes tokens.now)) }
    ensures low { IfOk result (λ x. x.height ≤ room) }
{
    if !begins_promise(tokens) {
        return Err(ReadFault::Unexpected(tokens));
    }
    fits(1, room, tokens)?;
    begun_promise(alloc, room, tokens)
}

/// The clause, with the place of its `_(`.
fn clause_at(span: Span, promise: Promise) -> Clause
    ensures { clause_of result ≡ views.promise promise span }
{
    match promise {
        Promise::Condition(condition, property) => Clause::Condition(span, condition, property),
        Promise::Writes(all) => Clause::Writes(span, all),
    }
}

/// A clause, one level of height down.
#[tactic(auto, unfolding(ebnf::specs::Reading::read_rule), using(reader_assignments::proofs::Parts::rows))]
fn clause_rule<'a>(alloc: Global, room: u32, tokens: &'a [Token<'a>]) -> Reading<'a, Clause>
    requires room { room < 1000 }
    ensures gives { Gives clause_of result (rule_at room g.clause_of (lexemes tokens.now)) }
    ensures low { IfOk result (λ x. x.height ≤ room + 1) }
{
    let start = take(Sign::Annotation, tokens)?;
    let found = clause_tail(alloc, room, start.rest)?;
    let end = take(Sign::Close, found.rest)?;
    Ok(Parsed {
        value: clause_at(start.value, found.value),
        height: found.height + 1,
        rest: end.rest,
    })
}

/// A clause of a contract.
#[tactic(auto, unfolding(ebnf::specs::Reading::reads))]
pub fn clause<'a>(alloc: Global, room: u32, tokens: &'a [Token<'a>]) -> Reading<'a, Clause>
    requires room { room < 1000 }
    ensures gives { Gives clause_of result (reads language room g.ClauseOf (lexemes tokens.now)) }
    ensures low { IfOk result (λ x. x.height ≤ room) }
{
    if room == 0 {
        return Err(ReadFault::TooDeep(tokens));
    }
    clause_rule(alloc, room - 1, tokens)
}

/// One more clause behind those that were found.
#[tactic(auto, unfolding(ebnf::specs::Reading::read, ebnf::specs::Sets::low))]
fn add_clause<'a>(
    alloc: Global,
    room: u32,
    found: Parsed<'a, Vec<Clause>>,
) -> Reading<'a, Vec<Clause>>
    requires room { room < 1000 }
    requires low { found.height ≤ room }
    ensures gives { Gives (λ v. map clause_of v.items) result (extended (map clause_of found.entry.value.items) found.entry.height (entered room rows.one_clause (lexemes found.entry.rest.now))) }
    ensures low { IfOk result (λ x. x.height ≤ room) }
{
    fits(2, room, found.rest)?;
    let next = clause(alloc, room, found.rest)?;
    let height = found.height.max(next.height);
    let mut all = found.value;
    add(&mut all, next.value)?;
    Ok(Parsed {
        value: all,
        height,
        rest: next.rest,
    })
}

/// The clauses of a contract, as many as there are.
pub fn clauses<'a>(alloc: Global, room: u32, tokens: &'a [Token<'a>]) -> Reading<'a, Vec<Clause>>
    requires room { room < 1000 }
    ensures gives { Gives (λ v. map clause_of v.items) result (part room rows.clauses (lexemes tokens.now)) }
    ensures low { IfOk result (λ x. x.height ≤ room) }
{
    let mut found = Parsed {
        value: Vec::new(alloc),
        height: 0,
        rest: tokens,
    };
    'more: while next_is(Sign::Annotation, found.rest) {
        found = add_clause(alloc, room, found)?;
    }
    Ok(found)
}
