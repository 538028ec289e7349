//! Statements up to the first statement that each of them holds.

ghost use Rattle.std.specs.Prelude.{◌≡◌, ◌≤◌, ◌<◌, ◌+◌, IfOk};
ghost use Rattle.c_syntax.specs.Grammar as g;
ghost use Rattle.c_syntax.specs.Views.{exp};
ghost use Rattle.reader_expressions.specs.Reading.{Gives, lexemes, part, rule_at};
ghost use Rattle.reader_statements.specs.Fronts.{Begins, as_front, for_test as for_test_row};
ghost use Rattle.reader_statements.specs.Rows as rows;
ghost use Rattle.reader_statements.specs.Views.{maybe_boxed};

use crate::annotations::annotation;
use crate::blocks::{Front, LoopFront};
use crate::kinds::{Kind, kind_at, least};
use crate::loops::maybe_assigned;
use crate::simple::{
    declaration, free_statement, inside, named, other, return_statement, skip, spawn,
};
use c_syntax::expressions::{Assignment, Expr};
use c_syntax::statements::Stmt;
use c_syntax::token::{Keyword, Sign, Token};
use reader_assignments::calls::code;
use reader_assignments::ends::ended;
use reader_expressions::reading::{Parsed, ReadFault, Reading, fits};
use reader_expressions::tokens::{next_is, take, take_key};
use std::alloc::Global;
use tree_building::pair_with;

/// A statement that holds no other, as a front.
fn whole<'a>(found: Reading<'a, Box<Stmt>>) -> Reading<'a, Front>
    ensures { result ≡ as_front found.entry }
{
    match found {
        Ok(found) => Ok(Parsed {
            value: Front::Whole(found.value),
            height: found.height,
            rest: found.rest,
        }),
        Err(fault) => Err(fault),
    }
}

/// `if` and its condition, one level of height down.
#[tactic(auto, using(crate::proofs::Openings::branch_is))]
fn if_front<'a>(alloc: Global, room: u32, tokens: &'a [Token<'a>]) -> Reading<'a, Front>
    requires room { room < 1000 }
    ensures begins { Begins room result (rule_at room (rows.branch (λ x. x)) (lexemes tokens.now)) }
    ensures low { IfOk result (λ x. x.height ≤ room + 1) }
{
    let word = take_key(Keyword::If, tokens)?;
    let condition = inside(alloc, room, word.rest)?;
    Ok(Parsed {
        value: Front::Branch(word.value, condition.value),
        height: condition.height + 1,
        rest: condition.rest,
    })
}

/// `while` and its condition, one level of height down.
#[tactic(auto, using(crate::proofs::Openings::while_is))]
fn while_front<'a>(alloc: Global, room: u32, tokens: &'a [Token<'a>]) -> Reading<'a, Front>
    requires room { room < 1000 }
    ensures begins { Begins room result (rule_at room (rows.while_loop (λ x. x)) (lexemes tokens.now)) }
    ensures low { IfOk result (λ x. x.height ≤ room + 1) }
{
    let word = take_key(Keyword::While, tokens)?;
    let condition = inside(alloc, room, word.rest)?;
    Ok(Parsed {
        value: Front::Loop(LoopFront::While(word.value, condition.value)),
        height: condition.height + 1,
        rest: condition.rest,
    })
}

/// `do`, one level of height down.
#[tactic(auto, using(crate::proofs::Openings::do_is))]
fn do_front<'a>(room: u32, tokens: &'a [Token<'a>]) -> Reading<'a, Front>
    ensures begins { Begins room result (rule_at room (rows.do_loop (λ x. x)) (lexemes tokens.now)) }
    ensures low { IfOk result (λ x. x.height ≤ room + 1) }
{
    let word = take_key(Keyword::Do, tokens)?;
    Ok(Parsed {
        value: Front::Loop(LoopFront::Do(word.value)),
        height: 1,
        rest: word.rest,
    })
}

/// What stands in a `for` behind the first `;`, up to the body.
#[tactic(auto, using(reader_assignments::proofs::Parts::rows))]
fn for_test<'a>(
    alloc: Global,
    room: u32,
    tokens: &'a [Token<'a>],
) -> Reading<'a, (Expr, Option<Box<Assignment>>)>
    requires room { room < 1000 }
    ensures gives { Gives (λ x. (exp x.0, maybe_boxed x.1)) result (part room for_test_row (lexemes tokens.now)) }
    ensures low { IfOk result (λ x. x.height ≤ room) }
{
    let condition = code(alloc, room, tokens)?;
    let sign = ended(Sign::Semicolon, condition)?;
    let (condition, _) = sign.value;
    let (condition, change) = pair_with(condition, maybe_assigned(alloc, room, sign.rest))?;
    let height = sign.height.max(change.height);
    let (condition, close) = pair_with(condition, ended(Sign::Close, change))?;
    let (change, _) = close.value;
    Ok(Parsed {
        value: (condition, change),
        height,
        rest: close.rest,
    })
}

/// `for` and its brackets, one level of height down.
#[tactic(auto, using(crate::proofs::Openings::for_is))]
fn for_front<'a>(alloc: Global, room: u32, tokens: &'a [Token<'a>]) -> Reading<'a, Front>
    requires room { room < 1000 }
    ensures begins { Begins room result (rule_at room (rows.for_loop (λ x. x)) (lexemes tokens.now)) }
    ensures low { IfOk result (λ x. x.height ≤ room + 1) }
{
    let word = take_key(Keyword::For, tokens)?;
    let open = take(Sign::Open, word.rest)?;
    let first = maybe_assigned(alloc, room, open.rest)?;
    let sign = ended(Sign::Semicolon, first)?;
    let (first, _) = sign.value;
    let (first, test) = pair_with(first, for_test(alloc, room, sign.rest))?;
    let (condition, change) = test.value;
    Ok(Parsed {
        value: Front::Loop(LoopFront::For(word.value, first, condition, change)),
        height: sign.height.max(test.height) + 1,
        rest: test.rest,
    })
}

/// A block, of which nothing is read.
fn block_front<'a>(room: u32, tokens: &'a [Token<'a>]) -> Reading<'a, Front>
    ensures begins { Begins room result (rule_at room (rows.block (λ x. x)) (lexemes tokens.now)) }
    ensures low { IfOk result (λ x. x.height ≤ 0) }
{
    Ok(Parsed {
        value: Front::Block,
        height: 0,
        rest: tokens,
    })
}

/// A statement of this kind, one level of height down.
#[tactic(auto, using(crate::proofs::Openings::whole_low, crate::proofs::Openings::skip_low))]
fn of_kind<'a>(alloc: Global, kind: Kind, room: u32, tokens: &'a [Token<'a>]) -> Reading<'a, Front>
    requires room { room < 1000 }
    requires fits { rows.kind_low kind ≤ room }
    ensures begins { Begins room result (rule_at room (rows.rule_of (λ x. x) kind) (lexemes tokens.now)) }
    ensures low { IfOk result (λ x. x.height ≤ room + 1) }
{
    match kind {
        Kind::Block => block_front(room, tokens),
        Kind::Skip => whole(skip(alloc, tokens)),
        Kind::Declaration => whole(declaration(alloc, room, tokens)),
        Kind::Named => whole(named(alloc, room, tokens)),
        Kind::Other => whole(other(alloc, room, tokens)),
        Kind::Branch => if_front(alloc, room, tokens),
        Kind::While => while_front(alloc, room, tokens),
        Kind::Do => do_front(room, tokens),
        Kind::For => for_front(alloc, room, tokens),
        Kind::Return => whole(return_statement(alloc, room, tokens)),
        Kind::Spawn => whole(spawn(alloc, room, tokens)),
        Kind::Free => whole(free_statement(alloc, room, tokens)),
    }
}

/// A statement that doesn't begin with `_(`, one level of height down.
fn simple<'a>(alloc: Global, room: u32, tokens: &'a [Token<'a>]) -> Reading<'a, Front>
    requires room { room < 1000 }
    ensures begins { Begins room result (rule_at room (g.simple (λ x. x)) (lexemes tokens.now)) }
    ensures low { IfOk result (λ x. x.height ≤ room + 1) }
{
    let Some(kind) = kind_at(tokens) else {
        return Err(ReadFault::Unexpected(tokens));
    };
    fits(least(kind), room, tokens)?;
    of_kind(alloc, kind, room, tokens)
}

/// A statement up to the first that it holds, one level of height down.
pub fn front<'a>(alloc: Global, room: u32, tokens: &'a [Token<'a>]) -> Reading<'a, Front>
    requires room { room < 1000 }
    ensures begins { Begins room result (rule_at room g.statement (lexemes tokens.now)) }
    ensures low { IfOk result (λ x. x.height ≤ room + 1) }
{
    if next_is(Sign::Annotation, tokens) {
        fits(1, room, tokens)?;
        return annotation(alloc, room, tokens);
    }
    simple(alloc, room, tokens)
}
