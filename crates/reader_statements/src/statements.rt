//! Statements, and those that they hold.

ghost use Rattle.std.specs.Prelude.{◌≡◌, ◌≤◌, ◌<◌, ◌+◌, max, map, IfOk};
ghost use Rattle.std.specs.Option.{option_map};
ghost use Rattle.ebnf.specs.Reading.{reads};
ghost use Rattle.ebnf.specs.Rules.{form};
ghost use Rattle.c_syntax.specs.Grammar as g;
ghost use Rattle.c_syntax.specs.Language.{language};
ghost use Rattle.c_syntax.specs.Views.{exp, stm};
ghost use Rattle.reader_expressions.specs.Reading.{Gives, lexemes, part, rule_at, extended, entered};
ghost use Rattle.reader_statements.specs.Fronts.{above, completed, if_end, looped};
ghost use Rattle.reader_statements.specs.Rows as rows;
ghost use Rattle.reader_statements.specs.Views.{braces, body, holding, in_box};

use crate::blocks::{
    Block, BlockFront, Body, Front, LoopFront, annotation_of, between, block_of, branch_of,
};
use crate::fronts::front;
use crate::kinds::begins_statement;
use crate::loops::{invariants, with_body};
use c_syntax::expressions::Expr;
use c_syntax::statements::Stmt;
use c_syntax::token::{Keyword, Sign, Span, Token};
use reader_expressions::memory::{add, boxed};
use reader_expressions::reading::{Parsed, ReadFault, Reading, fits};
use reader_expressions::tokens::{next_is_key, take, take_key};
use std::alloc::Global;
use tree_building::pair_with;

/// As many statements as there are.
#[cycle(statements)]
fn statements<'a>(alloc: Global, room: u32, tokens: &'a [Token<'a>]) -> Reading<'a, Vec<Stmt>>
    requires room { room < 1000 }
    ensures gives { Gives (λ v. map stm v.items) result (part room rows.statements (lexemes tokens.now)) }
    ensures low { IfOk result (λ x. x.height ≤ room) }
{
    let mut found = Parsed {
        value: Vec::new(alloc),
        height: 0,
        rest: tokens,
    };
    while begins_statement(found.rest) {
        found = one_more(alloc, room, found)?;
    }
    Ok(found)
}

/// One more statement behind those that were found.
#[cycle(statements)]
#[tactic(auto, unfolding(ebnf::specs::Reading::read, ebnf::specs::Sets::low))]
fn one_more<'a>(alloc: Global, room: u32, found: Parsed<'a, Vec<Stmt>>) -> Reading<'a, Vec<Stmt>>
    requires room { room < 1000 }
    requires low { found.height ≤ room }
    ensures gives { Gives (λ v. map stm v.items) result (extended (map stm found.entry.value.items) found.entry.height (entered room rows.one_statement (lexemes found.entry.rest.now))) }
    ensures low { IfOk result (λ x. x.height ≤ room) }
{
    fits(1, room, found.rest)?;
    let next = inner(alloc, room, found.rest)?;
    let height = found.height.max(next.height);
    let mut all = found.value;
    add(&mut all, Box::into_inner(next.value))?;
    Ok(Parsed {
        value: all,
        height,
        rest: next.rest,
    })
}

/// Statements in braces, one level of height down.
#[cycle(statements)]
#[tactic(auto, unfolding(ebnf::specs::Reading::read_rule), using(reader_assignments::proofs::Parts::rows))]
fn block_rule<'a>(alloc: Global, room: u32, tokens: &'a [Token<'a>]) -> Reading<'a, Block>
    requires room { room < 1000 }
    ensures gives { Gives braces result (rule_at room (form rows.braced) (lexemes tokens.now)) }
    ensures low { IfOk result (λ x. x.height ≤ room + 1) }
{
    let open = take(Sign::BraceOpen, tokens)?;
    let all = statements(alloc, room, open.rest)?;
    let close = take(Sign::BraceClose, all.rest)?;
    Ok(Parsed {
        value: between(open.value, all.value, close.value),
        height: all.height + 1,
        rest: close.rest,
    })
}

/// A block as a statement, one level of height down.
#[cycle(statements)]
fn block<'a>(alloc: Global, room: u32, tokens: &'a [Token<'a>]) -> Reading<'a, Box<Stmt>>
    requires room { room < 1000 }
    ensures gives { Gives in_box result (rule_at room (rows.block (λ x. x)) (lexemes tokens.now)) }
    ensures low { IfOk result (λ x. x.height ≤ room + 1) }
{
    let found = block_rule(alloc, room, tokens)?;
    let value = boxed(alloc, block_of(found.value))?;
    Ok(Parsed {
        value,
        height: found.height,
        rest: found.rest,
    })
}

/// A block behind something else, no higher than room.
#[cycle(statements)]
pub fn block_tail<'a>(alloc: Global, room: u32, tokens: &'a [Token<'a>]) -> Reading<'a, Block>
    requires room { room < 1000 }
    ensures gives { Gives braces result (reads language room g.BlockOf (lexemes tokens.now)) }
    ensures low { IfOk result (λ x. x.height ≤ room) }
{
    if room == 0 {
        return Err(ReadFault::TooDeep(tokens));
    }
    block_rule(alloc, room - 1, tokens)
}

/// A statement in a box, no higher than room.
#[cycle(statements)]
fn inner<'a>(alloc: Global, room: u32, tokens: &'a [Token<'a>]) -> Reading<'a, Box<Stmt>>
    requires room { room < 1000 }
    ensures gives { Gives in_box result (reads language room g.Statement (lexemes tokens.now)) }
    ensures low { IfOk result (λ x. x.height ≤ room) }
{
    if room == 0 {
        return Err(ReadFault::TooDeep(tokens));
    }
    let opening = front(alloc, room - 1, tokens)?;
    complete(alloc, room - 1, opening.value, opening.height, opening.rest)
}

/// `else` and a statement, if they are there.
#[cycle(statements)]
#[tactic(auto, using(reader_assignments::proofs::Parts::rows, crate::proofs::Options::else_some, crate::proofs::Options::else_none, crate::proofs::Options::else_high))]
fn maybe_else<'a>(
    alloc: Global,
    room: u32,
    tokens: &'a [Token<'a>],
) -> Reading<'a, Option<Box<Stmt>>>
    requires room { room < 1000 }
    ensures gives { Gives (option_map (λ b. stm b.value)) result (part room (g.optional g.else_part) (lexemes tokens.now)) }
    ensures low { IfOk result (λ x. x.height ≤ room) }
{
    if !next_is_key(Keyword::Else, tokens) {
        return Ok(Parsed {
            value: None,
            height: 0,
            rest: tokens,
        });
    }
    fits(1, room, tokens)?;
    let word = take_key(Keyword::Else, tokens)?;
    let found = inner(alloc, room, word.rest)?;
    Ok(Parsed {
        value: Some(found.value),
        height: found.height,
        rest: found.rest,
    })
}

/// `if` behind its condition, which is so high.
#[cycle(statements)]
#[tactic(auto, using(reader_assignments::proofs::Parts::rows))]
fn branch_end<'a>(
    alloc: Global,
    room: u32,
    span: Span,
    condition: Expr,
    height: u32,
    tokens: &'a [Token<'a>],
) -> Reading<'a, Box<Stmt>>
    requires room { room < 1000 }
    requires low { height ≤ room + 1 }
    ensures gives { Gives in_box result (above (λ make. make (exp condition) span) height (part room if_end (lexemes tokens.now))) }
    ensures low { IfOk result (λ x. x.height ≤ room + 1) }
{
    let (tested, first) = pair_with(condition, inner(alloc, room, tokens))?;
    let (tested, second) = pair_with(tested, maybe_else(alloc, room, first.rest))?;
    let whole = height.max(first.height.max(second.height) + 1);
    let value = boxed(alloc, branch_of(span, tested, first.value, second.value))?;
    Ok(Parsed {
        value,
        height: whole,
        rest: second.rest,
    })
}

/// A loop's invariants, and the body behind them.
#[cycle(statements)]
fn loop_body<'a>(alloc: Global, room: u32, tokens: &'a [Token<'a>]) -> Reading<'a, Body>
    requires room { room < 1000 }
    ensures gives { Gives body result (part room g.loop_body (lexemes tokens.now)) }
    ensures low { IfOk result (λ x. x.height ≤ room) }
{
    let found = invariants(alloc, room, tokens)?;
    let held = inner(alloc, room, found.rest)?;
    Ok(Parsed {
        value: Body {
            invariants: found.value,
            inner: held.value,
        },
        height: found.height.max(held.height),
        rest: held.rest,
    })
}

/// A loop with this front, which is so high, from its body on.
#[cycle(statements)]
fn loop_statement<'a>(
    alloc: Global,
    room: u32,
    front: LoopFront,
    height: u32,
    tokens: &'a [Token<'a>],
) -> Reading<'a, Box<Stmt>>
    requires room { room < 1000 }
    requires low { height ≤ room + 1 }
    ensures gives { Gives in_box result (looped room front height (lexemes tokens.now)) }
    ensures low { IfOk result (λ x. x.height ≤ room + 1) }
{
    let (start, found) = pair_with(front, loop_body(alloc, room, tokens))?;
    with_body(alloc, room, start, height, found)
}

/// An annotation with this front, which is so high, and its block.
#[cycle(statements)]
fn annotated_block<'a>(
    alloc: Global,
    room: u32,
    front: BlockFront,
    height: u32,
    tokens: &'a [Token<'a>],
) -> Reading<'a, Box<Stmt>>
    requires room { room < 1000 }
    requires low { height ≤ room + 1 }
    ensures gives { Gives in_box result (above (holding front) height (reads language room g.BlockOf (lexemes tokens.now))) }
    ensures low { IfOk result (λ x. x.height ≤ room + 1) }
{
    let (start, found) = pair_with(front, block_tail(alloc, room, tokens))?;
    let whole = height.max(found.height + 1);
    let value = boxed(alloc, annotation_of(start, found.value))?;
    Ok(Parsed {
        value,
        height: whole,
        rest: found.rest,
    })
}

/// A statement with this front, which is so high, from there on.
#[cycle(statements)]
fn complete<'a>(
    alloc: Global,
    room: u32,
    front: Front,
    height: u32,
    tokens: &'a [Token<'a>],
) -> Reading<'a, Box<Stmt>>
    requires room { room < 1000 }
    requires low { height ≤ room + 1 }
    ensures gives { Gives in_box result (completed room front height (lexemes tokens.now)) }
    ensures low { IfOk result (λ x. x.height ≤ room + 1) }
{
    match front {
        Front::Whole(value) => Ok(Parsed {
            value,
            height,
            rest: tokens,
        }),
        Front::Block => block(alloc, room, tokens),
        Front::Branch(span, condition) => branch_end(alloc, room, span, condition, height, tokens),
        Front::Loop(start) => loop_statement(alloc, room, start, height, tokens),
        Front::Annotation(start) => annotated_block(alloc, room, start, height, tokens),
    }
}

/// A statement, no higher than room.
pub fn statement<'a>(alloc: Global, room: u32, tokens: &'a [Token<'a>]) -> Reading<'a, Stmt>
    requires room { room < 1000 }
    ensures gives { Gives stm result (reads language room g.Statement (lexemes tokens.now)) }
    ensures low { IfOk result (λ x. x.height ≤ room) }
{
    let found = inner(alloc, room, tokens)?;
    Ok(Parsed {
        value: Box::into_inner(found.value),
        height: found.height,
        rest: found.rest,
    })
}
