//! Whole programs.

ghost use Rattle.std.specs.Prelude.{◌≡◌, ◌≤◌, ◌<◌, ◌+◌, map, IfOk};
ghost use Rattle.ebnf.specs.Reading.{reads};
ghost use Rattle.c_syntax.specs.Grammar as g;
ghost use Rattle.c_syntax.specs.Language.{language};
ghost use Rattle.c_syntax.specs.Views.{item as item_of};
ghost use Rattle.reader_expressions.specs.Reading.{Gives, lexemes, part, rule_at, entered, extended};
ghost use Rattle.reader_items.specs.Rows.{alone};
ghost use Rattle.reader_program.specs.Rows as rows;

use crate::items::{begins_item, item};
use c_syntax::items::Item;
use c_syntax::token::Token;
use reader_expressions::memory::{add, single};
use reader_expressions::reading::{Parsed, ReadFault, Reading, fits};
use std::alloc::Global;

/// The first item.
#[tactic(auto, unfolding(ebnf::specs::Reading::read))]
fn first_item<'a>(alloc: Global, room: u32, tokens: &'a [Token<'a>]) -> Reading<'a, Vec<Item>>
    requires room { room < 1000 }
    ensures gives { Gives (λ v. map item_of v.items) result (alone (part room rows.one_item (lexemes tokens.now))) }
    ensures low { IfOk result (λ x. x.height ≤ room) }
{
    let found = item(alloc, room, tokens)?;
    let height = found.height;
    let all = single(alloc, found.value)?;
    Ok(Parsed {
        value: all,
        height,
        rest: found.rest,
    })
}

/// One more item behind those that were found.
#[tactic(auto, unfolding(ebnf::specs::Reading::read, ebnf::specs::Sets::low))]
fn add_item<'a>(alloc: Global, room: u32, found: Parsed<'a, Vec<Item>>) -> Reading<'a, Vec<Item>>
    requires room { room < 1000 }
    requires low { found.height ≤ room }
    ensures gives { Gives (λ v. map item_of v.items) result (extended (map item_of found.entry.value.items) found.entry.height (entered room rows.one_item (lexemes found.entry.rest.now))) }
    ensures low { IfOk result (λ x. x.height ≤ room) }
{
    fits(2, room, found.rest)?;
    let next = item(alloc, room, found.rest)?;
    let height = found.height.max(next.height);
    let mut all = found.value;
    add(&mut all, next.value)?;
    Ok(Parsed {
        value: all,
        height,
        rest: next.rest,
    })
}

/// Items, at least one, and as many as there are.
fn items<'a>(alloc: Global, room: u32, tokens: &'a [Token<'a>]) -> Reading<'a, Vec<Item>>
    requires room { room < 1000 }
    ensures gives { Gives (λ v. map item_of v.items) result (part room rows.items (lexemes tokens.now)) }
    ensures low { IfOk result (λ x. x.height ≤ room) }
{
    let first = first_item(alloc, room, tokens)?;
    let mut found = first;
    'more: while begins_item(found.rest) {
        found = add_item(alloc, room, found)?;
    }
    Ok(found)
}

/// A program, one level of height down.
#[tactic(auto, unfolding(ebnf::specs::Reading::read_rule))]
fn program_rule<'a>(alloc: Global, room: u32, tokens: &'a [Token<'a>]) -> Reading<'a, Vec<Item>>
    requires room { room < 1000 }
    ensures gives { Gives (λ v. map item_of v.items) result (rule_at room g.program (lexemes tokens.now)) }
    ensures low { IfOk result (λ x. x.height ≤ room + 1) }
{
    let found = items(alloc, room, tokens)?;
    Ok(Parsed {
        value: found.value,
        height: found.height + 1,
        rest: found.rest,
    })
}

/// A program: its items, of which there is one at least.
#[tactic(auto, unfolding(ebnf::specs::Reading::reads))]
pub fn program<'a>(alloc: Global, room: u32, tokens: &'a [Token<'a>]) -> Reading<'a, Vec<Item>>
    requires room { room < 1000 }
    ensures gives { Gives (λ v. map item_of v.items) result (reads language room g.Program (lexemes tokens.now)) }
    ensures low { IfOk result (λ x. x.height ≤ room) }
{
    if room == 0 {
        return Err(ReadFault::TooDeep(tokens));
    }
    program_rule(alloc, room - 1, tokens)
}

/// The tokens behind a program, which is let go: trees are dropped here alone, so that no crate above proves their drops.
pub fn tokens_behind<'a>(found: Parsed<'a, Vec<Item>>) -> &'a [Token<'a>]
    ensures { result.now ≡ found.entry.rest.now }
{
    found.rest
}
