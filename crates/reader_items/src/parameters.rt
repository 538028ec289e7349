//! Parameters and ghost parameters.

ghost use Rattle.std.specs.Prelude.{◌≡◌, ◌≤◌, ◌<◌, map, IfOk};
ghost use Rattle.ebnf.specs.Sets.{has, first};
ghost use Rattle.ebnf.specs.Derives.{next};
ghost use Rattle.c_syntax.specs.Grammar as g;
ghost use Rattle.c_syntax.specs.Language.{language};
ghost use Rattle.c_syntax.specs.Views.{parameter as parameter_of};
ghost use Rattle.reader_expressions.specs.Reading.{Gives, lexemes, part, entered, extended};
ghost use Rattle.reader_items.specs.Rows as rows;
ghost use Rattle.reader_items.specs.Views as views;

use c_syntax::items::Parameter;
use c_syntax::token::{Keyword, Sign, Token};
use reader_expressions::memory::{add, single};
use reader_expressions::reading::{Parsed, Reading, fits};
use reader_expressions::tokens::{next_is, next_is_key, take, take_key, take_name};
use reader_expressions::types::{ctype, gtype};
use std::alloc::Global;

/// Whether the type of a parameter comes next.
#[tactic(auto, unfolding(ebnf::specs::Sets::first, ebnf::specs::Sets::is_empty))]
fn begins_parameter<'a>(tokens: &'a [Token<'a>]) -> bool
    ensures { result ≡ has (first language g.param) (next language (lexemes tokens.now)) }
{
    next_is_key(Keyword::Int, tokens)
        || next_is_key(Keyword::Long, tokens)
        || next_is_key(Keyword::Unsigned, tokens)
        || next_is_key(Keyword::Struct, tokens)
}

/// A parameter.
#[tactic(auto, using(reader_assignments::proofs::Parts::rows))]
fn parameter<'a>(alloc: Global, room: u32, tokens: &'a [Token<'a>]) -> Reading<'a, Parameter>
    requires fits { 1 ≤ room }
    ensures gives { Gives parameter_of result (part room g.param (lexemes tokens.now)) }
    ensures low { IfOk result (λ x. x.height ≤ room) }
{
    let ty = ctype(alloc, room, tokens)?;
    let name = take_name(alloc, 1, ty.rest)?;
    let height = ty.height.max(name.height);
    let (_, declared) = ty.value;
    Ok(Parsed {
        value: Parameter {
            ty: declared,
            name: name.value,
        },
        height,
        rest: name.rest,
    })
}

/// The first parameter.
fn first_parameter<'a>(
    alloc: Global,
    room: u32,
    tokens: &'a [Token<'a>],
) -> Reading<'a, Vec<Parameter>>
    requires fits { 1 ≤ room }
    ensures gives { Gives (λ v. map parameter_of v.items) result (rows.alone (part room g.param (lexemes tokens.now))) }
    ensures low { IfOk result (λ x. x.height ≤ room) }
{
    let found = parameter(alloc, room, tokens)?;
    let height = found.height;
    let all = single(alloc, found.value)?;
    Ok(Parsed {
        value: all,
        height,
        rest: found.rest,
    })
}

/// A comma, and one more parameter behind it.
#[tactic(auto, using(reader_assignments::proofs::Parts::rows))]
fn further_parameter<'a>(
    alloc: Global,
    room: u32,
    tokens: &'a [Token<'a>],
) -> Reading<'a, Parameter>
    requires fits { 1 ≤ room }
    ensures gives { Gives parameter_of result (part room rows.further_parameter (lexemes tokens.now)) }
    ensures low { IfOk result (λ x. x.height ≤ room) }
{
    let comma = take(Sign::Comma, tokens)?;
    let found = parameter(alloc, room, comma.rest)?;
    Ok(Parsed {
        value: found.value,
        height: found.height,
        rest: found.rest,
    })
}

/// One more parameter behind those that were found.
#[tactic(auto, unfolding(ebnf::specs::Sets::low))]
fn add_parameter<'a>(
    alloc: Global,
    room: u32,
    found: Parsed<'a, Vec<Parameter>>,
) -> Reading<'a, Vec<Parameter>>
    requires low { found.height ≤ room }
    ensures gives { Gives (λ v. map parameter_of v.items) result (extended (map parameter_of found.entry.value.items) found.entry.height (entered room rows.further_parameter (lexemes found.entry.rest.now))) }
    ensures low { IfOk result (λ x. x.height ≤ room) }
{
    fits(1, room, found.rest)?;
    let next = further_parameter(alloc, room, found.rest)?;
    let height = found.height.max(next.height);
    let mut all = found.value;
    add(&mut all, next.value)?;
    Ok(Parsed {
        value: all,
        height,
        rest: next.rest,
    })
}

/// Parameters with commas between, at least one.
fn parameter_list<'a>(
    alloc: Global,
    room: u32,
    tokens: &'a [Token<'a>],
) -> Reading<'a, Vec<Parameter>>
    requires fits { 1 ≤ room }
    ensures gives { Gives (λ v. map parameter_of v.items) result (part room rows.all_parameters (lexemes tokens.now)) }
    ensures low { IfOk result (λ x. x.height ≤ room) }
{
    let first = first_parameter(alloc, room, tokens)?;
    let mut found = first;
    'more: while next_is(Sign::Comma, found.rest) {
        found = add_parameter(alloc, room, found)?;
    }
    Ok(found)
}

/// `void` in place of parameters.
#[tactic(auto, unfolding(ebnf::specs::Reading::read))]
fn void_parameters<'a>(alloc: Global, tokens: &'a [Token<'a>]) -> Reading<'a, Vec<Parameter>>
    ensures gives { Gives (λ v. map parameter_of v.items) result (part 0 rows.void_parameters (lexemes tokens.now)) }
    ensures flat { IfOk result (λ x. x.height ≡ 0) }
{
    let word = take_key(Keyword::Void, tokens)?;
    Ok(Parsed {
        value: Vec::new(alloc),
        height: 0,
        rest: word.rest,
    })
}

/// The parameters of a function, or none, which `void` may say.
#[tactic(auto, using(crate::proofs::Params::void_read, crate::proofs::Params::some_read, crate::proofs::Params::some_deep, crate::proofs::Params::none_read))]
pub fn parameters<'a>(
    alloc: Global,
    room: u32,
    tokens: &'a [Token<'a>],
) -> Reading<'a, Vec<Parameter>>
    requires room { room < 1000 }
    ensures gives { Gives (λ v. map parameter_of v.items) result (part room g.params (lexemes tokens.now)) }
    ensures low { IfOk result (λ x. x.height ≤ room) }
{
    if next_is_key(Keyword::Void, tokens) {
        return void_parameters(alloc, tokens);
    }
    if !begins_parameter(tokens) {
        return Ok(Parsed {
            value: Vec::new(alloc),
            height: 0,
            rest: tokens,
        });
    }
    fits(1, room, tokens)?;
    parameter_list(alloc, room, tokens)
}

/// A ghost parameter behind its `_(` and `ghost`, up to the end.
#[tactic(auto, using(reader_assignments::proofs::Parts::rows))]
fn ghost_parameter_tail<'a>(
    alloc: Global,
    room: u32,
    tokens: &'a [Token<'a>],
) -> Reading<'a, Parameter>
    requires fits { 1 ≤ room }
    ensures gives { Gives views.behind_signs result (part room rows.ghost_parameter_tail (lexemes tokens.now)) }
    ensures low { IfOk result (λ x. x.height ≤ room) }
{
    let ty = gtype(alloc, room, tokens)?;
    let name = take_name(alloc, 1, ty.rest)?;
    let end = take(Sign::Close, name.rest)?;
    let height = ty.height.max(name.height);
    let (_, declared) = ty.value;
    Ok(Parsed {
        value: Parameter {
            ty: declared,
            name: name.value,
        },
        height,
        rest: end.rest,
    })
}

/// A ghost parameter.
#[tactic(auto, using(reader_assignments::proofs::Parts::rows))]
fn ghost_parameter<'a>(alloc: Global, room: u32, tokens: &'a [Token<'a>]) -> Reading<'a, Parameter>
    requires fits { 1 ≤ room }
    ensures gives { Gives parameter_of result (part room g.ghost_param (lexemes tokens.now)) }
    ensures low { IfOk result (λ x. x.height ≤ room) }
{
    let start = take(Sign::Annotation, tokens)?;
    let word = take_key(Keyword::Ghost, start.rest)?;
    let found = ghost_parameter_tail(alloc, room, word.rest)?;
    Ok(Parsed {
        value: found.value,
        height: found.height,
        rest: found.rest,
    })
}

/// One more ghost parameter behind those that were found.
#[tactic(auto, unfolding(ebnf::specs::Sets::low))]
fn add_ghost_parameter<'a>(
    alloc: Global,
    room: u32,
    found: Parsed<'a, Vec<Parameter>>,
) -> Reading<'a, Vec<Parameter>>
    requires low { found.height ≤ room }
    ensures gives { Gives (λ v. map parameter_of v.items) result (extended (map parameter_of found.entry.value.items) found.entry.height (entered room g.ghost_param (lexemes found.entry.rest.now))) }
    ensures low { IfOk result (λ x. x.height ≤ room) }
{
    fits(1, room, found.rest)?;
    let next = ghost_parameter(alloc, room, found.rest)?;
    let height = found.height.max(next.height);
    let mut all = found.value;
    add(&mut all, next.value)?;
    Ok(Parsed {
        value: all,
        height,
        rest: next.rest,
    })
}

/// Ghost parameters, as many as there are.
pub fn ghost_parameters<'a>(
    alloc: Global,
    room: u32,
    tokens: &'a [Token<'a>],
) -> Reading<'a, Vec<Parameter>>
    requires room { room < 1000 }
    ensures gives { Gives (λ v. map parameter_of v.items) result (part room rows.ghost_parameters (lexemes tokens.now)) }
    ensures low { IfOk result (λ x. x.height ≤ room) }
{
    let mut found = Parsed {
        value: Vec::new(alloc),
        height: 0,
        rest: tokens,
    };
    'more: while next_is(Sign::Annotation, found.rest) {
        found = add_ghost_parameter(alloc, room, found)?;
    }
    Ok(found)
}
