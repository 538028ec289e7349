//! Functions behind their names.

ghost use Rattle.std.specs.Prelude.{◌≡◌, ◌≤◌, ◌<◌, IfOk};
ghost use Rattle.std.specs.Option.{option_map};
ghost use Rattle.c_syntax.specs.Grammar as g;
ghost use Rattle.c_syntax.specs.Views.{id, ty, function as function_of};
ghost use Rattle.reader_expressions.specs.Reading.{Gives, lexemes, part};
ghost use Rattle.reader_program.specs.Rows as rows;
ghost use Rattle.reader_program.specs.Views as views;

use c_syntax::expressions::{Identifier, ValueType};
use c_syntax::items::{Clause, Function, Parameter};
use c_syntax::token::{Sign, Span, Token};
use reader_expressions::reading::{Parsed, Reading};
use reader_expressions::tokens::take;
use reader_items::clauses::clauses;
use reader_items::parameters::{ghost_parameters, parameters};
use reader_statements::blocks::Block;
use reader_statements::statements::block_tail;
use std::alloc::Global;

/// A contract, and the body behind it.
#[derive(Drop)]
pub struct Contracted {
    pub contract: Vec<Clause>,
    pub body: Block,
}

/// What stands behind a function's name.
#[derive(Drop)]
pub struct FunctionTail {
    pub parameters: Vec<Parameter>,
    pub ghost_parameters: Vec<Parameter>,
    pub contracted: Contracted,
}

/// The end of the parameters' bracket, the contract and the body.
#[tactic(auto, using(reader_assignments::proofs::Parts::rows))]
fn contract_tail<'a>(alloc: Global, room: u32, tokens: &'a [Token<'a>]) -> Reading<'a, Contracted>
    requires room { room < 1000 }
    ensures gives { Gives views.contract_tail result (part room rows.contract_tail (lexemes tokens.now)) }
    ensures low { IfOk result (λ x. x.height ≤ room) }
{
    let close = take(Sign::Close, tokens)?;
    let contract = clauses(alloc, room, close.rest)?;
    let body = block_tail(alloc, room, contract.rest)?;
    let height = contract.height.max(body.height);
    Ok(Parsed {
        value: Contracted {
            contract: contract.value,
            body: body.value,
        },
        height,
        rest: body.rest,
    })
}

/// What stands behind a function's name: parameters, contract and body.
#[tactic(auto, using(reader_assignments::proofs::Parts::rows))]
pub fn function_tail<'a>(
    alloc: Global,
    room: u32,
    tokens: &'a [Token<'a>],
) -> Reading<'a, FunctionTail>
    requires room { room < 1000 }
    ensures gives { Gives views.function_tail result (part room g.function_tail (lexemes tokens.now)) }
    ensures low { IfOk result (λ x. x.height ≤ room) }
{
    let open = take(Sign::Open, tokens)?;
    let plain = parameters(alloc, room, open.rest)?;
    let ghosts = ghost_parameters(alloc, room, plain.rest)?;
    let following = contract_tail(alloc, room, ghosts.rest)?;
    let height = plain.height.max(ghosts.height).max(following.height);
    Ok(Parsed {
        value: FunctionTail {
            parameters: plain.value,
            ghost_parameters: ghosts.value,
            contracted: following.value,
        },
        height,
        rest: following.rest,
    })
}

/// The function of this name, with the place of its first token and the type of its value.
pub fn function_at(
    span: Span,
    value: Option<ValueType>,
    name: Identifier,
    following: FunctionTail,
) -> Function
    ensures { function_of result ≡ views.function_tail following (id name) span (option_map ty value) }
{
    Function {
        span,
        result: value,
        name,
        parameters: following.parameters,
        ghost_parameters: following.ghost_parameters,
        contract: following.contracted.contract,
        start: following.contracted.body.start,
        body: following.contracted.body.statements,
        end: following.contracted.body.end,
    }
}
