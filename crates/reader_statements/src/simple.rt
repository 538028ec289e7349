//! Statements that hold no statement.

ghost use Rattle.std.specs.Prelude.{◌≡◌, ◌==◌, ◌≤◌, ◌<◌, ◌+◌, false, true, IfOk, IfErr};
ghost use Rattle.std.specs.Option.{option_map};
ghost use Rattle.ebnf.specs.Reading.{reads};
ghost use Rattle.c_syntax.specs.Grammar as g;
ghost use Rattle.c_syntax.specs.Language.{language};
ghost use Rattle.c_syntax.specs.Views as views;
ghost use Rattle.c_syntax.specs.Views.{id, exp, exps, stm};
ghost use Rattle.c_syntax.specs.Expressions as e;
ghost use Rattle.reader_expressions.specs.Reading.{Gives, lexemes, part, rule_at};
ghost use Rattle.reader_statements.specs.Rows as rows;
ghost use Rattle.reader_statements.specs.Rows.{at_span};
ghost use Rattle.reader_statements.specs.Views.{in_box};

use c_syntax::expressions::{Assignment, Call, Expr, Identifier, Right};
use c_syntax::statements::Stmt;
use c_syntax::token::{Keyword, Sign, Token};
use reader_annotations::simple::first_place;
use reader_assignments::assignments::{Following, assignment_tail};
use reader_assignments::calls::{
    Arguments, begins_code, call_tail, code, ghost_arguments, list_or_none,
};
use reader_assignments::ends::ended;
use reader_assignments::places::{name_place, other_place};
use reader_assignments::rights::rhs;
use reader_expressions::memory::boxed;
use reader_expressions::reading::{Parsed, ReadFault, Reading, fits};
use reader_expressions::tokens::{next_is, take, take_key, take_name};
use reader_expressions::types::ctype;
use std::alloc::Global;
use tree_building::pair_with;

/// `;`
#[tactic(auto, unfolding(ebnf::specs::Reading::read, ebnf::specs::Reading::read_rule))]
pub fn skip<'a>(alloc: Global, tokens: &'a [Token<'a>]) -> Reading<'a, Box<Stmt>>
    ensures gives { Gives in_box result (rule_at 0 (rows.skip (λ x. x)) (lexemes tokens.now)) }
    ensures high { IfOk result (λ x. x.height ≡ 1) }
{
    let sign = take(Sign::Semicolon, tokens)?;
    let statement = boxed(alloc, Stmt::Skip(sign.value))?;
    Ok(Parsed {
        value: statement,
        height: 1,
        rest: sign.rest,
    })
}

/// `=` and a value.
#[tactic(auto, using(reader_assignments::proofs::Parts::rows))]
fn first_value<'a>(alloc: Global, room: u32, tokens: &'a [Token<'a>]) -> Reading<'a, Right>
    requires room { room < 1000 }
    ensures gives { Gives views.rhs result (part room g.first_value (lexemes tokens.now)) }
    ensures low { IfOk result (λ x. x.height ≤ room) }
{
    let sign = take(Sign::Assign, tokens)?;
    let value = rhs(alloc, room, sign.rest)?;
    Ok(Parsed {
        value: value.value,
        height: value.height,
        rest: value.rest,
    })
}

/// A first value, if there is one.
#[tactic(auto, using(reader_assignments::proofs::Parts::rows, crate::proofs::Options::first_value_some, crate::proofs::Options::first_value_none, crate::proofs::Options::first_value_high))]
fn maybe_value<'a>(alloc: Global, room: u32, tokens: &'a [Token<'a>]) -> Reading<'a, Option<Right>>
    requires room { room < 1000 }
    ensures gives { Gives (option_map views.rhs) result (part room (g.optional g.first_value) (lexemes tokens.now)) }
    ensures low { IfOk result (λ x. x.height ≤ room) }
{
    if !next_is(Sign::Assign, tokens) {
        return Ok(Parsed {
            value: None,
            height: 0,
            rest: tokens,
        });
    }
    fits(1, room, tokens)?;
    let value = first_value(alloc, room, tokens)?;
    Ok(Parsed {
        value: Some(value.value),
        height: value.height,
        rest: value.rest,
    })
}

/// A declaration.
#[tactic(auto, unfolding(ebnf::specs::Reading::read_rule), using(reader_assignments::proofs::Parts::rows))]
pub fn declaration<'a>(alloc: Global, room: u32, tokens: &'a [Token<'a>]) -> Reading<'a, Box<Stmt>>
    requires room { room < 1000 }
    requires fits { 0 < room }
    ensures gives { Gives in_box result (rule_at room (rows.declaration (λ x. x)) (lexemes tokens.now)) }
    ensures low { IfOk result (λ x. x.height ≤ room + 1) }
{
    let ty = ctype(alloc, room, tokens)?;
    let name = take_name(alloc, 1, ty.rest)?;
    let value = maybe_value(alloc, room, name.rest)?;
    let end = ended(Sign::Semicolon, value)?;
    let (span, declared) = ty.value;
    let (value, _) = end.value;
    let statement = boxed(alloc, Stmt::Declare(span, declared, name.value, value))?;
    Ok(Parsed {
        value: statement,
        height: ty.height.max(name.height).max(end.height) + 1,
        rest: end.rest,
    })
}

/// The value behind `return`, if there is one.
#[tactic(auto, using(reader_assignments::proofs::Parts::rows, crate::proofs::Options::code_some, crate::proofs::Options::code_none, crate::proofs::Options::code_high))]
fn maybe_code<'a>(alloc: Global, room: u32, tokens: &'a [Token<'a>]) -> Reading<'a, Option<Expr>>
    requires room { room < 1000 }
    ensures gives { Gives (option_map exp) result (part room (g.optional g.code) (lexemes tokens.now)) }
    ensures low { IfOk result (λ x. x.height ≤ room) }
{
    if !begins_code(tokens) {
        return Ok(Parsed {
            value: None,
            height: 0,
            rest: tokens,
        });
    }
    fits(1, room, tokens)?;
    let value = code(alloc, room, tokens)?;
    Ok(Parsed {
        value: Some(value.value),
        height: value.height,
        rest: value.rest,
    })
}

/// `return`
#[tactic(auto, unfolding(ebnf::specs::Reading::read_rule), using(reader_assignments::proofs::Parts::rows))]
pub fn return_statement<'a>(
    alloc: Global,
    room: u32,
    tokens: &'a [Token<'a>],
) -> Reading<'a, Box<Stmt>>
    requires room { room < 1000 }
    ensures gives { Gives in_box result (rule_at room (rows.return_ (λ x. x)) (lexemes tokens.now)) }
    ensures low { IfOk result (λ x. x.height ≤ room + 1) }
{
    let word = take_key(Keyword::Return, tokens)?;
    let value = maybe_code(alloc, room, word.rest)?;
    let end = ended(Sign::Semicolon, value)?;
    let (value, _) = end.value;
    let statement = boxed(alloc, Stmt::Return(word.value, value))?;
    Ok(Parsed {
        value: statement,
        height: end.height + 1,
        rest: end.rest,
    })
}

/// An expression in brackets.
#[tactic(auto, using(reader_assignments::proofs::Parts::rows))]
pub fn inside<'a>(alloc: Global, room: u32, tokens: &'a [Token<'a>]) -> Reading<'a, Expr>
    requires room { room < 1000 }
    ensures gives { Gives exp result (part room (g.inside g.code) (lexemes tokens.now)) }
    ensures low { IfOk result (λ x. x.height ≤ room) }
{
    let open = take(Sign::Open, tokens)?;
    let value = code(alloc, room, open.rest)?;
    let close = ended(Sign::Close, value)?;
    let (value, _) = close.value;
    Ok(Parsed {
        value,
        height: close.height,
        rest: close.rest,
    })
}

/// `free`
#[tactic(auto, unfolding(ebnf::specs::Reading::read_rule), using(reader_assignments::proofs::Parts::rows))]
pub fn free_statement<'a>(
    alloc: Global,
    room: u32,
    tokens: &'a [Token<'a>],
) -> Reading<'a, Box<Stmt>>
    requires room { room < 1000 }
    ensures gives { Gives in_box result (rule_at room (rows.free (λ x. x)) (lexemes tokens.now)) }
    ensures low { IfOk result (λ x. x.height ≤ room + 1) }
{
    let word = take_key(Keyword::Free, tokens)?;
    let object = inside(alloc, room, word.rest)?;
    let end = ended(Sign::Semicolon, object)?;
    let (object, _) = end.value;
    let statement = boxed(alloc, Stmt::Free(word.value, object))?;
    Ok(Parsed {
        value: statement,
        height: end.height + 1,
        rest: end.rest,
    })
}

/// What stands behind a left side, up to the `;`.
#[tactic(auto, using(reader_assignments::proofs::Parts::rows))]
fn assign_tail<'a>(alloc: Global, room: u32, tokens: &'a [Token<'a>]) -> Reading<'a, Following>
    requires room { room < 1000 }
    ensures gives { Gives rows.assigned result (part room g.assign_statement (lexemes tokens.now)) }
    ensures low { IfOk result (λ x. x.height ≤ room) }
{
    let following = assignment_tail(alloc, room, tokens)?;
    let end = ended(Sign::Semicolon, following)?;
    let (value, _) = end.value;
    Ok(Parsed {
        value,
        height: end.height,
        rest: end.rest,
    })
}

/// A left side with what stands behind it.
fn assignment(left: Expr, following: Following) -> Stmt
    ensures { stm result ≡ rows.assigned following (exp left) }
{
    let span = first_place(&left);
    Stmt::Assign(
        span,
        Assignment {
            left,
            span: following.span,
            change: following.change,
        },
    )
}

/// A left side that is read, and what stands behind it.
fn assign<'a>(alloc: Global, room: u32, left: Parsed<'a, Expr>) -> Reading<'a, Box<Stmt>>
    requires room { room < 1000 }
    requires low { left.height ≤ room }
    ensures gives { Gives in_box result (rows.behind_left (exp left.entry.value) left.entry.height (part room g.assign_statement (lexemes left.entry.rest.now))) }
    ensures low { IfOk result (λ x. x.height ≤ room + 1) }
{
    let (value, following) = pair_with(left.value, assign_tail(alloc, room, left.rest))?;
    let statement = boxed(alloc, assignment(value, following.value))?;
    Ok(Parsed {
        value: statement,
        height: left.height.max(following.height) + 1,
        rest: following.rest,
    })
}

/// A call behind its name.
#[tactic(auto, using(reader_assignments::proofs::Parts::rows))]
fn call<'a>(
    alloc: Global,
    room: u32,
    name: Identifier,
    height: u32,
    tokens: &'a [Token<'a>],
) -> Reading<'a, Box<Stmt>>
    requires room { room < 1000 }
    requires low { height ≤ room }
    ensures gives { Gives in_box result (rows.behind_left (e.Name (id name)) height (part room g.call_statement (lexemes tokens.now))) }
    ensures low { IfOk result (λ x. x.height ≤ room + 1) }
{
    let following = call_tail(alloc, room, tokens)?;
    let end = take(Sign::Semicolon, following.rest)?;
    let span = name.span;
    let statement = boxed(
        alloc,
        Stmt::Call(
            span,
            Call {
                function: name,
                arguments: following.value.plain,
                ghost_arguments: following.value.ghosts,
            },
        ),
    )?;
    Ok(Parsed {
        value: statement,
        height: height.max(following.height) + 1,
        rest: end.rest,
    })
}

/// A statement that begins with a left side that begins otherwise than with a name.
#[tactic(auto, unfolding(ebnf::specs::Reading::read_rule), using(reader_assignments::proofs::Parts::rows))]
pub fn other<'a>(alloc: Global, room: u32, tokens: &'a [Token<'a>]) -> Reading<'a, Box<Stmt>>
    requires room { room < 1000 }
    ensures gives { Gives in_box result (rule_at room (rows.other (λ x. x)) (lexemes tokens.now)) }
    ensures low { IfOk result (λ x. x.height ≤ room + 1) }
{
    let left = other_place(alloc, room, tokens)?;
    assign(alloc, room, left)
}

/// The arguments behind a spawned function's name.
#[tactic(auto, using(reader_assignments::proofs::Parts::rows, crate::proofs::Spawns::some_arguments, crate::proofs::Spawns::no_arguments))]
fn spawn_arguments<'a>(alloc: Global, room: u32, tokens: &'a [Token<'a>]) -> Reading<'a, Arguments>
    requires room { room < 1000 }
    ensures gives { Gives (λ x. (exps x.plain.items, exps x.ghosts.items)) result (part room rows.spawn_arguments (lexemes tokens.now)) }
    ensures low { IfOk result (λ x. x.height ≤ room) }
{
    if !next_is(Sign::Comma, tokens) {
        return Ok(Parsed {
            value: Arguments {
                plain: Vec::new(alloc),
                ghosts: Vec::new(alloc),
            },
            height: 0,
            rest: tokens,
        });
    }
    let comma = take(Sign::Comma, tokens)?;
    let plain = list_or_none(alloc, room, comma.rest)?;
    let ghosts = ghost_arguments(alloc, room, plain.rest)?;
    Ok(Parsed {
        value: Arguments {
            plain: plain.value,
            ghosts: ghosts.value,
        },
        height: plain.height.max(ghosts.height),
        rest: ghosts.rest,
    })
}

/// `vcc_spawn`
#[tactic(auto, unfolding(ebnf::specs::Reading::read_rule), using(reader_assignments::proofs::Parts::rows))]
pub fn spawn<'a>(alloc: Global, room: u32, tokens: &'a [Token<'a>]) -> Reading<'a, Box<Stmt>>
    requires room { room < 1000 }
    requires fits { 0 < room }
    ensures gives { Gives in_box result (rule_at room (rows.spawn (λ x. x)) (lexemes tokens.now)) }
    ensures low { IfOk result (λ x. x.height ≤ room + 1) }
{
    let word = take_key(Keyword::VccSpawn, tokens)?;
    let open = take(Sign::Open, word.rest)?;
    let name = take_name(alloc, 1, open.rest)?;
    let arguments = spawn_arguments(alloc, room, name.rest)?;
    let close = take(Sign::Close, arguments.rest)?;
    let end = take(Sign::Semicolon, close.rest)?;
    let statement = boxed(
        alloc,
        Stmt::Spawn(
            word.value,
            Call {
                function: name.value,
                arguments: arguments.value.plain,
                ghost_arguments: arguments.value.ghosts,
            },
        ),
    )?;
    Ok(Parsed {
        value: statement,
        height: name.height.max(arguments.height) + 1,
        rest: end.rest,
    })
}

/// The name that the expression is, or the expression.
fn called(left: Expr) -> Result<Identifier, Expr>
    ensures ok { IfOk result (λ n. exp left ≡ e.Name (id n)) }
    ensures err { IfErr result (λ x. (exp left ≡ exp x) × (g.is_name (exp x) ≡ false)) }
{
    match left {
        Expr::Name(name) => Ok(name),
        other => Err(other),
    }
}

/// A call or an assignment behind a name.
#[tactic(auto, using(crate::proofs::Names::call_read, crate::proofs::Names::assign_read))]
fn behind_name<'a>(
    alloc: Global,
    room: u32,
    name: Identifier,
    height: u32,
    tokens: &'a [Token<'a>],
) -> Reading<'a, Box<Stmt>>
    requires room { room < 1000 }
    requires low { height ≤ room }
    ensures gives { Gives in_box result (rows.behind_left (e.Name (id name)) height (part room rows.behind_name (lexemes tokens.now))) }
    ensures low { IfOk result (λ x. x.height ≤ room + 1) }
{
    if next_is(Sign::Open, tokens) {
        return call(alloc, room, name, height, tokens);
    }
    assign(
        alloc,
        room,
        Parsed {
            value: Expr::Name(name),
            height,
            rest: tokens,
        },
    )
}

/// A statement that begins with a name.
pub fn named<'a>(alloc: Global, room: u32, tokens: &'a [Token<'a>]) -> Reading<'a, Box<Stmt>>
    requires room { room < 1000 }
    ensures gives { Gives in_box result (rule_at room (rows.named (λ x. x)) (lexemes tokens.now)) }
    ensures low { IfOk result (λ x. x.height ≤ room + 1) }
{
    let place = name_place(alloc, room, tokens)?;
    let height = place.height;
    let rest = place.rest;
    match called(place.value) {
        Ok(name) => behind_name(alloc, room, name, height, rest),
        Err(value) => assign(
            alloc,
            room,
            Parsed {
                value,
                height,
                rest,
            },
        ),
    }
}
