//! The turns of returns.

ghost use Rattle.method.specs.Machine.{value_of};
ghost use Rattle.machine_values.specs.Answers.{Yields};
ghost use Rattle.machine_turns.specs.Turns.{OnValue, ReturnsAs, IsStored, storing, resuming, giving, returning, ending};

use crate::activation::{Activation, Remaining};
use crate::checks::check_ensures;
use crate::code::function_of;
use crate::turn::{Here, Turn, spot, starting};
use int_ranges::ctype::CType;
use machine_claims::interlocked::convert_to;
use machine_objects::progress::{Place, Progress};
use machine_objects::store::store;
use machine_values::stop::Stop;
use method::program::Expr;
use object_types::values::Value;
use std::alloc::Global;

/// What the store of a call's value, converted, changes where the caller stands.
fn store_value(
    alloc: Global,
    caller: &Here<'_, '_>,
    line: u32,
    place: Place,
    ty: Option<CType>,
    v: Value,
) -> Result<Progress, Stop>
    ensures { OnValue caller.now line (λ p s h l. IsStored result (storing p s h l caller.now.next_thread place ty v)) }
{
    let at = spot(caller.program, caller.context, &[], line);
    let v = convert_to(&at, ty, v)?;
    let mut progress = starting(alloc, caller)?;
    store(&at, place, v, &mut progress)?;
    Ok(progress)
}

/// The caller goes on: it stores the value, with the call's line, if it wants it.
fn resume<'p>(
    alloc: Global,
    here: &Here<'_, 'p>,
    line: u32,
    v: Value,
    below: &[Activation<'p>],
) -> Result<Turn<'p>, Stop>
    ensures { ReturnsAs result here.now below.now (resuming line v) }
{
    let Some((caller, _)) = below.split_last() else {
        return Ok(Turn::returned(alloc, line));
    };
    let Some((item, _)) = caller.code.split_last() else {
        return Ok(Turn::returned(alloc, line));
    };
    match item {
        Remaining::Receive(called, place, ty) => {
            let at = Here {
                program: here.program,
                context: &caller.context,
                locals: &caller.locals,
                heap: here.heap,
                next_thread: 0,
            };
            let progress = store_value(alloc, &at, *called, *place, *ty, v)?;
            Ok(Turn::stored(line, progress))
        }
        Remaining::Run(_) | Remaining::Test(_, _, _) | Remaining::WrapAgain(_, _, _) => {
            Ok(Turn::returned(alloc, line))
        }
    }
}

/// The turn in which the function gives this value.
fn return_turn<'p>(
    alloc: Global,
    here: &Here<'_, 'p>,
    line: u32,
    v: Value,
    below: &[Activation<'p>],
) -> Result<Turn<'p>, Stop>
    ensures { ReturnsAs result here.now below.now (giving line v) }
{
    check_ensures(alloc, here, line, v)?;
    resume(alloc, here, line, v, below)
}

/// The value of a `return`; 0 of one without.
fn return_value(
    alloc: Global,
    here: &Here<'_, '_>,
    line: u32,
    e: &Option<Expr>,
) -> Result<Value, Stop>
    ensures { OnValue here.now line (λ p s h l. Yields result (value_of p s e.now h l 0)) }
{
    match e {
        Some(e) => here.value(alloc, line, e),
        None => Ok(Value::Int(0)),
    }
}

/// The turn at a `return`.
pub fn value_turn<'p>(
    alloc: Global,
    here: &Here<'_, 'p>,
    line: u32,
    e: &Option<Expr>,
    below: &[Activation<'p>],
) -> Result<Turn<'p>, Stop>
    ensures { ReturnsAs result here.now below.now (returning line e.now) }
{
    let v = return_value(alloc, here, line, e)?;
    return_turn(alloc, here, line, v, below)
}

/// The turn at a body's end.
pub fn end_turn<'p>(
    alloc: Global,
    here: &Here<'_, 'p>,
    below: &[Activation<'p>],
) -> Result<Turn<'p>, Stop>
    ensures { ReturnsAs result here.now below.now (ending here.now.next_thread) }
{
    let line = match function_of(here.program, here.context.function) {
        Some(function) => function.end,
        None => 0,
    };
    return_turn(alloc, here, line, Value::Int(0), below)
}
