//! The checks of annotations at calls, returns and loops.

ghost use Rattle.std.specs.Prelude.{IfOk};
ghost use Rattle.method.specs.declared.program.CheckKind.TheVariants.{Writes as WritesCheck, Requires as RequiresCheck};
ghost use Rattle.method.specs.declared.program.CheckKind.TheVariants.{Ensures as EnsuresCheck, LoopInv as LoopCheck};
ghost use Rattle.machine_turns.specs.Scenes.{IsScene, Checks, ChecksItems};
ghost use Rattle.machine_turns.specs.Scenes.{loop_tests, requires_tests, writes_tests, ensures_tests};

use crate::code::function_of;
use crate::turn::{Here, spot};
use machine_values::spot::Spot;
use machine_values::stop::Stop;
use machine_values::tests::{check_clauses, check_specs, spec_value};
use machine_values::values::referent;
use method::program::{CheckKind, FunctionInfo, Spec};
use object_types::heap::Heap;
use object_types::references::{NULL, Ref};
use object_types::values::Value;
use spec_eval::env::Env;
use std::alloc::{AllocError, Global};

/// What the words of an annotation refer to, for this thread, these variables, these arguments and this value.
fn env(
    alloc: Global,
    me: Ref,
    locals: &[Value],
    args: &[Value],
    value: Value,
) -> Result<Env, AllocError>
    ensures { IfOk result (λ e. IsScene e me locals.now args.now value) }
{
    let locals = Vec::from_slice(alloc, locals)?;
    let entry = Vec::from_slice(alloc, args)?;
    Ok(Env {
        thread: me,
        this: NULL,
        locals,
        entry,
        result: value,
    })
}

/// Checks the invariants of a loop.
pub fn check_invariants(
    alloc: Global,
    here: &Here<'_, '_>,
    line: u32,
    invariants: &[Spec],
) -> Result<(), Stop>
    ensures { Checks result here.now line LoopCheck (loop_tests invariants.now) }
{
    let at = spot(here.program, here.context, &[], line);
    let env = env(
        alloc,
        here.context.me,
        here.locals,
        &here.context.args,
        Value::Int(0),
    )?;
    check_specs(
        &at,
        CheckKind::LoopInv,
        invariants,
        &here.context.entry,
        here.heap,
        &env,
    )
}

/// Checks the requires clauses of a function that is called with these arguments.
pub fn check_requires(
    alloc: Global,
    here: &Here<'_, '_>,
    line: u32,
    function: &FunctionInfo,
    args: &[Value],
) -> Result<(), Stop>
    ensures { Checks result here.now line RequiresCheck (requires_tests function.now args.now) }
{
    let at = spot(here.program, here.context, &[], line);
    let env = env(alloc, here.context.me, args, args, Value::Int(0))?;
    check_clauses(
        &at,
        CheckKind::Requires,
        &function.requires_,
        here.heap,
        here.heap,
        &env,
    )
}

/// Checks the items of a writes list, each worked out right before its check.
fn check_items(at: &Spot<'_>, items: &[Spec], heap: &Heap, env: &Env) -> Result<(), Stop>
    ensures { ChecksItems result at.now items.now env.now heap.now }
{
    for e in items {
        let o = referent(spec_value(at.program, e, heap, heap, env)?);
        if !at.may_write(o) {
            return Err(at.fault(CheckKind::Writes));
        }
    }
    Ok(())
}

/// Checks the writes list of a function that is called with these arguments.
pub fn check_writes(
    alloc: Global,
    here: &Here<'_, '_>,
    line: u32,
    function: &FunctionInfo,
    args: &[Value],
) -> Result<(), Stop>
    ensures { Checks result here.now line WritesCheck (writes_tests line function.now args.now) }
{
    let at = spot(here.program, here.context, &[], line);
    let env = env(alloc, here.context.me, args, args, Value::Int(0))?;
    check_items(&at, &function.writes, here.heap, &env)
}

/// Checks the ensures clauses of the function that runs, where it gives this value.
pub fn check_ensures(
    alloc: Global,
    here: &Here<'_, '_>,
    line: u32,
    value: Value,
) -> Result<(), Stop>
    ensures { Checks result here.now line EnsuresCheck (ensures_tests value) }
{
    let at = spot(here.program, here.context, &[], line);
    let Some(function) = function_of(here.program, here.context.function) else {
        return Ok(());
    };
    let env = env(
        alloc,
        here.context.me,
        &here.context.args,
        &here.context.args,
        value,
    )?;
    check_clauses(
        &at,
        CheckKind::Ensures,
        &function.ensures_,
        &here.context.entry,
        here.heap,
        &env,
    )
}
