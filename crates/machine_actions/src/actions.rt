//! One action of a function's run.

ghost use Rattle.std.specs.Prelude.{◌≡◌, IfOk, IfSome, IfNone, Some, None, slice_get};
ghost use Rattle.method.specs.declared.program.Action.TheVariants.{Define, AssertSpec};
ghost use Rattle.method.specs.Actions.{run_action};
ghost use Rattle.machine_ownership.specs.Owned.{Performs, PerformsOr};
ghost use Rattle.machine_ownership.specs.RunsOut.{NoThread};
ghost use Rattle.machine_actions.specs.Enabled.{enabled_action, thread_start};
ghost use Rattle.machine_actions.specs.Running.{IsRunEnv};
ghost use Rattle.machine_actions.specs.RunsOut.{ActionRunsOut};

use crate::blocks::atomic;
use crate::fits::action_fits;
use crate::simple::run_simple;
use machine_claims::interlocked::right_side;
use machine_objects::objects::{free, unwrap_object};
use machine_objects::progress::{Place, Progress};
use machine_objects::store::{set_local, store};
use machine_ownership::spawn::spawn;
use machine_ownership::wrapping::wrap_object;
use machine_values::eval::{eval, eval_all};
use machine_values::spot::Spot;
use machine_values::stop::Stop;
use machine_values::tests::spec_test;
use machine_values::values::{local, referent};
use method::program::{Action, CheckKind, Expr, FunctionInfo, Program, RightSide, Spec};
use object_types::references::NULL;
use object_types::values::Value;
use spec_eval::env::Env;
use std::alloc::{AllocError, Global};

/// The environment of an annotation at a place in a function's run.
fn run_env(alloc: Global, at: &Spot<'_>, locals: &[Value]) -> Result<Env, AllocError>
    ensures { IfOk result (IsRunEnv at.now.context.now locals.now) }
{
    let locals = Vec::from_slice(alloc, locals)?;
    let entry = Vec::from_slice(alloc, &at.context.args)?;
    Ok(Env {
        thread: at.context.me,
        this: NULL,
        locals,
        entry,
        result: Value::Int(0),
    })
}

/// An assertion.
fn assert_spec(alloc: Global, at: &Spot<'_>, e: &Spec, progress: &Progress) -> Result<(), Stop>
    ensures { Performs result at.now progress.now progress.now (λ p s. run_action p s (AssertSpec e.now)) }
{
    let env = run_env(alloc, at, &progress.locals)?;
    if !spec_test(at.program, e, &at.context.entry, &progress.heap, &env)? {
        return Err(at.fault(CheckKind::Assert));
    }
    Ok(())
}

/// A declaration with its first value.
fn define(
    alloc: Global,
    at: &Spot<'_>,
    i: u32,
    right: &RightSide,
    progress: &mut Progress,
) -> Result<(), Stop>
    ensures { PerformsOr result at.now progress.old progress.new
        (λ p s. ActionRunsOut p s (Define i right.now)) (λ p s. run_action p s (Define i right.now)) }
{
    let v = right_side(alloc, at, right, Place::InLocal(i), progress)?;
    store(at, Place::InLocal(i), v, progress)
}

/// The function with the number.
fn function_of(program: &Program, number: u32) -> Option<&FunctionInfo>
    ensures some { IfSome result (λ f. slice_get program.now.functions.items number ≡ Some f.now) }
    ensures none { IfNone result (slice_get program.now.functions.items number ≡ None) }
{
    program.functions.get(number as usize)
}

/// A start of a thread with the function of this number, if there is one.
fn spawn_thread(
    alloc: Global,
    at: &Spot<'_>,
    number: u32,
    es: &[Expr],
    progress: &mut Progress,
) -> Result<(), Stop>
    ensures { PerformsOr result at.now progress.old progress.new
        (λ p s n g. NoThread g.supply g.heap) (λ p s. thread_start p s number es.now) }
{
    let args = eval_all(alloc, at, &progress.heap, &progress.locals, es)?;
    let Some(function) = function_of(at.program, number) else {
        return Err(Stop::Misfit);
    };
    spawn(alloc, at, number, function, &args, progress)
}

/// An action whose choices fit.
fn run_action(
    alloc: Global,
    at: &Spot<'_>,
    action: &Action,
    progress: &mut Progress,
) -> Result<(), Stop>
    ensures { PerformsOr result at.now progress.old progress.new
        (λ p s. ActionRunsOut p s action.now) (λ p s. run_action p s action.now) }
{
    match action {
        Action::Simply(simple) => run_simple(alloc, at, simple, progress),
        Action::Declare(i) => {
            set_local(&mut progress.locals, *i, local(at.choices, 0));
            Ok(())
        }
        Action::Define(i, right) => define(alloc, at, *i, right, progress),
        Action::WrapObject(ty, _, e) => {
            let v = eval(alloc, at, &progress.heap, &progress.locals, e)?;
            wrap_object(alloc, at, *ty, referent(v), progress)
        }
        Action::UnwrapObject(e) => {
            let v = eval(alloc, at, &progress.heap, &progress.locals, e)?;
            unwrap_object(at, referent(v), progress)
        }
        Action::AssertSpec(e) => assert_spec(alloc, at, e, progress),
        Action::FreeObject(e) => {
            let v = eval(alloc, at, &progress.heap, &progress.locals, e)?;
            free(at, referent(v), progress)
        }
        Action::SpawnThread(number, es) => spawn_thread(alloc, at, *number, es, progress),
        Action::Atomic(listed, body) => atomic(alloc, at, listed, body, progress),
    }
}

/// One action of a function's run.
///
/// # Errors
/// Misfit where the event's choices are none that the action has, or there is no function or claim site of its number;
/// the fault of its first check that fails; Wide, with the operands of the first exact result on the way that leaves 128
/// bits; Exhausted where a claim count is at its greatest, or no serial or thread's number is left for what the action
/// makes.
pub fn act(
    alloc: Global,
    at: &Spot<'_>,
    action: &Action,
    progress: &mut Progress,
) -> Result<(), Stop>
    ensures { PerformsOr result at.now progress.old progress.new
        (λ p s. ActionRunsOut p s action.now) (λ p s. enabled_action p s action.now) }
{
    if !action_fits(at.program, at.context.function, action, at.choices) {
        return Err(Stop::Misfit);
    }
    run_action(alloc, at, action, progress)
}
