//! How a program starts.

ghost use Rattle.std.specs.Prelude.{◌≡◌, Some, slice_get, IfOk, IfErr};
ghost use Rattle.object_types.specs.Lookups.{heap_of};
ghost use Rattle.method.specs.Machine.{in_types, fit_parameters};
ghost use Rattle.method.specs.Starts.{start};
ghost use Rattle.machine_values.specs.Answers.{Finds};
ghost use Rattle.machine_values.specs.Testing.{code_scene};
ghost use Rattle.ref_machine.specs.Starting.{Starts, StartsNot, StartsIn, main_start, start_verdict};

use crate::state::{State, Thread};
use int_ranges::exact::Wide;
use machine_ownership::spawn::{call_env, callee};
use machine_turns::code::{begin, function_of};
use machine_values::stop::Stop;
use machine_values::tables::{THREADS, in_type};
use machine_values::tests::spec_test;
use method::program::{CheckKind, Clause, FunctionInfo, Program, VariableInfo};
use object_types::heap::Heap;
use object_types::references::Ref;
use object_types::values::Value;
use spec_eval::env::Env;
use std::alloc::Global;
use thiserror::Error;

/// Why a program doesn't start.
#[derive(Clone, Copy, Debug, PartialEq, Eq, Error)]
pub enum StartFault {
    /// The arguments are not as many as main's parameters, or one isn't of its type.
    #[error("the arguments don't fit main")]
    BadArgs,
    /// A requires clause of main is false: the first, by its line.
    #[error("the requires clause of line {0} is false")]
    Requires(u32),
    /// A value of main's contract leaves 128 bits.
    #[error("{0}")]
    Wide(Wide),
    #[error("out of memory")]
    OutOfMemory,
}

/// Whether each value is of its variable's type.
fn in_types(variables: &[VariableInfo], values: &[Value]) -> bool
    ensures { result ≡ in_types variables.now values.now }
{
    for (i, v) in values.iter().enumerate() {
        if i >= variables.len() {
            return false;
        }
        if !in_type(variables[i].ty, *v) {
            return false;
        }
    }
    true
}

/// Whether the arguments fit the parameters.
fn fit_parameters(function: &FunctionInfo, args: &[Value]) -> bool
    ensures { result ≡ fit_parameters function.now args.now }
{
    if args.len() != function.parameters as usize {
        return false;
    }
    in_types(&function.variables, args)
}

/// Checks main's requires clauses, each with its own line.
fn check_requires(program: &Program, clauses: &[Clause], heap: &Heap, env: &Env) -> Result<(), Stop>
    ensures { Finds result (start_verdict program.now clauses.now (code_scene env.now heap.now heap.now)) }
{
    for clause in clauses {
        if !spec_test(program, &clause.spec, heap, heap, env)? {
            return Err(Stop::Fault(CheckKind::Requires, clause.line));
        }
    }
    Ok(())
}

/// The state in which main is about to run.
fn start_main<'p>(
    alloc: Global,
    program: &'p Program,
    function: &'p FunctionInfo,
    heap: Heap,
    args: &[Value],
) -> Result<State<'p>, Stop>
    requires { slice_get program.now.functions.items program.now.main ≡ Some function.now }
    ensures starts { StartsIn result (main_start program.now function.now heap args.now) }
    ensures heap { IfOk result (λ c. c.heap ≡ heap) }
{
    let me = Ref {
        ty: THREADS,
        serial: 1,
    };
    let env = call_env(alloc, me, args)?;
    check_requires(program, &function.requires_, &heap, &env)?;
    let context = callee(alloc, program, program.main, function, me, &heap, args)?;
    let frame = begin(alloc, function, context)?;
    let mut frames = Vec::new(alloc);
    frames.push(frame)?;
    let mut threads = Vec::new(alloc);
    threads.push(Thread { number: 1, frames })?;
    Ok(State { heap, threads })
}

/// Starts the program on the heap with these arguments.
pub fn start<'p>(
    alloc: Global,
    program: &'p Program,
    heap: Heap,
    args: &[Value],
) -> Result<State<'p>, StartFault>
    ensures ok { IfOk result (λ c. Starts c (start program.now (heap_of heap) args.now)) }
    ensures err { IfErr result (λ fault. StartsNot fault (start program.now (heap_of heap) args.now)) }
    ensures heap { IfOk result (λ c. c.heap ≡ heap) }
{
    let Some(function) = function_of(program, program.main) else {
        return Err(StartFault::BadArgs);
    };
    if !fit_parameters(function, args) {
        return Err(StartFault::BadArgs);
    }
    match start_main(alloc, program, function, heap, args) {
        Ok(state) => Ok(state),
        Err(Stop::Fault(_, line)) => Err(StartFault::Requires(line)),
        Err(Stop::Wide(wide)) => Err(StartFault::Wide(wide)),
        Err(Stop::Misfit) => Err(StartFault::BadArgs),
        Err(Stop::Exhausted | Stop::OutOfMemory) => Err(StartFault::OutOfMemory),
    }
}
