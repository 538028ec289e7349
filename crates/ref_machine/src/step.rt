//! The step of one event.

ghost use Rattle.std.specs.Prelude.{◌≡◌, ◌==◌, ◌<◌, ◌≤◌, map, position, length};
ghost use Rattle.std.specs.Prelude.{IfOk, IfErr, IfSome, IfNone, IsErrOf, OnOk, OnErr};
ghost use Rattle.object_types.specs.Sets.{some};
ghost use Rattle.method.specs.Machine.{State as AState, next_number};
ghost use Rattle.machine_objects.specs.Runs.{IsSilent};
ghost use Rattle.ref_machine.specs.States.{Stands, Same, thread_of};
ghost use Rattle.ref_machine.specs.Answers.{Steps, NotNext};
ghost use Rattle.ref_machine.specs.Plans.{new_thread, Plans, Committed, Answers};
ghost use Rattle.ref_machine.specs.RunsOut.{StepRunsOut};

use crate::settle::{append_reserved, settle};
use crate::state::{State, Thread};
use int_ranges::exact::Wide;
use machine_turns::code::first_frame;
use machine_turns::items::turn;
use machine_turns::turn::{Frames, Turn};
use machine_values::spot::Context;
use machine_values::stop::Stop;
use method::program::{CheckKind, Program};
use object_types::heap::Heap;
use object_types::values::Value;
use schedule_format::schedule::Event;
use std::alloc::{AllocError, Global};
use thiserror::Error;

/// What an event comes to; the numbers are lines.
#[derive(Clone, Copy, Debug, PartialEq, Eq)]
pub enum Stepped {
    Next(u32),
    Fault(CheckKind, u32),
    NotEnabled,
    Wide(Wide),
}

/// Why an event comes to nothing.
#[derive(Clone, Copy, Debug, PartialEq, Eq, Error)]
pub enum StepFault {
    /// A serial, a thread's number or a claim count would be past the greatest that a heap holds, or two threads have
    /// one number.
    #[error("numbers are exhausted")]
    Exhausted,
    #[error("out of memory")]
    OutOfMemory,
}

/// What a step changes, worked out.
#[derive(Drop)]
pub struct Plan<'p> {
    /// the place of the thread whose turn it is
    place: usize,
    /// the heap; none where it is as it was
    heap: Option<Heap>,
    /// what becomes of its functions
    frames: Frames<'p>,
    /// the threads that begin
    threads: Vec<Thread<'p>>,
    line: u32,
}

/// Above the number of each thread, if 32 bits have one.
#[tactic(auto, using(crate::proofs::Threads::last_number))]
fn next_number(threads: &[Thread<'_>]) -> Option<u32>
    ensures some { IfSome result (λ n. n ≡ next_number (map thread_of threads.now)) }
    ensures none { IfNone result (4294967296 ≤ next_number (map thread_of threads.now)) }
{
    let mut next = 1u32;
    for thread in threads {
        let Some(above) = thread.number.checked_add(1) else {
            return None;
        };
        next = next.max(above);
    }
    Some(next)
}

/// The place of the first thread with this number.
fn place_of(threads: &[Thread<'_>], number: u32) -> Option<usize>
    ensures { result ≡ position (λ th. th.number == number) threads.now }
{
    threads.iter().position(|thread| thread.number == number)
}

/// Whether a thread has this number.
fn has_number(threads: &[Thread<'_>], number: u32) -> bool
    ensures { result ≡ some (λ th. th.number == number) threads.now }
{
    for thread in threads {
        if thread.number == number {
            return true;
        }
    }
    false
}

/// The thread that begins with this context.
fn new_thread<'p>(alloc: Global, program: &'p Program, context: Context) -> Result<Thread<'p>, Stop>
    ensures ok { IfOk result (λ th. thread_of th ≡ new_thread program.now context) }
    ensures err { IfErr result IsSilent }
{
    let number = context.me.serial;
    let frame = first_frame(alloc, program, context)?;
    let mut frames = Vec::new(alloc);
    frames.push(frame)?;
    Ok(Thread { number, frames })
}

/// The threads that begin with these contexts.
fn new_threads<'p>(
    alloc: Global,
    program: &'p Program,
    started: Vec<Context>,
) -> Result<Vec<Thread<'p>>, Stop>
    ensures ok { IfOk result (λ threads. map thread_of threads.items ≡ map (new_thread program.now) started.items) }
    ensures err { IfErr result IsSilent }
{
    let mut threads = Vec::new(alloc);
    for context in started {
        threads.push(new_thread(alloc, program, context)?)?;
    }
    Ok(threads)
}

/// Works out the turn of the thread with this number.
///
/// # Errors
/// Exhausted where an action gives it, a thread has the last number, or two threads have this one.
fn work_out<'p>(
    alloc: Global,
    program: &'p Program,
    state: &State<'p>,
    number: u32,
    choices: &[Value],
) -> Result<Plan<'p>, Stop>
    ensures plan { (s : AState) → Stands s state.now → Plans result program.now s number choices.now state.now }
    ensures place { IfOk result (λ plan. plan.place < length state.now.threads.items) }
{
    let Some(place) = place_of(&state.threads, number) else {
        return Err(Stop::Misfit);
    };
    if has_number(&state.threads[place + 1..], number) {
        return Err(Stop::Exhausted);
    }
    let Some(next) = next_number(&state.threads) else {
        return Err(Stop::Exhausted);
    };
    let frames = &state.threads[place].frames;
    let Turn {
        heap,
        frames,
        started,
        line,
    } = turn(alloc, program, &state.heap, next, choices, frames)?;
    let threads = new_threads(alloc, program, started)?;
    Ok(Plan {
        place,
        heap,
        frames,
        threads,
        line,
    })
}

/// Makes the change; refused, it leaves the state as it was.
fn commit<'p>(state: &mut State<'p>, plan: Plan<'p>) -> Result<(), AllocError>
    requires { plan.place < length state.old.threads.items }
    ensures ok { OnOk result (Committed plan.entry state.old state.new) }
    ensures err { OnErr result (Same state.old state.new) }
{
    let Plan {
        place,
        heap,
        frames,
        threads,
        ..
    } = plan;
    state.threads.reserve(threads.len())?;
    settle(&mut state.threads[place].frames, frames)?;
    append_reserved(&mut state.threads, threads);
    if let Some(heap) = heap {
        state.heap = heap;
    }
    Ok(())
}

/// Takes the turn of the thread with this number; its line.
fn take<'p>(
    alloc: Global,
    program: &'p Program,
    state: &mut State<'p>,
    event: &Event,
) -> Result<u32, Stop>
    ensures answer { (s : AState) → Stands s state.old → Answers result program.now s event.now state.new }
    ensures kept { OnErr result (Same state.old state.new) }
{
    let plan = work_out(alloc, program, state, event.thread(), event.choices())?;
    let line = plan.line;
    commit(state, plan)?;
    Ok(line)
}

/// Takes the step of the event. Every answer but Next leaves the state as it was.
///
/// # Errors
/// Exhausted, where a serial, a thread's number or a claim count would be past the greatest that a heap holds, or two
/// threads have the event's number.
pub fn step<'p>(
    alloc: Global,
    program: &'p Program,
    state: &mut State<'p>,
    event: &Event,
) -> Result<Stepped, StepFault>
    ensures answer { IfOk result (λ a. (s : AState) → Stands s state.old → Steps a program.now s event.now state.new) }
    ensures exhausted { IsErrOf result StepFault.Exhausted → (s : AState) → Stands s state.old →
        StepRunsOut program.now s event.now }
    ensures kept { NotNext result → Same state.old state.new }
{
    match take(alloc, program, state, event) {
        Ok(line) => Ok(Stepped::Next(line)),
        Err(Stop::Misfit) => Ok(Stepped::NotEnabled),
        Err(Stop::Fault(kind, line)) => Ok(Stepped::Fault(kind, line)),
        Err(Stop::Wide(wide)) => Ok(Stepped::Wide(wide)),
        Err(Stop::Exhausted) => Err(StepFault::Exhausted),
        Err(Stop::OutOfMemory) => Err(StepFault::OutOfMemory),
    }
}
