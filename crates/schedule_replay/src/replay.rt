//! Replaying a schedule.

ghost use Rattle.std.specs.Prelude.{◌≡◌, ◌<◌, ◌≤◌, IsErrOf};
ghost use Rattle.object_types.specs.Lookups.{heap_of};
ghost use Rattle.method.specs.Machine.{State as AState};
ghost use Rattle.ref_machine.specs.States.{Stands};
ghost use Rattle.schedule_replay.specs.Printing.{Writes, Front};
ghost use Rattle.schedule_replay.specs.Answers.{Answers, AnswersFrom, AnswersNoStart};
ghost use Rattle.schedule_replay.specs.ReplayText.{end_text, replay_of};
ghost use Rattle.schedule_replay.specs.RunsOut.{EventsRunOut, ReplayRunsOut};

use crate::fault::ReplayFault;
use crate::lines::{put_clean, put_fault, put_idle, put_step};
use crate::records::put_records;
use method::program::{CheckKind, Program};
use object_types::heap::Heap;
use ref_machine::start::{StartFault, start};
use ref_machine::state::State;
use ref_machine::step::{Stepped, step};
use schedule_format::schedule::{Event, Schedule};
use std::alloc::Global;
use vcc_base::sink::{Sink, SinkFault};

/// What ends a replay behind the last event: the number of steps, and the records.
fn put_end<O: Sink>(out: &mut O, program: &Program, h: &Heap, steps: u64) -> Result<(), SinkFault>
    ensures ok { Writes result (O.written out.old) (O.written out.new) (end_text program.now (heap_of h.now) steps) }
    ensures err { Front result (O.written out.old) (O.written out.new) (end_text program.now (heap_of h.now) steps) }
    ensures failed { IsErrOf result SinkFault.Failed → O.faults out.old < O.faults out.new }
    ensures never_falls { O.faults out.old ≤ O.faults out.new }
{
    put_clean(out, steps)?;
    put_records(out, program, h)?;
    Ok(())
}

/// Replays the events from a state on, and writes a line for each; true where each was a step.
fn replay_events<'p, O: Sink>(
    alloc: Global,
    program: &'p Program,
    mut state: State<'p>,
    events: &[Event],
    out: &mut O,
) -> Result<bool, ReplayFault>
    ensures answer { AnswersFrom result program.now events.now state.entry (O.written out.old) (O.written out.new) }
    ensures exhausted { IsErrOf result ReplayFault.Exhausted → (s : AState) → Stands s state.entry →
        EventsRunOut program.now events.now s }
    ensures failed { IsErrOf result (ReplayFault.Sink SinkFault.Failed) → O.faults out.old < O.faults out.new }
    ensures never_falls { O.faults out.old ≤ O.faults out.new }
{
    let mut number: u64 = 0;
    for event in events {
        number += 1;
        let thread = event.thread();
        let stepped = step(alloc, program, &mut state, event)?;
        match stepped {
            Stepped::Next(line) => put_step(out, number, thread, line)?,
            Stepped::Fault(kind, line) => {
                put_fault(out, number, thread, line, kind)?;
                return Ok(false);
            }
            Stepped::NotEnabled => {
                put_idle(out, number, thread)?;
                return Ok(false);
            }
            Stepped::Wide(wide) => return Err(ReplayFault::Wide(wide)),
        }
    }
    put_end(out, program, state.heap(), number)?;
    Ok(true)
}

/// The answer where main doesn't start, with its line where a requires clause is false.
fn put_no_start<O: Sink>(out: &mut O, fault: StartFault) -> Result<bool, ReplayFault>
    ensures answer { AnswersNoStart result fault (O.written out.old) (O.written out.new) }
    ensures lasts { IsErrOf result ReplayFault.Exhausted → ⊥ }
    ensures failed { IsErrOf result (ReplayFault.Sink SinkFault.Failed) → O.faults out.old < O.faults out.new }
    ensures never_falls { O.faults out.old ≤ O.faults out.new }
{
    match fault {
        StartFault::BadArgs => Err(ReplayFault::BadArgs),
        StartFault::Requires(line) => {
            put_fault(out, 0, 1, line, CheckKind::Requires)?;
            Ok(false)
        }
        StartFault::Wide(wide) => Err(ReplayFault::Wide(wide)),
        StartFault::OutOfMemory => Err(ReplayFault::OutOfMemory),
    }
}

/// Replays the schedule from the empty heap, and writes a line for each step as it goes; true where main's requires
/// clauses hold and each event was a step, and false at a fault or an event that isn't enabled.
///
/// # Errors
/// `BadArgs` where the arguments don't fit main, and `Wide` where an annotation's value leaves 128 bits, with all lines
/// before it written; `Sink` where the sink took no more; `Exhausted` where the machine's numbers run out at an event, and
/// `OutOfMemory` where it wants memory.
pub fn replay<O: Sink>(
    alloc: Global,
    program: &Program,
    schedule: &Schedule,
    out: &mut O,
) -> Result<bool, ReplayFault>
    ensures answer { Answers result (replay_of program.now schedule.now) (O.written out.old) (O.written out.new) }
    ensures exhausted { IsErrOf result ReplayFault.Exhausted → ReplayRunsOut program.now schedule.now }
    ensures failed { IsErrOf result (ReplayFault.Sink SinkFault.Failed) → O.faults out.old < O.faults out.new }
    ensures never_falls { O.faults out.old ≤ O.faults out.new }
{
    match start(alloc, program, Heap::empty(alloc), schedule.arguments()) {
        Ok(state) => replay_events(alloc, program, state, schedule.events(), out),
        Err(fault) => put_no_start(out, fault),
    }
}
