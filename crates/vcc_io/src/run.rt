//! The command `run`.

ghost use Rattle.std.specs.Prelude.{◌≡◌, ◌<◌, ◌≤◌, ℕ, List, MatchResult, Some};
ghost use Rattle.vcc_base.specs.Maps.{Map};
ghost use Rattle.schedule_format.specs.Reading.{Fails, schedule_of};
ghost use Rattle.vcc_io.specs.Faults.{IsReadFault, read_counts};
ghost use Rattle.vcc_io.specs.Lines.{wrote};
ghost use Rattle.vcc_io.specs.Replays.{HoldsSchedule, IsNoSchedule, IsReplayed, IsRunOfNames, IsScheduleStop, IsStop};

use crate::program::{read, read_program};
use crate::refusal::{LineFault, Refusal};
use crate::report::report;
use method::program::Program;
use schedule_format::fault::ScheduleFault;
use schedule_format::read::read_schedule;
use schedule_format::schedule::Schedule;
use schedule_replay::fault::ReplayFault;
use schedule_replay::replay::replay;
use std::alloc::Global;
use vcc_base::limit::Limit;
use vcc_base::sink::{Sink, SinkFault};
use vcc_base::store::Store;

/// The refusal of a schedule with this fault.
fn refusal_of<'a>(fault: ScheduleFault) -> Refusal<'a>
    ensures { (bytes : List ℕ) → Fails fault (schedule_of bytes) → IsNoSchedule bytes result }
{
    match fault {
        ScheduleFault::BadLine(line) => Refusal::BadSchedule(line, LineFault::BadLine),
        ScheduleFault::BadNumber(line) => Refusal::BadSchedule(line, LineFault::BadNumber),
        ScheduleFault::CutShort(line) => Refusal::BadSchedule(line, LineFault::CutShort),
        ScheduleFault::Trailing(line) => Refusal::BadSchedule(line, LineFault::Trailing),
        ScheduleFault::CountOver(line) => Refusal::BadSchedule(line, LineFault::CountOver),
        ScheduleFault::OutOfMemory => Refusal::OutOfMemory,
    }
}

/// The schedule with this name.
fn read_events<'a, S: Store>(
    alloc: Global,
    store: &mut S,
    name: &'a str,
) -> Result<Schedule, Refusal<'a>>
    ensures answer { (m : Map) → S.contents store.old ≡ Some m →
        MatchResult result (HoldsSchedule m name.entry.now) (IsScheduleStop m name.entry.now) }
    ensures fault { IsReadFault result → S.read_faults store.old < S.read_faults store.new }
    ensures never_falls { S.read_faults store.old ≤ S.read_faults store.new }
    ensures kept { S.contents store.new ≡ S.contents store.old }
{
    let bytes = match read(alloc, store, name, Limit::ScheduleBytes) {
        Ok(bytes) => bytes,
        Err(refusal) => return Err(refusal),
    };
    match read_schedule(alloc, &bytes) {
        Ok(schedule) => Ok(schedule),
        Err(fault) => Err(refusal_of(fault)),
    }
}

/// Reports why a replay gave no answer, and gives the status; a sink that took no more gets nothing.
fn report_stop<O: Sink>(out: &mut O, fault: ReplayFault) -> u8
    ensures { IsStop fault
        (wrote (O.faults out.old) (O.faults out.new) (O.written out.old) (O.written out.new)) result }
{
    match fault {
        ReplayFault::BadArgs => report(out, Err(Refusal::BadArgs)),
        ReplayFault::Wide(wide) => report(out, Err(Refusal::Wide(wide))),
        ReplayFault::Exhausted => report(out, Err(Refusal::Exhausted)),
        ReplayFault::OutOfMemory => report(out, Err(Refusal::OutOfMemory)),
        ReplayFault::Sink(SinkFault::Failed) => 7,
        ReplayFault::Sink(SinkFault::OutOfMemory) => 8,
    }
}

/// Prints the replay of the schedule by the program, and gives its status.
fn print_replay<O: Sink>(alloc: Global, program: &Program, schedule: &Schedule, out: &mut O) -> u8
    ensures { IsReplayed program.now schedule.now
        (wrote (O.faults out.old) (O.faults out.new) (O.written out.old) (O.written out.new)) result }
{
    match replay(alloc, program, schedule, out) {
        Ok(true) => 0,
        Ok(false) => 1,
        Err(fault) => report_stop(out, fault),
    }
}

/// Runs the source with this name along the schedule with that name: prints its replay, or why there is none, and gives the
/// status. The source is read and typed before the schedule is read.
pub fn run<S: Store, O: Sink>(
    alloc: Global,
    store: &mut S,
    source: &str,
    schedule: &str,
    out: &mut O,
) -> u8
    ensures runs { (m : Map) → S.contents store.old ≡ Some m → IsRunOfNames m source.now schedule.now
        (read_counts (S.read_faults store.old) (S.read_faults store.new))
        (wrote (O.faults out.old) (O.faults out.new) (O.written out.old) (O.written out.new)) result }
    ensures kept { S.contents store.new ≡ S.contents store.old }
{
    let program = match read_program(alloc, store, source) {
        Ok(program) => program,
        Err(refusal) => return report(out, Err(refusal)),
    };
    match read_events(alloc, store, schedule) {
        Ok(events) => print_replay(alloc, &program, &events, out),
        Err(refusal) => report(out, Err(refusal)),
    }
}
