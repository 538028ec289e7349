//! The lines of a replay, each by one call: after a fault of the sink a front of the line is written, and nothing more.

ghost use Rattle.std.specs.Prelude.{◌≡◌, ◌<◌, ◌≤◌, IsErrOf};
ghost use Rattle.schedule_replay.specs.Printing.{Writes, Front};
ghost use Rattle.schedule_replay.specs.ReplayText.{kind_text, step_text, fault_text, idle_text, clean_text};

use crate::put::{Piece, put_line};
use method::program::CheckKind;
use vcc_base::sink::{Sink, SinkFault};

/// The name of a kind of check.
pub fn kind_name(kind: CheckKind) -> &'static [u8]
    ensures { result.now ≡ kind_text kind }
{
    match kind {
        CheckKind::Divide => b"Divide",
        CheckKind::Range => b"Range",
        CheckKind::Read => b"Read",
        CheckKind::Write => b"Write",
        CheckKind::Writes => b"Writes",
        CheckKind::Owns => b"Owns",
        CheckKind::Wrap => b"Wrap",
        CheckKind::Unwrap => b"Unwrap",
        CheckKind::Claimed => b"Claimed",
        CheckKind::Invariant => b"Invariant",
        CheckKind::AtomicClosed => b"AtomicClosed",
        CheckKind::MakeClaim => b"MakeClaim",
        CheckKind::ClaimStable => b"ClaimStable",
        CheckKind::DestroyClaim => b"DestroyClaim",
        CheckKind::Requires => b"Requires",
        CheckKind::Ensures => b"Ensures",
        CheckKind::Assert => b"Assert",
        CheckKind::LoopInv => b"LoopInv",
        CheckKind::Free => b"Free",
        CheckKind::Spawn => b"Spawn",
        CheckKind::Reflexive => b"Reflexive",
        CheckKind::Stable => b"Stable",
    }
}

/// The line of a step: the event's number, counted from 1, its thread, and the line of the source that it ran.
pub fn put_step<O: Sink>(out: &mut O, number: u64, thread: u32, line: u32) -> Result<(), SinkFault>
    ensures ok { Writes result (O.written out.old) (O.written out.new) (step_text number thread line) }
    ensures err { Front result (O.written out.old) (O.written out.new) (step_text number thread line) }
    ensures failed { IsErrOf result SinkFault.Failed → O.faults out.old < O.faults out.new }
    ensures never_falls { O.faults out.old ≤ O.faults out.new }
{
    put_line(
        out,
        &[
            Piece::Count(number),
            Piece::Text(b" t"),
            Piece::Natural(thread),
            Piece::Text(b" line "),
            Piece::Natural(line),
            Piece::Text(b"\n"),
        ],
    )
}

/// The line of a fault: the event's number, its thread, and the line and kind of the check that failed.
pub fn put_fault<O: Sink>(
    out: &mut O,
    number: u64,
    thread: u32,
    line: u32,
    kind: CheckKind,
) -> Result<(), SinkFault>
    ensures ok { Writes result (O.written out.old) (O.written out.new) (fault_text number thread line kind) }
    ensures err { Front result (O.written out.old) (O.written out.new) (fault_text number thread line kind) }
    ensures failed { IsErrOf result SinkFault.Failed → O.faults out.old < O.faults out.new }
    ensures never_falls { O.faults out.old ≤ O.faults out.new }
{
    put_line(
        out,
        &[
            Piece::Count(number),
            Piece::Text(b" t"),
            Piece::Natural(thread),
            Piece::Text(b" line "),
            Piece::Natural(line),
            Piece::Text(b" fault "),
            Piece::Text(kind_name(kind)),
            Piece::Text(b"\n"),
        ],
    )
}

/// The line of an event that isn't enabled: its number and its thread.
pub fn put_idle<O: Sink>(out: &mut O, number: u64, thread: u32) -> Result<(), SinkFault>
    ensures ok { Writes result (O.written out.old) (O.written out.new) (idle_text number thread) }
    ensures err { Front result (O.written out.old) (O.written out.new) (idle_text number thread) }
    ensures failed { IsErrOf result SinkFault.Failed → O.faults out.old < O.faults out.new }
    ensures never_falls { O.faults out.old ≤ O.faults out.new }
{
    put_line(
        out,
        &[
            Piece::Count(number),
            Piece::Text(b" t"),
            Piece::Natural(thread),
            Piece::Text(b" not enabled\n"),
        ],
    )
}

/// The line behind the last step: how many there were.
pub fn put_clean<O: Sink>(out: &mut O, number: u64) -> Result<(), SinkFault>
    ensures ok { Writes result (O.written out.old) (O.written out.new) (clean_text number) }
    ensures err { Front result (O.written out.old) (O.written out.new) (clean_text number) }
    ensures failed { IsErrOf result SinkFault.Failed → O.faults out.old < O.faults out.new }
    ensures never_falls { O.faults out.old ≤ O.faults out.new }
{
    put_line(
        out,
        &[
            Piece::Text(b"clean "),
            Piece::Count(number),
            Piece::Text(b" steps\n"),
        ],
    )
}
