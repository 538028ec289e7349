//! What the program prints, and its status.

ghost use Rattle.std.specs.Prelude.{◌≡◌, ◌<◌, ◌≤◌, ◌++◌, OnOk, OnErr, IsErrOf, codes, decimal};
ghost use Rattle.schedule_replay.specs.Printing.{Writes, Front};
ghost use Rattle.typing_spec.specs.Rules.{number as number_of_rule};
ghost use Rattle.typing_expressions.specs.Views.{rule};
ghost use Rattle.vcc_base.specs.Maps.{NowWritten, FrontWritten};
ghost use Rattle.vcc_base.specs.Limits.{number_of, name_of};
ghost use Rattle.vcc_io.specs.Lines.{IsReported, IsReportedLine, cert_line, copies_line, count_line, fault_name, line, line_of, no_line};
ghost use Rattle.vcc_io.specs.Lines.{schedule_line, source_line, status_of, upgrade_line, wide_line, write_fault_line, wrote};

use crate::refusal::{BlockCount, LineFault, Refusal};
use crate::verdict::{Failing, Verdict};
use c_syntax::token::Span;
use schedule_replay::put::{Piece, put_line};
use typing_expressions::violations::Violation;
use vcc_base::limit::Limit;
use vcc_base::sink::{Sink, SinkFault};
use vcc_base::whole::put_all;
use vcc_search::lines::put_label;

/// The line of a check that doesn't follow.
fn put_no<O: Sink>(out: &mut O, failing: Failing<'_>) -> Result<(), SinkFault>
    ensures ok { Writes result (O.written out.old) (O.written out.new) (no_line failing.entry) }
    ensures err { Front result (O.written out.old) (O.written out.new) (no_line failing.entry) }
    ensures failed { IsErrOf result SinkFault.Failed → O.faults out.old < O.faults out.new }
    ensures never_falls { O.faults out.old ≤ O.faults out.new }
{
    put_all(out, b"no: ")?;
    put_label(out, failing.name, failing.label)
}

/// A line of a word and a name.
fn put_named<'a, O: Sink>(out: &mut O, word: &'a [u8], name: &'a str) -> Result<(), SinkFault>
    ensures ok { Writes result (O.written out.old) (O.written out.new) (word.now ++ line name.now) }
    ensures err { Front result (O.written out.old) (O.written out.new) (word.now ++ line name.now) }
    ensures failed { IsErrOf result SinkFault.Failed → O.faults out.old < O.faults out.new }
    ensures never_falls { O.faults out.old ≤ O.faults out.new }
{
    put_line(
        out,
        &[
            Piece::Text(word),
            Piece::Text(name.as_bytes()),
            Piece::Text(b"\n"),
        ],
    )
}

/// The line of a limit.
fn put_limit<O: Sink>(out: &mut O, limit: Limit) -> Result<(), SinkFault>
    ensures ok { Writes result (O.written out.old) (O.written out.new)
        (codes "limit: " ++ (name_of limit ++ (codes " " ++ line (decimal (number_of limit))))) }
    ensures err { Front result (O.written out.old) (O.written out.new)
        (codes "limit: " ++ (name_of limit ++ (codes " " ++ line (decimal (number_of limit))))) }
    ensures failed { IsErrOf result SinkFault.Failed → O.faults out.old < O.faults out.new }
    ensures never_falls { O.faults out.old ≤ O.faults out.new }
{
    put_line(
        out,
        &[
            Piece::Text(b"limit: "),
            Piece::Text(limit.name().as_bytes()),
            Piece::Text(b" "),
            Piece::Count(limit.number()),
            Piece::Text(b"\n"),
        ],
    )
}

/// The name of what is wrong with a line.
fn fault_name(fault: LineFault) -> &'static [u8]
    ensures { result.now ≡ fault_name fault }
{
    match fault {
        LineFault::BadLine => b"BadLine",
        LineFault::BadNumber => b"BadNumber",
        LineFault::CutShort => b"CutShort",
        LineFault::Trailing => b"Trailing",
        LineFault::CountOver => b"CountOver",
    }
}

/// The line of a certificate's fault.
fn put_cert_fault<O: Sink>(out: &mut O, line: u32, fault: LineFault) -> Result<(), SinkFault>
    ensures ok { Writes result (O.written out.old) (O.written out.new) (cert_line line fault) }
    ensures err { Front result (O.written out.old) (O.written out.new) (cert_line line fault) }
    ensures failed { IsErrOf result SinkFault.Failed → O.faults out.old < O.faults out.new }
    ensures never_falls { O.faults out.old ≤ O.faults out.new }
{
    put_line(
        out,
        &[
            Piece::Text(b"certificate line "),
            Piece::Natural(line),
            Piece::Text(b": "),
            Piece::Text(fault_name(fault)),
            Piece::Text(b"\n"),
        ],
    )
}

/// The line of a certificate with another number of blocks than the source has conditions.
fn put_count<O: Sink>(out: &mut O, count: BlockCount) -> Result<(), SinkFault>
    ensures ok { Writes result (O.written out.old) (O.written out.new) (count_line count) }
    ensures err { Front result (O.written out.old) (O.written out.new) (count_line count) }
    ensures failed { IsErrOf result SinkFault.Failed → O.faults out.old < O.faults out.new }
    ensures never_falls { O.faults out.old ≤ O.faults out.new }
{
    put_line(
        out,
        &[
            Piece::Text(b"certificate: conditions "),
            Piece::Count(count.blocks as u64),
            Piece::Text(b", source has "),
            Piece::Count(count.conditions as u64),
            Piece::Text(b"\n"),
        ],
    )
}

/// The line of a schedule's fault.
fn put_schedule_fault<O: Sink>(out: &mut O, line: u32, fault: LineFault) -> Result<(), SinkFault>
    ensures ok { Writes result (O.written out.old) (O.written out.new) (schedule_line line fault) }
    ensures err { Front result (O.written out.old) (O.written out.new) (schedule_line line fault) }
    ensures failed { IsErrOf result SinkFault.Failed → O.faults out.old < O.faults out.new }
    ensures never_falls { O.faults out.old ≤ O.faults out.new }
{
    put_line(
        out,
        &[
            Piece::Text(b"schedule line "),
            Piece::Natural(line),
            Piece::Text(b": "),
            Piece::Text(fault_name(fault)),
            Piece::Text(b"\n"),
        ],
    )
}

/// The line of a number that leaves 128 bits: the operands of its operation.
fn put_wide<O: Sink>(out: &mut O, left: i128, right: i128) -> Result<(), SinkFault>
    ensures ok { Writes result (O.written out.old) (O.written out.new) (wide_line left right) }
    ensures err { Front result (O.written out.old) (O.written out.new) (wide_line left right) }
    ensures failed { IsErrOf result SinkFault.Failed → O.faults out.old < O.faults out.new }
    ensures never_falls { O.faults out.old ≤ O.faults out.new }
{
    put_line(
        out,
        &[
            Piece::Text(b"limit: Wide "),
            Piece::Integer(left),
            Piece::Text(b" "),
            Piece::Integer(right),
            Piece::Text(b"\n"),
        ],
    )
}

/// The line of a fault of the source, which is a fault of this stage with this number.
fn put_fault<O: Sink>(out: &mut O, place: Span, stage: &[u8], number: u64) -> Result<(), SinkFault>
    ensures ok { Writes result (O.written out.old) (O.written out.new) (source_line place stage.now number) }
    ensures err { Front result (O.written out.old) (O.written out.new) (source_line place stage.now number) }
    ensures failed { IsErrOf result SinkFault.Failed → O.faults out.old < O.faults out.new }
    ensures never_falls { O.faults out.old ≤ O.faults out.new }
{
    put_line(
        out,
        &[
            Piece::Text(b"source "),
            Piece::Natural(place.line),
            Piece::Text(b":"),
            Piece::Natural(place.column),
            Piece::Text(b": "),
            Piece::Text(stage),
            Piece::Text(b" "),
            Piece::Count(number),
            Piece::Text(b"\n"),
        ],
    )
}

/// The line of a broken typing rule: its place and its number.
fn put_broken<O: Sink>(out: &mut O, broken: Violation) -> Result<(), SinkFault>
    ensures ok { OnOk result (NowWritten (O.written out.old) (O.written out.new)
        (source_line broken.span (codes "rule") (number_of_rule (rule broken.rule)))) }
    ensures err { OnErr result (FrontWritten (O.written out.old) (O.written out.new)
        (source_line broken.span (codes "rule") (number_of_rule (rule broken.rule)))) }
    ensures failed { IsErrOf result SinkFault.Failed → O.faults out.old < O.faults out.new }
    ensures never_falls { O.faults out.old ≤ O.faults out.new }
{
    let number = broken.rule.number();
    put_fault(out, broken.span, b"rule", u64::from(number))
}

/// Prints the line of an answer.
fn put_answer<O: Sink>(
    out: &mut O,
    answer: Result<Verdict<'_>, Refusal<'_>>,
) -> Result<(), SinkFault>
    ensures ok { OnOk result (NowWritten (O.written out.old) (O.written out.new) (line_of answer.entry)) }
    ensures err { OnErr result (FrontWritten (O.written out.old) (O.written out.new) (line_of answer.entry)) }
    ensures failed { IsErrOf result SinkFault.Failed → O.faults out.old < O.faults out.new }
    ensures never_falls { O.faults out.old ≤ O.faults out.new }
{
    match answer {
        Ok(Verdict::Yes) => put_all(out, b"yes\n"),
        Ok(Verdict::No(failing)) => put_no(out, failing),
        Err(Refusal::Usage) => put_all(
            out,
            b"usage: vcc check SOURCE CERT, verify SOURCE CERT [--leaves N] [--rounds N], run SOURCE SCHEDULE, gen N, upgrade SOURCE CERT NEW\n",
        ),
        Err(Refusal::BadByte(place)) => put_fault(out, place, b"token", 1),
        Err(Refusal::BadNumber(place)) => put_fault(out, place, b"token", 2),
        Err(Refusal::OpenComment(place)) => put_fault(out, place, b"token", 3),
        Err(Refusal::Unexpected(place)) => put_fault(out, place, b"syntax", 1),
        Err(Refusal::UnknownForm(place)) => put_fault(out, place, b"syntax", 2),
        Err(Refusal::BreaksRule(broken)) => put_broken(out, broken),
        Err(Refusal::BadCertificate(line, fault)) => put_cert_fault(out, line, fault),
        Err(Refusal::Count(count)) => put_count(out, count),
        Err(Refusal::BadSchedule(line, fault)) => put_schedule_fault(out, line, fault),
        Err(Refusal::BadArgs) => put_all(out, b"schedule: BadArgs\n"),
        Err(Refusal::Wide(wide)) => put_wide(out, wide.a, wide.b),
        Err(Refusal::Exhausted) => put_all(out, b"limit: Serials 4294967295\n"),
        Err(Refusal::Limit(limit)) => put_limit(out, limit),
        Err(Refusal::Missing(name)) => put_named(out, b"missing: ", name),
        Err(Refusal::ReadFault(name)) => put_named(out, b"read fault: ", name),
        Err(Refusal::OutOfMemory) => put_all(out, b"out of memory\n"),
    }
}

/// The status that goes with an answer's line.
fn status(answer: Result<Verdict<'_>, Refusal<'_>>) -> u8
    ensures { result ≡ status_of answer.entry }
{
    match answer {
        Ok(Verdict::Yes) => 0,
        Ok(Verdict::No(_)) => 1,
        Err(Refusal::Usage) => 2,
        Err(Refusal::BadByte(_)) => 3,
        Err(Refusal::BadNumber(_)) => 3,
        Err(Refusal::OpenComment(_)) => 3,
        Err(Refusal::Unexpected(_)) => 3,
        Err(Refusal::UnknownForm(_)) => 3,
        Err(Refusal::BreaksRule(_)) => 3,
        Err(Refusal::BadCertificate(_, _)) => 4,
        Err(Refusal::Count(_)) => 4,
        Err(Refusal::BadSchedule(_, _)) => 3,
        Err(Refusal::BadArgs) => 3,
        Err(Refusal::Wide(_)) => 5,
        Err(Refusal::Exhausted) => 5,
        Err(Refusal::Limit(_)) => 5,
        Err(Refusal::Missing(_)) => 6,
        Err(Refusal::ReadFault(_)) => 6,
        Err(Refusal::OutOfMemory) => 8,
    }
}

/// Prints the line of an answer, and gives its status; a write fault or want of memory replaces it.
pub fn report<O: Sink>(out: &mut O, answer: Result<Verdict<'_>, Refusal<'_>>) -> u8
    ensures reported { IsReported answer.entry
        (wrote (O.faults out.old) (O.faults out.new) (O.written out.old) (O.written out.new)) result }
    ensures never_falls { O.faults out.old ≤ O.faults out.new }
{
    match put_answer(out, answer) {
        Ok(()) => status(answer),
        Err(SinkFault::Failed) => 7,
        Err(SinkFault::OutOfMemory) => 8,
    }
}

/// Prints the line of a write to this name that the store didn't take, and gives the status: 7, or 8 where memory is wanted.
pub fn report_write_fault<O: Sink>(out: &mut O, name: &str) -> u8
    ensures reported { IsReportedLine (write_fault_line name.now) 7
        (wrote (O.faults out.old) (O.faults out.new) (O.written out.old) (O.written out.new)) result }
    ensures never_falls { O.faults out.old ≤ O.faults out.new }
{
    match put_named(out, b"write fault: ", name) {
        Ok(()) => 7,
        Err(SinkFault::Failed) => 7,
        Err(SinkFault::OutOfMemory) => 8,
    }
}

/// The line of how many lemmas the new certificate has.
fn put_lemmas<O: Sink>(out: &mut O, lemmas: usize) -> Result<(), SinkFault>
    ensures ok { Writes result (O.written out.old) (O.written out.new) (upgrade_line lemmas) }
    ensures err { Front result (O.written out.old) (O.written out.new) (upgrade_line lemmas) }
    ensures failed { IsErrOf result SinkFault.Failed → O.faults out.old < O.faults out.new }
    ensures never_falls { O.faults out.old ≤ O.faults out.new }
{
    put_line(
        out,
        &[
            Piece::Text(b"upgraded: "),
            Piece::Count(lemmas as u64),
            Piece::Text(b" lemmas"),
            Piece::Text(b"\n"),
        ],
    )
}

/// Prints the line of how many lemmas the new certificate has, and gives the status: 0; a write fault (7) or want of memory
/// (8) replaces it.
pub fn report_lemmas<O: Sink>(out: &mut O, lemmas: usize) -> u8
    ensures { IsReportedLine (upgrade_line lemmas) 0
        (wrote (O.faults out.old) (O.faults out.new) (O.written out.old) (O.written out.new)) result }
{
    match put_lemmas(out, lemmas) {
        Ok(()) => 0,
        Err(SinkFault::Failed) => 7,
        Err(SinkFault::OutOfMemory) => 8,
    }
}

/// The line of so many copies, and of what is shown of them.
fn put_copies<O: Sink>(out: &mut O, copies: u32, outcome: &[u8]) -> Result<(), SinkFault>
    ensures ok { Writes result (O.written out.old) (O.written out.new) (copies_line copies outcome.now) }
    ensures err { Front result (O.written out.old) (O.written out.new) (copies_line copies outcome.now) }
    ensures failed { IsErrOf result SinkFault.Failed → O.faults out.old < O.faults out.new }
    ensures never_falls { O.faults out.old ≤ O.faults out.new }
{
    let types = 3 * u64::from(copies);
    let functions = 5 * u64::from(copies) + 1;
    put_line(
        out,
        &[
            Piece::Text(b"gen "),
            Piece::Natural(copies),
            Piece::Text(b": "),
            Piece::Count(types),
            Piece::Text(b" types, "),
            Piece::Count(functions),
            Piece::Text(b" functions, "),
            Piece::Text(outcome),
            Piece::Text(b"\n"),
        ],
    )
}

/// Prints the line of what is shown of so many copies, and gives this status; a write fault (7) or want of memory (8)
/// replaces it.
pub fn report_copies<O: Sink>(out: &mut O, copies: u32, outcome: &[u8], status: u8) -> u8
    ensures { IsReportedLine (copies_line copies outcome.now) status
        (wrote (O.faults out.old) (O.faults out.new) (O.written out.old) (O.written out.new)) result }
{
    match put_copies(out, copies, outcome) {
        Ok(()) => status,
        Err(SinkFault::Failed) => 7,
        Err(SinkFault::OutOfMemory) => 8,
    }
}
