//! The lines of the report.

ghost use Rattle.std.specs.Prelude.{◌≡◌, ◌++◌, ◌<◌, ◌≤◌, IsErrOf, None, Some, codes};
ghost use Rattle.schedule_replay.specs.Printing.{Front, Writes};
ghost use Rattle.vcc_search.specs.Reports as report;
ghost use Rattle.vcc_search.specs.Reports.{closing_line, item_line, label_in, label_text};

use check_labels::labels::ProgramLabel;
use check_labels::names::item_name;
use method::program::{Item, Program};
use schedule_replay::lines::kind_name;
use schedule_replay::put::{Piece, put_line};
use vcc_base::sink::{Sink, SinkFault};

/// What the item is called.
fn word_of(item: Item) -> &'static [u8]
    ensures { result.now ≡ report.word_of item }
{
    match item {
        Item::Struct(_) => b"type ",
        Item::Function(_) => b"function ",
    }
}

/// The label of a check of the item with the name, up to the line's end.
pub fn put_label<O: Sink>(out: &mut O, name: &[u8], label: ProgramLabel) -> Result<(), SinkFault>
    ensures ok { Writes result (O.written out.old) (O.written out.new)
        (label_text name.now label.ordinal label.kind label.line ++ codes "\n") }
    ensures err { Front result (O.written out.old) (O.written out.new)
        (label_text name.now label.ordinal label.kind label.line ++ codes "\n") }
    ensures failed { IsErrOf result SinkFault.Failed → O.faults out.old < O.faults out.new }
    ensures never_falls { O.faults out.old ≤ O.faults out.new }
{
    put_line(
        out,
        &[
            Piece::Text(name),
            Piece::Text(b"/"),
            Piece::Count(label.ordinal as u64),
            Piece::Text(b" "),
            Piece::Text(kind_name(label.kind)),
            Piece::Text(b" line "),
            Piece::Natural(label.line),
            Piece::Text(b"\n"),
        ],
    )
}

/// The line of an item of which nothing is open.
fn put_verified<O: Sink>(out: &mut O, program: &Program, item: Item) -> Result<(), SinkFault>
    ensures ok { Writes result (O.written out.old) (O.written out.new) (item_line program.now item (label_in None)) }
    ensures err { Front result (O.written out.old) (O.written out.new) (item_line program.now item (label_in None)) }
    ensures failed { IsErrOf result SinkFault.Failed → O.faults out.old < O.faults out.new }
    ensures never_falls { O.faults out.old ≤ O.faults out.new }
{
    put_line(
        out,
        &[
            Piece::Text(word_of(item)),
            Piece::Text(item_name(program, item)),
            Piece::Text(b": verified\n"),
        ],
    )
}

/// The line of an item of which this is the first condition that isn't shown to follow.
fn put_open<O: Sink>(
    out: &mut O,
    program: &Program,
    item: Item,
    label: ProgramLabel,
) -> Result<(), SinkFault>
    ensures ok { Writes result (O.written out.old) (O.written out.new)
        (item_line program.now item (label_in (Some label))) }
    ensures err { Front result (O.written out.old) (O.written out.new)
        (item_line program.now item (label_in (Some label))) }
    ensures failed { IsErrOf result SinkFault.Failed → O.faults out.old < O.faults out.new }
    ensures never_falls { O.faults out.old ≤ O.faults out.new }
{
    put_line(
        out,
        &[
            Piece::Text(word_of(item)),
            Piece::Text(item_name(program, item)),
            Piece::Text(b": not proved, first "),
        ],
    )?;
    put_label(out, item_name(program, label.item), label)
}

/// The line of an item, with the label of the first condition that isn't shown to follow, where there is one.
pub fn put_item<O: Sink>(
    out: &mut O,
    program: &Program,
    item: Item,
    first: Option<ProgramLabel>,
) -> Result<(), SinkFault>
    ensures ok { Writes result (O.written out.old) (O.written out.new) (item_line program.now item (label_in first)) }
    ensures err { Front result (O.written out.old) (O.written out.new) (item_line program.now item (label_in first)) }
    ensures failed { IsErrOf result SinkFault.Failed → O.faults out.old < O.faults out.new }
    ensures never_falls { O.faults out.old ≤ O.faults out.new }
{
    match first {
        None => put_verified(out, program, item),
        Some(label) => put_open(out, program, item, label),
    }
}

/// The last line.
pub fn put_closing<O: Sink>(out: &mut O, all: bool) -> Result<(), SinkFault>
    ensures ok { Writes result (O.written out.old) (O.written out.new) (closing_line all) }
    ensures err { Front result (O.written out.old) (O.written out.new) (closing_line all) }
    ensures failed { IsErrOf result SinkFault.Failed → O.faults out.old < O.faults out.new }
    ensures never_falls { O.faults out.old ≤ O.faults out.new }
{
    if all {
        return put_line(out, &[Piece::Text(b"all verified\n")]);
    }
    put_line(out, &[Piece::Text(b"not all verified\n")])
}
