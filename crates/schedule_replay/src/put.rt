//! Lines, written piece by piece: after a fault of the sink a front of the text is written, and nothing more.

ghost use Rattle.std.specs.Prelude.{◌≡◌, ◌<◌, ◌≤◌, IsErrOf, decimal};
ghost use Rattle.schedule_replay.specs.Printing.{Writes, Front};
ghost use Rattle.schedule_replay.specs.Pieces.{ref_text, value_text, piece_text, line_text};

use machine_values::tables::THREADS;
use object_types::references::Ref;
use object_types::values::Value;
use vcc_base::sink::{Sink, SinkFault};
use vcc_base::whole::{put_all, put_natural, put_number};

/// A piece of a line.
#[derive(Clone, Copy)]
pub enum Piece<'a> {
    /// bytes as they are
    Text(&'a [u8]),
    /// how many events there were
    Count(u64),
    /// a thread's number, or a line of the source
    Natural(u32),
    /// a number that a field holds, or a claim count
    Integer(i128),
    Reference(Ref),
}

/// The piece that a value is.
pub fn value_piece<'a>(value: Value) -> Piece<'a>
    ensures { piece_text result ≡ value_text value }
{
    match value {
        Value::Int(number) => Piece::Integer(number),
        Value::Ref(reference) => Piece::Reference(reference),
    }
}

/// A natural number of 32 bits in decimal.
fn put_small<O: Sink>(out: &mut O, number: u32) -> Result<(), SinkFault>
    ensures ok { Writes result (O.written out.old) (O.written out.new) (decimal number) }
    ensures err { Front result (O.written out.old) (O.written out.new) (decimal number) }
    ensures failed { IsErrOf result SinkFault.Failed → O.faults out.old < O.faults out.new }
    ensures never_falls { O.faults out.old ≤ O.faults out.new }
{
    put_natural(out, u64::from(number))
}

/// A thread by its number, as t2; any other reference as TYPE.SERIAL.
fn put_reference<O: Sink>(out: &mut O, reference: Ref) -> Result<(), SinkFault>
    ensures ok { Writes result (O.written out.old) (O.written out.new) (ref_text reference) }
    ensures err { Front result (O.written out.old) (O.written out.new) (ref_text reference) }
    ensures failed { IsErrOf result SinkFault.Failed → O.faults out.old < O.faults out.new }
    ensures never_falls { O.faults out.old ≤ O.faults out.new }
{
    if reference.ty == THREADS {
        put_all(out, b"t")?;
        put_small(out, reference.serial)?;
        return Ok(());
    }
    put_small(out, reference.ty)?;
    put_all(out, b".")?;
    put_small(out, reference.serial)?;
    Ok(())
}

/// Writes one piece.
pub fn put_piece<O: Sink>(out: &mut O, piece: Piece<'_>) -> Result<(), SinkFault>
    ensures ok { Writes result (O.written out.old) (O.written out.new) (piece_text piece.entry) }
    ensures err { Front result (O.written out.old) (O.written out.new) (piece_text piece.entry) }
    ensures failed { IsErrOf result SinkFault.Failed → O.faults out.old < O.faults out.new }
    ensures never_falls { O.faults out.old ≤ O.faults out.new }
{
    match piece {
        Piece::Text(text) => put_all(out, text),
        Piece::Count(number) => put_natural(out, number),
        Piece::Natural(number) => put_small(out, number),
        Piece::Integer(number) => put_number(out, number),
        Piece::Reference(reference) => put_reference(out, reference),
    }
}

/// Writes the pieces, in order.
pub fn put_line<O: Sink>(out: &mut O, pieces: &[Piece<'_>]) -> Result<(), SinkFault>
    ensures ok { Writes result (O.written out.old) (O.written out.new) (line_text pieces.now) }
    ensures err { Front result (O.written out.old) (O.written out.new) (line_text pieces.now) }
    ensures failed { IsErrOf result SinkFault.Failed → O.faults out.old < O.faults out.new }
    ensures never_falls { O.faults out.old ≤ O.faults out.new }
{
    for piece in pieces {
        put_piece(out, *piece)?;
    }
    Ok(())
}
