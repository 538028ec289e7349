//! The records of a heap, as lines: after a fault of the sink a front of the text is written, and nothing more.

ghost use Rattle.std.specs.Prelude.{◌≡◌, ◌<◌, ◌≤◌, IsErrOf};
ghost use Rattle.object_types.specs.Lookups.{heap_of, look_up};
ghost use Rattle.std.specs.Fmt.{signed_decimal};
ghost use Rattle.schedule_replay.specs.Pieces.{piece_text};
ghost use Rattle.schedule_replay.specs.Printing.{Writes, Front};
ghost use Rattle.schedule_replay.specs.Records.{following, mode_text, spaced, members_text, field_text, fields_from};
ghost use Rattle.schedule_replay.specs.Records.{content_text, heading_text, record_text, records_text, used_text};

use crate::put::{Piece, put_line, put_piece, value_piece};
use machine_values::tables::{CLAIMS, read, struct_of};
use method::program::Program;
use object_types::heap::Heap;
use object_types::records::Mode;
use object_types::references::{NULL, Ref};
use vcc_base::sink::{Sink, SinkFault};
use vcc_base::whole::put_all;

/// The word of a mode.
fn mode_name(mode: Mode) -> &'static [u8]
    ensures { result.now ≡ mode_text mode }
{
    match mode {
        Mode::Absent => b"absent",
        Mode::Open => b"open",
        Mode::Closed => b"closed",
        Mode::Freed => b"freed",
    }
}

/// The references, with a space between each two.
fn put_spaced<O: Sink>(out: &mut O, members: &[Ref]) -> Result<(), SinkFault>
    ensures ok { Writes result (O.written out.old) (O.written out.new) (spaced members.now) }
    ensures err { Front result (O.written out.old) (O.written out.new) (spaced members.now) }
    ensures failed { IsErrOf result SinkFault.Failed → O.faults out.old < O.faults out.new }
    ensures never_falls { O.faults out.old ≤ O.faults out.new }
{
    let Some((first, others)) = members.split_first() else {
        return Ok(());
    };
    put_piece(out, Piece::Reference(*first))?;
    for member in others {
        put_line(out, &[Piece::Text(b" "), Piece::Reference(*member)])?;
    }
    Ok(())
}

/// A set, in braces.
fn put_members<O: Sink>(out: &mut O, members: &[Ref]) -> Result<(), SinkFault>
    ensures ok { Writes result (O.written out.old) (O.written out.new) (members_text members.now) }
    ensures err { Front result (O.written out.old) (O.written out.new) (members_text members.now) }
    ensures failed { IsErrOf result SinkFault.Failed → O.faults out.old < O.faults out.new }
    ensures never_falls { O.faults out.old ≤ O.faults out.new }
{
    put_all(out, b"{")?;
    put_spaced(out, members)?;
    put_all(out, b"}")?;
    Ok(())
}

/// The name and value of the field with number `f`.
fn put_field<O: Sink>(
    out: &mut O,
    program: &Program,
    h: &Heap,
    o: Ref,
    f: u32,
) -> Result<(), SinkFault>
    ensures ok { Writes result (O.written out.old) (O.written out.new) (field_text program.now (heap_of h.now) o f) }
    ensures err { Front result (O.written out.old) (O.written out.new) (field_text program.now (heap_of h.now) o f) }
    ensures failed { IsErrOf result SinkFault.Failed → O.faults out.old < O.faults out.new }
    ensures never_falls { O.faults out.old ≤ O.faults out.new }
{
    let Some(info) = program.fields.get(f as usize) else {
        return Ok(());
    };
    let value = value_piece(read(program, h, o, f));
    put_line(
        out,
        &[
            Piece::Text(b" "),
            Piece::Text(info.name.as_slice()),
            Piece::Text(b"="),
            value,
        ],
    )
}

/// The `n` fields from number `f` on.
fn put_fields<O: Sink>(
    out: &mut O,
    program: &Program,
    h: &Heap,
    o: Ref,
    f: u32,
    n: u32,
) -> Result<(), SinkFault>
    ensures ok { Writes result (O.written out.old) (O.written out.new) (fields_from program.now (heap_of h.now) o f n) }
    ensures err { Front result (O.written out.old) (O.written out.new) (fields_from program.now (heap_of h.now) o f n) }
    ensures failed { IsErrOf result SinkFault.Failed → O.faults out.old < O.faults out.new }
    ensures never_falls { O.faults out.old ≤ O.faults out.new }
{
    for i in 0..n {
        let Some(field) = f.checked_add(i) else {
            return Ok(());
        };
        put_field(out, program, h, o, field)?;
    }
    Ok(())
}

/// What a claim claims, or what an object owns and its fields.
fn put_content<O: Sink>(out: &mut O, program: &Program, h: &Heap, o: Ref) -> Result<(), SinkFault>
    ensures ok { Writes result (O.written out.old) (O.written out.new) (content_text program.now (heap_of h.now) o) }
    ensures err { Front result (O.written out.old) (O.written out.new) (content_text program.now (heap_of h.now) o) }
    ensures failed { IsErrOf result SinkFault.Failed → O.faults out.old < O.faults out.new }
    ensures never_falls { O.faults out.old ≤ O.faults out.new }
{
    if o.ty == CLAIMS {
        put_all(out, b" lists ")?;
        put_members(out, h.listed(o))?;
        return Ok(());
    }
    put_all(out, b" owns ")?;
    put_members(out, h.owned(o))?;
    match struct_of(program, o.ty) {
        Some(info) => put_fields(out, program, h, o, info.first_field, info.fields),
        None => Ok(()),
    }
}

/// The object's claim count.
fn count_piece<'a>(h: &Heap, o: Ref) -> Piece<'a>
    ensures { piece_text result ≡ signed_decimal (look_up h.now o).count }
{
    let count = h.view(o).count;
    Piece::Integer(count)
}

/// What stands in front of a record's line: the reference, its mode, its owner and its claim count.
fn put_heading<O: Sink>(out: &mut O, h: &Heap, o: Ref) -> Result<(), SinkFault>
    ensures ok { Writes result (O.written out.old) (O.written out.new) (heading_text (heap_of h.now) o) }
    ensures err { Front result (O.written out.old) (O.written out.new) (heading_text (heap_of h.now) o) }
    ensures failed { IsErrOf result SinkFault.Failed → O.faults out.old < O.faults out.new }
    ensures never_falls { O.faults out.old ≤ O.faults out.new }
{
    let view = h.view(o);
    put_line(
        out,
        &[
            Piece::Reference(o),
            Piece::Text(b" "),
            Piece::Text(mode_name(view.mode)),
            Piece::Text(b" "),
            Piece::Reference(view.owner),
            Piece::Text(b" count "),
            count_piece(h, o),
        ],
    )
}

/// The line of a record.
fn put_record<O: Sink>(out: &mut O, program: &Program, h: &Heap, o: Ref) -> Result<(), SinkFault>
    ensures ok { Writes result (O.written out.old) (O.written out.new) (record_text program.now (heap_of h.now) o) }
    ensures err { Front result (O.written out.old) (O.written out.new) (record_text program.now (heap_of h.now) o) }
    ensures failed { IsErrOf result SinkFault.Failed → O.faults out.old < O.faults out.new }
    ensures never_falls { O.faults out.old ≤ O.faults out.new }
{
    put_heading(out, h, o)?;
    put_content(out, program, h, o)?;
    put_all(out, b"\n")?;
    Ok(())
}

/// The line of a reference's record, where it was ever used.
fn put_used<O: Sink>(out: &mut O, program: &Program, h: &Heap, o: Ref) -> Result<(), SinkFault>
    ensures ok { Writes result (O.written out.old) (O.written out.new) (used_text program.now (heap_of h.now) o) }
    ensures err { Front result (O.written out.old) (O.written out.new) (used_text program.now (heap_of h.now) o) }
    ensures failed { IsErrOf result SinkFault.Failed → O.faults out.old < O.faults out.new }
    ensures never_falls { O.faults out.old ≤ O.faults out.new }
{
    if h.view(o).mode.is_absent() {
        return Ok(());
    }
    put_record(out, program, h, o)
}

/// The next reference in reference order.
fn following(o: Ref) -> Option<Ref>
    ensures { result ≡ following o }
{
    if let Some(serial) = o.serial.checked_add(1) {
        return Some(Ref { ty: o.ty, serial });
    }
    let ty = o.ty.checked_add(1)?;
    Some(Ref { ty, serial: 0 })
}

/// The line of each reference that was ever used, in reference order.
pub fn put_records<O: Sink>(out: &mut O, program: &Program, h: &Heap) -> Result<(), SinkFault>
    ensures ok { Writes result (O.written out.old) (O.written out.new) (records_text program.now (heap_of h.now)) }
    ensures err { Front result (O.written out.old) (O.written out.new) (records_text program.now (heap_of h.now)) }
    ensures failed { IsErrOf result SinkFault.Failed → O.faults out.old < O.faults out.new }
    ensures never_falls { O.faults out.old ≤ O.faults out.new }
{
    h.is_kept();
    let mut from = Some(NULL);
    while let Some(start) = from {
        let Some(o) = h.first(start) else {
            return Ok(());
        };
        put_used(out, program, h, o)?;
        from = following(o);
    }
    Ok(())
}
