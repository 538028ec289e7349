//! Objects: made, freed, unwrapped.

ghost use Rattle.std.specs.Prelude.{◌≡◌, ◌≢◌, List, OnOk, IfOk, IfErr, IsTrue, IsFalse};
ghost use Rattle.object_types.specs.declared.references.Ref.{Ref as Reference};
ghost use Rattle.object_types.specs.Values.{is_zero_int};
ghost use Rattle.object_types.specs.Heap.{IsFinite, nothing, put_at, fresh};
ghost use Rattle.object_types.specs.Lookups.{look_up};
ghost use Rattle.method.specs.Tables.{struct_of};
ghost use Rattle.method.specs.Actions.{first_field, malloc, free, unwrap_object, new_object};
ghost use Rattle.machine_values.specs.Spots.{heap_at};
ghost use Rattle.machine_objects.specs.Runs.{Reading, Runs, RunsToOr, IsSilentOr};
ghost use Rattle.machine_objects.specs.RunsOut.{LacksReference, LacksFields, MallocRunsOut};
ghost use Rattle.machine_objects.specs.Vacancy.{no_status};

use crate::progress::Progress;
use machine_values::spot::Spot;
use machine_values::stop::Stop;
use machine_values::tables::struct_of;
use machine_values::values::is_true;
use method::program::CheckKind;
use object_types::heap::Heap;
use object_types::records::Mode;
use object_types::references::{NULL, Ref};
use object_types::values::Value;
use ownership::effects::open_object;
use ownership::status::{mutable, wrapped};

/// Whether the object's status and its claim count are those of nothing.
fn has_no_status(h: &Heap, o: Ref) -> bool
    ensures { result ≡ no_status (look_up h.now o) }
{
    let view = h.view(o);
    view.mode.is_absent() && view.owner.is_same(NULL) && view.count == 0
}

/// Whether nothing stands at the reference.
pub fn is_vacant(h: &Heap, o: Ref) -> bool
    ensures vacant { IsTrue result → look_up h.now o ≡ nothing }
    ensures occupied { IsFalse result → look_up h.now o ≢ nothing }
{
    if !has_no_status(h, o) {
        return false;
    }
    if !h.owned(o).is_empty() {
        return false;
    }
    if !h.kept(o).is_empty() {
        return false;
    }
    if !h.listed(o).is_empty() {
        return false;
    }
    if !h.shapes(o).is_empty() {
        return false;
    }
    true
}

/// A new reference of the type, at which nothing stands.
///
/// # Errors
/// Exhausted where the last serial of the type is used, or something stands at what isn't.
pub fn new_reference(h: &Heap, ty: u32) -> Result<Ref, Stop>
    ensures fresh { IfOk result (λ o. (y : List Reference) → IsFinite (heap_at y h.now) → o ≡ fresh (heap_at y h.now) ty) }
    ensures vacant { IfOk result (λ o. look_up h.now o ≡ nothing) }
    ensures err { IfErr result (IsSilentOr (LacksReference h.now ty)) }
{
    let Some(o) = h.fresh(ty) else {
        return Err(Stop::Exhausted);
    };
    if !is_vacant(h, o) {
        return Err(Stop::Exhausted);
    }
    Ok(o)
}

/// Writes the record of a new open object with these contents.
///
/// # Errors
/// Exhausted where the number of a field is past 32 bits.
fn place_object(h: &mut Heap, o: Ref, me: Ref, first: u32, contents: &[Value]) -> Result<(), Stop>
    requires { look_up h.old o ≡ nothing }
    ensures ok { OnOk result (look_up h.new ≡ put_at (look_up h.old) o (new_object me first contents.now)) }
    ensures err { IfErr result (IsSilentOr (LacksFields first contents.now)) }
{
    h.set_status(o, Mode::Open, me)?;
    let mut field = first;
    for value in contents {
        h.write(o, field, *value)?;
        let Some(next) = field.checked_add(1) else {
            return Err(Stop::Exhausted);
        };
        field = next;
    }
    Ok(())
}

/// The number of the first field of the type.
fn first_field(at: &Spot<'_>, ty: u32) -> u32
    ensures { result ≡ first_field (struct_of at.now.program.now ty) }
{
    match struct_of(at.program, ty) {
        Some(info) => info.first_field,
        None => 0,
    }
}

/// NULL, or a new open object with the contents that the event chose.
///
/// # Errors
/// Misfit where there are no choices; Exhausted where no reference of the type is left, or the number of a field is past
/// 32 bits.
pub fn malloc(at: &Spot<'_>, ty: u32, progress: &mut Progress) -> Result<Value, Stop>
    ensures { Reading at.now progress.old (λ p s g n.
        RunsToOr (MallocRunsOut p ty s.choices g) result progress.new (malloc p s ty s.choices g)) }
{
    let Some((choice, contents)) = at.choices.split_first() else {
        return Err(Stop::Misfit);
    };
    if !is_true(*choice) {
        return Ok(Value::Ref(NULL));
    }
    let o = new_reference(&progress.heap, ty)?;
    place_object(
        &mut progress.heap,
        o,
        at.context.me,
        first_field(at, ty),
        contents,
    )?;
    Ok(Value::Ref(o))
}

/// Frees the object.
pub fn free(at: &Spot<'_>, o: Ref, progress: &mut Progress) -> Result<(), Stop>
    ensures { Reading at.now progress.old (λ p s g n. Runs result progress.new (free p s o n g)) }
{
    if !mutable(&progress.heap, at.context.me, o) {
        return Err(at.fault(CheckKind::Free));
    }
    if !at.may_write(o) {
        return Err(at.fault(CheckKind::Writes));
    }
    progress.heap.set_status(o, Mode::Freed, NULL)?;
    Ok(())
}

/// Whether no claim lists the object.
fn is_unclaimed(h: &Heap, o: Ref) -> bool
    ensures { result ≡ is_zero_int (look_up h.now o).count }
{
    h.view(o).count == 0
}

/// Unwraps the object.
pub fn unwrap_object(at: &Spot<'_>, o: Ref, progress: &mut Progress) -> Result<(), Stop>
    ensures { Reading at.now progress.old (λ p s g n. Runs result progress.new (unwrap_object p s o n g)) }
{
    if !wrapped(&progress.heap, at.context.me, o) {
        return Err(at.fault(CheckKind::Unwrap));
    }
    if !at.may_write(o) {
        return Err(at.fault(CheckKind::Writes));
    }
    if !is_unclaimed(&progress.heap, o) {
        return Err(at.fault(CheckKind::Claimed));
    }
    open_object(&mut progress.heap, o, at.context.me)?;
    Ok(())
}
