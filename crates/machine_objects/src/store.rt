//! Left sides, and the store of a value.

ghost use Rattle.std.specs.Prelude.{◌≡◌, ◌||◌, List, slice_set};
ghost use Rattle.object_types.specs.declared.references.Ref.{Ref as Reference};
ghost use Rattle.method.specs.Expressions.{may_write, is_listed};
ghost use Rattle.method.specs.Actions.{left_side, store, may_count};
ghost use Rattle.machine_values.specs.Spots.{heap_at, spot_at};
ghost use Rattle.machine_objects.specs.Runs.{Reading, Runs, IsPlace, place_of, may_store};

use crate::progress::{Place, Progress};
use machine_values::eval::eval;
use machine_values::spot::Spot;
use machine_values::stop::Stop;
use machine_values::tables::{is_approved, is_volatile};
use machine_values::values::referent;
use method::program::{CheckKind, Target};
use object_types::heap::Heap;
use object_types::references::Ref;
use object_types::values::Value;
use ownership::status::mutable;
use std::alloc::Global;

/// A left side, worked out.
pub fn left_side(
    alloc: Global,
    at: &Spot<'_>,
    target: &Target,
    progress: &Progress,
) -> Result<Place, Stop>
    ensures { Reading at.now progress.now (λ p s g n. IsPlace result (left_side p s target.now n g)) }
{
    match target {
        Target::Local(i) => Ok(Place::InLocal(*i)),
        Target::FieldOf(o, f) => {
            let o = eval(alloc, at, &progress.heap, &progress.locals, o)?;
            Ok(Place::InField(referent(o), *f))
        }
    }
}

/// Whether the owner has its part in claims of the object, and in changes of its approved fields: it is the thread, which
/// may write the object, or the block lists it.
pub fn may_count(at: &Spot<'_>, heap: &Heap, o: Ref) -> bool
    ensures { (x y : List Reference) → result ≡ may_count (spot_at x at.now) (heap_at y heap.now) o }
{
    let owner = heap.view(o).owner;
    if at.is_listed(owner) {
        return true;
    }
    if !owner.is_same(at.context.me) {
        return false;
    }
    at.may_write(o)
}

/// Whether the value of the object's field may be changed.
fn may_store(at: &Spot<'_>, heap: &Heap, o: Ref, f: u32) -> bool
    ensures { (x y : List Reference) → result ≡ may_store at.now.program.now (spot_at x at.now) (heap_at y heap.now) o f }
{
    if mutable(heap, at.context.me, o) {
        return true;
    }
    if !at.is_listed(o) {
        return false;
    }
    if !is_volatile(at.program, f) {
        return false;
    }
    if !is_approved(at.program, f) {
        return true;
    }
    may_count(at, heap, o)
}

/// Whether the function may change the object, or the block lists it.
fn may_reach(at: &Spot<'_>, o: Ref) -> bool
    ensures { (x : List Reference) → result ≡ (may_write (spot_at x at.now) o || is_listed (spot_at x at.now) o) }
{
    at.may_write(o) || at.is_listed(o)
}

/// Sets a variable, if there is one with the number.
pub fn set_local(locals: &mut Vec<Value>, i: u32, v: Value)
    ensures { locals.new.items ≡ slice_set locals.old.items i v }
{
    let i = i as usize;
    if i < locals.len() {
        locals[i] = v;
    }
}

/// Stores the value.
pub fn store(at: &Spot<'_>, place: Place, v: Value, progress: &mut Progress) -> Result<(), Stop>
    ensures { Reading at.now progress.old (λ p s g n. Runs result progress.new (store p s (place_of place) v n g)) }
{
    match place {
        Place::InLocal(i) => {
            set_local(&mut progress.locals, i, v);
            Ok(())
        }
        Place::InField(o, f) => {
            if !may_store(at, &progress.heap, o, f) {
                return Err(at.fault(CheckKind::Write));
            }
            if !may_reach(at, o) {
                return Err(at.fault(CheckKind::Writes));
            }
            progress.heap.write(o, f, v)?;
            Ok(())
        }
    }
}
