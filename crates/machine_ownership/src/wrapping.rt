//! Wrapping objects.

ghost use Rattle.std.specs.Prelude.{◌≡◌, IfOk, IsTrue};
ghost use Rattle.object_types.specs.References.{ref_lt};
ghost use Rattle.object_types.specs.Sets.{is_ordered};
ghost use Rattle.object_types.specs.Heap.{Heap as HeapBefore};
ghost use Rattle.method.specs.Invariants.{inv_scene};
ghost use Rattle.method.specs.Actions.{wrap_object};
ghost use Rattle.spec_eval.specs.Scenes.{scene_of};
ghost use Rattle.machine_values.specs.Items.{OnHeaps};
ghost use Rattle.machine_ownership.specs.Items.{IsWrappedSet};
ghost use Rattle.machine_ownership.specs.Owned.{Performs};

use crate::items::{all_owned, items_of, set_of};
pub use crate::owned::assign_owned;
use machine_objects::progress::Progress;
use machine_values::spot::Spot;
use machine_values::stop::Stop;
use machine_values::tables::{has_fixed_owns, struct_of};
use machine_values::tests::inv_test;
use method::program::CheckKind;
use object_types::heap::Heap;
use object_types::references::{NULL, Ref};
use object_types::values::Value;
use ownership::effects::close_object;
use ownership::status::mutable;
use spec_eval::env::Env;
use std::alloc::Global;

/// The environment of the invariants of o.
fn invariant_env(alloc: Global, o: Ref) -> Env
    ensures { (h : HeapBefore) → scene_of result h h ≡ inv_scene o h h }
{
    Env {
        thread: NULL,
        this: o,
        locals: Vec::new(alloc),
        entry: Vec::new(alloc),
        result: Value::Int(0),
    }
}

/// The owned set that wrap gives the object: of a type with a fixed one what its invariants name, else its own.
fn wrapped_set(alloc: Global, at: &Spot<'_>, ty: u32, h: &Heap, o: Ref) -> Result<Vec<Ref>, Stop>
    ensures set { OnHeaps at.now h.now (λ s k. IsWrappedSet result at.now.program.now s ty k o) }
    ensures ordered { IfOk result (λ set. IsTrue (is_ordered ref_lt set.items)) }
{
    h.is_kept();
    if !has_fixed_owns(at.program, ty) {
        return Ok(Vec::from_slice(alloc, h.owned(o))?);
    }
    let Some(info) = struct_of(at.program, ty) else {
        return Ok(Vec::new(alloc));
    };
    let env = invariant_env(alloc, o);
    let members = items_of(alloc, at.program, &info.mine, h, &env)?;
    let set = set_of(alloc, &members)?;
    Ok(set)
}

/// Wraps the object, which has this type.
///
/// # Errors
/// The fault of the first check that fails: that the object is the thread's and open, that it is writable, that the
/// thread owns the members closed and may write them, and the object's invariant; or Wide, with the operands of the
/// first exact result on the way that leaves 128 bits.
pub fn wrap_object(
    alloc: Global,
    at: &Spot<'_>,
    ty: u32,
    o: Ref,
    progress: &mut Progress,
) -> Result<(), Stop>
    ensures { Performs result at.now progress.old progress.new (λ p s. wrap_object p s ty o) }
{
    if !mutable(&progress.heap, at.context.me, o) {
        return Err(at.fault(CheckKind::Wrap));
    }
    if !at.may_write(o) {
        return Err(at.fault(CheckKind::Writes));
    }
    let members = wrapped_set(alloc, at, ty, &progress.heap, o)?;
    if !all_owned(at, &progress.heap, &members) {
        return Err(at.fault(CheckKind::Wrap));
    }
    let before = progress.heap.copy()?;
    assign_owned(&mut progress.heap, o, &members)?;
    close_object(&mut progress.heap, o)?;
    if !inv_test(at.program, o, &before, &progress.heap)? {
        return Err(at.fault(CheckKind::Invariant));
    }
    Ok(())
}
