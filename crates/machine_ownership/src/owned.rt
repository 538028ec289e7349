//! Changes of owned sets.

ghost use Rattle.std.specs.Prelude.{◌≡◌, [], OnOk};
ghost use Rattle.object_types.specs.Sets.{set_of};
ghost use Rattle.object_types.specs.Heap.{put_at};
ghost use Rattle.object_types.specs.Lookups.{look_up};
ghost use Rattle.method.specs.declared.program.OwnsChange.TheVariants.{Added, Assigned, Removed};
ghost use Rattle.method.specs.Actions.{member_change, members_change, owned_change};
ghost use Rattle.machine_values.specs.Items.{OnHeap};
ghost use Rattle.machine_ownership.specs.Owned.{PassesOwner, Performs, owning};

use crate::items::{is_owned, referents};
use machine_objects::progress::Progress;
use machine_values::spot::Spot;
use machine_values::stop::Stop;
use machine_values::values::{contains, referent};
use method::program::{CheckKind, OwnsChange};
use object_types::heap::Heap;
use object_types::references::Ref;
use object_types::values::Value;
use ownership::effects::{give, take};
use ownership::status::mutable;
use std::alloc::{AllocError, Global};

/// The checks that the thread may change the set of o, outside an atomic block.
fn check_owner(at: &Spot<'_>, o: Ref, h: &Heap) -> Result<(), Stop>
    ensures { OnHeap at.now h.now (λ s k n. PassesOwner result s k o n) }
{
    if !mutable(h, at.context.me, o) {
        return Err(at.fault(CheckKind::Write));
    }
    if !at.may_write(o) {
        return Err(at.fault(CheckKind::Writes));
    }
    Ok(())
}

/// q joins the set of o; inside an atomic block o owns it then.
fn add_member(at: &Spot<'_>, o: Ref, q: Ref, progress: &mut Progress) -> Result<(), Stop>
    ensures { Performs result at.now progress.old progress.new (λ p s. member_change p s Added o q) }
{
    if !at.inside {
        check_owner(at, o, &progress.heap)?;
        progress.heap.set_owned(o, q, true)?;
        return Ok(());
    }
    if !at.is_listed(o) {
        return Err(at.fault(CheckKind::Write));
    }
    if !is_owned(at, &progress.heap, q) {
        return Err(at.fault(CheckKind::Owns));
    }
    give(&mut progress.heap, q, o)?;
    Ok(())
}

/// q leaves the set of o; inside an atomic block it is the thread's then.
fn remove_member(at: &Spot<'_>, o: Ref, q: Ref, progress: &mut Progress) -> Result<(), Stop>
    ensures { Performs result at.now progress.old progress.new (λ p s. member_change p s Removed o q) }
{
    if !at.inside {
        check_owner(at, o, &progress.heap)?;
        progress.heap.set_owned(o, q, false)?;
        return Ok(());
    }
    if !at.is_listed(o) {
        return Err(at.fault(CheckKind::Write));
    }
    if !contains(progress.heap.owned(o), q) {
        return Err(at.fault(CheckKind::Owns));
    }
    take(&mut progress.heap, o, q, at.context.me)?;
    Ok(())
}

/// One member more or less of the set of o.
fn change_member(
    at: &Spot<'_>,
    change: OwnsChange,
    o: Ref,
    q: Ref,
    progress: &mut Progress,
) -> Result<(), Stop>
    ensures { Performs result at.now progress.old progress.new (λ p s. member_change p s change o q) }
{
    match change {
        OwnsChange::Assigned => Ok(()),
        OwnsChange::Added => add_member(at, o, q, progress),
        OwnsChange::Removed => remove_member(at, o, q, progress),
    }
}

/// Members more or less of the set of o, one after the other.
fn change_members(
    at: &Spot<'_>,
    change: OwnsChange,
    o: Ref,
    values: &[Value],
    progress: &mut Progress,
) -> Result<(), Stop>
    ensures { Performs result at.now progress.old progress.new (λ p s. members_change p s change o values.now) }
{
    for v in values {
        change_member(at, change, o, referent(*v), progress)?;
    }
    Ok(())
}

/// Takes every member out of the set of o.
fn clear_owned(h: &mut Heap, o: Ref) -> Result<(), AllocError>
    ensures { OnOk result (look_up h.new ≡ put_at (look_up h.old) o (owning (look_up h.old o) [])) }
{
    while let Some(member) = h.owned(o).last() {
        let member = *member;
        h.set_owned(o, member, false)?;
    }
    Ok(())
}

/// Gives o the owned set of these members. Who owns the members stays as it is.
pub fn assign_owned(h: &mut Heap, o: Ref, members: &[Ref]) -> Result<(), AllocError>
    ensures { OnOk result (look_up h.new ≡ put_at (look_up h.old) o (owning (look_up h.old o) (set_of members.now))) }
{
    clear_owned(h, o)?;
    for member in members {
        h.set_owned(o, *member, true)?;
    }
    Ok(())
}

/// The owned set of o is that of the values, outside an atomic block.
fn assign_members(
    alloc: Global,
    at: &Spot<'_>,
    o: Ref,
    values: &[Value],
    progress: &mut Progress,
) -> Result<(), Stop>
    ensures { Performs result at.now progress.old progress.new (λ p s. owned_change p s Assigned o values.now) }
{
    check_owner(at, o, &progress.heap)?;
    let members = referents(alloc, values)?;
    assign_owned(&mut progress.heap, o, &members)?;
    Ok(())
}

/// Changes the owned set of o: `=`, `+=` or `-=` behind `\owns`.
///
/// # Errors
/// The fault of the first check that fails: outside an atomic block that o is the thread's, open and writable; inside
/// that the block lists o, and that a new member is the thread's, closed and writable, or that one that leaves is in
/// the set.
pub fn owned_change(
    alloc: Global,
    at: &Spot<'_>,
    change: OwnsChange,
    o: Ref,
    values: &[Value],
    progress: &mut Progress,
) -> Result<(), Stop>
    ensures { Performs result at.now progress.old progress.new (λ p s. owned_change p s change o values.now) }
{
    match change {
        OwnsChange::Assigned => assign_members(alloc, at, o, values, progress),
        OwnsChange::Added | OwnsChange::Removed => change_members(at, change, o, values, progress),
    }
}
