//! What wrap, unwrap and transfers make of a heap. Each is worked out on a copy, so want of memory changes nothing.

ghost use Rattle.std.specs.Prelude.{◌≡◌, OnOk, OnErr};
ghost use Rattle.object_types.specs.Heap.{hand_over};
ghost use Rattle.object_types.specs.Lookups.{look_up, heap_of};
ghost use Rattle.ownership.specs.Effects.{closed, opened, given, taken};

use object_types::heap::Heap;
use object_types::records::Mode;
use object_types::references::Ref;
use std::alloc::AllocError;

/// Gives the members another owner. Of want of memory it says nothing.
pub fn hand_over(h: &mut Heap, members: &[Ref], owner: Ref) -> Result<(), AllocError>
    ensures ok { OnOk result (look_up h.new ≡ (hand_over (heap_of h.old) members.now owner).get) }
{
    for member in members {
        let mode = h.view(*member).mode;
        h.set_status(*member, mode, owner)?;
    }
    Ok(())
}

/// The object is closed, its owner stays, and its members are its own: what wrap does once the set stands.
pub fn close_object(h: &mut Heap, o: Ref) -> Result<(), AllocError>
    ensures ok { OnOk result (look_up h.new ≡ (closed (heap_of h.old) o).get) }
    ensures err { OnErr result (h.new ≡ h.old) }
{
    let mut after = h.copy()?;
    after.set_status(o, Mode::Closed, h.view(o).owner)?;
    hand_over(&mut after, h.owned(o), o)?;
    *h = after;
    Ok(())
}

/// The object is open, its members are t's, and its set stays: what unwrap does.
pub fn open_object(h: &mut Heap, o: Ref, t: Ref) -> Result<(), AllocError>
    ensures ok { OnOk result (look_up h.new ≡ (opened (heap_of h.old) o t).get) }
    ensures err { OnErr result (h.new ≡ h.old) }
{
    let mut after = h.copy()?;
    after.set_status(o, Mode::Open, h.view(o).owner)?;
    hand_over(&mut after, h.owned(o), t)?;
    *h = after;
    Ok(())
}

/// `from` joins the set of `to`, which owns it now.
pub fn give(h: &mut Heap, from: Ref, to: Ref) -> Result<(), AllocError>
    ensures ok { OnOk result (look_up h.new ≡ (given (heap_of h.old) from to).get) }
    ensures err { OnErr result (h.new ≡ h.old) }
{
    let mut after = h.copy()?;
    after.set_owned(to, from, true)?;
    hand_over(&mut after, &[from], to)?;
    *h = after;
    Ok(())
}

/// p leaves the owner's set, and is t's.
pub fn take(h: &mut Heap, owner: Ref, p: Ref, t: Ref) -> Result<(), AllocError>
    ensures ok { OnOk result (look_up h.new ≡ (taken (heap_of h.old) owner p t).get) }
    ensures err { OnErr result (h.new ≡ h.old) }
{
    let mut after = h.copy()?;
    after.set_owned(owner, p, false)?;
    hand_over(&mut after, &[p], t)?;
    *h = after;
    Ok(())
}
