//! Who may write what.

ghost use Rattle.std.specs.Prelude.{◌≡◌};
ghost use Rattle.object_types.specs.Sets.{is_in};
ghost use Rattle.object_types.specs.Heap.{is_closed, mutable, wrapped, writable};
ghost use Rattle.object_types.specs.Lookups.{heap_of};

use object_types::heap::Heap;
use object_types::records::Mode;
use object_types::references::Ref;

/// Whether t may change the object: it is open, and t's.
pub fn mutable(h: &Heap, t: Ref, o: Ref) -> bool
    ensures { result ≡ mutable t (heap_of h.now) o }
{
    let view = h.view(o);
    matches!(view.mode, Mode::Open) && view.owner.is_same(t)
}

/// Whether the mode is that of a closed object.
pub(crate) fn is_closed(mode: Mode) -> bool
    ensures { result ≡ is_closed mode }
{
    match mode {
        Mode::Closed => true,
        Mode::Absent | Mode::Open | Mode::Freed => false,
    }
}

/// Whether the object is closed, and t's.
pub fn wrapped(h: &Heap, t: Ref, o: Ref) -> bool
    ensures { result ≡ wrapped t (heap_of h.now) o }
{
    let view = h.view(o);
    is_closed(view.mode) && view.owner.is_same(t)
}

/// Whether the list names the object.
pub(crate) fn is_among(o: Ref, objects: &[Ref]) -> bool
    ensures { result ≡ is_in o objects.now }
{
    for other in objects {
        if o.is_same(*other) {
            return true;
        }
    }
    false
}

/// Whether a function of t that was entered at this heap with this writes list may change the object: the list names
/// it, or it wasn't t's at entry.
pub fn writable(entry: &Heap, writes: &[Ref], t: Ref, o: Ref) -> bool
    ensures { result ≡ writable t (heap_of entry.now) writes.now o }
{
    is_among(o, writes) || !entry.view(o).owner.is_same(t)
}
