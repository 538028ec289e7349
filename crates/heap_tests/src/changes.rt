//! Changes of a heap as data, so that a table says how a heap is made.

use object_types::heap::Heap;
use object_types::records::Mode;
use object_types::references::Ref;
use object_types::values::Value;
use ownership::effects::{close_object, give, open_object, take};
use std::alloc::AllocError;

/// A call that changes a heap.
#[derive(Clone, Copy)]
pub enum Change<'a> {
    Status(Ref, Mode, Ref),
    Count(Ref, i128),
    Write(Ref, u32, Value),
    Own(Ref, Ref, bool),
    List(Ref, Ref, bool),
    Conjunct(Ref, u32, &'a [Value], bool),
    Close(Ref),
    OpenFor(Ref, Ref),
    Give(Ref, Ref),
    Take(Ref, Ref, Ref),
}

pub fn apply(h: &mut Heap, change: Change<'_>) -> Result<(), AllocError> {
    match change {
        Change::Status(o, mode, owner) => h.set_status(o, mode, owner),
        Change::Count(o, count) => h.set_count(o, count),
        Change::Write(o, field, value) => h.write(o, field, value),
        Change::Own(o, member, holds) => h.set_owned(o, member, holds),
        Change::List(c, object, holds) => h.set_listed(c, object, holds),
        Change::Conjunct(c, shape, values, holds) => h.set_shape(c, shape, values, holds),
        Change::Close(o) => close_object(h, o),
        Change::OpenFor(o, t) => open_object(h, o, t),
        Change::Give(from, to) => give(h, from, to),
        Change::Take(owner, p, t) => take(h, owner, p, t),
    }
}
