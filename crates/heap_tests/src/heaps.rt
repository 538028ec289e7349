//! What a heap shows as it changes, worked by hand.

use crate::changes::{Change, apply};
use crate::evaluation::answers;
use crate::programs::{APPROVED, program};
use Change::{Close, Conjunct, Count, Give, List, OpenFor, Own, Status, Take, Write};
use Mode::{Closed, Freed, Open};
use Row::{Answers, Do, Entry, First, Fresh, Listed, Owned, Read, Stable, Touches, View};
use Value::Int;
use invariants::touched::touched;
use method::program::Program;
use object_types::heap::Heap;
use object_types::records::{Mode, RecordView};
use object_types::references::{NULL, Ref};
use object_types::values::Value;
use ownership::stable::stable_set;
use std::alloc::{AllocError, Global};
use std::test::Fail;

const T: Ref = Ref { ty: 1, serial: 1 };

const U: Ref = Ref { ty: 1, serial: 2 };

const CLAIM: Ref = Ref { ty: 2, serial: 1 };

const A: Ref = Ref { ty: 3, serial: 1 };

const B: Ref = Ref { ty: 3, serial: 2 };

const C: Ref = Ref { ty: 3, serial: 3 };

const LOCK: Ref = Ref { ty: 4, serial: 1 };

/// The last reference of all.
const LAST: Ref = Ref {
    ty: 4294967295,
    serial: 4294967295,
};

const EVERY: &[Ref] = &[NULL, T, CLAIM, A, B, C, LOCK, LAST];

/// A change of the heap, or what the heap shows.
enum Row<'a> {
    Do(Change<'a>),
    /// The value of a field, where the first value stands for none.
    Read(Ref, u32, Value, Value),
    View(Ref, Mode, Ref, i128),
    Owned(Ref, &'a [Ref]),
    Listed(Ref, &'a [Ref]),
    /// A claim's conjunct at a place: its shape and its values.
    Entry(Ref, usize, u32, &'a [Value]),
    /// The fresh reference of a type, where there is one.
    Fresh(u32, Option<Ref>),
    /// The first reference from one on at which something stands.
    First(Ref, Option<Ref>),
    /// Expressions, invariants and claims have values.
    Answers,
    /// A thread's stable set.
    Stable(Ref, &'a [Ref]),
    /// What a step touches, in both directions.
    Touches(&'a [Change<'a>], &'a [Ref]),
}

/// A is closed and t's, owns B, and is claimed; C is open.
const ROWS: &[Row<'static>] = &[
    First(NULL, None),
    Do(Status(A, Closed, T)),
    Do(Count(A, 1)),
    Do(Own(A, B, true)),
    Do(Write(A, 5, Int(7))),
    Do(Status(B, Closed, A)),
    Do(Status(CLAIM, Closed, T)),
    Do(List(CLAIM, A, true)),
    Do(Conjunct(CLAIM, 1, &[Value::Ref(A)], true)),
    Do(Status(C, Open, T)),
    First(NULL, Some(CLAIM)),
    Fresh(4, Some(LOCK)),
    View(A, Closed, T, 1),
    Read(A, 5, Int(0), Int(7)),
    Owned(A, &[B]),
    Listed(CLAIM, &[A]),
    Entry(CLAIM, 0, 1, &[Value::Ref(A)]),
    Answers,
    Stable(T, &[CLAIM, A, B]),
    Touches(&[], &[]),
    Touches(&[Write(A, 5, Int(8))], &[A]),
    Touches(&[Write(A, 5, Int(7))], &[]),
    Touches(&[Write(A, 6, Int(0))], &[]),
    Touches(&[Write(B, 5, Int(1))], &[B]),
    Touches(&[Write(B, APPROVED, Int(1))], &[A, B]),
    Touches(&[Write(C, APPROVED, Int(1))], &[T, C]),
    Touches(&[Count(B, 1)], &[A, B]),
    Touches(&[Count(A, 2)], &[T, A]),
    Touches(&[Count(LOCK, 1)], &[NULL, LOCK]),
    Touches(&[Status(A, Open, T)], &[A]),
    Touches(&[Status(C, Freed, NULL)], &[]),
    Touches(&[Status(C, Closed, T)], &[C]),
    Touches(&[Status(B, Closed, T)], &[]),
    Touches(&[Status(LOCK, Open, T)], &[]),
    Touches(&[Own(A, C, true)], &[A]),
    Touches(&[Own(A, B, false)], &[A]),
    Touches(&[Own(A, B, true)], &[]),
    Touches(&[List(CLAIM, B, true)], &[CLAIM]),
    Touches(&[Conjunct(CLAIM, 2, &[], true)], &[CLAIM]),
    Touches(&[Status(B, Closed, LOCK), Count(B, 1)], &[A, B, LOCK]),
    Touches(&[Status(B, Closed, LOCK), Count(B, 0)], &[]),
    Touches(&[Status(LAST, Closed, A), Count(LAST, 1)], &[NULL, A, LAST]),
    Do(OpenFor(A, U)),
    View(B, Closed, U, 0),
    Do(Close(A)),
    View(B, Closed, A, 0),
    Do(Give(C, LOCK)),
    Owned(LOCK, &[C]),
    Do(Take(LOCK, C, U)),
    View(C, Open, U, 0),
    Do(Status(LAST, Open, T)),
    Fresh(4294967295, None),
];

fn has_entry(h: &Heap, c: Ref, place: usize, shape: u32, values: &[Value]) -> bool {
    match h.shapes(c).get(place) {
        Some(entry) => entry.shape == shape && entry.values.as_slice() == values,
        None => false,
    }
}

/// Whether this is the stable set.
fn is_stable(
    alloc: Global,
    program: &Program,
    h: &Heap,
    t: Ref,
    set: &[Ref],
) -> Result<bool, AllocError> {
    let found = stable_set(alloc, program, h, t)?;
    Ok(found.as_slice() == set)
}

/// Whether the step touches these of the references and no others, in both directions.
fn touches(
    program: &Program,
    before: &Heap,
    step: &[Change<'_>],
    objects: &[Ref],
) -> Result<bool, AllocError> {
    let mut after = before.copy()?;
    for change in step {
        apply(&mut after, *change)?;
    }
    for o in EVERY {
        let expected = objects.contains(o);
        if touched(program, *o, before, &after) != expected
            || touched(program, *o, &after, before) != expected
        {
            return Ok(false);
        }
    }
    Ok(true)
}

/// Whether the heap shows what the row says, which wants no memory.
fn shows(h: &Heap, row: &Row<'_>) -> bool {
    match row {
        Row::Read(o, field, zero, seen) => { zero.is_zero() && h.read(*o, *field, *zero) == *seen }
        Row::View(o, mode, owner, count) => {
            let seen = RecordView {
                mode: *mode,
                owner: *owner,
                count: *count,
            };
            h.view(*o) == seen
        }
        Row::Owned(o, all) => h.owned(*o) == *all,
        Row::Listed(c, all) => h.listed(*c) == *all,
        Row::Entry(c, place, shape, values) => has_entry(h, *c, *place, *shape, *values),
        Row::Fresh(ty, fresh) => h.fresh(*ty) == *fresh,
        Row::First(from, first) => h.first(*from) == *first,
        _ => false,
    }
}

/// Whether the heap shows what the row says; a change is made.
fn holds(
    alloc: Global,
    program: &Program,
    h: &mut Heap,
    row: &Row<'_>,
) -> Result<bool, AllocError> {
    match row {
        Row::Do(change) => {
            apply(h, *change)?;
            Ok(true)
        }
        Row::Answers => answers(alloc, program, h),
        Row::Stable(t, set) => is_stable(alloc, program, h, *t, *set),
        Row::Touches(step, objects) => touches(program, h, *step, *objects),
        _ => Ok(shows(h, row)),
    }
}

/// The place of the first row that the heap, which is empty at first, doesn't show.
fn wrong_row(alloc: Global) -> Result<Option<usize>, AllocError> {
    let program = program(alloc)?;
    let mut h = Heap::empty(alloc);
    for (place, row) in ROWS.iter().enumerate() {
        if !holds(alloc, &program, &mut h, row)? {
            return Ok(Some(place));
        }
    }
    Ok(None)
}

#[test]
fn heap_shows_what_was_done(rt: HostRuntime) -> Result<(), Fail> {
    let wrong = wrong_row(rt.alloc())?;
    assert!(rt; wrong == None, "row {wrong:?}");
    Ok(())
}
