//! Which objects a step touches.

ghost use Rattle.std.specs.Prelude.{◌≡◌, ◌≢◌, ◌↔◌, IsTrue, IsFalse};
ghost use Rattle.object_types.specs.declared.references.Ref.{Ref as Reference};
ghost use Rattle.object_types.specs.Heap.{nothing, closed_in};
ghost use Rattle.object_types.specs.Lookups.{look_up, heap_of};
ghost use Rattle.method.specs.Legal.{Touched};
ghost use Rattle.std.specs.List.{list_any};
ghost use Rattle.method.specs.Tables.{is_approved};
ghost use Rattle.invariants.specs.Counts.{same_kept_value, differs_at, approved_differs, part_differs};

use method::program::Program;
use object_types::fields::Kept;
use object_types::heap::Heap;
use object_types::records::Mode;
use object_types::references::{NULL, Ref};
use object_types::values::Value;
use ownership::search::next_reference;

/// Whether the object is closed.
fn is_closed(h: &Heap, o: Ref) -> bool
    ensures { result ≡ closed_in (heap_of h.now) o }
{
    matches!(h.view(o).mode, Mode::Closed)
}

/// Whether the field is approved.
fn is_approved(program: &Program, field: u32) -> bool
    ensures { result ≡ is_approved program.now field }
{
    match program.fields.get(field as usize) {
        Some(info) => info.is_approved,
        None => false,
    }
}

/// Whether the two are one value, or none.
fn same_kept_value(left: Option<Value>, right: Option<Value>) -> bool
    ensures { result ≡ same_kept_value left right }
{
    match (left, right) {
        (Some(a), Some(b)) => a.is_same(b),
        (None, None) => true,
        (Some(_), None) | (None, Some(_)) => false,
    }
}

/// Whether the field is approved, and isn't the same at q in the two heaps.
fn differs_at(program: &Program, before: &Heap, after: &Heap, q: Ref, field: u32) -> bool
    ensures { result ≡ differs_at program.now (look_up before.now q) (look_up after.now q) field }
{
    is_approved(program, field) && !same_kept_value(after.field(q, field), before.field(q, field))
}

/// Whether one of these fields is approved, and isn't the same at q in the two heaps.
fn one_differs(program: &Program, before: &Heap, after: &Heap, q: Ref, fields: &[Kept]) -> bool
    ensures { result ≡ list_any (λ k. differs_at program.now (look_up before.now q) (look_up after.now q) k.field) fields.now }
{
    fields
        .iter()
        .any(|k| differs_at(program, before, after, q, k.field))
}

/// Whether an approved field isn't the same at q in the two heaps.
fn approved_differs(program: &Program, before: &Heap, after: &Heap, q: Ref) -> bool
    ensures { result ≡ approved_differs program.now (look_up before.now q) (look_up after.now q) }
{
    let was = one_differs(program, before, after, q, before.kept(q));
    let is = one_differs(program, before, after, q, after.kept(q));
    was || is
}

/// Whether q, which is o's in one of the heaps, has unlike claim counts or approved fields in them.
fn part_differs(program: &Program, o: Ref, before: &Heap, after: &Heap, q: Ref) -> bool
    ensures { result ≡ part_differs program.now o (heap_of before.now) (heap_of after.now) q }
{
    let was = before.view(q);
    let is = after.view(q);
    (was.owner.is_same(o) || is.owner.is_same(o))
        && (is.count != was.count || approved_differs(program, before, after, q))
}

/// Whether the claim count or an approved field differs of one of o's that stands in h.
fn some_part_differs(program: &Program, h: &Heap, o: Ref, before: &Heap, after: &Heap) -> bool
    ensures some { IsTrue result → (q : Reference) × IsTrue (part_differs program.now o (heap_of before.now) (heap_of after.now) q) }
    ensures none { IsFalse result → (q : Reference) → look_up h.now q ≢ nothing → IsFalse (part_differs program.now o (heap_of before.now) (heap_of after.now) q) }
{
    h.is_kept();
    let mut from = NULL;
    while let Some(q) = h.first(from) {
        if part_differs(program, o, before, after, q) {
            return true;
        }
        let Some(next) = next_reference(q) else {
            return false;
        };
        from = next;
    }
    false
}

/// Whether the step from the one heap to the other touches the object: its content differs, it is closed in one of them
/// alone, or the claim count or an approved field differs of what it owns in either.
pub fn touched(program: &Program, o: Ref, before: &Heap, after: &Heap) -> bool
    ensures { IsTrue result ↔ Touched program.now o (heap_of before.now) (heap_of after.now) }
{
    if !after.same_content(before, o) {
        return true;
    }
    if is_closed(before, o) != is_closed(after, o) {
        return true;
    }
    if some_part_differs(program, before, o, before, after) {
        return true;
    }
    some_part_differs(program, after, o, before, after)
}
