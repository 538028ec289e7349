//! What a thread can count on not to change.

ghost use Rattle.std.specs.Prelude.{◌≡◌, ◌↔◌, IsTrue, IfOk};
ghost use Rattle.object_types.specs.declared.references.Ref.{Ref as Reference};
ghost use Rattle.object_types.specs.References.{ref_lt};
ghost use Rattle.object_types.specs.Sets.{is_in, is_ordered};
ghost use Rattle.object_types.specs.Lookups.{heap_of};
ghost use Rattle.method.specs.WellFormed.{IsHeapOf};
ghost use Rattle.method.specs.StableSet.{InStableSet, stable_set};

use crate::search::{Search, members};
use crate::status::{is_among, wrapped};
use method::program::Program;
use object_types::heap::Heap;
use object_types::references::Ref;
use std::alloc::{AllocError, Global};

/// The stable set of t: the least set that holds what is closed and t's, what closed claims in it claim, and what its
/// members without `volatile_owns` own.
pub fn stable_set(
    alloc: Global,
    program: &Program,
    h: &Heap,
    t: Ref,
) -> Result<Vec<Ref>, AllocError>
    ensures ordered { IfOk result (λ v. IsTrue (is_ordered ref_lt v.items)) }
    ensures members { IfOk result (λ v. (o : Reference) → IsTrue (is_in o v.items) ↔ InStableSet program.now t (heap_of h.now) o) }
    ensures list { IsHeapOf program.now (heap_of h.now) → IfOk result (λ v. v.items ≡ stable_set program.now t (heap_of h.now)) }
{
    let mut search = Search::empty(alloc);
    search.add_roots(h, t)?;
    while let Some(c) = search.next() {
        search.follow(program, h, c)?;
    }
    let set = search.all_found(alloc)?;
    Ok(set)
}

/// Whether the object is in the stable set of t by its owners alone: it, or what owns it by way of others, is closed and
/// t's. That it isn't says nothing of the set.
pub fn is_stable_by_owners(program: &Program, h: &Heap, t: Ref, o: Ref) -> bool
    ensures { IsTrue result → InStableSet program.now t (heap_of h.now) o }
{
    let mut at = o;
    let mut left: u32 = 64;
    while left > 0 {
        if wrapped(h, t, at) {
            return true;
        }
        let owner = h.view(at).owner;
        if !is_among(at, members(program, h, owner)) {
            return false;
        }
        at = owner;
        left -= 1;
    }
    false
}
