//! The search for a stable set: what was found, and what of it is still to be followed.

ghost use Rattle.std.specs.Prelude.{◌≡◌, ◌&&◌, ◌++◌, ◌∷◌, [], if◌then◌else◌, IsTrue, OnOk, IfOk, IfSome, IfNone};
ghost use Rattle.object_types.specs.References.{ref, same_ref, ref_lt, is_claim};
ghost use Rattle.object_types.specs.Sets.{is_in, is_ordered};
ghost use Rattle.object_types.specs.Heap.{wrapped, closed_in};
ghost use Rattle.object_types.specs.Lookups.{look_up, heap_of};
ghost use Rattle.method.specs.Tables.{has_volatile_owns};
ghost use Rattle.method.specs.StableSet.{kept_by};
ghost use Rattle.ownership.specs.Ranks.{IsNext};

use crate::status::{is_closed, wrapped};
use method::program::Program;
use object_types::heap::Heap;
use object_types::references::{NULL, Ref};
use object_types::sets::RefSet;
use std::alloc::{AllocError, Global};

/// What was found, and what of it waits to be followed. After an error it is of no more use.
#[derive(Drop)]
pub(crate) struct Search {
    found: RefSet,
    waiting: Vec<Ref>,
    ghost ordered: { IsTrue (is_ordered ref_lt found) },
}

/// The reference next behind the other, unless that is the last of all.
pub fn next_reference(o: Ref) -> Option<Ref>
    ensures some { IfSome result (IsNext o) }
    ensures none { IfNone result (o ≡ ref 4294967295 4294967295) }
{
    if o.serial < u32::MAX {
        return Some(Ref {
            ty: o.ty,
            serial: o.serial + 1,
        });
    }
    if o.ty < u32::MAX {
        return Some(Ref {
            ty: o.ty + 1,
            serial: 0,
        });
    }
    None
}

/// What the object claims, if it is a closed claim.
fn claimed(h: &Heap, c: Ref) -> &[Ref]
    ensures { result.now ≡ (if is_claim c && closed_in (heap_of h.now) c then (look_up h.now c).listed else []) }
{
    if c.ty == 2 && is_closed(h.view(c).mode) {
        return h.listed(c);
    }
    &[]
}

/// Whether what objects of the type own is volatile.
fn has_volatile_owns(program: &Program, ty: u32) -> bool
    ensures { result ≡ has_volatile_owns program.now ty }
{
    if ty < 3 {
        return false;
    }
    match program.structs.get((ty - 3) as usize) {
        Some(info) => info.has_volatile_owns,
        None => false,
    }
}

/// What the object owns, unless that is volatile.
pub(crate) fn members<'h>(program: &Program, h: &'h Heap, c: Ref) -> &'h [Ref]
    ensures { result.now ≡ (if has_volatile_owns program.now c.ty then [] else (look_up h.now c).owned) }
{
    if has_volatile_owns(program, c.ty) {
        return &[];
    }
    h.owned(c)
}

impl Search {
    ghost use Rattle.ownership.specs.Searching.{Adds};

    /// Nothing is found yet.
    pub(crate) fn empty(alloc: Global) -> Search
        ensures found { result.found ≡ [] }
        ensures waiting { result.waiting.items ≡ [] }
    {
        Search {
            found: RefSet::empty(alloc),
            waiting: Vec::new(alloc),
        }
    }

    /// Adds the object.
    fn add(&mut self, o: Ref) -> Result<(), AllocError>
        ensures ok { OnOk result (Adds (λ q. same_ref q o) self.old self.new) }
    {
        let before = self.found.as_slice().len();
        self.found.set(o, true)?;
        if self.found.as_slice().len() == before {
            return Ok(());
        }
        self.waiting.push(o)?;
        Ok(())
    }

    /// Adds the objects.
    fn add_all(&mut self, objects: &[Ref]) -> Result<(), AllocError>
        ensures ok { OnOk result (Adds (λ q. is_in q objects.now) self.old self.new) }
    {
        for o in objects {
            self.add(*o)?;
        }
        Ok(())
    }

    /// Adds the object if it is closed and t's.
    fn add_root(&mut self, h: &Heap, t: Ref, o: Ref) -> Result<(), AllocError>
        ensures ok { OnOk result (Adds (λ q. same_ref q o && wrapped t (heap_of h.now) q) self.old self.new) }
    {
        if !wrapped(h, t, o) {
            return Ok(());
        }
        self.add(o)?;
        Ok(())
    }

    /// Adds each object that is closed and t's.
    pub(crate) fn add_roots(&mut self, h: &Heap, t: Ref) -> Result<(), AllocError>
        ensures ok { OnOk result (Adds (wrapped t (heap_of h.now)) self.old self.new) }
    {
        h.is_kept();
        let mut from = NULL;
        while let Some(o) = h.first(from) {
            self.add_root(h, t, o)?;
            let Some(next) = next_reference(o) else {
                return Ok(());
            };
            from = next;
        }
        Ok(())
    }

    /// Adds what comes into the set because c is in it.
    pub(crate) fn follow(&mut self, program: &Program, h: &Heap, c: Ref) -> Result<(), AllocError>
        ensures ok { OnOk result (Adds (λ q. is_in q (kept_by program.now (heap_of h.now) c)) self.old self.new) }
    {
        self.add_all(claimed(h, c))?;
        self.add_all(members(program, h, c))?;
        Ok(())
    }

    /// The last that waits, which waits no longer.
    pub(crate) fn next(&mut self) -> Option<Ref>
        ensures found { self.new.found ≡ self.old.found }
        ensures some { IfSome result (λ c. self.old.waiting.items ≡ self.new.waiting.items ++ c ∷ []) }
        ensures none { IfNone result (self.old.waiting.items ≡ []) }
    {
        self.waiting.pop()
    }

    /// What was found, in reference order.
    pub(crate) fn all_found(&self, alloc: Global) -> Result<Vec<Ref>, AllocError>
        ensures found { IfOk result (λ v. v.items ≡ self.now.found) }
        ensures ordered { IfOk result (λ v. IsTrue (is_ordered ref_lt v.items)) }
    {
        Vec::from_slice(alloc, self.found.as_slice())
    }
}
