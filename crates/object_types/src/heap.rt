//! Heaps: finite maps from references to records.

ghost use Rattle.std.specs.Prelude.{◌≡◌, ◌<◌, ◌↔◌, ℕ, List, [], OnOk, OnErr, IfOk, IfSome, IfNone, IsNone, IsTrue, IsFalse};
ghost use Rattle.object_types.specs.declared.references.Ref.{Ref as Reference};
ghost use Rattle.object_types.specs.References.{ref, ref_lt};
ghost use Rattle.object_types.specs.Values.{is_zero, or_zero};
ghost use Rattle.object_types.specs.Places.{is_ordered};
ghost use Rattle.object_types.specs.Heap.{nothing, is_absent, put_at, with_status, with_count, with_field, with_owned, with_listed, with_shape};
ghost use Rattle.object_types.specs.Fields.{kept_lt, field_in};
ghost use Rattle.object_types.specs.Content.{IsFresh, IsNewest, IsFirst, SameContent};
ghost use Rattle.object_types.specs.Lookups.{record_of, look_up, changed, is_tidy, IsKept};

use crate::fields::{Kept, same_fields};
use crate::records::{Change, Mode, RecordView, Stored};
use crate::references::{NULL, Ref};
use crate::sets::same_members;
use crate::shapes::{Entry, same_conjuncts};
use crate::trees::Tree;
use crate::values::{Value, Values};
use std::alloc::{AllocError, Global};
use std::marker::Model;
use std::rc::Rc;

/// A heap; contracts see the list of what it holds, in reference order. A copy shares all with its heap, until one of
/// the two changes.
#[derive(Drop)]
pub struct Heap {
    alloc: Global,
    tree: Tree,
}

impl Model for Heap {
    ghost use Rattle.std.specs.Prelude.{List};
    ghost use Rattle.object_types.specs.declared.records.Stored.{Stored as AStored};
    ghost use Rattle.object_types.specs.Lookups.{IsKept};
    ghost use Rattle.object_types.specs.Trees.{in_order};

    ghost Value = { List AStored };

    ghost view = { λ a. in_order a.tree };

    ghost invariant = { λ a. IsKept (in_order a.tree) };
}

impl Heap {
    /// The heap that holds nothing.
    pub fn empty(alloc: Global) -> Heap
        ensures { result ≡ [] }
    {
        Heap {
            alloc,
            tree: Tree::Empty,
        }
    }

    /// What every heap keeps: each reference once and in order, and every record tidy.
    pub fn is_kept(&self)
        ensures { IsKept self.now }
    {
        let _ = &self.tree;
    }

    /// What is stored at the reference.
    #[tactic(auto, using(crate::proofs::Present::found_record, crate::proofs::Present::found_nothing))]
    fn get(&self, reference: Ref) -> Option<&Stored>
        ensures some { IfSome result (λ s. look_up self.now reference ≡ record_of s.now) }
        ensures none { IfNone result (look_up self.now reference ≡ nothing) }
        ensures reference { IfSome result (λ s. s.now.reference ≡ reference) }
        ensures tidy { IfSome result (λ s. IsTrue (is_tidy s.now)) }
    {
        self.tree.find(reference)
    }

    /// The record at the reference, to be changed.
    fn record_at(&self, reference: Ref) -> Result<Stored, AllocError>
        ensures reference { IfOk result (λ s. s.reference ≡ reference) }
        ensures record { IfOk result (λ s. record_of s ≡ look_up self.now reference) }
        ensures tidy { IfOk result (λ s. IsTrue (is_tidy s)) }
    {
        match self.get(reference) {
            Some(stored) => {
                let same = stored.copy()?;
                Ok(same)
            }
            None => Ok(Stored::blank(self.alloc, reference)),
        }
    }

    /// The object's mode and owner, and its claim count.
    pub fn view(&self, o: Ref) -> RecordView
        ensures mode { result.mode ≡ (look_up self.now o).mode }
        ensures owner { result.owner ≡ (look_up self.now o).owner }
        ensures count { result.count ≡ (look_up self.now o).count }
    {
        match self.get(o) {
            Some(stored) => RecordView {
                mode: stored.mode,
                owner: stored.owner,
                count: stored.count,
            },
            None => RecordView {
                mode: Mode::Absent,
                owner: NULL,
                count: 0,
            },
        }
    }

    /// The members of the object's owned set, in reference order.
    pub fn owned(&self, o: Ref) -> &[Ref]
        ensures { result.now ≡ (look_up self.now o).owned }
    {
        match self.get(o) {
            Some(stored) => stored.owned.as_slice(),
            None => &[],
        }
    }

    /// The objects that the claim claims, in reference order.
    pub fn listed(&self, o: Ref) -> &[Ref]
        ensures { result.now ≡ (look_up self.now o).listed }
    {
        match self.get(o) {
            Some(stored) => stored.listed.as_slice(),
            None => &[],
        }
    }

    /// The conjuncts that the claim was made with, in order.
    pub fn shapes(&self, o: Ref) -> &[Entry]
        ensures { result.now ≡ (look_up self.now o).shapes }
    {
        match self.get(o) {
            Some(stored) => stored.shapes.as_slice(),
            None => &[],
        }
    }

    /// The value that is kept of the object's field; none of 0 and NULL.
    pub fn field(&self, o: Ref, field: u32) -> Option<Value>
        ensures { result ≡ (look_up self.now o).fields field }
    {
        match self.get(o) {
            Some(stored) => stored.fields.get(field),
            None => None,
        }
    }

    /// The value of the object's field; `zero` is the zero of its type.
    pub fn read(&self, o: Ref, field: u32, zero: Value) -> Value
        requires { IsTrue (is_zero zero) }
        ensures { result ≡ or_zero zero ((look_up self.now o).fields field) }
    {
        let Some(stored) = self.get(o) else {
            return zero;
        };
        match stored.fields.get(field) {
            Some(value) => value,
            None => zero,
        }
    }

    /// Makes the change of the object's record.
    fn change(&mut self, o: Ref, change: Change) -> Result<(), AllocError>
        ensures ok { OnOk result (look_up self.new ≡ put_at (look_up self.old) o (changed change (look_up self.old o))) }
        ensures err { OnErr result (self.new ≡ self.old) }
    {
        let mut stored = self.record_at(o)?;
        stored.apply(change)?;
        let shared = Rc::new(self.alloc, stored)?;
        let tree = self.tree.put(self.alloc, shared)?;
        self.tree = tree;
        Ok(())
    }

    /// Writes the object's field; after 0 or NULL none is kept.
    pub fn write(&mut self, o: Ref, field: u32, value: Value) -> Result<(), AllocError>
        ensures ok { OnOk result (look_up self.new ≡ put_at (look_up self.old) o (with_field field value (look_up self.old o))) }
        ensures err { OnErr result (self.new ≡ self.old) }
    {
        self.change(o, Change::Field(field, value))
    }

    /// Sets the object's mode and owner.
    pub fn set_status(&mut self, o: Ref, mode: Mode, owner: Ref) -> Result<(), AllocError>
        ensures ok { OnOk result (look_up self.new ≡ put_at (look_up self.old) o (with_status mode owner (look_up self.old o))) }
        ensures err { OnErr result (self.new ≡ self.old) }
    {
        self.change(o, Change::Status(mode, owner))
    }

    /// Sets the object's claim count.
    pub fn set_count(&mut self, o: Ref, count: i128) -> Result<(), AllocError>
        ensures ok { OnOk result (look_up self.new ≡ put_at (look_up self.old) o (with_count count (look_up self.old o))) }
        ensures err { OnErr result (self.new ≡ self.old) }
    {
        self.change(o, Change::Count(count))
    }

    /// Puts the member into the object's owned set, or takes it out.
    pub fn set_owned(&mut self, o: Ref, member: Ref, holds: bool) -> Result<(), AllocError>
        ensures ok { OnOk result (look_up self.new ≡ put_at (look_up self.old) o (with_owned member holds (look_up self.old o))) }
        ensures err { OnErr result (self.new ≡ self.old) }
    {
        self.change(o, Change::Owned(member, holds))
    }

    /// Puts the object into the claim's claimed set, or takes it out.
    pub fn set_listed(&mut self, c: Ref, object: Ref, holds: bool) -> Result<(), AllocError>
        ensures ok { OnOk result (look_up self.new ≡ put_at (look_up self.old) c (with_listed object holds (look_up self.old c))) }
        ensures err { OnErr result (self.new ≡ self.old) }
    {
        self.change(c, Change::Listed(object, holds))
    }

    /// Puts the conjunct into those that the claim was made with, or takes it out.
    pub fn set_shape(
        &mut self,
        c: Ref,
        shape: u32,
        values: &[Value],
        holds: bool,
    ) -> Result<(), AllocError>
        ensures ok { OnOk result (look_up self.new ≡ put_at (look_up self.old) c (with_shape (record { shape = shape; values = values.now }) holds (look_up self.old c))) }
        ensures err { OnErr result (self.new ≡ self.old) }
    {
        let values = Values::from_slice(self.alloc, values)?;
        self.change(c, Change::Shape(Entry { shape, values }, holds))
    }

    /// An equal heap.
    pub fn copy(&self) -> Result<Heap, AllocError>
        ensures { IfOk result (λ h. h ≡ self.now) }
    {
        let tree = self.tree.share()?;
        Ok(Heap {
            alloc: self.alloc,
            tree,
        })
    }

    /// The first reference from `from` on, in reference order, at which something stands.
    #[tactic(auto, using(crate::proofs::Present::first_gives, crate::proofs::Present::first_lacks))]
    pub fn first(&self, from: Ref) -> Option<Ref>
        ensures some { IfSome result (λ r. IsFirst (look_up self.now) from r) }
        ensures none { IfNone result ((q : Reference) → IsFalse (ref_lt q from) → look_up self.now q ≡ nothing) }
    {
        self.tree.first(from)
    }

    /// The greatest serial of the type below the greatest of all, at which the mode isn't absent.
    #[tactic(auto, using(crate::proofs::Present::newest_gives, crate::proofs::Present::newest_lacks))]
    fn newest(&self, ty: u32) -> Option<u32>
        ensures some { IfSome result (λ s. IsNewest (look_up self.now) ty s) }
        ensures none { IfNone result ((s : ℕ) → s < 4294967295 → IsTrue (is_absent (look_up self.now (ref ty s)).mode)) }
        ensures kept { IsKept self.now }
    {
        self.tree.newest(ty)
    }

    /// A reference of the type that nothing has used; none where the greatest serial was used.
    pub fn fresh(&self, ty: u32) -> Option<Ref>
        ensures some { IfSome result (λ r. (r.ty ≡ ty) × IsFresh (look_up self.now) ty r.serial) }
        ensures none { IsNone result ↔ IsFalse (is_absent (look_up self.now (ref ty 4294967295)).mode) }
    {
        let last = self.view(Ref {
            ty,
            serial: 4294967295,
        });
        if !last.mode.is_absent() {
            return None;
        }
        match self.newest(ty) {
            Some(serial) => Some(Ref {
                ty,
                serial: serial + 1,
            }),
            None => Some(Ref { ty, serial: 1 }),
        }
    }

    /// The fields that are kept of the object, in the order of their numbers.
    pub fn kept(&self, o: Ref) -> &[Kept]
        ensures fields { (f : ℕ) → (look_up self.now o).fields f ≡ field_in result.now f }
        ensures ordered { IsTrue (is_ordered kept_lt result.now) }
    {
        match self.get(o) {
            Some(stored) => stored.fields.as_slice(),
            None => &[],
        }
    }

    /// Whether the object has one content in both heaps: all but its status.
    pub fn same_content(&self, other: &Heap, o: Ref) -> bool
        ensures { IsTrue result ↔ SameContent (look_up self.now o) (look_up other.now o) }
    {
        if self.view(o).count != other.view(o).count {
            return false;
        }
        if !same_members(self.owned(o), other.owned(o)) {
            return false;
        }
        if !same_fields(self.kept(o), other.kept(o)) {
            return false;
        }
        if !same_members(self.listed(o), other.listed(o)) {
            return false;
        }
        same_conjuncts(self.shapes(o), other.shapes(o))
    }
}
