//! What a heap holds at a reference.

ghost use Rattle.std.specs.Prelude.{◌≡◌, ℕ, ◌^◌, ◌<◌, ◌↔◌, List, [], OnOk, OnErr, IfOk, IsTrue};
ghost use Rattle.object_types.specs.Heap.{nothing, is_absent};
ghost use Rattle.object_types.specs.Lookups.{record_of, changed, is_tidy, is_blank, is_present};

use crate::fields::Fields;
use crate::references::{NULL, Ref};
use crate::sets::RefSet;
use crate::shapes::{Entry, Shapes};
use crate::values::Value;
use std::alloc::{AllocError, Global};

/// Whether an object is there, and whether its invariant is owed.
#[derive(Clone, Copy, Debug, PartialEq, Eq)]
pub enum Mode {
    Absent,
    Open,
    Closed,
    Freed,
}

impl Mode {
    /// Whether there never was an object.
    pub fn is_absent(self) -> bool
        ensures { result ≡ is_absent self }
    {
        match self {
            Mode::Absent => true,
            Mode::Open | Mode::Closed | Mode::Freed => false,
        }
    }
}

/// A record's status, and its claim count.
#[derive(Clone, Copy, Debug, PartialEq, Eq)]
pub struct RecordView {
    pub mode: Mode,
    pub owner: Ref,
    pub count: i128,
}

/// One change of a record.
#[derive(Drop)]
pub enum Change {
    /// mode and owner
    Status(Mode, Ref),
    /// the claim count
    Count(i128),
    /// a field's number and value
    Field(u32, Value),
    /// a member of the owned set, or no longer
    Owned(Ref, bool),
    /// a member of the claimed set, or no longer
    Listed(Ref, bool),
    /// a conjunct that the claim was made with, or no longer
    Shape(Entry, bool),
}

/// A reference, and the record that a heap holds there.
#[derive(Drop)]
pub struct Stored {
    pub reference: Ref,
    pub mode: Mode,
    pub owner: Ref,
    pub count: i128,
    pub owned: RefSet,
    pub fields: Fields,
    pub listed: RefSet,
    pub shapes: Shapes,
}

impl Stored {
    /// Nothing stands at the reference yet.
    pub fn blank(alloc: Global, reference: Ref) -> Stored
        ensures reference { result.reference ≡ reference }
        ensures record { record_of result ≡ nothing }
        ensures tidy { IsTrue (is_tidy result) }
    {
        Stored {
            reference,
            mode: Mode::Absent,
            owner: NULL,
            count: 0,
            owned: RefSet::empty(alloc),
            fields: Fields::empty(alloc),
            listed: RefSet::empty(alloc),
            shapes: Shapes::empty(alloc),
        }
    }

    /// Makes the change.
    pub fn apply(&mut self, change: Change) -> Result<(), AllocError>
        requires { IsTrue (is_tidy self.old) }
        ensures ok { OnOk result (record_of self.new ≡ changed change (record_of self.old)) }
        ensures err { OnErr result (self.new ≡ self.old) }
        ensures reference { self.new.reference ≡ self.old.reference }
        ensures tidy { IsTrue (is_tidy self.new) }
    {
        match change {
            Change::Status(mode, owner) => {
                self.mode = mode;
                self.owner = owner;
                Ok(())
            }
            Change::Count(count) => {
                self.count = count;
                Ok(())
            }
            Change::Field(field, value) => self.fields.set(field, value),
            Change::Owned(member, holds) => self.owned.set(member, holds),
            Change::Listed(object, holds) => self.listed.set(object, holds),
            Change::Shape(entry, holds) => self.shapes.set(entry, holds),
        }
    }

    /// Whether the record says nothing: as if nothing stood at the reference.
    pub fn is_blank(&self) -> bool
        ensures { result ≡ is_blank self.now }
    {
        self.mode.is_absent()
            && self.owner.is_same(NULL)
            && self.count == 0
            && self.owned.as_slice().is_empty()
            && self.fields.as_slice().is_empty()
            && self.listed.as_slice().is_empty()
            && self.shapes.as_slice().is_empty()
    }

    /// Whether an object of the type is or was at the reference, which isn't the type's last.
    pub fn is_present(&self, ty: u32) -> bool
        ensures { result ≡ is_present ty self.now }
    {
        self.reference.ty == ty && (self.reference.serial < 4294967295 && !self.mode.is_absent())
    }

    /// The same record once more.
    pub fn copy(&self) -> Result<Stored, AllocError>
        ensures { IfOk result (λ s. s ≡ self.now) }
    {
        let owned = self.owned.copy()?;
        let fields = self.fields.copy()?;
        let listed = self.listed.copy()?;
        let shapes = self.shapes.copy()?;
        Ok(Stored {
            reference: self.reference,
            mode: self.mode,
            owner: self.owner,
            count: self.count,
            owned,
            fields,
            listed,
            shapes,
        })
    }
}
