//! What a claim was made with.

ghost use Rattle.std.specs.Prelude.{◌≡◌, ◌≤◌, ◌↔◌, List, [], OnOk, OnErr, IfOk, IfErr, IsTrue, length};
ghost use Rattle.object_types.specs.Places.{is_ordered, place, IsAt, GoesAt};
ghost use Rattle.object_types.specs.Shapes.{entry_lt, same_entry, set_entry};

use crate::values::Values;
use std::alloc::{AllocError, Global};
use std::marker::Model;

/// A conjunct that a claim was made with: the number of its shape, and the values of its holes.
#[derive(Drop)]
pub struct Entry {
    pub shape: u32,
    pub values: Values,
}

impl Entry {
    /// Whether the two are one conjunct.
    pub fn is_same(&self, other: &Entry) -> bool
        ensures { result ≡ same_entry self.now other.now }
    {
        self.shape == other.shape && self.values.is_same(other.values.as_slice())
    }

    /// Whether this is before the other: by the shape, then by the values.
    pub fn is_before(&self, other: &Entry) -> bool
        ensures { result ≡ entry_lt self.now other.now }
    {
        self.shape < other.shape
            || (self.shape == other.shape && self.values.is_before(other.values.as_slice()))
    }

    /// The same conjunct once more.
    pub fn copy(&self) -> Result<Entry, AllocError>
        ensures { IfOk result (λ e. e ≡ self.now) }
    {
        let values = self.values.copy()?;
        Ok(Entry {
            shape: self.shape,
            values,
        })
    }
}

/// The conjuncts that a claim was made with; contracts see them in order.
#[derive(Drop)]
pub struct Shapes {
    entries: Vec<Entry>,
}

impl Model for Shapes {
    ghost use Rattle.std.specs.Prelude.{◌≡◌, List, true};
    ghost use Rattle.object_types.specs.declared.shapes.Entry.{Entry as AnEntry};
    ghost use Rattle.object_types.specs.Places.{is_ordered};
    ghost use Rattle.object_types.specs.Shapes.{entry_lt};

    ghost Value = { List AnEntry };

    ghost view = { λ a. a.entries.items };

    ghost invariant = { λ a. is_ordered entry_lt a.entries.items ≡ true };
}

impl Shapes {
    /// No conjunct.
    pub fn empty(alloc: Global) -> Shapes
        ensures { result ≡ [] }
    {
        Shapes {
            entries: Vec::new(alloc),
        }
    }

    /// The conjuncts, in order.
    pub fn as_slice(&self) -> &[Entry]
        ensures { result.now ≡ self.now }
    {
        &self.entries
    }

    /// How many conjuncts are before the one.
    fn place(&self, sought: &Entry) -> usize
        ensures place { result ≡ place (λ y. entry_lt y sought.now) self.now }
        ensures bound { result ≤ length self.now }
    {
        self.entries.as_slice().partition_point(
            |other: &Entry| -> bool
                ensures { result ≡ entry_lt other.now sought.entry.now }
            { other.is_before(sought) },
        )
    }

    /// Where the conjunct is, or else where it would stand.
    fn find(&self, entry: &Entry) -> Result<usize, usize>
        ensures found { IfOk result (IsAt (λ y. y) entry_lt same_entry entry.now self.now) }
        ensures absent { IfErr result (GoesAt (λ y. y) entry_lt same_entry entry.now self.now) }
    {
        let place = self.place(entry);
        if place == self.entries.len() {
            return Err(place);
        }
        if self.entries[place].is_same(entry) {
            return Ok(place);
        }
        Err(place)
    }

    /// Puts the conjunct into the list, or takes it out.
    pub fn set(&mut self, entry: Entry, holds: bool) -> Result<(), AllocError>
        ensures ok { OnOk result (self.new ≡ set_entry entry holds self.old) }
        ensures err { OnErr result (self.new ≡ self.old) }
        ensures ordered { IsTrue (is_ordered entry_lt self.new) }
    {
        match self.find(&entry) {
            Ok(place) => {
                if holds {
                    return Ok(());
                }
                self.entries.remove(place);
                Ok(())
            }
            Err(place) => {
                if !holds {
                    return Ok(());
                }
                self.entries.insert(place, entry)?;
                Ok(())
            }
        }
    }

    /// The same conjuncts once more.
    pub fn copy(&self) -> Result<Shapes, AllocError>
        ensures { IfOk result (λ s. s ≡ self.now) }
    {
        let mut entries = Vec::new(*self.entries.allocator());
        let all = self.as_slice();
        for entry in all {
            entries.push(entry.copy()?)?;
        }
        Ok(Shapes { entries })
    }
}

/// Whether the two lists have the same conjuncts.
pub fn same_conjuncts(left: &[Entry], right: &[Entry]) -> bool
    ensures { IsTrue result ↔ (left.now ≡ right.now) }
{
    if left.len() != right.len() {
        return false;
    }
    for i in 0..left.len() {
        if !left[i].is_same(&right[i]) {
            return false;
        }
    }
    true
}
