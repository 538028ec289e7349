//! The fields of an object.

ghost use Rattle.std.specs.Prelude.{◌≡◌, ◌≤◌, ◌↔◌, List, [], OnOk, OnErr, IfOk, IfErr, IsTrue, length, nat_lt};
ghost use Rattle.object_types.specs.Places.{is_ordered, place, IsAt, GoesAt};
ghost use Rattle.object_types.specs.Sets.{every};
ghost use Rattle.object_types.specs.Fields.{field_of, same_field, same_kept, kept_lt, is_set, field_in, with_kept};

use crate::values::Value;
use std::alloc::{AllocError, Global};
use std::marker::Model;

/// A field that is kept, by its number, with its value.
#[derive(Clone, Copy, Debug, PartialEq, Eq)]
pub struct Kept {
    pub field: u32,
    pub value: Value,
}

impl Kept {
    /// Whether the two are one field with one value.
    fn is_same(self, other: Kept) -> bool
        ensures { result ≡ same_kept self other }
    {
        self.field == other.field && self.value.is_same(other.value)
    }
}

/// The fields that are kept; contracts see them in the order of their numbers.
#[derive(Drop)]
pub struct Fields {
    kept: Vec<Kept>,
}

impl Model for Fields {
    ghost use Rattle.std.specs.Prelude.{◌≡◌, List, true};
    ghost use Rattle.object_types.specs.declared.fields.Kept.{Kept as AKept};
    ghost use Rattle.object_types.specs.Places.{is_ordered};
    ghost use Rattle.object_types.specs.Sets.{every};
    ghost use Rattle.object_types.specs.Fields.{kept_lt, is_set};

    ghost Value = { List AKept };

    ghost view = { λ a. a.kept.items };

    ghost invariant = { λ a. (is_ordered kept_lt a.kept.items ≡ true) × (every is_set a.kept.items ≡ true) };
}

impl Fields {
    /// No field is kept.
    pub fn empty(alloc: Global) -> Fields
        ensures { result ≡ [] }
    {
        Fields {
            kept: Vec::new(alloc),
        }
    }

    /// The fields that are kept, in the order of their numbers.
    pub fn as_slice(&self) -> &[Kept]
        ensures list { result.now ≡ self.now }
        ensures ordered { IsTrue (is_ordered kept_lt result.now) }
    {
        &self.kept
    }

    /// How many kept fields are before the field.
    fn place(&self, field: u32) -> usize
        ensures place { result ≡ place (λ y. nat_lt (field_of y) field) self.now }
        ensures bound { result ≤ length self.now }
    {
        self.kept.as_slice().partition_point(
            |kept: &Kept| -> bool
                ensures { result ≡ nat_lt (field_of kept.now) field }
            { kept.field < field },
        )
    }

    /// Where the field is, or else where it would stand.
    fn find(&self, field: u32) -> Result<usize, usize>
        ensures found { IfOk result (IsAt field_of nat_lt same_field field self.now) }
        ensures absent { IfErr result (GoesAt field_of nat_lt same_field field self.now) }
    {
        let place = self.place(field);
        if place == self.kept.len() {
            return Err(place);
        }
        if self.kept[place].field == field {
            return Ok(place);
        }
        Err(place)
    }

    /// The value that is kept of the field.
    pub fn get(&self, field: u32) -> Option<Value>
        ensures { result ≡ field_in self.now field }
    {
        match self.find(field) {
            Ok(place) => Some(self.kept[place].value),
            Err(_) => None,
        }
    }

    /// Keeps the value of the field; 0 and NULL leave none kept.
    pub fn set(&mut self, field: u32, value: Value) -> Result<(), AllocError>
        ensures ok { OnOk result (self.new ≡ with_kept field value self.old) }
        ensures err { OnErr result (self.new ≡ self.old) }
        ensures ordered { IsTrue (is_ordered kept_lt self.new) }
        ensures set { IsTrue (every is_set self.new) }
    {
        match self.find(field) {
            Ok(place) => {
                if value.is_zero() {
                    self.kept.remove(place);
                    return Ok(());
                }
                self.kept[place] = Kept { field, value };
                Ok(())
            }
            Err(place) => {
                if value.is_zero() {
                    return Ok(());
                }
                self.kept.insert(place, Kept { field, value })?;
                Ok(())
            }
        }
    }

    /// The same fields once more.
    pub fn copy(&self) -> Result<Fields, AllocError>
        ensures { IfOk result (λ s. s ≡ self.now) }
    {
        Ok(Fields {
            kept: Vec::from_slice(*self.kept.allocator(), &self.kept)?,
        })
    }
}

/// Whether the two keep the same.
pub fn same_fields(left: &[Kept], right: &[Kept]) -> bool
    ensures { IsTrue result ↔ (left.now ≡ right.now) }
{
    if left.len() != right.len() {
        return false;
    }
    for i in 0..left.len() {
        if !left[i].is_same(right[i]) {
            return false;
        }
    }
    true
}
