//! Values: what variables and fields hold.

ghost use Rattle.std.specs.Prelude.{◌≡◌, List, IfOk, OnOk, length};
ghost use Rattle.object_types.specs.Values.{is_zero, same_value, value_lt, same_values, values_lt};
ghost use Rattle.object_types.specs.declared.values.Value.{Value as AValue};

use crate::references::{NULL, Ref};
use std::alloc::{AllocError, Global};
use std::marker::Model;

/// What a variable or a field holds.
#[derive(Clone, Copy, Debug, PartialEq, Eq)]
pub enum Value {
    Int(i128),
    Ref(Ref),
}

impl Value {
    /// Whether this is 0 or NULL.
    pub fn is_zero(self) -> bool
        ensures { result ≡ is_zero self }
    {
        match self {
            Value::Int(number) => number == 0,
            Value::Ref(reference) => reference.is_same(NULL),
        }
    }

    /// Whether the two are one value.
    pub fn is_same(self, other: Value) -> bool
        ensures { result ≡ same_value self other }
    {
        match (self, other) {
            (Value::Int(a), Value::Int(b)) => a == b,
            (Value::Ref(a), Value::Ref(b)) => a.is_same(b),
            _ => false,
        }
    }

    /// Whether this is before the other in value order.
    pub fn is_before(self, other: Value) -> bool
        ensures { result ≡ value_lt self other }
    {
        match (self, other) {
            (Value::Int(a), Value::Int(b)) => a < b,
            (Value::Ref(a), Value::Ref(b)) => a.is_before(b),
            (Value::Int(_), Value::Ref(_)) => true,
            (Value::Ref(_), Value::Int(_)) => false,
        }
    }
}

/// A row of values; contracts see the list.
#[derive(Drop)]
pub struct Values {
    items: Vec<Value>,
}

impl Model for Values {
    ghost use Rattle.std.specs.Prelude.{List};
    ghost use Rattle.object_types.specs.declared.values.Value.{Value as AValue};

    ghost Value = { List AValue };

    ghost view = { λ a. a.items.items };
}

impl Values {
    /// The row of these values.
    pub fn from_slice(alloc: Global, items: &[Value]) -> Result<Values, AllocError>
        ensures { IfOk result (λ v. v ≡ items.now) }
    {
        Ok(Values {
            items: Vec::from_slice(alloc, items)?,
        })
    }

    /// The values, first to last.
    pub fn as_slice(&self) -> &[Value]
        ensures { result.now ≡ self.now }
    {
        &self.items
    }

    /// The same row once more.
    pub fn copy(&self) -> Result<Values, AllocError>
        ensures { IfOk result (λ v. v ≡ self.now) }
    {
        Values::from_slice(*self.items.allocator(), &self.items)
    }

    /// Whether the two are one row.
    pub fn is_same(&self, other: &[Value]) -> bool
        ensures { result ≡ same_values self.now other.now }
    {
        same_rows(&self.items, other)
    }

    /// Whether this row is before the other.
    pub fn is_before(&self, other: &[Value]) -> bool
        ensures { result ≡ values_lt self.now other.now }
    {
        row_before(&self.items, other)
    }
}

/// Whether the two rows are one.
fn same_rows(left: &[Value], right: &[Value]) -> bool
    ensures { result ≡ same_values left.now right.now }
{
    let mut i = 0;
    while i < left.len() && i < right.len() {
        if !left[i].is_same(right[i]) {
            return false;
        }
        i += 1;
    }
    left.len() == right.len()
}

/// Whether the one row is before the other.
fn row_before(left: &[Value], right: &[Value]) -> bool
    ensures { result ≡ values_lt left.now right.now }
{
    let mut i = 0;
    while i < left.len() && i < right.len() {
        if !left[i].is_same(right[i]) {
            return left[i].is_before(right[i]);
        }
        i += 1;
    }
    left.len() < right.len()
}
