//! Values as references, numbers and truth values.

ghost use Rattle.std.specs.Prelude.{◌≡◌};
ghost use Rattle.object_types.specs.Values.{int, referent, says, truth};
ghost use Rattle.object_types.specs.declared.values.Value.TheVariants.{Int};
ghost use Rattle.method.specs.Tables.{local};

use object_types::references::{NULL, Ref};
use object_types::values::Value;

/// The value as a reference.
pub fn referent(value: Value) -> Ref
    ensures { result ≡ referent value }
{
    match value {
        Value::Int(_) => NULL,
        Value::Ref(reference) => reference,
    }
}

/// The value as a number.
pub fn number(value: Value) -> i128
    ensures { result ≡ int value }
{
    match value {
        Value::Int(number) => number,
        Value::Ref(_) => 0,
    }
}

/// Whether the value is true.
pub fn is_true(value: Value) -> bool
    ensures { result ≡ truth value }
{
    !value.is_zero()
}

/// A truth value as a number.
pub fn says(holds: bool) -> Value
    ensures { result ≡ says holds }
{
    if holds { Value::Int(1) } else { Value::Int(0) }
}

/// The value of a variable.
pub fn local(values: &[Value], i: u32) -> Value
    ensures { result ≡ local values.now i }
{
    match values.get(i as usize) {
        Some(value) => *value,
        None => Value::Int(0),
    }
}
