//! What the tables of a program say.

ghost use Rattle.std.specs.Prelude.{◌≡◌, Some, None, IfSome, IfNone};
ghost use Rattle.object_types.specs.Values.{int};
ghost use Rattle.int_ranges.specs.Ranges.{in_range};
ghost use Rattle.method.specs.Tables.{in_type, is_volatile, is_approved, struct_of, is_claimable, has_fixed_owns};

use crate::values::number;
use int_ranges::ctype::CType;
use method::program::{DeclaredType, Program, StructInfo};
use object_types::references::{NULL, Ref};
use object_types::values::Value;
pub use spec_values::status::{read, type_of_field, zero_of};

/// The type number of claims.
pub const CLAIMS: u32 = 2;

/// The type number of threads.
pub const THREADS: u32 = 1;

/// The type number of the first struct.
const FIRST_STRUCT: u32 = 3;

/// Whether the type has the value.
#[tactic(auto, using(crate::proofs::Ranges::range_true, crate::proofs::Ranges::range_false))]
pub fn in_range(ty: CType, value: i128) -> bool
    ensures { result ≡ in_range ty value }
{
    if int_ranges::ctype::in_range(ty, value) {
        return true;
    }
    false
}

/// Whether the type has the value as a number.
pub fn has_number(ty: CType, value: Value) -> bool
    ensures { result ≡ in_range ty (int value) }
{
    in_range(ty, number(value))
}

/// Whether the value is one of the declared type.
#[tactic(auto, unfolding(method::specs::Tables::in_type))]
pub fn in_type(ty: DeclaredType, value: Value) -> bool
    ensures { result ≡ in_type ty value }
{
    match (ty, value) {
        (DeclaredType::Integer(ty), Value::Int(number)) => in_range(ty, number),
        (DeclaredType::Integer(_), Value::Ref(_)) => false,
        (DeclaredType::Pointer(_) | DeclaredType::Object | DeclaredType::Claim, Value::Int(_)) =>
            false,
        (DeclaredType::Pointer(number), Value::Ref(o)) => o.is_same(NULL) || o.ty == number,
        (DeclaredType::Object, Value::Ref(o)) => (o.ty != 0 || o.serial == 0) && o.ty != THREADS,
        (DeclaredType::Claim, Value::Ref(o)) => o.is_same(NULL) || o.ty == CLAIMS,
    }
}

/// Whether the field is volatile.
pub fn is_volatile(program: &Program, field: u32) -> bool
    ensures { result ≡ is_volatile program.now field }
{
    match program.fields.get(field as usize) {
        Some(info) => info.is_volatile,
        None => false,
    }
}

/// Whether the owner keeps its invariant where the field changes.
pub fn is_approved(program: &Program, field: u32) -> bool
    ensures { result ≡ is_approved program.now field }
{
    match program.fields.get(field as usize) {
        Some(info) => info.is_approved,
        None => false,
    }
}

/// The struct with the type number.
pub fn struct_of(program: &Program, ty: u32) -> Option<&StructInfo>
    ensures some { IfSome result (λ info. struct_of program.now ty ≡ Some info.now) }
    ensures none { IfNone result (struct_of program.now ty ≡ None) }
{
    if ty < FIRST_STRUCT {
        return None;
    }
    program.structs.get((ty - FIRST_STRUCT) as usize)
}

/// Whether claims may list objects of the type.
pub fn is_claimable(program: &Program, ty: u32) -> bool
    ensures { result ≡ is_claimable program.now ty }
{
    match struct_of(program, ty) {
        Some(info) => info.is_claimable,
        None => false,
    }
}

/// Whether each wrap fixes the owned sets of the type.
pub fn has_fixed_owns(program: &Program, ty: u32) -> bool
    ensures { result ≡ has_fixed_owns program.now ty }
{
    match struct_of(program, ty) {
        Some(info) => !info.has_dynamic_owns && !info.has_volatile_owns,
        None => false,
    }
}
