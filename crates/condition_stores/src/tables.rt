//! What the tables of a program say of fields and types.

ghost use Rattle.std.specs.Prelude.{◌≡◌, Some, None, IfSome, IfNone};
ghost use Rattle.method.specs.Tables.{is_volatile, is_approved, struct_of};

use method::program::{Program, StructInfo};

/// The type number of the first struct.
const FIRST_STRUCT: u32 = 3;

/// Whether the field is volatile.
pub fn is_volatile(program: &Program, field: u32) -> bool
    ensures { result ≡ is_volatile program.now field }
{
    match program.fields.get(field as usize) {
        Some(info) => info.is_volatile,
        None => false,
    }
}

/// Whether the owner keeps its invariant where the field changes.
pub fn is_approved(program: &Program, field: u32) -> bool
    ensures { result ≡ is_approved program.now field }
{
    match program.fields.get(field as usize) {
        Some(info) => info.is_approved,
        None => false,
    }
}

/// The struct with the type number.
pub fn struct_of(program: &Program, ty: u32) -> Option<&StructInfo>
    ensures some { IfSome result (λ info. struct_of program.now ty ≡ Some info.now) }
    ensures none { IfNone result (struct_of program.now ty ≡ None) }
{
    if ty < FIRST_STRUCT {
        return None;
    }
    program.structs.get((ty - FIRST_STRUCT) as usize)
}
