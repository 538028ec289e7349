//! What a program's table of structs says.

ghost use Rattle.std.specs.Prelude.{◌≡◌, IfSome, IfNone};
ghost use Rattle.method.specs.Tables.{struct_of, has_fixed_owns};

use method::program::{Program, StructInfo};

/// The type number of the first struct.
const FIRST_STRUCT: u32 = 3;

/// The struct with the type number.
fn struct_of(program: &Program, ty: u32) -> Option<&StructInfo>
    ensures some { IfSome result (λ info. struct_of program.now ty ≡ Some info.now) }
    ensures none { IfNone result (struct_of program.now ty ≡ None) }
{
    if ty < FIRST_STRUCT {
        return None;
    }
    program.structs.get((ty - FIRST_STRUCT) as usize)
}

/// Whether each wrap fixes the owned sets of the type.
pub fn has_fixed_owns(program: &Program, ty: u32) -> bool
    ensures { result ≡ has_fixed_owns program.now ty }
{
    match struct_of(program, ty) {
        Some(info) => !info.has_dynamic_owns && !info.has_volatile_owns,
        None => false,
    }
}
