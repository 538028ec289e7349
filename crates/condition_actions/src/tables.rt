//! What the tables of a program and of a function say.

ghost use Rattle.std.specs.Prelude.{◌≡◌, IfSome, IfNone, slice_get};
ghost use Rattle.method.specs.Tables.{struct_of, has_fixed_owns, type_of_variable};

use method::program::{DeclaredType, FunctionInfo, Program, StructInfo};

/// The type number of the first struct.
const FIRST_STRUCT: u32 = 3;

/// The struct with the type number.
pub fn struct_of(program: &Program, ty: u32) -> Option<&StructInfo>
    ensures some { IfSome result (λ info. struct_of program.now ty ≡ Some info.now) }
    ensures none { IfNone result (struct_of program.now ty ≡ None) }
{
    if ty < FIRST_STRUCT {
        return None;
    }
    program.structs.get((ty - FIRST_STRUCT) as usize)
}

/// Whether each wrap fixes the owned sets of the type.
pub fn has_fixed_owns(program: &Program, ty: u32) -> bool
    ensures { result ≡ has_fixed_owns program.now ty }
{
    match struct_of(program, ty) {
        Some(info) => !info.has_dynamic_owns && !info.has_volatile_owns,
        None => false,
    }
}

/// The declared type of the function's variable.
pub fn type_of_variable(function: &FunctionInfo, variable: u32) -> DeclaredType
    ensures { result ≡ type_of_variable function.now variable }
{
    match function.variables.get(variable as usize) {
        Some(info) => info.ty,
        None => DeclaredType::Object,
    }
}

/// The function with the number in the program's table.
pub fn function_at(program: &Program, number: u32) -> Option<&FunctionInfo>
    ensures some { IfSome result (λ info. slice_get program.now.functions.items number ≡ Some info.now) }
    ensures none { IfNone result (slice_get program.now.functions.items number ≡ None) }
{
    program.functions.get(number as usize)
}
