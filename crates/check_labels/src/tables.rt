//! The program's tables by number.

ghost use Rattle.std.specs.Prelude.{◌≡◌, IfSome, IfNone, Some, None, slice_get};

use method::program::{ClaimSite, FunctionInfo, Program, StructInfo};

/// The function with the number.
pub fn function_of(program: &Program, number: u32) -> Option<&FunctionInfo>
    ensures some { IfSome result (λ f. slice_get program.now.functions.items number ≡ Some f.now) }
    ensures none { IfNone result (slice_get program.now.functions.items number ≡ None) }
{
    program.functions.get(number as usize)
}

/// The struct with the number.
pub fn struct_of(program: &Program, number: u32) -> Option<&StructInfo>
    ensures some { IfSome result (λ s. slice_get program.now.structs.items number ≡ Some s.now) }
    ensures none { IfNone result (slice_get program.now.structs.items number ≡ None) }
{
    program.structs.get(number as usize)
}

/// The claim site with the number.
pub fn site_of(program: &Program, number: u32) -> Option<&ClaimSite>
    ensures some { IfSome result (λ s. slice_get program.now.sites.items number ≡ Some s.now) }
    ensures none { IfNone result (slice_get program.now.sites.items number ≡ None) }
{
    program.sites.get(number as usize)
}
