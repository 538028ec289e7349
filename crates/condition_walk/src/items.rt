//! The path of an item.

ghost use Rattle.std.specs.Prelude.{◌≡◌, ◌==◌, ◌&&◌, not, ◌∷◌, [], IfOk, IfSome, IfNone, length, slice_get};
ghost use Rattle.conditions.specs.Admissible as admissible;
ghost use Rattle.conditions.specs.Conditions.{function_conditions, item_conditions, struct_conditions};
ghost use Rattle.condition_walk.specs.Items.{WentBy};

use crate::calls::function_at;
use crate::entry::run;
use condition_claims::admissible::{reflexive, stable};
use condition_code::walk::Walk;
use method::program::{FunctionInfo, Item, Program, StructInfo};
use std::alloc::AllocError;

/// The two conditions of a type, which stand alone.
fn add_type_checks(walk: &mut Walk, ty: u32) -> Result<(), AllocError>
    ensures { IfOk result (λ u. WentBy walk.old walk.new (admissible.reflexive ty ∷ admissible.stable ty ∷ [])) }
{
    let kept = reflexive(walk.alloc, &mut walk.graph, ty)?;
    walk.standalone(kept)?;
    let unbroken = stable(walk.alloc, &mut walk.graph, ty)?;
    walk.standalone(unbroken)?;
    Ok(())
}

/// Whether the struct has no invariant, nor one of approval.
fn is_free(s: &StructInfo) -> bool
    ensures { result ≡ (length s.now.invariants.items == 0 && not s.now.has_approval) }
{
    s.invariants.is_empty() && !s.has_approval
}

/// A struct with an invariant, which may be one of approval, has two conditions; one without has none.
fn add_struct_path(walk: &mut Walk, s: &StructInfo, number: u32) -> Result<(), AllocError>
    ensures { IfOk result (λ u. WentBy walk.old walk.new (struct_conditions number (Some s.now))) }
{
    if is_free(s) {
        return Ok(());
    }
    let Some(ty) = number.checked_add(3) else {
        return Err(AllocError);
    };
    add_type_checks(walk, ty)?;
    Ok(())
}

/// The conditions of a function are those of its checks.
fn add_function_path(walk: &mut Walk, program: &Program, f: &FunctionInfo) -> Result<(), AllocError>
    ensures { IfOk result (λ u. WentBy walk.old walk.new (function_conditions program.now (Some f.now))) }
{
    let _ = run(walk, program, f)?;
    Ok(())
}

/// The struct with the number in the program's table.
fn struct_at(program: &Program, number: u32) -> Option<&StructInfo>
    ensures some { IfSome result (λ s. slice_get program.now.structs.items number ≡ Some s.now) }
    ensures none { IfNone result (slice_get program.now.structs.items number ≡ None) }
{
    program.structs.get(number as usize)
}

/// The path of the struct with this number.
fn add_struct_at(walk: &mut Walk, program: &Program, n: u32) -> Result<(), AllocError>
    ensures { IfOk result (λ u. WentBy walk.old walk.new
        (struct_conditions n (slice_get program.now.structs.items n))) }
{
    match struct_at(program, n) {
        Some(s) => {
            add_struct_path(walk, s, n)?;
            Ok(())
        }
        None => Ok(()),
    }
}

/// The path of the function with this number.
fn add_function_at(walk: &mut Walk, program: &Program, n: u32) -> Result<(), AllocError>
    ensures { IfOk result (λ u. WentBy walk.old walk.new
        (function_conditions program.now (slice_get program.now.functions.items n))) }
{
    match function_at(program, n) {
        Some(f) => {
            add_function_path(walk, program, f)?;
            Ok(())
        }
        None => Ok(()),
    }
}

/// The path of the item goes behind the walk: its conditions are those of the item.
pub fn add_item_path(walk: &mut Walk, program: &Program, item: Item) -> Result<(), AllocError>
    ensures { IfOk result (λ u. WentBy walk.old walk.new (item_conditions program.now item)) }
{
    match item {
        Item::Struct(n) => add_struct_at(walk, program, n),
        Item::Function(n) => add_function_at(walk, program, n),
    }
}
