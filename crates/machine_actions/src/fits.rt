//! The choices that an event must carry for an action.

ghost use Rattle.std.specs.Prelude.{◌≡◌, slice_get};
ghost use Rattle.method.specs.Tables.{in_type, type_of_field};
ghost use Rattle.method.specs.Actions.{fields_fit, malloc_fits, right_fits, simple_fits, one_fits, action_fits};

use machine_values::tables::{in_type, struct_of};
use method::program::{Action, DeclaredType, Program, RightSide, Simple};
use object_types::values::Value;

/// Whether the field's type has the value; a number that is none of the table's counts as a field of type `\object`.
fn field_fits(program: &Program, field: usize, value: Value) -> bool
    ensures { result ≡ in_type (type_of_field program.now field) value }
{
    match program.fields.get(field) {
        Some(info) => in_type(info.ty, value),
        None => in_type(DeclaredType::Object, value),
    }
}

/// Whether the values are those of this many fields from the first on, each in its type.
#[tactic(auto, using(crate::proofs::Fields::fields_next, crate::proofs::Fields::fields_stop, crate::proofs::Fields::fields_end, crate::proofs::Fields::fields_apart))]
fn fields_fit(program: &Program, first: u32, fields: u32, values: &[Value]) -> bool
    ensures { result ≡ fields_fit program.now first fields values.now }
{
    if values.len() != fields as usize {
        return false;
    }
    let mut field = first as usize;
    for value in values {
        if !field_fits(program, field, *value) {
            return false;
        }
        field += 1;
    }
    true
}

/// Whether the choices are those of a malloc: 0 for NULL, or 1 and a value for each field of the struct.
fn malloc_fits(program: &Program, ty: u32, values: &[Value]) -> bool
    ensures { result ≡ malloc_fits program.now ty values.now }
{
    let Some((choice, contents)) = values.split_first() else {
        return false;
    };
    if choice.is_same(Value::Int(0)) {
        return contents.is_empty();
    }
    if !choice.is_same(Value::Int(1)) {
        return false;
    }
    match struct_of(program, ty) {
        Some(info) => fields_fit(program, info.first_field, info.fields, contents),
        None => false,
    }
}

/// Whether the choices are those of a right side: for a malloc its own, for anything else none.
fn right_fits(program: &Program, right: &RightSide, values: &[Value]) -> bool
    ensures { result ≡ right_fits program.now right.now values.now }
{
    match right {
        RightSide::Malloc(ty) => malloc_fits(program, *ty, values),
        RightSide::Compute(_) | RightSide::NewClaim(_) | RightSide::Interlocked(_, _, _, _) => {
            values.is_empty()
        }
    }
}

/// Whether the choices are those of a statement: of an assignment those of its right side, of another none.
fn simple_fits(program: &Program, simple: &Simple, values: &[Value]) -> bool
    ensures { result ≡ simple_fits program.now simple.now values.now }
{
    match simple {
        Simple::Assign(_, right) => right_fits(program, right, values),
        Simple::ChangeOwned(_, _, _) | Simple::EndClaim(_, _, _) => values.is_empty(),
    }
}

/// Whether the choices are one value of the variable's type.
fn one_fits(program: &Program, function: u32, i: u32, values: &[Value]) -> bool
    ensures { result ≡ one_fits (slice_get program.now.functions.items function) i values.now }
{
    let [value] = values else {
        return false;
    };
    let Some(info) = program.functions.get(function as usize) else {
        return false;
    };
    match info.variables.get(i as usize) {
        Some(variable) => in_type(variable.ty, *value),
        None => in_type(DeclaredType::Object, *value),
    }
}

/// Whether the choices are those of the action in a run of the function.
pub fn action_fits(program: &Program, function: u32, action: &Action, values: &[Value]) -> bool
    ensures { result ≡ action_fits program.now function action.now values.now }
{
    match action {
        Action::Simply(simple) => simple_fits(program, simple, values),
        Action::Declare(i) => one_fits(program, function, *i, values),
        Action::Define(_, right) => right_fits(program, right, values),
        Action::WrapObject(_, _, _)
        | Action::UnwrapObject(_)
        | Action::AssertSpec(_)
        | Action::FreeObject(_)
        | Action::SpawnThread(_, _)
        | Action::Atomic(_, _) => values.is_empty(),
    }
}
