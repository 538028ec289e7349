//! The numbers that names stand for. A number that leaves 32 bits is answered as want of memory.

ghost use Rattle.std.specs.Prelude.{◌≡◌, ◌+◌, IfOk, None, position};
ghost use Rattle.c_syntax.specs.Views as view;
ghost use Rattle.typing_spec.specs.Declarations.{same_name};
ghost use Rattle.typing_symbols.specs.Whole.{program};
ghost use Rattle.typing_expressions.specs.Views.{maybe_kind, quantified};
ghost use Rattle.typed_program.specs.Numbers as spec;
ghost use Rattle.elab_code.specs.Views.{around, meaning as seen};

use crate::around::{Around, Meaning};
use c_syntax::expressions::{Identifier, ValueType};
use method::program::DeclaredType;
use std::alloc::AllocError;
use typing_expressions::context::Quantified;
use typing_expressions::forms::same_name;
use typing_expressions::kinds::Kind;
use typing_symbols::declarations::{Declarations, StructEntry};

/// A place as a number.
pub fn number(place: usize) -> Result<u32, AllocError>
    ensures { IfOk result (λ n. n ≡ place) }
{
    match u32::try_from(place) {
        Ok(n) => Ok(n),
        Err(_) => Err(AllocError),
    }
}

/// The sum of two places as a number.
pub fn sum(left: usize, right: usize) -> Result<u32, AllocError>
    ensures { IfOk result (λ n. n ≡ left + right) }
{
    match left.checked_add(right) {
        Some(place) => number(place),
        None => Err(AllocError),
    }
}

/// The type number of a struct.
pub fn struct_number(declarations: &Declarations<'_>, name: &Identifier) -> Result<u32, AllocError>
    ensures { IfOk result (λ n. n ≡ spec.struct_number (program declarations.now) (view.id name.now)) }
{
    let place = declarations.struct_place(name).unwrap_or(0);
    sum(3, place)
}

/// The number of a function.
pub fn function_number(
    declarations: &Declarations<'_>,
    name: &Identifier,
) -> Result<u32, AllocError>
    ensures { IfOk result (λ n. n ≡ spec.function_number (program declarations.now) (view.id name.now)) }
{
    let place = declarations.function_place(name).unwrap_or(0);
    number(place)
}

/// The number of a struct's field.
pub fn field_number(
    declarations: &Declarations<'_>,
    entry: &StructEntry<'_>,
    name: &Identifier,
) -> Result<u32, AllocError>
    ensures { IfOk result (λ n. n ≡ spec.field_number (program declarations.now) (view.struct entry.now.tree.now) (view.id name.now)) }
{
    let before = declarations.fields_before(&entry.tree.name).unwrap_or(0);
    let place = entry.field_place(name).unwrap_or(0);
    sum(before, place)
}

/// A declared type, with the number of its struct.
pub fn declared_type(
    declarations: &Declarations<'_>,
    ty: &ValueType,
) -> Result<DeclaredType, AllocError>
    ensures { IfOk result (λ d. d ≡ spec.declared_type (program declarations.now) (view.ty ty.now)) }
{
    match ty {
        ValueType::Integer(integer) => Ok(DeclaredType::Integer(*integer)),
        ValueType::Pointer(name) => {
            let n = struct_number(declarations, name)?;
            Ok(DeclaredType::Pointer(n))
        }
        ValueType::Object => Ok(DeclaredType::Object),
        ValueType::Claim => Ok(DeclaredType::Claim),
    }
}

/// The number of a field of what has this kind; 0 where that has no fields.
pub fn field_of_kind<'s, 'a>(
    declarations: &Declarations<'a>,
    owner: Option<Kind<'s, 'a>>,
    name: &Identifier,
) -> Result<u32, AllocError>
    ensures { IfOk result (λ n. n ≡ spec.field_of_kind (program declarations.now) (maybe_kind owner.entry) (view.id name.now)) }
{
    match owner {
        Some(Kind::Pointer(entry)) => field_number(declarations, entry, name),
        _ => Ok(0),
    }
}

/// The type number of the struct that a value of this kind points to; 0 where it points to none.
pub fn struct_of_kind<'s, 'a>(
    declarations: &Declarations<'a>,
    owner: Option<Kind<'s, 'a>>,
) -> Result<u32, AllocError>
    ensures { IfOk result (λ n. n ≡ spec.struct_of_kind (program declarations.now) (maybe_kind owner.entry)) }
{
    match owner {
        Some(Kind::Pointer(entry)) => struct_number(declarations, &entry.tree.name),
        _ => Ok(0),
    }
}

/// The place of a quantifier's variable with this name, 0 being the innermost.
fn quantified_place(all: &Quantified<'_, '_>, name: &Identifier) -> Result<Option<u32>, AllocError>
    ensures { IfOk result (λ o. o ≡ position (λ v. same_name v.name (view.id name.now)) (quantified all.now)) }
{
    let mut rest = all;
    let mut place = 0u32;
    while let Quantified::Variable(_, variable, outer) = rest {
        if same_name(variable, name) {
            return Ok(Some(place));
        }
        rest = outer;
        let Some(next) = place.checked_add(1) else {
            return Err(AllocError);
        };
        place = next;
    }
    Ok(None)
}

/// The number of a field of `\this`; 0 where there is none.
fn own_field(around_text: Around<'_, '_>, name: &Identifier) -> Result<u32, AllocError>
    ensures { IfOk result (λ n. n ≡ spec.own_field (around around_text.entry).context.scope.items (around around_text.entry).context.scope.this (view.id name.now)) }
{
    let scope = around_text.context.scope;
    match scope.this {
        Some(entry) => field_number(scope.declarations, entry, name),
        None => Ok(0),
    }
}

/// What a bare name is, where it is no quantifier's variable.
fn unquantified(around_text: Around<'_, '_>, name: &Identifier) -> Result<Meaning, AllocError>
    ensures { IfOk result (λ m. None ≡ position (λ v. same_name v.name (view.id name.now)) (quantified around_text.entry.context.scope.quantified.now) → seen m ≡ spec.meaning (around around_text.entry) (view.id name.now)) }
{
    let scope = around_text.context.scope;
    if scope.variables.find(name).is_some() {
        let n = number(around_text.places.place(name))?;
        return Ok(Meaning::OfFunction(n));
    }
    let n = own_field(around_text, name)?;
    Ok(Meaning::OwnField(n))
}

/// What a bare name is.
pub fn meaning(around_text: Around<'_, '_>, name: &Identifier) -> Result<Meaning, AllocError>
    ensures { IfOk result (λ m. seen m ≡ spec.meaning (around around_text.entry) (view.id name.now)) }
{
    let bound = quantified_place(around_text.context.scope.quantified, name)?;
    match bound {
        Some(place) => Ok(Meaning::OfQuantifier(place)),
        None => unquantified(around_text, name),
    }
}
