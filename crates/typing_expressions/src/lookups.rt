//! What names stand for.

ghost use Rattle.std.specs.Prelude.{◌≡◌, true, not, is_some, find};
ghost use Rattle.std.specs.Option.{option_map};
ghost use Rattle.c_syntax.specs.Views as view;
ghost use Rattle.typing_spec.specs.Declarations as declared;
ghost use Rattle.typing_spec.specs.Types as types;
ghost use Rattle.typing_symbols.specs.Whole.{program};
ghost use Rattle.typing_symbols.specs.Scopes.{variable};
ghost use Rattle.typing_expressions.specs.Views.{kind, maybe_kind, quantified, scope};

use crate::context::{Quantified, Scope};
use crate::forms::same_name;
use crate::kinds::Kind;
use c_syntax::expressions::{Identifier, ValueType};
use c_syntax::items::FieldDeclaration;
use typing_symbols::declarations::Declarations;
use typing_symbols::variables::Variable;

/// What a value of a declared type is; none where the type names a struct that isn't declared.
pub fn kind_of<'s, 'a>(declarations: &'s Declarations<'a>, ty: &ValueType) -> Option<Kind<'s, 'a>>
    ensures { maybe_kind result ≡ types.kind_of (program declarations.now) (view.ty ty.now) }
{
    match ty {
        ValueType::Integer(_) => Some(Kind::Integer),
        ValueType::Pointer(name) => Some(Kind::Pointer(declarations.find_struct(name)?)),
        ValueType::Object => Some(Kind::Object),
        ValueType::Claim => Some(Kind::Claim),
    }
}

/// The field with this name of what has this kind.
pub fn field_of<'s, 'a>(owner: Kind<'s, 'a>, name: &Identifier) -> Option<&'a FieldDeclaration>
    ensures { option_map (λ f. view.field f.now) result ≡ types.field_of (kind owner.entry) (view.id name.now) }
{
    match owner {
        Kind::Pointer(entry) => entry.find_field(name),
        _ => None,
    }
}

/// The innermost variable of a quantifier with this name.
fn find_quantified<'q, 'a>(
    all: &'q Quantified<'q, 'a>,
    name: &Identifier,
) -> Option<(&'a ValueType, &'a Identifier)>
    ensures { option_map (λ v. record { name = view.id v.1.now; ty = view.ty v.0.now; is_ghost = true }) result ≡ find (λ v. declared.same_name v.name (view.id name.now)) (quantified all.now) }
{
    match all {
        Quantified::Nothing => None,
        Quantified::Variable(ty, variable, outer) => {
            if same_name(variable, name) {
                Some((*ty, *variable))
            } else {
                find_quantified(outer, name)
            }
        }
    }
}

/// The innermost variable with this name: of a quantifier, or of the function.
#[tactic(auto, using(crate::proofs::Rows::find_both))]
pub fn find_variable<'s, 'a>(within: Scope<'s, 'a>, name: &Identifier) -> Option<Variable<'a>>
    ensures { option_map variable result ≡ types.find_variable (scope within.entry) (view.id name.now) }
{
    match find_quantified(within.quantified, name) {
        Some((ty, variable)) => Some(Variable {
            name: variable,
            ty,
            is_ghost: true,
        }),
        None => within.variables.find(name),
    }
}

/// In an invariant, the type of the field of `\this` with this name.
fn own_field_type<'s, 'a>(within: Scope<'s, 'a>, name: &Identifier) -> Option<&'a ValueType>
    ensures { option_map (λ t. view.ty t.now) result ≡ option_map (λ f. f.ty) (types.find_own_field (scope within.entry) (view.id name.now)) }
{
    let entry = within.this?;
    let field = entry.find_field(name)?;
    Some(&field.ty)
}

/// The type of what a bare name stands for: a variable, or in an invariant a field of `\this`.
pub fn type_of_name<'s, 'a>(within: Scope<'s, 'a>, name: &Identifier) -> Option<&'a ValueType>
    ensures { option_map (λ t. view.ty t.now) result ≡ types.type_of_name (scope within.entry) (view.id name.now) }
{
    match find_variable(within, name) {
        Some(known) => Some(known.ty),
        None => own_field_type(within, name),
    }
}

/// Whether no struct has this name.
pub fn is_no_struct<'s, 'a>(declarations: &'s Declarations<'a>, name: &Identifier) -> bool
    ensures { result ≡ not (is_some (declared.find_struct (program declarations.now) (view.id name.now))) }
{
    declarations.find_struct(name).is_none()
}
