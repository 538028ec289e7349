//! Places that are assigned to: fields and variables.

ghost use Rattle.std.specs.Prelude.{◌≡◌, IfOk};
ghost use Rattle.std.specs.Option.{option_map};
ghost use Rattle.c_syntax.specs.Views as view;
ghost use Rattle.typing_spec.specs.Types as types;
ghost use Rattle.typing_spec.specs.Values.{field_named as field_meant};
ghost use Rattle.elab_code.specs.Views.{around as here};
ghost use Rattle.typing_expressions.specs.Views.{maybe_kind};
ghost use Rattle.typed_program.specs.Codes as codes;
ghost use Rattle.typed_program.specs.Numbers as numbers;
ghost use Rattle.typed_program.specs.Statements as spec;
ghost use Rattle.typed_program.specs.Trees as built;
ghost use Rattle.typed_program.specs.Views as seen;

use crate::values::code;
use c_syntax::expressions::{Expr as Tree, Identifier, ValueType};
use c_syntax::items::FieldDeclaration;
use elab_code::around::Around;
use elab_code::numbers::{field_of_kind, number};
use method::program::{Expr, Target};
use std::alloc::{AllocError, Global};
use typing_expressions::arrows::field_found;
use typing_expressions::expressions::expression;
use typing_expressions::kinds::Kind;
use typing_expressions::lookups::type_of_name;

/// What kind an expression has, if that is known.
pub fn kind_at<'s, 'a>(around: Around<'s, 'a>, x: &'a Tree) -> Option<Kind<'s, 'a>>
    ensures { maybe_kind result ≡ types.kind (here around.entry).context.scope (view.exp x.now) }
{
    let judged = expression(around.context, x);
    judged.kind
}

/// The number of a field of what an expression points to.
pub fn field_at<'s, 'a>(
    around: Around<'s, 'a>,
    x: &'a Tree,
    name: &Identifier,
) -> Result<u32, AllocError>
    ensures { IfOk result (λ n. n ≡ numbers.field_at (here around.entry) (view.exp x.now) (view.id name.now)) }
{
    let n = field_of_kind(around.context.scope.declarations, kind_at(around, x), name)?;
    Ok(n)
}

/// The field that an expression names, if it is one that is known.
fn field_named<'s, 'a>(around: Around<'s, 'a>, x: &'a Tree) -> Option<&'a FieldDeclaration>
    ensures { option_map (λ f. view.field f.now) result ≡ field_meant (here around.entry).context.scope (view.exp x.now) }
{
    match x {
        Tree::Field(_, owner, name) => field_found(kind_at(around, owner), name),
        _ => None,
    }
}

/// The declared type of a field, if there is one.
fn type_of_field<'a>(field: Option<&'a FieldDeclaration>) -> Option<&'a ValueType>
    ensures { option_map (λ t. view.ty t.now) result ≡ option_map (λ f. f.ty) (option_map (λ f. view.field f.now) field.entry) }
{
    match field {
        None => None,
        Some(declared) => Some(&declared.ty),
    }
}

/// The type of what stands left of `=`, if that is declared.
pub fn left_type<'s, 'a>(around: Around<'s, 'a>, x: &'a Tree) -> Option<&'a ValueType>
    ensures { spec.type_or (option_map (λ t. view.ty t.now) result) ≡ spec.left_type (here around.entry).context.scope (view.exp x.now) }
{
    match x {
        Tree::Name(name) => type_of_name(around.context.scope, name),
        _ => type_of_field(field_named(around, x)),
    }
}

/// A variable as a place.
fn local(code: Expr) -> Target
    ensures { seen.target result ≡ spec.local (seen.code code) }
{
    match code {
        Expr::Variable(number) => Target::Local(number),
        _ => Target::Local(0),
    }
}

/// A field of what an expression points to, as a place.
fn field_target<'s, 'a>(
    alloc: Global,
    around: Around<'s, 'a>,
    owner: &'a Tree,
    name: &Identifier,
) -> Result<Target, AllocError>
    ensures { IfOk result (λ v. seen.target v ≡ built.FieldOf (codes.code (here around.entry) (view.exp owner.now)) (numbers.field_at (here around.entry) (view.exp owner.now) (view.id name.now))) }
{
    let number = field_at(around, owner, name)?;
    let value = code(alloc, around, owner)?;
    Ok(Target::FieldOf(value, number))
}

/// What stands left of `=`.
pub fn target<'s, 'a>(
    alloc: Global,
    around: Around<'s, 'a>,
    x: &'a Tree,
) -> Result<Target, AllocError>
    ensures { IfOk result (λ v. seen.target v ≡ spec.target (here around.entry) (view.exp x.now)) }
{
    match x {
        Tree::Field(_, owner, name) => field_target(alloc, around, owner, name),
        _ => {
            let value = code(alloc, around, x)?;
            Ok(local(value))
        }
    }
}

/// The number of a variable that is declared here.
pub fn variable<'s, 'a>(around: Around<'s, 'a>, x: &Identifier) -> Result<u32, AllocError>
    ensures { IfOk result (λ n. n ≡ spec.variable (here around.entry) (view.id x.now)) }
{
    let n = number(around.places.place(x))?;
    Ok(n)
}
