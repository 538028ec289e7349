//! Structs, but for the rules of their own.

ghost use Rattle.std.specs.Prelude.{◌≡◌, map, flat_map};
ghost use Rattle.c_syntax.specs.Views as view;
ghost use Rattle.typing_spec.specs.Pieces as pieces;
ghost use Rattle.typing_symbols.specs.Whole.{program};
ghost use Rattle.typing_expressions.specs.Violations.{violations};
ghost use Rattle.typing_expressions.specs.Views.{context as around, findings};
ghost use Rattle.typing_statements.specs.Parts as spec;

use c_syntax::items::Member;
use std::alloc::Global;
use typing_expressions::context::{Context, InProperty, Quantified, Scope, Text};
use typing_expressions::expressions::expression;
use typing_expressions::forms::is_approval;
use typing_expressions::violations::Diagnostics;
use typing_expressions::words::type_breaks;
use typing_symbols::declarations::{Declarations, StructEntry};
use typing_symbols::variables::Variables;

/// A member of a struct; an invariant that approves a field has no pieces.
fn member<'s, 'a>(context: Context<'s, 'a>, x: &'a Member) -> Diagnostics
    ensures { findings result ≡ spec.member_found (around context.entry) (view.member x.now) }
{
    match x {
        Member::Field(field) => {
            Diagnostics::breaking(type_breaks(context.scope.declarations, &field.ty))
        }
        Member::Invariant(invariant) => {
            if is_approval(&invariant.property) {
                Diagnostics::nothing()
            } else {
                expression(context, &invariant.property).violations
            }
        }
    }
}

/// Members of a struct.
fn members<'s, 'a>(context: Context<'s, 'a>, all: &'a [Member]) -> Diagnostics
    ensures { findings result ≡ violations (flat_map (spec.in_member (around context.entry)) (map view.member all.now)) }
{
    let mut so_far = Diagnostics::nothing();
    for x in all {
        so_far = so_far.then(member(context, x));
    }
    so_far
}

/// What breaks in the members of a struct: the types of its fields, and its invariants. It takes no memory.
pub fn struct_members<'s, 'a>(
    alloc: Global,
    declarations: &'s Declarations<'a>,
    x: &'s StructEntry<'a>,
) -> Diagnostics
    ensures { findings result ≡ violations (flat_map (pieces.member (program declarations.now) (view.struct x.now.tree.now)) (map view.member x.now.tree.now.members.items)) }
{
    let variables = Variables::new(alloc);
    let none = Quantified::Nothing;
    let context = Context {
        scope: Scope {
            declarations,
            variables: &variables,
            quantified: &none,
            this: Some(x),
            result_type: None,
        },
        value: None,
        text: Text::TypeInvariant,
        property: InProperty::Outside,
        in_old: false,
        in_atomic: false,
        in_unwrapping: false,
    };
    members(context, &x.tree.members)
}
