//! Owner approval: which fields of a struct its invariants approve.

ghost use Rattle.std.specs.Prelude.{◌≡◌};
ghost use Rattle.std.specs.List.{list_any};
ghost use Rattle.c_syntax.specs.Views as view;
ghost use Rattle.typing_spec.specs.Declarations as spec;

use c_syntax::expressions::Identifier;
use c_syntax::items::{Member, Struct};
use typing_expressions::forms::{approved_field, is_approval, same_name};

/// Whether a member is an invariant that approves the field of this name.
fn approves_field(name: &Identifier, x: &Member) -> bool
    ensures { result ≡ spec.approves_field (view.id name.now) (view.member x.now) }
{
    match x {
        Member::Field(_) => false,
        Member::Invariant(invariant) => match approved_field(&invariant.property) {
            Some(field) => same_name(name, field),
            None => false,
        },
    }
}

/// Whether a member is an approval.
fn member_is_approval(x: &Member) -> bool
    ensures { result ≡ spec.member_is_approval (view.member x.now) }
{
    match x {
        Member::Field(_) => false,
        Member::Invariant(invariant) => is_approval(&invariant.property),
    }
}

/// Whether one of the members approves the field of this name.
fn any_approves(name: &Identifier, all: &[Member]) -> bool
    ensures { result ≡ list_any (λ x. spec.approves_field (view.id name.now) (view.member x)) all.now }
{
    all.iter().any(|x| approves_field(name, x))
}

/// Whether one of the members is an approval.
fn any_approval(all: &[Member]) -> bool
    ensures { result ≡ list_any (λ x. spec.member_is_approval (view.member x)) all.now }
{
    all.iter().any(|x| member_is_approval(x))
}

/// Whether the struct approves its field of this name.
pub fn is_approved(owner: &Struct, name: &Identifier) -> bool
    ensures { result ≡ spec.is_approved (view.struct owner.now) (view.id name.now) }
{
    any_approves(name, &owner.members)
}

/// Whether the struct approves a field.
pub fn has_approval(owner: &Struct) -> bool
    ensures { result ≡ spec.has_approval (view.struct owner.now) }
{
    any_approval(&owner.members)
}
