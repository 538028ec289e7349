//! Structs, with the rules of their own.

ghost use Rattle.std.specs.Prelude.{◌≡◌, ◌++◌, ◌∷◌, [], map, IfOk, OnOk};
ghost use Rattle.c_syntax.specs.Views as view;
ghost use Rattle.typing_spec.specs.Declarations as declared;
ghost use Rattle.typing_symbols.specs.Whole.{program};
ghost use Rattle.typing_expressions.specs.Views.{maybe_broken};
ghost use Rattle.typing_program.specs.Violation as spec;
ghost use Rattle.typing_program.specs.Names.{held, field_names};

use crate::names::first_repeated;
use c_syntax::expressions::{Expr, Identifier};
use c_syntax::items::Member;
use std::alloc::{AllocError, Global};
use typing_expressions::arrows::is_volatile_field;
use typing_expressions::rule::Rule;
use typing_expressions::violations::{Violation, broken_if, earlier};
use typing_statements::structs::struct_members;
use typing_symbols::declarations::{Declarations, StructEntry};

/// Adds a member's name, if it is a field.
fn add_field<'a>(names: &mut Vec<&'a Identifier>, member: &'a Member) -> Result<(), AllocError>
    ensures { OnOk result (held names.new.items ≡ held names.old.items ++ field_names (view.member member.now ∷ [])) }
{
    match member {
        Member::Field(field) => {
            names.push(&field.name)?;
            Ok(())
        }
        Member::Invariant(_) => Ok(()),
    }
}

/// The names of the fields among members, in their order.
fn fields_of<'a>(alloc: Global, members: &'a [Member]) -> Result<Vec<&'a Identifier>, AllocError>
    ensures { IfOk result (λ v. held v.items ≡ field_names (map view.member members.now)) }
{
    let mut names: Vec<&'a Identifier> = Vec::new(alloc);
    for member in members {
        add_field(&mut names, member)?;
    }
    Ok(names)
}

/// Whether a struct with these names of fields is out of form: it has both kinds of owned sets, or no field.
fn is_out_of_form<'a>(x: &StructEntry<'a>, names: &[&'a Identifier]) -> bool
    ensures { result ≡ spec.is_out_of_form (view.struct x.now.tree.now) (held names.now) }
{
    (x.has_dynamic_owns() && x.has_volatile_owns()) || names.is_empty()
}

/// What an invariant breaks as an approval, brackets apart: the field isn't a volatile one of the struct.
fn misapproval<'a>(x: &StructEntry<'a>, property: &Expr) -> Option<Violation>
    ensures { maybe_broken result ≡ spec.misapproval (view.struct x.now.tree.now) (view.exp property.now) }
{
    match property {
        Expr::Group(_, inner) => misapproval(x, inner),
        Expr::Approves(span, name) => {
            let is_volatile = is_volatile_field(x.find_field(name));
            broken_if(!is_volatile, Rule::ApprovalForm, *span)
        }
        _ => None,
    }
}

/// What a member breaks, if it is an approval.
fn member_misapproval<'a>(x: &StructEntry<'a>, member: &Member) -> Option<Violation>
    ensures { maybe_broken result ≡ spec.misapprovals (view.struct x.now.tree.now) (view.member member.now ∷ []) }
{
    match member {
        Member::Field(_) => None,
        Member::Invariant(invariant) => misapproval(x, &invariant.property),
    }
}

/// The first of the members that are approvals of something else than a volatile field of the struct.
fn misapprovals<'a>(x: &StructEntry<'a>, members: &[Member]) -> Option<Violation>
    ensures { maybe_broken result ≡ spec.misapprovals (view.struct x.now.tree.now) (map view.member members.now) }
{
    let mut so_far: Option<Violation> = None;
    for member in members {
        so_far = earlier(so_far, member_misapproval(x, member));
    }
    so_far
}

/// The first rule of its own that a struct breaks.
fn own_breaks<'a>(alloc: Global, x: &StructEntry<'a>) -> Result<Option<Violation>, AllocError>
    ensures { IfOk result (λ b. maybe_broken b ≡ spec.struct_own (view.struct x.now.tree.now)) }
{
    let names = fields_of(alloc, &x.tree.members)?;
    let twice = first_repeated(alloc, &names)?;
    let form = broken_if(
        is_out_of_form(x, &names),
        Rule::StructForm,
        x.tree.name.span,
    );
    let approvals = misapprovals(x, &x.tree.members);
    Ok(earlier(twice, earlier(form, approvals)))
}

/// The first rule that a struct breaks, itself or in its members.
fn struct_breaks<'s, 'a>(
    alloc: Global,
    declarations: &'s Declarations<'a>,
    x: &'s StructEntry<'a>,
) -> Result<Option<Violation>, AllocError>
    ensures { IfOk result (λ b. maybe_broken b ≡ spec.struct_first (program declarations.now) (view.struct x.now.tree.now)) }
{
    let own = own_breaks(alloc, x)?;
    let members = struct_members(alloc, declarations, x);
    Ok(earlier(own, members.first))
}

/// The first rule that structs of a program break.
pub fn structs_break<'s, 'a>(
    alloc: Global,
    declarations: &'s Declarations<'a>,
    all: &'s [StructEntry<'a>],
) -> Result<Option<Violation>, AllocError>
    ensures { IfOk result (λ b. maybe_broken b ≡ spec.structs_first (program declarations.now) (map (λ s. view.struct s.tree.now) all.now)) }
{
    let mut so_far: Option<Violation> = None;
    for x in all {
        let one = struct_breaks(alloc, declarations, x)?;
        so_far = earlier(so_far, one);
    }
    Ok(so_far)
}
