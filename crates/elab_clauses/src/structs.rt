//! Structs.

ghost use Rattle.std.specs.Prelude.{◌≡◌, ◌+◌, ◌++◌, [], length, map, IfOk, OnOk};
ghost use Rattle.c_syntax.specs.Views as view;
ghost use Rattle.typing_spec.specs.Declarations.{fields};
ghost use Rattle.elab_code.specs.Names.{texts};
ghost use Rattle.elab_code.specs.Views.{around as here};
ghost use Rattle.typing_symbols.specs.Scopes.{known};
ghost use Rattle.typing_symbols.specs.Whole.{program};
ghost use Rattle.typing_expressions.specs.Views.{quantified};
ghost use Rattle.elab_annotations.specs.Views.{row_of};
ghost use Rattle.elab_clauses.specs.Numberings.{numbering as shaped};
ghost use Rattle.typed_program.specs.Annotations as annotations;
ghost use Rattle.elab_shapes.specs.Views.{sorts as sorts_seen};
ghost use Rattle.elab_clauses.specs.Members as members;
ghost use Rattle.typed_program.specs.Numbers.{fields_before};
ghost use Rattle.typed_program.specs.Shapes.{numbered as with_shapes};
ghost use Rattle.typed_program.specs.Tables as tables;
ghost use Rattle.typed_program.specs.Views as seen;
ghost use Rattle.elab_clauses.specs.Typing as spec;

use crate::approvals::has_approval;
use crate::fields::text;
use crate::numbering::{Numbering, said};
use c_syntax::items::Member;
use elab_annotations::annotations::mine;
use elab_annotations::counts::next_formula;
use elab_annotations::rows::Row as Annotations;
use elab_code::around::Around;
use elab_code::numbers::number;
use elab_code::places::Places;
use elab_shapes::numbered::numbered;
use elab_shapes::sorts::Sorts;
use method::program::{Shape, Sort, Spec, StructInfo};
use std::alloc::{AllocError, Global};
use typing_expressions::context::{Context, InProperty, Quantified, Scope, Text};
use typing_expressions::forms::is_approval;
use typing_symbols::declarations::{Declarations, StructEntry};
use typing_symbols::variables::Variables;

/// What stands around a struct's invariants.
pub fn around_struct<'v, 'a>(
    declarations: &'v Declarations<'a>,
    entry: &'v StructEntry<'a>,
    variables: &'v Variables<'a>,
    none: &'v Quantified<'v, 'a>,
    places: &'v Places<'a>,
) -> Around<'v, 'a>
    requires no_variable { known variables.now ≡ [] }
    requires no_quantifier { quantified none.now ≡ [] }
    requires no_name { texts places.now.names.items ≡ [] }
    ensures { here result ≡ tables.around_struct (program declarations.now) (view.struct entry.now.tree.now) }
{
    Around {
        context: Context {
            scope: Scope {
                declarations,
                variables,
                quantified: none,
                this: Some(entry),
                result_type: None,
            },
            value: None,
            text: Text::TypeInvariant,
            property: InProperty::Outside,
            in_old: false,
            in_atomic: false,
            in_unwrapping: false,
        },
        places,
    }
}

/// A struct's invariants, with the one of a member; an approval is none.
fn with_member<'s, 'a>(
    alloc: Global,
    around: Around<'s, 'a>,
    numbering: Numbering<'_>,
    so_far: Annotations,
    x: &'a Member,
) -> Result<Annotations, AllocError>
    ensures { IfOk result (λ r. row_of r ≡ members.with_member (shaped numbering.entry) (here around.entry) (row_of so_far) (view.member x.now)) }
{
    match x {
        Member::Field(_) => Ok(so_far),
        Member::Invariant(invariant) => {
            if is_approval(&invariant.property) {
                return Ok(so_far);
            }
            let one = said(alloc, around, numbering, so_far.next, &invariant.property)?;
            let more = so_far.with(one)?;
            Ok(more)
        }
    }
}

/// A struct's invariants, of which the first quantified formula has this number.
fn invariants<'s, 'a>(
    alloc: Global,
    around: Around<'s, 'a>,
    numbering: Numbering<'_>,
    first: u32,
    members: &'a [Member],
) -> Result<Annotations, AllocError>
    ensures { IfOk result (λ r. row_of r ≡ spec.struct_invariants (shaped numbering.entry) (here around.entry) first (tables.invariants_of (map view.member members.now))) }
{
    let mut so_far = Annotations::nothing(alloc, first);
    for x in members {
        so_far = with_member(alloc, around, numbering, so_far, x)?;
    }
    Ok(so_far)
}

/// Adds annotations with numbered shapes.
fn add_numbered(
    alloc: Global,
    numbering: Numbering<'_>,
    all: &[Spec],
    so_far: &mut Vec<Spec>,
) -> Result<(), AllocError>
    ensures { OnOk result (seen.specs so_far.new.items ≡ seen.specs so_far.old.items ++ map (with_shapes (shaped numbering.entry).shapes (shaped numbering.entry).sorts) (seen.specs all.now)) }
{
    for x in all {
        let one = numbered(alloc, numbering.shapes, numbering.sorts, x)?;
        so_far.push(one)?;
    }
    Ok(())
}

/// Adds the arguments of the `\mine` conjuncts at the top of a member.
fn add_mine<'s, 'a>(
    alloc: Global,
    around: Around<'s, 'a>,
    numbering: Numbering<'_>,
    first: u32,
    x: &'a Member,
    so_far: &mut Vec<Spec>,
) -> Result<(), AllocError>
    ensures { OnOk result (seen.specs so_far.new.items ≡ seen.specs so_far.old.items ++ map (with_shapes (shaped numbering.entry).shapes (shaped numbering.entry).sorts) (members.member_mine (here around.entry) first (view.member x.now))) }
{
    match x {
        Member::Field(_) => Ok(()),
        Member::Invariant(invariant) => {
            if is_approval(&invariant.property) {
                return Ok(());
            }
            let owned = mine(alloc, around, first, &invariant.property)?;
            add_numbered(alloc, numbering, &owned, so_far)?;
            Ok(())
        }
    }
}

/// The number behind the formulas of what a member says.
pub fn behind_member(first: u32, x: &Member) -> Result<u32, AllocError>
    ensures { IfOk result (λ n. n ≡ first + members.member_formulas (view.member x.now)) }
{
    match x {
        Member::Field(_) => Ok(first),
        Member::Invariant(invariant) => {
            if is_approval(&invariant.property) {
                Ok(first)
            } else {
                next_formula(first, &invariant.property)
            }
        }
    }
}

/// The arguments of the `\mine` conjuncts at the top of a struct's invariants.
fn members_of_this<'s, 'a>(
    alloc: Global,
    around: Around<'s, 'a>,
    numbering: Numbering<'_>,
    first: u32,
    members: &'a [Member],
) -> Result<Vec<Spec>, AllocError>
    ensures { IfOk result (λ v. seen.specs v.items ≡ map (with_shapes (shaped numbering.entry).shapes (shaped numbering.entry).sorts) (tables.each_invariant (annotations.mine (here around.entry)) first (tables.invariants_of (map view.member members.now)))) }
{
    let mut so_far = Vec::new(alloc);
    let mut next = first;
    for x in members {
        add_mine(alloc, around, numbering, next, x, &mut so_far)?;
        next = behind_member(next, x)?;
    }
    Ok(so_far)
}

/// Whether a wrap makes the owned set of an object of this type.
fn has_fixed_set(entry: &StructEntry<'_>) -> bool
    ensures { result ≡ members.has_fixed_set (view.struct entry.now.tree.now) }
{
    !entry.has_dynamic_owns() && !entry.has_volatile_owns()
}

/// What a wrap makes the owned set of an object of this type, where it is fixed.
fn fixed_set<'s, 'a>(
    alloc: Global,
    around: Around<'s, 'a>,
    numbering: Numbering<'_>,
    first: u32,
    entry: &StructEntry<'a>,
) -> Result<Vec<Spec>, AllocError>
    requires { here around ≡ tables.around_struct (program around.context.scope.declarations.now) (view.struct entry.now.tree.now) }
    ensures { IfOk result (λ v. seen.specs v.items ≡ map (with_shapes (shaped numbering.entry).shapes (shaped numbering.entry).sorts) (tables.fixed_set (program around.entry.context.scope.declarations.now) (view.struct entry.now.tree.now) first)) }
{
    if has_fixed_set(entry) {
        members_of_this(alloc, around, numbering, first, &entry.tree.members)
    } else {
        Ok(Vec::new(alloc))
    }
}

/// How many fields the structs before this one have.
fn first_field(declarations: &Declarations<'_>, entry: &StructEntry<'_>) -> Result<u32, AllocError>
    ensures { IfOk result (λ n. n ≡ fields_before (program declarations.now) (view.struct entry.now.tree.now).name) }
{
    number(declarations.fields_before(&entry.tree.name).unwrap_or(0))
}

/// How many fields a struct has.
fn field_count(entry: &StructEntry<'_>) -> Result<u32, AllocError>
    ensures { IfOk result (λ n. n ≡ length (fields (view.struct entry.now.tree.now).members)) }
{
    number(entry.fields().len())
}

/// A struct of these parts.
fn info_of(
    entry: &StructEntry<'_>,
    name: Vec<u8>,
    first_field: u32,
    fields: u32,
    invariants: Vec<Spec>,
    mine: Vec<Spec>,
) -> StructInfo
    ensures { seen.struct result ≡ members.struct_of (view.struct entry.now.tree.now) name.items first_field fields (seen.specs invariants.items) (seen.specs mine.items) }
{
    StructInfo {
        name,
        line: entry.tree.span.line,
        is_claimable: entry.is_claimable(),
        has_dynamic_owns: entry.has_dynamic_owns(),
        has_volatile_owns: entry.has_volatile_owns(),
        first_field,
        fields,
        invariants,
        has_approval: has_approval(entry.tree),
        mine,
    }
}

/// A struct with what stands around its invariants, of which the first quantified formula has this number.
fn told<'s, 'a>(
    alloc: Global,
    around: Around<'s, 'a>,
    numbering: Numbering<'_>,
    first: u32,
    entry: &StructEntry<'a>,
) -> Result<StructInfo, AllocError>
    requires { here around ≡ tables.around_struct (program around.context.scope.declarations.now) (view.struct entry.now.tree.now) }
    ensures { IfOk result (λ v. seen.struct v ≡ members.numbered_struct (shaped numbering.entry) (tables.struct (program around.entry.context.scope.declarations.now) first (view.struct entry.now.tree.now))) }
{
    let rows = invariants(alloc, around, numbering, first, &entry.tree.members)?;
    let owned = fixed_set(alloc, around, numbering, first, entry)?;
    let name = text(alloc, &entry.tree.name)?;
    let before = first_field(around.context.scope.declarations, entry)?;
    let count = field_count(entry)?;
    Ok(info_of(entry, name, before, count, rows.specs, owned))
}

/// The sorts of no variables.
fn no_sorts(alloc: Global) -> Sorts
    ensures { sorts_seen result ≡ tables.no_sorts }
{
    Sorts {
        variables: Vec::new(alloc),
        value: Sort::IntSort,
    }
}

/// A struct, of which the first quantified formula has this number.
pub fn struct_info<'s, 'a>(
    alloc: Global,
    declarations: &'s Declarations<'a>,
    shapes: &[Shape],
    first: u32,
    entry: &'s StructEntry<'a>,
) -> Result<StructInfo, AllocError>
    ensures { IfOk result (λ v. seen.struct v ≡ tables.numbered_struct (map seen.shape shapes.now) (tables.struct (program declarations.now) first (view.struct entry.now.tree.now))) }
{
    let variables = Variables::new(alloc);
    let none = Quantified::Nothing;
    let places = Places::of(alloc, Vec::new(alloc))?;
    let around = around_struct(declarations, entry, &variables, &none, &places);
    let sorts = no_sorts(alloc);
    let numbering = Numbering {
        shapes,
        sorts: &sorts,
    };
    let info = told(alloc, around, numbering, first, entry)?;
    Ok(info)
}
