//! What structs and functions tell: annotations, and claims that are made.

ghost use Rattle.std.specs.Prelude.{◌≡◌, ◌+◌, ◌++◌, ◌∷◌, [], map, flat_map, IfOk, OnOk};
ghost use Rattle.c_syntax.specs.Views as view;
ghost use Rattle.elab_sites.specs.Views.{occurrence as told_seen};
ghost use Rattle.elab_clauses.specs.Members.{member_formulas};
ghost use Rattle.elab_code.specs.Views.{around as here};
ghost use Rattle.typing_symbols.specs.Scopes.{known};
ghost use Rattle.typing_symbols.specs.Whole.{program};
ghost use Rattle.elab_program.specs.Walks as spec;
ghost use Rattle.elab_statements.specs.Settings.{setting as set, at};
ghost use Rattle.typed_program.specs.Annotations as annotations;
ghost use Rattle.typed_program.specs.Sites as sites;
ghost use Rattle.typed_program.specs.Tables as tables;

use crate::functions::{parameters, places, surroundings};
use c_syntax::expressions::Expr;
use c_syntax::items::{Clause, Function, Member, WritesItem};
use elab_annotations::annotations::annotation;
use elab_clauses::contracts::{in_writes, inside_condition, item_of};
use elab_clauses::structs::around_struct;
use elab_code::around::Around;
use elab_code::places::Places;
use elab_sites::occurrences::all_occurrences;
use elab_sites::sites::Occurrence;
use elab_statements::settings::Setting;
use std::alloc::{AllocError, Global};
use typing_expressions::context::Quantified;
use typing_expressions::forms::is_approval;
use typing_symbols::declarations::{Declarations, StructEntry};
use typing_symbols::variables::Variables;

/// Adds what an annotation says, whose first quantified formula has this number; the number behind its formulas.
fn says<'s, 'a>(
    alloc: Global,
    around: Around<'s, 'a>,
    first: u32,
    x: &'a Expr,
    so_far: &mut Vec<Occurrence>,
) -> Result<u32, AllocError>
    ensures added { OnOk result (map told_seen so_far.new.items ≡ map told_seen so_far.old.items ++ sites.Says (annotations.spec (here around.entry) first (view.exp x.now)) ∷ []) }
    ensures next { IfOk result (λ n. n ≡ first + annotations.formulas (view.exp x.now)) }
{
    let typed = annotation(alloc, around, first, x)?;
    so_far.push(Occurrence::Says(typed.spec))?;
    Ok(typed.next)
}

/// Adds what the items of a writes list say.
fn list_occurrences<'s, 'a>(
    alloc: Global,
    around: Around<'s, 'a>,
    all: &'a [WritesItem],
    so_far: &mut Vec<Occurrence>,
) -> Result<(), AllocError>
    ensures { OnOk result (map told_seen so_far.new.items ≡ map told_seen so_far.old.items ++ map sites.Says (tables.listed_items (here around.entry) 0 (map view.written all.now))) }
{
    let mut next = 0;
    for x in all {
        next = says(alloc, around, next, item_of(x), so_far)?;
    }
    Ok(())
}

/// Adds what a clause says.
fn clause_occurrences<'s, 'a>(
    alloc: Global,
    around: Around<'s, 'a>,
    x: &'a Clause,
    so_far: &mut Vec<Occurrence>,
) -> Result<(), AllocError>
    ensures { OnOk result (map told_seen so_far.new.items ≡ map told_seen so_far.old.items ++ tables.clause_occurrences (here around.entry) (view.clause x.now)) }
{
    match x {
        Clause::Condition(_, condition, property) => {
            let inside = inside_condition(*condition, around);
            says(alloc, inside, 0, property, so_far)?;
            Ok(())
        }
        Clause::Writes(_, all) => list_occurrences(alloc, in_writes(around), all, so_far),
    }
}

/// Adds what a contract says.
fn contract_occurrences<'s, 'a>(
    alloc: Global,
    around: Around<'s, 'a>,
    all: &'a [Clause],
    so_far: &mut Vec<Occurrence>,
) -> Result<(), AllocError>
    ensures { OnOk result (map told_seen so_far.new.items ≡ map told_seen so_far.old.items ++ flat_map (tables.clause_occurrences (here around.entry)) (map view.clause all.now)) }
{
    for x in all {
        clause_occurrences(alloc, around, x, so_far)?;
    }
    Ok(())
}

/// Adds what a function tells, with what stands around its contract and its statements.
fn function_adds<'s, 'a>(
    alloc: Global,
    setting: Setting<'s, 'a>,
    scope: &mut Variables<'a>,
    number: u32,
    x: &'a Function,
    so_far: &mut Vec<Occurrence>,
) -> Result<(), AllocError>
    ensures { OnOk result (map told_seen so_far.new.items ≡ map told_seen so_far.old.items ++ spec.occurrences_of (at (set setting.entry) (known scope.old)) number (view.function x.now)) }
{
    let none = Quantified::Nothing;
    let around = setting.around(scope, &none);
    contract_occurrences(alloc, around, &x.contract, so_far)?;
    all_occurrences(
        alloc,
        setting.surroundings,
        setting.places,
        scope,
        number,
        &x.body,
        so_far,
    )?;
    Ok(())
}

/// What a function with this number tells.
pub fn function_occurrences<'s, 'a>(
    alloc: Global,
    declarations: &'s Declarations<'a>,
    number: u32,
    x: &'a Function,
) -> Result<Vec<Occurrence>, AllocError>
    ensures { IfOk result (λ v. map told_seen v.items ≡ tables.function_occurrences (program declarations.now) number (view.function x.now)) }
{
    let places = places(alloc, x)?;
    let mut scope = parameters(alloc, x)?;
    let setting = Setting {
        surroundings: surroundings(declarations, x),
        places: &places,
    };
    let mut so_far = Vec::new(alloc);
    function_adds(alloc, setting, &mut scope, number, x, &mut so_far)?;
    Ok(so_far)
}

/// Adds what a member of a struct says; the number behind its formulas.
fn member_occurrences<'s, 'a>(
    alloc: Global,
    around: Around<'s, 'a>,
    first: u32,
    x: &'a Member,
    so_far: &mut Vec<Occurrence>,
) -> Result<u32, AllocError>
    ensures added { OnOk result (map told_seen so_far.new.items ≡ map told_seen so_far.old.items ++ spec.member_occurrences (here around.entry) first (view.member x.now)) }
    ensures next { IfOk result (λ n. n ≡ first + member_formulas (view.member x.now)) }
{
    match x {
        Member::Field(_) => Ok(first),
        Member::Invariant(invariant) => {
            if is_approval(&invariant.property) {
                Ok(first)
            } else {
                says(alloc, around, first, &invariant.property, so_far)
            }
        }
    }
}

/// Adds what the members of a struct say.
fn members_occurrences<'s, 'a>(
    alloc: Global,
    around: Around<'s, 'a>,
    all: &'a [Member],
    so_far: &mut Vec<Occurrence>,
) -> Result<(), AllocError>
    ensures { OnOk result (map told_seen so_far.new.items ≡ map told_seen so_far.old.items ++ spec.members_occurrences (here around.entry) 0 (map view.member all.now)) }
{
    let mut next = 0;
    for x in all {
        next = member_occurrences(alloc, around, next, x, so_far)?;
    }
    Ok(())
}

/// What a struct tells.
pub fn struct_occurrences<'s, 'a>(
    alloc: Global,
    declarations: &'s Declarations<'a>,
    entry: &'s StructEntry<'a>,
) -> Result<Vec<Occurrence>, AllocError>
    ensures { IfOk result (λ v. map told_seen v.items ≡ tables.struct_occurrences (program declarations.now) (view.struct entry.now.tree.now)) }
{
    let variables = Variables::new(alloc);
    let none = Quantified::Nothing;
    let places = Places::of(alloc, Vec::new(alloc))?;
    let around = around_struct(declarations, entry, &variables, &none, &places);
    let mut so_far = Vec::new(alloc);
    members_occurrences(alloc, around, &entry.tree.members, &mut so_far)?;
    Ok(so_far)
}
