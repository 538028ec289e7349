//! The shapes of a program's conjuncts, and its claim sites.

ghost use Rattle.std.specs.Prelude.{◌≡◌, ◌++◌, map, flat_map, IfOk, OnOk};
ghost use Rattle.elab_shapes.specs.Views.{sorts as sorts_seen};
ghost use Rattle.elab_sites.specs.Views.{occurrence as told_seen, site as site_seen};
ghost use Rattle.typing_symbols.specs.Whole.{program};
ghost use Rattle.elab_program.specs.Views.{declared};
ghost use Rattle.elab_program.specs.Walks as spec;
ghost use Rattle.typed_program.specs.Shapes.{conjunct as conjunct_of};
ghost use Rattle.typed_program.specs.Tables as tables;
ghost use Rattle.typed_program.specs.Views as seen;

use crate::declared::{Declared, all_declared};
use crate::functions::sorts_of;
use crate::occurrences::{function_occurrences, struct_occurrences};
use elab_shapes::collect::{add_property, add_shapes, first_ones};
use elab_shapes::numbered::conjunct;
use elab_shapes::sorts::Sorts;
use elab_sites::sites::{Occurrence, Site};
use method::program::{ClaimSite, Conjunct, Shape, Sort, Spec};
use std::alloc::{AllocError, Global};
use typing_symbols::declarations::Declarations;

/// The sorts of no variables.
fn no_sorts(alloc: Global) -> Sorts
    ensures { sorts_seen result ≡ tables.no_sorts }
{
    Sorts {
        variables: Vec::new(alloc),
        value: Sort::IntSort,
    }
}

/// How many functions stand behind an item.
pub fn next_function(number: u32, x: Declared<'_, '_>) -> Result<u32, AllocError>
    ensures { IfOk result (λ n. n ≡ spec.functions_after number (declared x.entry)) }
{
    match x {
        Declared::Struct(_) => Ok(number),
        Declared::Function(_) => match number.checked_add(1) {
            Some(next) => Ok(next),
            None => Err(AllocError),
        },
    }
}

/// Adds the shapes of a text.
fn add_told(
    alloc: Global,
    sorts: &Sorts,
    x: &Occurrence,
    so_far: &mut Vec<Shape>,
) -> Result<(), AllocError>
    ensures { OnOk result (map seen.shape so_far.new.items ≡ map seen.shape so_far.old.items ++ tables.told_shapes (sorts_seen sorts.now) (told_seen x.now)) }
{
    match x {
        Occurrence::Says(said) => add_shapes(alloc, sorts, said, so_far),
        Occurrence::Makes(site) => add_property(alloc, sorts, &site.property, so_far),
    }
}

/// Adds the shapes of texts.
fn add_all_told(
    alloc: Global,
    sorts: &Sorts,
    all: &[Occurrence],
    so_far: &mut Vec<Shape>,
) -> Result<(), AllocError>
    ensures { OnOk result (map seen.shape so_far.new.items ≡ map seen.shape so_far.old.items ++ flat_map (tables.told_shapes (sorts_seen sorts.now)) (map told_seen all.now)) }
{
    for x in all {
        add_told(alloc, sorts, x, so_far)?;
    }
    Ok(())
}

/// Adds the shapes of an item before which so many functions stand.
fn add_item_shapes<'s, 'a>(
    alloc: Global,
    declarations: &'s Declarations<'a>,
    number: u32,
    x: Declared<'s, 'a>,
    so_far: &mut Vec<Shape>,
) -> Result<(), AllocError>
    ensures { OnOk result (map seen.shape so_far.new.items ≡ map seen.shape so_far.old.items ++ spec.shapes_of (program declarations.now) number (declared x.entry)) }
{
    match x {
        Declared::Struct(entry) => {
            let all = struct_occurrences(alloc, declarations, entry)?;
            let sorts = no_sorts(alloc);
            add_all_told(alloc, &sorts, &all, so_far)?;
            Ok(())
        }
        Declared::Function(function) => {
            let all = function_occurrences(alloc, declarations, number, function)?;
            let sorts = sorts_of(alloc, declarations, function)?;
            add_all_told(alloc, &sorts, &all, so_far)?;
            Ok(())
        }
    }
}

/// The shapes of items, also those that stood earlier.
fn item_shapes<'s, 'a>(
    alloc: Global,
    declarations: &'s Declarations<'a>,
    all: &[Declared<'s, 'a>],
) -> Result<Vec<Shape>, AllocError>
    ensures { IfOk result (λ v. map seen.shape v.items ≡ tables.item_shapes (program declarations.now) 0 (map declared all.now)) }
{
    let mut so_far = Vec::new(alloc);
    let mut number = 0;
    for x in all {
        add_item_shapes(alloc, declarations, number, *x, &mut so_far)?;
        number = next_function(number, *x)?;
    }
    Ok(so_far)
}

/// The shapes of a program, each once.
pub fn shapes<'s, 'a>(
    alloc: Global,
    declarations: &'s Declarations<'a>,
) -> Result<Vec<Shape>, AllocError>
    ensures { IfOk result (λ v. map seen.shape v.items ≡ tables.shapes (program declarations.now)) }
{
    let all = all_declared(alloc, declarations)?;
    let found = item_shapes(alloc, declarations, &all)?;
    let firsts = first_ones(alloc, found)?;
    Ok(firsts)
}

/// The conjuncts of a claim's property.
fn conjuncts(
    alloc: Global,
    shapes: &[Shape],
    sorts: &Sorts,
    all: &[Spec],
) -> Result<Vec<Conjunct>, AllocError>
    ensures { IfOk result (λ v. map seen.conjunct v.items ≡ map (conjunct_of (map seen.shape shapes.now) (sorts_seen sorts.now)) (seen.specs all.now)) }
{
    let mut so_far = Vec::new(alloc);
    for x in all {
        let one = conjunct(alloc, shapes, sorts, x)?;
        so_far.push(one)?;
    }
    Ok(so_far)
}

/// A claim site with numbered shapes.
fn claim_site(
    alloc: Global,
    shapes: &[Shape],
    sorts: &Sorts,
    x: Site,
) -> Result<ClaimSite, AllocError>
    ensures { IfOk result (λ v. seen.site v ≡ tables.claim_site (map seen.shape shapes.now) (sorts_seen sorts.now) (site_seen x)) }
{
    let property = conjuncts(alloc, shapes, sorts, &x.property)?;
    Ok(ClaimSite {
        function: x.function,
        line: x.line,
        variables: x.variables,
        claimed: x.claimed,
        conjuncts: property,
    })
}

/// Adds the claim site of a text, if it makes a claim.
fn add_site(
    alloc: Global,
    shapes: &[Shape],
    sorts: &Sorts,
    x: Occurrence,
    so_far: &mut Vec<ClaimSite>,
) -> Result<(), AllocError>
    ensures { OnOk result (map seen.site so_far.new.items ≡ map seen.site so_far.old.items ++ spec.sites_in (map seen.shape shapes.now) (sorts_seen sorts.now) (told_seen x)) }
{
    match x {
        Occurrence::Says(_) => Ok(()),
        Occurrence::Makes(made) => {
            let site = claim_site(alloc, shapes, sorts, made)?;
            so_far.push(site)?;
            Ok(())
        }
    }
}

/// Adds the claim sites of texts.
fn add_sites(
    alloc: Global,
    shapes: &[Shape],
    sorts: &Sorts,
    all: Vec<Occurrence>,
    so_far: &mut Vec<ClaimSite>,
) -> Result<(), AllocError>
    ensures { OnOk result (map seen.site so_far.new.items ≡ map seen.site so_far.old.items ++ flat_map (spec.sites_in (map seen.shape shapes.now) (sorts_seen sorts.now)) (map told_seen all.items)) }
{
    for x in all {
        add_site(alloc, shapes, sorts, x, so_far)?;
    }
    Ok(())
}

/// Adds the claim sites of an item before which so many functions stand.
fn add_item_sites<'s, 'a>(
    alloc: Global,
    declarations: &'s Declarations<'a>,
    shapes: &[Shape],
    number: u32,
    x: Declared<'s, 'a>,
    so_far: &mut Vec<ClaimSite>,
) -> Result<(), AllocError>
    ensures { OnOk result (map seen.site so_far.new.items ≡ map seen.site so_far.old.items ++ spec.sites_of (map seen.shape shapes.now) (program declarations.now) number (declared x.entry)) }
{
    match x {
        Declared::Struct(_) => Ok(()),
        Declared::Function(function) => {
            let all = function_occurrences(alloc, declarations, number, function)?;
            let sorts = sorts_of(alloc, declarations, function)?;
            add_sites(alloc, shapes, &sorts, all, so_far)?;
            Ok(())
        }
    }
}

/// The claim sites of items.
fn item_sites<'s, 'a>(
    alloc: Global,
    declarations: &'s Declarations<'a>,
    shapes: &[Shape],
    all: &[Declared<'s, 'a>],
) -> Result<Vec<ClaimSite>, AllocError>
    ensures { IfOk result (λ v. map seen.site v.items ≡ tables.site_table (map seen.shape shapes.now) (program declarations.now) 0 (map declared all.now)) }
{
    let mut so_far = Vec::new(alloc);
    let mut number = 0;
    for x in all {
        add_item_sites(alloc, declarations, shapes, number, *x, &mut so_far)?;
        number = next_function(number, *x)?;
    }
    Ok(so_far)
}

/// The claim sites of a program.
pub fn site_table<'s, 'a>(
    alloc: Global,
    declarations: &'s Declarations<'a>,
    shapes: &[Shape],
) -> Result<Vec<ClaimSite>, AllocError>
    ensures { IfOk result (λ v. map seen.site v.items ≡ tables.site_table (map seen.shape shapes.now) (program declarations.now) 0 (program declarations.now)) }
{
    let all = all_declared(alloc, declarations)?;
    let table = item_sites(alloc, declarations, shapes, &all)?;
    Ok(table)
}
