//! The shapes of the conjuncts in expressions.

ghost use Rattle.std.specs.Prelude.{◌≡◌, Bool, ◌∷◌, [], ◌++◌, map, IfOk, OnOk};
ghost use Rattle.std.specs.List.{list_any};
ghost use Rattle.typed_program.specs.Shapes as spec;
ghost use Rattle.typed_program.specs.Views as seen;
ghost use Rattle.elab_shapes.specs.Conjuncts.{own_shape, with_new};
ghost use Rattle.elab_shapes.specs.Views.{part as part_seen, sorts as sorts_seen};

use crate::parts::{Part, count, part_at};
use crate::same::same_shape;
use crate::shapes::shape;
use crate::sorts::Sorts;
use method::program::{Shape, Spec};
use std::alloc::{AllocError, Global};

/// Appends the shape of a conjunct.
fn add_shape(
    alloc: Global,
    sorts: &Sorts,
    x: &Spec,
    so_far: &mut Vec<Shape>,
) -> Result<(), AllocError>
    ensures { OnOk result (map seen.shape so_far.new.items ≡ map seen.shape so_far.old.items ++ spec.shape (sorts_seen sorts.now) (seen.spec x.now) ∷ []) }
{
    let own = shape(alloc, sorts, x)?;
    so_far.push(own)?;
    Ok(())
}

/// Appends the shape of a part that is a conjunct.
fn add_own_shape(
    alloc: Global,
    sorts: &Sorts,
    one: Part<'_>,
    so_far: &mut Vec<Shape>,
) -> Result<(), AllocError>
    ensures { OnOk result (map seen.shape so_far.new.items ≡ map seen.shape so_far.old.items ++ own_shape (sorts_seen sorts.now) (part_seen one.entry)) }
{
    if one.is_conjunct {
        return add_shape(alloc, sorts, one.spec, so_far);
    }
    Ok(())
}

/// Appends the shapes of the conjuncts in an expression, each before those in it.
#[cycle(add_shapes)]
pub fn add_shapes(
    alloc: Global,
    sorts: &Sorts,
    x: &Spec,
    so_far: &mut Vec<Shape>,
) -> Result<(), AllocError>
    ensures { OnOk result (map seen.shape so_far.new.items ≡ map seen.shape so_far.old.items ++ spec.shapes_in (sorts_seen sorts.now) (seen.spec x.now)) }
{
    for i in 0..count(x) {
        let one = part_at(x, i);
        add_own_shape(alloc, sorts, one, so_far)?;
        add_shapes(alloc, sorts, one.spec, so_far)?;
    }
    Ok(())
}

/// Appends the shapes of the conjuncts of a claim's property, each before those in it.
pub fn add_property(
    alloc: Global,
    sorts: &Sorts,
    xs: &[Spec],
    so_far: &mut Vec<Shape>,
) -> Result<(), AllocError>
    ensures { OnOk result (map seen.shape so_far.new.items ≡ map seen.shape so_far.old.items ++ spec.property_shapes (sorts_seen sorts.now) (seen.specs xs.now)) }
{
    for x in xs {
        add_shape(alloc, sorts, x, so_far)?;
        add_shapes(alloc, sorts, x, so_far)?;
    }
    Ok(())
}

/// Whether a shape stands among others.
fn stands_among(own: &Shape, all: &[Shape]) -> bool
    ensures { result ≡ list_any (λ one. spec.same_shape (seen.shape own.now) (seen.shape one)) all.now }
{
    all.iter().any(|one| same_shape(own, one))
}

/// Appends a shape, unless it stands among them already.
fn add_new(one: Shape, found: &mut Vec<Shape>) -> Result<(), AllocError>
    ensures { OnOk result (map seen.shape found.new.items ≡ with_new (map seen.shape found.old.items) (seen.shape one)) }
{
    if stands_among(&one, found) {
        drop(one);
        return Ok(());
    }
    found.push(one)?;
    Ok(())
}

/// Each shape once, where it stands first.
pub fn first_ones(alloc: Global, all: Vec<Shape>) -> Result<Vec<Shape>, AllocError>
    ensures { IfOk result (λ v. map seen.shape v.items ≡ spec.first_ones [] (map seen.shape all.items)) }
{
    let mut found = Vec::new(alloc);
    for one in all {
        add_new(one, &mut found)?;
    }
    Ok(found)
}
