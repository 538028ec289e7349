//! Expressions in which each conjunct stands as the number of its shape and what fills its holes.

ghost use Rattle.std.specs.Prelude.{◌≡◌, map, position, IfOk};
ghost use Rattle.typed_program.specs.Numbers.{place_of};
ghost use Rattle.typed_program.specs.Shapes as spec;
ghost use Rattle.typed_program.specs.Views as seen;
ghost use Rattle.elab_shapes.specs.Conjuncts.{numbered_part as part_numbered};
ghost use Rattle.elab_shapes.specs.Views.{sorts as sorts_seen};

use crate::forms::with_parts;
use crate::holes::holes;
use crate::parts::{count, part_at};
use crate::same::same_shape;
use crate::shapes::shape;
use crate::sorts::Sorts;
use method::program::{Conjunct, Shape, Sort, Spec};
use std::alloc::{AllocError, Global};

/// Where a shape stands among others.
fn place_among(own: &Shape, shapes: &[Shape]) -> Option<usize>
    ensures { result ≡ position (λ one. spec.same_shape (seen.shape own.now) (seen.shape one)) shapes.now }
{
    shapes.iter().position(|one| same_shape(own, one))
}

/// The place of a shape; 0 for one that has none.
fn place(own: &Shape, shapes: &[Shape]) -> usize
    ensures { result ≡ place_of (spec.same_shape (seen.shape own.now)) (map seen.shape shapes.now) }
{
    place_among(own, shapes).unwrap_or(0)
}

/// A place as a number. One that leaves 32 bits is answered as want of memory.
fn number(place: usize) -> Result<u32, AllocError>
    ensures { IfOk result (λ n. n ≡ place) }
{
    match u32::try_from(place) {
        Ok(n) => Ok(n),
        Err(_) => Err(AllocError),
    }
}

/// The number of a conjunct's shape.
fn shape_number(alloc: Global, shapes: &[Shape], sorts: &Sorts, x: &Spec) -> Result<u32, AllocError>
    ensures { IfOk result (λ n. n ≡ place_of (spec.same_shape (spec.shape (sorts_seen sorts.now) (seen.spec x.now))) (map seen.shape shapes.now)) }
{
    let own = shape(alloc, sorts, x)?;
    let place = place(&own, shapes);
    drop(own);
    number(place)
}

/// A conjunct: the number of its shape, and what fills its holes.
pub fn conjunct(
    alloc: Global,
    shapes: &[Shape],
    sorts: &Sorts,
    x: &Spec,
) -> Result<Conjunct, AllocError>
    ensures { IfOk result (λ v. seen.conjunct v ≡ spec.conjunct (map seen.shape shapes.now) (sorts_seen sorts.now) (seen.spec x.now)) }
{
    let number = shape_number(alloc, shapes, sorts, x)?;
    let filled = holes(alloc, x)?;
    Ok(Conjunct {
        shape: number,
        holes: filled,
    })
}

/// A part of an expression, in which conjuncts stand by their numbers; so does the part itself, if it is one.
#[cycle(numbered)]
fn numbered_part(
    alloc: Global,
    shapes: &[Shape],
    sorts: &Sorts,
    x: &Spec,
    is_conjunct: bool,
) -> Result<Spec, AllocError>
    ensures { IfOk result (λ v. seen.spec v ≡ part_numbered (map seen.shape shapes.now) (sorts_seen sorts.now) (record { spec = seen.spec x.now; is_conjunct = is_conjunct })) }
{
    if is_conjunct {
        let whole = conjunct(alloc, shapes, sorts, x)?;
        return Ok(Spec::Has(whole));
    }
    numbered(alloc, shapes, sorts, x)
}

/// An expression, in which each conjunct stands as the number of its shape and what fills its holes.
#[cycle(numbered)]
pub fn numbered(
    alloc: Global,
    shapes: &[Shape],
    sorts: &Sorts,
    x: &Spec,
) -> Result<Spec, AllocError>
    ensures { IfOk result (λ v. seen.spec v ≡ spec.numbered (map seen.shape shapes.now) (sorts_seen sorts.now) (seen.spec x.now)) }
{
    let mut parts = Vec::new(alloc);
    for i in 0..count(x) {
        let one = part_at(x, i);
        let done = numbered_part(alloc, shapes, sorts, one.spec, one.is_conjunct)?;
        parts.push(done)?;
    }
    with_parts(alloc, x, parts)
}

/// A shape of the table, in whose conjunct the conjuncts within are numbered too.
pub fn table_shape(alloc: Global, shapes: &[Shape], x: &Shape) -> Result<Shape, AllocError>
    ensures { IfOk result (λ v. seen.shape v ≡ spec.table_shape (map seen.shape shapes.now) (seen.shape x.now)) }
{
    let variables = x.holes.clone()?;
    let sorts = Sorts {
        variables,
        value: Sort::IntSort,
    };
    let conjunct = numbered(alloc, shapes, &sorts, &x.conjunct)?;
    Ok(Shape {
        holes: sorts.variables,
        conjunct,
    })
}
