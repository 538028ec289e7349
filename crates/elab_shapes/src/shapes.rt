//! The shapes of conjuncts.

ghost use Rattle.std.specs.Prelude.{◌≡◌, ◌+◌, length, map, IfOk};
ghost use Rattle.typed_program.specs.Shapes as spec;
ghost use Rattle.typed_program.specs.Views as seen;
ghost use Rattle.elab_shapes.specs.Parts as view;
ghost use Rattle.elab_shapes.specs.Views.{sorts as sorts_seen};

use crate::forms::{copied, with_parts};
use crate::holes::holes;
use crate::parts::{count, part_at};
use crate::sorts::{Sorts, sort_of};
use method::program::{Conjunct, Hole, Shape, Sort, Spec};
use std::alloc::{AllocError, Global};

/// An expression with holes, and the number of the next hole.
#[derive(Drop)]
struct WithHoles {
    spec: Spec,
    next: u32,
}

/// A number with what is counted onto it. One that leaves 32 bits is answered as want of memory.
fn plus(number: u32, count: usize) -> Result<u32, AllocError>
    ensures { IfOk result (λ n. n ≡ number + count) }
{
    let Ok(more) = u32::try_from(count) else {
        return Err(AllocError);
    };
    match number.checked_add(more) {
        Some(sum) => Ok(sum),
        None => Err(AllocError),
    }
}

/// A hole.
fn hole(number: u32) -> Result<WithHoles, AllocError>
    ensures spec { IfOk result (λ o. o.spec ≡ Spec.Variable number) }
    ensures next { IfOk result (λ o. o.next ≡ number + 1) }
{
    let next = plus(number, 1)?;
    Ok(WithHoles {
        spec: Spec::Variable(number),
        next,
    })
}

/// A conjunct that has a number, in which holes aren't opened.
fn kept(next: u32, x: &Conjunct) -> Result<WithHoles, AllocError>
    ensures spec { IfOk result (λ o. seen.spec o.spec ≡ seen.spec (Spec.Has x.now)) }
    ensures next { IfOk result (λ o. o.next ≡ next + length x.now.holes.items) }
{
    let following = plus(next, x.holes.len())?;
    let conjunct = copied(x)?;
    Ok(WithHoles {
        spec: Spec::Has(conjunct),
        next: following,
    })
}

/// An expression without parts, opened.
fn opened_leaf(next: u32, x: &Spec) -> Result<WithHoles, AllocError>
    requires { length (view.parts (seen.spec x.now)) ≡ 0 }
    ensures spec { IfOk result (λ o. seen.spec o.spec ≡ spec.opened next (seen.spec x.now)) }
    ensures next { IfOk result (λ o. o.next ≡ next + spec.size (seen.spec x.now)) }
{
    match x {
        Spec::Number(number) => Ok(WithHoles {
            spec: Spec::Number(*number),
            next,
        }),
        Spec::Truth(holds) => Ok(WithHoles {
            spec: Spec::Truth(*holds),
            next,
        }),
        Spec::Null => Ok(WithHoles {
            spec: Spec::Null,
            next,
        }),
        Spec::Has(conjunct) => kept(next, conjunct),
        _ => hole(next),
    }
}

/// An expression with a hole in the place of each, of which the first has this number.
#[cycle(opened)]
fn opened(alloc: Global, next: u32, x: &Spec) -> Result<WithHoles, AllocError>
    ensures spec { IfOk result (λ o. seen.spec o.spec ≡ spec.opened next (seen.spec x.now)) }
    ensures next { IfOk result (λ o. o.next ≡ next + spec.size (seen.spec x.now)) }
{
    let number = count(x);
    if number == 0 {
        return opened_leaf(next, x);
    }
    let mut parts = Vec::new(alloc);
    let mut following = next;
    for i in 0..number {
        let one = part_at(x, i);
        let done = opened(alloc, following, one.spec)?;
        parts.push(done.spec)?;
        following = done.next;
    }
    let whole = with_parts(alloc, x, parts)?;
    Ok(WithHoles {
        spec: whole,
        next: following,
    })
}

/// The sorts of what fills holes.
fn sorts_of(alloc: Global, sorts: &Sorts, holes: &[Hole]) -> Result<Vec<Sort>, AllocError>
    ensures { IfOk result (λ v. v.items ≡ map (spec.sort_of (sorts_seen sorts.now)) holes.now) }
{
    let mut found = Vec::new(alloc);
    for hole in holes {
        found.push(sort_of(sorts, *hole))?;
    }
    Ok(found)
}

/// The shape of a conjunct: the sorts of its holes, and the conjunct, in which hole k stands as variable k.
pub fn shape(alloc: Global, sorts: &Sorts, x: &Spec) -> Result<Shape, AllocError>
    ensures { IfOk result (λ v. seen.shape v ≡ spec.shape (sorts_seen sorts.now) (seen.spec x.now)) }
{
    let filled = holes(alloc, x)?;
    let of_holes = sorts_of(alloc, sorts, &filled)?;
    let conjunct = opened(alloc, 0, x)?;
    Ok(Shape {
        holes: of_holes,
        conjunct: conjunct.spec,
    })
}
