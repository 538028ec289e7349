//! What fills the holes of an expression.

ghost use Rattle.std.specs.Prelude.{◌≡◌, [], ◌∷◌, ◌++◌, IfOk, OnOk};
ghost use Rattle.typed_program.specs.Shapes as spec;
ghost use Rattle.typed_program.specs.Views as seen;
ghost use Rattle.elab_shapes.specs.Conjuncts.{own_holes};

use crate::parts::{count, part_at};
use method::program::{Conjunct, Hole, Spec};
use std::alloc::{AllocError, Global};

/// Appends what fills one hole.
fn add(hole: Hole, so_far: &mut Vec<Hole>) -> Result<(), AllocError>
    ensures { OnOk result (so_far.new.items ≡ so_far.old.items ++ hole ∷ []) }
{
    so_far.push(hole)?;
    Ok(())
}

/// Appends what fills the holes of a conjunct that has a number.
fn add_filled(x: &Conjunct, so_far: &mut Vec<Hole>) -> Result<(), AllocError>
    ensures { OnOk result (so_far.new.items ≡ so_far.old.items ++ x.now.holes.items) }
{
    so_far.extend_from_slice(&x.holes)
}

/// Appends what fills an expression that is itself a hole, and what fills the holes of a conjunct that has a number.
fn add_own(x: &Spec, so_far: &mut Vec<Hole>) -> Result<(), AllocError>
    ensures { OnOk result (so_far.new.items ≡ so_far.old.items ++ own_holes (seen.spec x.now)) }
{
    match x {
        Spec::Variable(i) => add(Hole::OfVariable(*i), so_far),
        Spec::Bound(i) => add(Hole::OfBound(*i), so_far),
        Spec::This => add(Hole::OfThis, so_far),
        Spec::Me => add(Hole::OfMe, so_far),
        Spec::Result => add(Hole::OfResult, so_far),
        Spec::Has(conjunct) => add_filled(conjunct, so_far),
        _ => Ok(()),
    }
}

/// Appends what fills the holes of an expression.
#[cycle(holes)]
fn add_holes(x: &Spec, so_far: &mut Vec<Hole>) -> Result<(), AllocError>
    ensures { OnOk result (so_far.new.items ≡ so_far.old.items ++ spec.holes (seen.spec x.now)) }
{
    add_own(x, so_far)?;
    for i in 0..count(x) {
        let one = part_at(x, i);
        add_holes(one.spec, so_far)?;
    }
    Ok(())
}

/// What fills the holes of an expression, in the order of the text.
pub fn holes(alloc: Global, x: &Spec) -> Result<Vec<Hole>, AllocError>
    ensures { IfOk result (λ v. v.items ≡ spec.holes (seen.spec x.now)) }
{
    let mut found = Vec::new(alloc);
    add_holes(x, &mut found)?;
    Ok(found)
}
