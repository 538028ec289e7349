//! Annotations with numbered shapes.

ghost use Rattle.std.specs.Prelude.{◌≡◌, map, IfOk};
ghost use Rattle.c_syntax.specs.Views as view;
ghost use Rattle.elab_code.specs.Views.{around as here};
ghost use Rattle.elab_annotations.specs.Views.{row_of, annotation as seen};
ghost use Rattle.elab_clauses.specs.Numberings.{numbering as shaped, typed_said, said_invariants};

use c_syntax::expressions::Expr;
use c_syntax::statements::Invariant;
use elab_annotations::annotations::{TypedSpec, annotation};
use elab_annotations::rows::Row;
use elab_code::around::Around;
use elab_shapes::numbered::numbered;
use elab_shapes::sorts::Sorts;
use method::program::Shape;
use std::alloc::{AllocError, Global};

/// The shapes of a program, and the sorts of a function's variables.
#[derive(Clone, Copy)]
pub struct Numbering<'s> {
    pub shapes: &'s [Shape],
    pub sorts: &'s Sorts,
}

/// An annotation whose first quantified formula has this number.
pub fn said<'s, 'a>(
    alloc: Global,
    around: Around<'s, 'a>,
    numbering: Numbering<'_>,
    first: u32,
    x: &'a Expr,
) -> Result<TypedSpec, AllocError>
    ensures { IfOk result (λ v. seen v ≡ typed_said (shaped numbering.entry) (here around.entry) first (view.exp x.now)) }
{
    let typed = annotation(alloc, around, first, x)?;
    let spec = numbered(alloc, numbering.shapes, numbering.sorts, &typed.spec)?;
    Ok(TypedSpec {
        spec,
        next: typed.next,
    })
}

/// A loop's invariants, of which the first quantified formula has this number.
pub fn invariants<'s, 'a>(
    alloc: Global,
    around: Around<'s, 'a>,
    numbering: Numbering<'_>,
    first: u32,
    all: &'a [Invariant],
) -> Result<Row, AllocError>
    ensures { IfOk result (λ r. row_of r ≡ said_invariants (shaped numbering.entry) (here around.entry) first (map view.invariant all.now)) }
{
    let mut so_far = Row::nothing(alloc, first);
    for x in all {
        let one = said(alloc, around, numbering, so_far.next, &x.property)?;
        so_far = so_far.with(one)?;
    }
    Ok(so_far)
}
