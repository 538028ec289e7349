//! Ghost statements that hold no others.

ghost use Rattle.std.specs.Prelude.{◌≡◌, [], ◌∷◌, IfOk};
ghost use Rattle.c_syntax.specs.Views as view;
ghost use Rattle.elab_code.specs.Views.{around as here};
ghost use Rattle.elab_assignments.specs.Views.{before as before_seen};
ghost use Rattle.typed_program.specs.Codes as codes_of;
ghost use Rattle.typed_program.specs.Statements as spec;
ghost use Rattle.typed_program.specs.Trees as t;
ghost use Rattle.typed_program.specs.Views as seen;

use crate::counters::Counters;
use crate::places::{left_type, target};
use crate::rights::type_or;
use crate::values::{code, codes, stored};
use c_syntax::expressions::{Expr as Tree, ValueType};
use c_syntax::ghosts::{GhostRight, Members, OwnsChange};
use elab_code::around::Around;
use method::program::{Expr, OwnsChange as Sign, RightSide, Simple};
use std::alloc::{AllocError, Global};
use tree_building::pair_with;

/// A right side of ghost code that is stored in a place of this type.
pub fn ghost_right<'s, 'a>(
    alloc: Global,
    around: Around<'s, 'a>,
    before: Counters,
    ty: &ValueType,
    x: &'a GhostRight,
) -> Result<RightSide, AllocError>
    ensures { IfOk result (λ v. seen.right v ≡ spec.ghost_right (here around.entry) (before_seen before) (view.ty ty.now) (view.ghost_rhs x.now)) }
{
    match x {
        GhostRight::Value(value) => {
            let value = stored(alloc, around, ty, value)?;
            Ok(RightSide::Compute(value))
        }
        GhostRight::MakeClaim(_, _, _) => Ok(RightSide::NewClaim(before.sites)),
    }
}

/// A ghost assignment.
pub fn ghost_assigned<'s, 'a>(
    alloc: Global,
    around: Around<'s, 'a>,
    before: Counters,
    left: &'a Tree,
    x: &'a GhostRight,
) -> Result<Simple, AllocError>
    ensures { IfOk result (λ v. seen.simple v ≡ spec.ghost_assigned (here around.entry) (before_seen before) (view.exp left.now) (view.ghost_rhs x.now)) }
{
    let place = target(alloc, around, left)?;
    let object = ValueType::Object;
    let ty = type_or(left_type(around, left), &object);
    let (place, value) = pair_with(place, ghost_right(alloc, around, before, ty, x))?;
    Ok(Simple::Assign(place, value))
}

/// The object whose owned set this is.
fn owner_of<'s, 'a>(alloc: Global, around: Around<'s, 'a>, x: &'a Tree) -> Result<Expr, AllocError>
    ensures { IfOk result (λ v. seen.code v ≡ spec.owner_of (here around.entry) (view.exp x.now)) }
{
    match x {
        Tree::Owns(_, owner, _) => code(alloc, around, owner),
        _ => Ok(Expr::Null),
    }
}

/// One expression in a row of its own.
fn alone<'s, 'a>(
    alloc: Global,
    around: Around<'s, 'a>,
    x: &'a Tree,
) -> Result<Vec<Expr>, AllocError>
    ensures { IfOk result (λ v. seen.codes v.items ≡ codes_of.code (here around.entry) (view.exp x.now) ∷ []) }
{
    let mut all = Vec::new(alloc);
    let value = code(alloc, around, x)?;
    all.push(value)?;
    Ok(all)
}

/// What is added to an owned set or taken from it.
fn members_of<'s, 'a>(
    alloc: Global,
    around: Around<'s, 'a>,
    x: &'a Members,
) -> Result<Vec<Expr>, AllocError>
    ensures { IfOk result (λ v. seen.codes v.items ≡ spec.members_of (here around.entry) (view.members x.now)) }
{
    match x {
        Members::One(object) => alone(alloc, around, object),
        Members::Set(objects) => codes(alloc, around, objects),
    }
}

/// A change of this owned set by these members.
fn changed_by<'s, 'a>(
    alloc: Global,
    around: Around<'s, 'a>,
    sign: Sign,
    left: &'a Tree,
    members: Vec<Expr>,
) -> Result<Simple, AllocError>
    ensures { IfOk result (λ v. seen.simple v ≡ t.ChangeOwned sign (spec.owner_of (here around.entry) (view.exp left.now)) (seen.codes members.items)) }
{
    let owner = owner_of(alloc, around, left)?;
    Ok(Simple::ChangeOwned(sign, owner, members))
}

/// A change of an owned set.
pub fn owned_change<'s, 'a>(
    alloc: Global,
    around: Around<'s, 'a>,
    left: &'a Tree,
    change: &'a OwnsChange,
) -> Result<Simple, AllocError>
    ensures { IfOk result (λ v. seen.simple v ≡ spec.owned_change (here around.entry) (view.exp left.now) (view.owns change.now)) }
{
    match change {
        OwnsChange::Set(objects) => {
            let members = codes(alloc, around, objects)?;
            changed_by(alloc, around, Sign::Assigned, left, members)
        }
        OwnsChange::Add(added) => {
            let members = members_of(alloc, around, added)?;
            changed_by(alloc, around, Sign::Added, left, members)
        }
        OwnsChange::Subtract(taken) => {
            let members = members_of(alloc, around, taken)?;
            changed_by(alloc, around, Sign::Removed, left, members)
        }
    }
}

/// The end of a claim of these objects.
pub fn claim_end<'s, 'a>(
    alloc: Global,
    around: Around<'s, 'a>,
    before: Counters,
    claim: &'a Tree,
    objects: &'a [Tree],
) -> Result<Simple, AllocError>
    ensures { IfOk result (λ v. seen.simple v ≡ spec.claim_end (here around.entry) (before_seen before) (view.exp claim.now) (view.exps objects.now)) }
{
    let objects = codes(alloc, around, objects)?;
    let claim = code(alloc, around, claim)?;
    Ok(Simple::EndClaim(before.ended, claim, objects))
}
