//! How high ghost statements are.

ghost use Rattle.std.specs.Prelude.{◌≡◌, ◌<◌, ◌≤◌, map};
ghost use Rattle.c_syntax.specs.Views as view;
ghost use Rattle.tree_heights.specs.Heights as h;
ghost use Rattle.tree_heights.specs.Parts as p;

use crate::expressions::{expression, greatest_expression};
use c_syntax::ghosts::{GhostRight, GhostStmt, Members, OwnsChange};

/// How high it is what is added to an owned set or taken from it.
fn members(x: &Members) -> u32
    requires few { p.members (view.members x.now) < 1073741824 }
    ensures high { result ≡ h.members (view.members x.now) }
    ensures low { result ≤ p.members (view.members x.now) }
{
    match x {
        Members::One(object) => expression(object),
        Members::Set(objects) => greatest_expression(objects),
    }
}

/// How high it is what stands right of an owned set.
fn owns_change(x: &OwnsChange) -> u32
    requires few { p.owns_effect (view.owns x.now) < 1073741824 }
    ensures high { result ≡ h.owns_effect (view.owns x.now) }
    ensures low { result ≤ p.owns_effect (view.owns x.now) }
{
    match x {
        OwnsChange::Set(objects) => greatest_expression(objects),
        OwnsChange::Add(added) => members(added),
        OwnsChange::Subtract(taken) => members(taken),
    }
}

/// How high a right side of ghost code is.
fn ghost_right(x: &GhostRight) -> u32
    requires few { p.ghost_right (view.ghost_rhs x.now) < 1073741824 }
    ensures high { result ≡ h.ghost_right (view.ghost_rhs x.now) }
    ensures low { result ≤ p.ghost_right (view.ghost_rhs x.now) }
{
    match x {
        GhostRight::Value(value) => expression(value),
        GhostRight::MakeClaim(_, objects, property) => {
            1 + greatest_expression(objects).max(expression(property))
        }
    }
}

/// How high a ghost statement is.
#[cycle(ghosts)]
pub(crate) fn ghost_statement(x: &GhostStmt) -> u32
    requires few { p.ghost_statement (view.ghost x.now) < 1073741824 }
    ensures high { result ≡ h.ghost_statement (view.ghost x.now) }
    ensures low { result ≤ p.ghost_statement (view.ghost x.now) }
{
    match x {
        GhostStmt::Block(_, all) => 1 + greatest_ghost_statement(all),
        GhostStmt::Declare(_, _, _, None) => 2,
        GhostStmt::Declare(_, _, _, Some(first)) => 1 + ghost_right(first).max(1),
        GhostStmt::Assign(_, left, _, value) => 1 + expression(left).max(ghost_right(value)),
        GhostStmt::Owns(_, left, _, change) => 1 + expression(left).max(owns_change(change)),
        GhostStmt::DestroyClaim(_, claim, objects) => {
            1 + expression(claim).max(greatest_expression(objects))
        }
        GhostStmt::Wrap(_, object) => 1 + expression(object),
        GhostStmt::Unwrap(_, object) => 1 + expression(object),
        GhostStmt::If(_, test, yes) => 1 + expression(test).max(ghost_statement(yes)),
        GhostStmt::IfElse(_, test, first, second) => {
            1 + expression(test)
                .max(ghost_statement(first))
                .max(ghost_statement(second))
        }
    }
}

/// The greatest height of ghost statements, 0 of none.
#[cycle(ghosts)]
fn greatest_ghost_statement(all: &[GhostStmt]) -> u32
    requires few { p.all p.ghost_statement (map view.ghost all.now) < 1073741824 }
    ensures high { result ≡ h.greatest h.ghost_statement (map view.ghost all.now) }
    ensures low { result ≤ p.all p.ghost_statement (map view.ghost all.now) }
{
    let mut most = 0;
    for x in all {
        most = most.max(ghost_statement(x));
    }
    most
}
