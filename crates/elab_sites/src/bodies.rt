//! The statements that stand in a statement. One alone stands there like a block of it.

ghost use Rattle.std.specs.Prelude.{◌≡◌, map};
ghost use Rattle.c_syntax.specs.Views as view;
ghost use Rattle.elab_sites.specs.Bodies as spec;

use c_syntax::ghosts::GhostStmt;
use c_syntax::statements::Stmt;
use std::slice::from_ref;

/// The statements that stand in a statement, but for one behind an `else`.
pub fn body(x: &Stmt) -> &[Stmt]
    ensures { map view.stm result.now ≡ spec.body (view.stm x.now) }
{
    match x {
        Stmt::Block(_, all, _) => all,
        Stmt::Unwrapping(_, _, all, _) => all,
        Stmt::Atomic(_, _, all, _) => all,
        Stmt::If(_, _, inner) | Stmt::IfElse(_, _, inner, _) => from_ref(inner),
        Stmt::While(_, _, _, inner) | Stmt::Do(_, _, inner, _, _) => from_ref(inner),
        Stmt::For(_, _, _, _, _, inner) => from_ref(inner),
        Stmt::Skip(_) | Stmt::Declare(_, _, _, _) | Stmt::Assign(_, _) | Stmt::Call(_, _) => &[],
        Stmt::Return(_, _) | Stmt::Spawn(_, _) | Stmt::Free(_, _) | Stmt::Assert(_, _) => &[],
        Stmt::Ghost(_, _) | Stmt::Wrap(_, _) | Stmt::Unwrap(_, _) => &[],
    }
}

/// The statement behind an `else`, if there is one.
pub fn else_body(x: &Stmt) -> &[Stmt]
    ensures { map view.stm result.now ≡ spec.else_body (view.stm x.now) }
{
    match x {
        Stmt::IfElse(_, _, _, no) => from_ref(no),
        _ => &[],
    }
}

/// The statements that stand in a ghost statement, but for one behind an `else`.
pub fn ghost_body(x: &GhostStmt) -> &[GhostStmt]
    ensures { map view.ghost result.now ≡ spec.ghost_body (view.ghost x.now) }
{
    match x {
        GhostStmt::Block(_, all) => all,
        GhostStmt::If(_, _, yes) | GhostStmt::IfElse(_, _, yes, _) => from_ref(yes),
        GhostStmt::Declare(_, _, _, _) | GhostStmt::Assign(_, _, _, _) => &[],
        GhostStmt::Owns(_, _, _, _) | GhostStmt::DestroyClaim(_, _, _) => &[],
        GhostStmt::Wrap(_, _) | GhostStmt::Unwrap(_, _) => &[],
    }
}

/// The ghost statement behind an `else`, if there is one.
pub fn ghost_else_body(x: &GhostStmt) -> &[GhostStmt]
    ensures { map view.ghost result.now ≡ spec.ghost_else_body (view.ghost x.now) }
{
    match x {
        GhostStmt::IfElse(_, _, _, no) => from_ref(no),
        _ => &[],
    }
}
