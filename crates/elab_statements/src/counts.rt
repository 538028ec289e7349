//! How many quantified formulas, ends of claims and new claims stand in statements.

ghost use Rattle.std.specs.Prelude.{◌≡◌, ◌+◌, map, IfOk, option_map};
ghost use Rattle.c_syntax.specs.Grammar.{ghosts_of, stms_of};
ghost use Rattle.c_syntax.specs.Views as view;
ghost use Rattle.elab_assignments.specs.Views.{before as stands};
ghost use Rattle.typed_program.specs.Statements as spec;
ghost use Rattle.typed_program.specs.Annotations.{formulas as formulas_of};

use c_syntax::expressions::Expr;
use c_syntax::ghosts::{GhostRight, GhostStmt};
use c_syntax::statements::{Invariant, Stmt};
use elab_annotations::counts::next_formula;
use elab_assignments::counters::Counters;
use std::alloc::AllocError;

/// What stands behind a right side.
fn behind_right(before: Counters, x: &GhostRight) -> Result<Counters, AllocError>
    ensures { IfOk result (λ n. stands n ≡ spec.plus (stands before) (spec.in_claim (view.ghost_rhs x.now))) }
{
    match x {
        GhostRight::Value(_) => Ok(before),
        GhostRight::MakeClaim(_, _, _) => before.plus(Counters {
            formulas: 0,
            ended: 0,
            sites: 1,
        }),
    }
}

/// What stands behind a first value, if there is one.
fn behind_first(before: Counters, x: &Option<GhostRight>) -> Result<Counters, AllocError>
    ensures { IfOk result (λ n. stands n ≡
        spec.plus (stands before) (spec.in_maybe (option_map view.ghost_rhs x.now))) }
{
    match x {
        None => Ok(before),
        Some(value) => behind_right(before, value),
    }
}

/// What stands behind so many formulas.
pub fn behind_some(before: Counters, count: u32) -> Result<Counters, AllocError>
    ensures { IfOk result (λ n. stands n ≡ spec.plus (stands before) (spec.some_formulas count)) }
{
    before.plus(Counters {
        formulas: count,
        ended: 0,
        sites: 0,
    })
}

/// What stands behind a ghost statement.
#[cycle(ghosts)]
pub fn behind_ghost(before: Counters, x: &GhostStmt) -> Result<Counters, AllocError>
    ensures { IfOk result (λ n. stands n ≡ spec.plus (stands before) (spec.in_ghost (view.ghost x.now))) }
{
    match x {
        GhostStmt::Block(_, all) => behind_ghosts(before, all),
        GhostStmt::Declare(_, _, _, first) => behind_first(before, first),
        GhostStmt::Assign(_, _, _, value) => behind_right(before, value),
        GhostStmt::Owns(_, _, _, _) => Ok(before),
        GhostStmt::DestroyClaim(_, _, _) => before.plus(Counters {
            formulas: 0,
            ended: 1,
            sites: 0,
        }),
        GhostStmt::Wrap(_, _) => behind_some(before, 1),
        GhostStmt::Unwrap(_, _) => Ok(before),
        GhostStmt::If(_, _, yes) => behind_ghost(before, yes),
        GhostStmt::IfElse(_, _, yes, no) => {
            let next = behind_ghost(before, yes)?;
            behind_ghost(next, no)
        }
    }
}

/// What stands behind ghost statements.
#[cycle(ghosts)]
fn behind_ghosts(before: Counters, all: &[GhostStmt]) -> Result<Counters, AllocError>
    ensures { IfOk result (λ n. stands n ≡
        spec.plus (stands before) (spec.in_ghosts (ghosts_of (map view.ghost all.now)))) }
{
    let mut next = before;
    for x in all {
        next = behind_ghost(next, x)?;
    }
    Ok(next)
}

/// The number behind the formulas of a loop's invariants.
fn behind_invariants(first: u32, all: &[Invariant]) -> Result<u32, AllocError>
    ensures { IfOk result (λ n. n ≡ first + spec.in_invariants (map view.invariant all.now)) }
{
    let mut next = first;
    for x in all {
        next = next_formula(next, &x.property)?;
    }
    Ok(next)
}

/// What stands behind an annotation.
fn behind_annotation(before: Counters, x: &Expr) -> Result<Counters, AllocError>
    ensures { IfOk result (λ n. stands n ≡
        spec.plus (stands before) (spec.some_formulas (formulas_of (view.exp x.now)))) }
{
    let formulas = next_formula(before.formulas, x)?;
    Ok(Counters { formulas, ..before })
}

/// What stands behind a loop with these invariants, of which the body is to be counted yet.
fn behind_front(before: Counters, all: &[Invariant]) -> Result<Counters, AllocError>
    ensures { IfOk result (λ n. stands n ≡
        spec.plus (stands before) (spec.some_formulas (spec.in_invariants (map view.invariant all.now)))) }
{
    let formulas = behind_invariants(before.formulas, all)?;
    Ok(Counters { formulas, ..before })
}

/// What stands behind a statement.
#[cycle(statements)]
pub fn behind_statement(before: Counters, x: &Stmt) -> Result<Counters, AllocError>
    ensures { IfOk result (λ n. stands n ≡ spec.plus (stands before) (spec.in_statement (view.stm x.now))) }
{
    match x {
        Stmt::Block(_, all, _) | Stmt::Atomic(_, _, all, _) => behind_statements(before, all),
        Stmt::If(_, _, yes) => behind_statement(before, yes),
        Stmt::IfElse(_, _, yes, no) => {
            let next = behind_statement(before, yes)?;
            behind_statement(next, no)
        }
        Stmt::While(_, _, all, body)
        | Stmt::Do(_, all, body, _, _)
        | Stmt::For(_, _, _, _, all, body) => {
            let next = behind_front(before, all)?;
            behind_statement(next, body)
        }
        Stmt::Assert(_, property) => behind_annotation(before, property),
        Stmt::Ghost(_, inner) => behind_ghost(before, inner),
        Stmt::Wrap(_, _) => behind_some(before, 1),
        Stmt::Unwrapping(_, _, all, _) => {
            let next = behind_some(before, 1)?;
            behind_statements(next, all)
        }
        Stmt::Skip(_)
        | Stmt::Declare(_, _, _, _)
        | Stmt::Assign(_, _)
        | Stmt::Call(_, _)
        | Stmt::Return(_, _)
        | Stmt::Spawn(_, _)
        | Stmt::Free(_, _)
        | Stmt::Unwrap(_, _) => Ok(before),
    }
}

/// What stands behind statements.
#[cycle(statements)]
pub fn behind_statements(before: Counters, all: &[Stmt]) -> Result<Counters, AllocError>
    ensures { IfOk result (λ n. stands n ≡
        spec.plus (stands before) (spec.in_statements (stms_of (map view.stm all.now)))) }
{
    let mut next = before;
    for x in all {
        next = behind_statement(next, x)?;
    }
    Ok(next)
}
