//! The variables that functions declare.

ghost use Rattle.std.specs.Prelude.{◌≡◌, ◌++◌, map, flat_map, IfOk, OnOk};
ghost use Rattle.c_syntax.specs.Views as view;
ghost use Rattle.typing_spec.specs.DeclaredVariables as spec;
ghost use Rattle.typing_program.specs.Names.{held};

use c_syntax::expressions::Identifier;
use c_syntax::ghosts::GhostStmt;
use c_syntax::items::{Function, Parameter};
use c_syntax::statements::Stmt;
use std::alloc::{AllocError, Global};

/// Adds the names that a ghost statement declares, with what stands in it.
#[cycle(ghosts)]
fn add_ghost<'a>(names: &mut Vec<&'a Identifier>, x: &'a GhostStmt) -> Result<(), AllocError>
    ensures { OnOk result (held names.new.items ≡ held names.old.items ++ spec.ghost_names (view.ghost x.now)) }
{
    match x {
        GhostStmt::Block(_, all) => add_ghosts(names, all),
        GhostStmt::Declare(_, _, name, _) => {
            names.push(name)?;
            Ok(())
        }
        GhostStmt::Assign(_, _, _, _) | GhostStmt::Owns(_, _, _, _) => Ok(()),
        GhostStmt::DestroyClaim(_, _, _) => Ok(()),
        GhostStmt::Wrap(_, _) | GhostStmt::Unwrap(_, _) => Ok(()),
        GhostStmt::If(_, _, yes) => add_ghost(names, yes),
        GhostStmt::IfElse(_, _, yes, no) => {
            add_ghost(names, yes)?;
            add_ghost(names, no)?;
            Ok(())
        }
    }
}

/// Adds the names that ghost statements declare.
#[cycle(ghosts)]
fn add_ghosts<'a>(names: &mut Vec<&'a Identifier>, all: &'a [GhostStmt]) -> Result<(), AllocError>
    ensures { OnOk result (held names.new.items ≡ held names.old.items ++ flat_map spec.ghost_names (map view.ghost all.now)) }
{
    for x in all {
        add_ghost(names, x)?;
    }
    Ok(())
}

/// Adds the names that a statement declares, with what stands in it.
#[cycle(statements)]
fn add_statement<'a>(names: &mut Vec<&'a Identifier>, x: &'a Stmt) -> Result<(), AllocError>
    ensures { OnOk result (held names.new.items ≡ held names.old.items ++ spec.statement_names (view.stm x.now)) }
{
    match x {
        Stmt::Declare(_, _, name, _) => {
            names.push(name)?;
            Ok(())
        }
        Stmt::Ghost(_, inner) => add_ghost(names, inner),
        Stmt::Block(_, all, _) => add_statements(names, all),
        Stmt::Unwrapping(_, _, all, _) => add_statements(names, all),
        Stmt::Atomic(_, _, all, _) => add_statements(names, all),
        Stmt::If(_, _, yes) => add_statement(names, yes),
        Stmt::IfElse(_, _, yes, no) => {
            add_statement(names, yes)?;
            add_statement(names, no)?;
            Ok(())
        }
        Stmt::While(_, _, _, body) => add_statement(names, body),
        Stmt::Do(_, _, body, _, _) => add_statement(names, body),
        Stmt::For(_, _, _, _, _, body) => add_statement(names, body),
        Stmt::Skip(_) | Stmt::Assign(_, _) | Stmt::Return(_, _) => Ok(()),
        Stmt::Call(_, _) | Stmt::Spawn(_, _) => Ok(()),
        Stmt::Free(_, _) | Stmt::Assert(_, _) | Stmt::Wrap(_, _) | Stmt::Unwrap(_, _) => Ok(()),
    }
}

/// Adds the names that statements declare.
#[cycle(statements)]
fn add_statements<'a>(names: &mut Vec<&'a Identifier>, all: &'a [Stmt]) -> Result<(), AllocError>
    ensures { OnOk result (held names.new.items ≡ held names.old.items ++ flat_map spec.statement_names (map view.stm all.now)) }
{
    for x in all {
        add_statement(names, x)?;
    }
    Ok(())
}

/// Adds the names of parameters.
fn add_parameters<'a>(
    names: &mut Vec<&'a Identifier>,
    all: &'a [Parameter],
) -> Result<(), AllocError>
    ensures { OnOk result (held names.new.items ≡ held names.old.items ++ spec.parameter_names (map view.parameter all.now)) }
{
    for x in all {
        names.push(&x.name)?;
    }
    Ok(())
}

/// The variables of a function in the order of the text: its parameters, its ghost parameters, and what its body declares.
pub fn variables_of<'a>(alloc: Global, x: &'a Function) -> Result<Vec<&'a Identifier>, AllocError>
    ensures { IfOk result (λ v. held v.items ≡ spec.function_names (view.function x.now)) }
{
    let mut names: Vec<&'a Identifier> = Vec::new(alloc);
    add_parameters(&mut names, &x.parameters)?;
    add_parameters(&mut names, &x.ghost_parameters)?;
    add_statements(&mut names, &x.body)?;
    Ok(names)
}
