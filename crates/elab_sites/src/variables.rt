//! The variables of a function, in order of declaration.

ghost use Rattle.std.specs.Prelude.{◌≡◌, ◌++◌, ◌∷◌, [], map, flat_map, IfOk, OnOk};
ghost use Rattle.c_syntax.specs.Views as view;
ghost use Rattle.typing_symbols.specs.Scopes.{variable};
ghost use Rattle.typed_program.specs.Variables as spec;
ghost use Rattle.elab_sites.specs.Bodies.{declares, ghost_declares, declared_as};

use crate::bodies::{body, else_body, ghost_body, ghost_else_body};
use crate::growth::append;
use c_syntax::expressions::{Identifier, ValueType};
use c_syntax::ghosts::GhostStmt;
use c_syntax::items::{Function, Parameter};
use c_syntax::statements::Stmt;
use std::alloc::{AllocError, Global};
use std::slice::from_ref;
use typing_symbols::variables::Variable;

/// Adds a variable.
fn add<'a>(
    declared: &mut Vec<Variable<'a>>,
    name: &'a Identifier,
    ty: &'a ValueType,
    is_ghost: bool,
) -> Result<(), AllocError>
    ensures { OnOk result (map variable declared.new.items ≡ map variable declared.old.items ++
        declared_as (view.id name.now) (view.ty ty.now) is_ghost ∷ []) }
{
    let one = Variable { name, ty, is_ghost };
    append(declared, one)?;
    Ok(())
}

/// Adds what a ghost statement declares, without those that stand in it.
fn add_ghost<'a>(declared: &mut Vec<Variable<'a>>, x: &'a GhostStmt) -> Result<(), AllocError>
    ensures { OnOk result (map variable declared.new.items ≡ map variable declared.old.items ++
        ghost_declares (view.ghost x.now)) }
{
    match x {
        GhostStmt::Declare(_, ty, name, _) => add(declared, name, ty, true),
        _ => Ok(()),
    }
}

/// Adds what ghost statements declare, with what stands in them.
#[cycle(ghosts)]
fn add_ghosts<'a>(declared: &mut Vec<Variable<'a>>, all: &'a [GhostStmt]) -> Result<(), AllocError>
    ensures { OnOk result (map variable declared.new.items ≡ map variable declared.old.items ++
        flat_map spec.ghost_declared (map view.ghost all.now)) }
{
    for x in all {
        add_ghost(declared, x)?;
        add_ghosts(declared, ghost_body(x))?;
        add_ghosts(declared, ghost_else_body(x))?;
    }
    Ok(())
}

/// Adds what a statement declares, without those that stand in it.
fn add_statement<'a>(declared: &mut Vec<Variable<'a>>, x: &'a Stmt) -> Result<(), AllocError>
    ensures { OnOk result (map variable declared.new.items ≡ map variable declared.old.items ++
        declares (view.stm x.now)) }
{
    match x {
        Stmt::Declare(_, ty, name, _) => add(declared, name, ty, false),
        Stmt::Ghost(_, inner) => add_ghosts(declared, from_ref(inner)),
        _ => Ok(()),
    }
}

/// Adds what statements declare, with what stands in them.
#[cycle(statements)]
fn add_statements<'a>(declared: &mut Vec<Variable<'a>>, all: &'a [Stmt]) -> Result<(), AllocError>
    ensures { OnOk result (map variable declared.new.items ≡ map variable declared.old.items ++
        flat_map spec.declared (map view.stm all.now)) }
{
    for x in all {
        add_statement(declared, x)?;
        add_statements(declared, body(x))?;
        add_statements(declared, else_body(x))?;
    }
    Ok(())
}

/// Adds parameters.
fn add_parameters<'a>(
    declared: &mut Vec<Variable<'a>>,
    all: &'a [Parameter],
    is_ghost: bool,
) -> Result<(), AllocError>
    ensures { OnOk result (map variable declared.new.items ≡ map variable declared.old.items ++
        map (spec.parameter is_ghost) (map view.parameter all.now)) }
{
    for x in all {
        add(declared, &x.name, &x.ty, is_ghost)?;
    }
    Ok(())
}

/// The variables of a function: its parameters, its ghost parameters, and what its body declares.
pub fn variables<'a>(alloc: Global, function: &'a Function) -> Result<Vec<Variable<'a>>, AllocError>
    ensures { IfOk result (λ v. map variable v.items ≡ spec.variables (view.function function.now)) }
{
    let mut declared: Vec<Variable<'a>> = Vec::new(alloc);
    add_parameters(&mut declared, &function.parameters, false)?;
    add_parameters(&mut declared, &function.ghost_parameters, true)?;
    add_statements(&mut declared, &function.body)?;
    Ok(declared)
}

/// The names of variables.
fn names_of<'a>(alloc: Global, all: &[Variable<'a>]) -> Result<Vec<&'a Identifier>, AllocError>
    ensures { IfOk result (λ v. map (λ n. view.id n.now) v.items ≡ map (λ v. v.name) (map variable all.now)) }
{
    let mut names: Vec<&'a Identifier> = Vec::new(alloc);
    for one in all {
        append(&mut names, one.name)?;
    }
    Ok(names)
}

/// The names of a function's variables.
pub fn names<'a>(alloc: Global, function: &'a Function) -> Result<Vec<&'a Identifier>, AllocError>
    ensures { IfOk result (λ v. map (λ n. view.id n.now) v.items ≡ map (λ v. v.name) (spec.variables (view.function function.now))) }
{
    let all = variables(alloc, function)?;
    names_of(alloc, &all)
}
