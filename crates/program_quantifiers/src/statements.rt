//! The quantified formulas of statements, in the order of the text.

ghost use Rattle.std.specs.Prelude.{◌∷◌, [], OnOk, flat_map, length};
ghost use Rattle.conditions.specs.Quantified as spec;
ghost use Rattle.annotation_scenes.specs.Scenes.{IsScene};
ghost use Rattle.program_quantifiers.specs.Quantifiers.{Adds};
ghost use Rattle.program_quantifiers.specs.Statements.{members_at, statements_quantifiers};

use crate::annotations::{add_annotation, add_annotations};
use crate::quantifiers::Quantifiers;
use crate::tables::has_fixed_owns;
use annotation_scenes::scene::Scene;
use method::program::{Action, Expr, FunctionInfo, Inner, Program, Simple, Stmt};
use quantified_formulas::members::{listed_objects, members};
use std::alloc::{AllocError, Global};

/// Adds the formula of a claim's end.
fn add_listed(
    alloc: Global,
    list: &mut Quantifiers,
    number: u32,
    objects: &[Expr],
) -> Result<(), AllocError>
    ensures { OnOk result (Adds list.old list.new (spec.listed_quantified number (length objects.now) ∷ [])) }
{
    let one = listed_objects(alloc, &mut list.graph, number, objects)?;
    list.formulas.push(one)?;
    Ok(())
}

/// Adds the formula of a claim's end; other statements that may stand in an atomic block have none.
fn add_simple(alloc: Global, list: &mut Quantifiers, statement: &Simple) -> Result<(), AllocError>
    ensures { OnOk result (Adds list.old list.new (spec.simple_quantifiers statement.now)) }
{
    match statement {
        Simple::EndClaim(number, _, objects) => add_listed(alloc, list, *number, objects),
        Simple::Assign(_, _) | Simple::ChangeOwned(_, _, _) => Ok(()),
    }
}

/// Adds the formulas of a statement in an atomic block.
#[cycle(add_inner)]
fn add_inner(alloc: Global, list: &mut Quantifiers, statement: &Inner) -> Result<(), AllocError>
    ensures { OnOk result (Adds list.old list.new (spec.inner_quantifiers statement.now)) }
{
    match statement {
        Inner::Inside(_, one) => add_simple(alloc, list, one),
        Inner::InsideIf(_, _, passed, failed) => {
            add_block(alloc, list, passed)?;
            add_block(alloc, list, failed)
        }
    }
}

/// Adds the formulas of the statements in an atomic block.
#[cycle(add_inner)]
fn add_block(alloc: Global, list: &mut Quantifiers, row: &[Inner]) -> Result<(), AllocError>
    ensures { OnOk result (Adds list.old list.new (flat_map spec.inner_quantifiers row.now)) }
{
    for statement in row {
        add_inner(alloc, list, statement)?;
    }
    Ok(())
}

/// Adds the formula of a wrap of an object of this type, or of an unwrapping block's end.
fn add_members(
    alloc: Global,
    list: &mut Quantifiers,
    program: &Program,
    f: &FunctionInfo,
    ty: u32,
    number: u32,
) -> Result<(), AllocError>
    ensures { OnOk result (Adds list.old list.new (members_at program.now f.now ty number ∷ [])) }
{
    let is_fixed = has_fixed_owns(program, ty);
    let one = members(alloc, &mut list.graph, is_fixed, number, &f.writes)?;
    list.formulas.push(one)?;
    Ok(())
}

/// Adds the formulas of an action of the function; the scene holds the function's words.
fn add_action(
    alloc: Global,
    list: &mut Quantifiers,
    program: &Program,
    f: &FunctionInfo,
    scene: &Scene<'_>,
    action: &Action,
) -> Result<(), AllocError>
    ensures { IsScene list.old.graph scene.now (spec.function_words f.now) →
        OnOk result (Adds list.old list.new (spec.action_quantifiers program.now f.now action.now)) }
{
    match action {
        Action::Simply(statement) => add_simple(alloc, list, statement),
        Action::WrapObject(ty, number, _) => add_members(alloc, list, program, f, *ty, *number),
        Action::AssertSpec(e) => add_annotation(alloc, list, program, e, scene),
        Action::Atomic(_, body) => add_block(alloc, list, body),
        Action::Declare(_)
        | Action::Define(_, _)
        | Action::UnwrapObject(_)
        | Action::FreeObject(_)
        | Action::SpawnThread(_, _) => Ok(()),
    }
}

/// Adds the formulas of a statement of the function; the scene holds the function's words.
#[cycle(add_statement)]
fn add_statement(
    alloc: Global,
    list: &mut Quantifiers,
    program: &Program,
    f: &FunctionInfo,
    scene: &Scene<'_>,
    statement: &Stmt,
) -> Result<(), AllocError>
    ensures { IsScene list.old.graph scene.now (spec.function_words f.now) →
        OnOk result (Adds list.old list.new (spec.stmt_quantifiers program.now f.now statement.now)) }
{
    match statement {
        Stmt::Do(_, action) => add_action(alloc, list, program, f, scene, action),
        Stmt::If(_, _, _, passed, failed) => {
            add_statements(alloc, list, program, f, scene, passed)?;
            add_statements(alloc, list, program, f, scene, failed)
        }
        Stmt::While(_, invariants, _, body) => {
            add_annotations(alloc, list, program, invariants, scene)?;
            add_statements(alloc, list, program, f, scene, body)
        }
        Stmt::DoWhile(_, invariants, body, _, _) => {
            add_annotations(alloc, list, program, invariants, scene)?;
            add_statements(alloc, list, program, f, scene, body)
        }
        Stmt::Unwrapping(_, ty, number, _, body) => {
            add_members(alloc, list, program, f, *ty, *number)?;
            add_statements(alloc, list, program, f, scene, body)
        }
        Stmt::Call(_, _, _, _, _) | Stmt::Return(_, _) => Ok(()),
    }
}

/// Adds the formulas of statements of the function; the scene holds the function's words.
#[cycle(add_statement)]
pub fn add_statements(
    alloc: Global,
    list: &mut Quantifiers,
    program: &Program,
    f: &FunctionInfo,
    scene: &Scene<'_>,
    row: &[Stmt],
) -> Result<(), AllocError>
    ensures { IsScene list.old.graph scene.now (spec.function_words f.now) →
        OnOk result (Adds list.old list.new (statements_quantifiers program.now f.now row.now)) }
{
    for statement in row {
        add_statement(alloc, list, program, f, scene, statement)?;
    }
    Ok(())
}
