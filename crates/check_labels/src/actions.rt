//! The checks of an action.

ghost use Rattle.std.specs.Prelude.{◌≡◌, ◌++◌, IfOk, Some, replicate, slice_get};
ghost use Rattle.method.specs.Actions.{listed_exprs, plain_listed};
ghost use Rattle.method.specs.Labels as spec;
ghost use Rattle.method.specs.declared.program.CheckKind.TheVariants.{Invariant};
ghost use Rattle.check_labels.specs.Kinds as own;
ghost use Rattle.check_labels.specs.Kinds.{closing_kinds};
ghost use Rattle.check_labels.specs.Labels.{checks_of};

use crate::inner::add_block_labels;
use crate::kinds::{add_all_kinds, add_each, add_kinds, add_times};
use crate::lines::{Label, add_on_line};
use crate::simples::{add_right_kinds, add_simple_kinds};
use crate::tables::function_of;
use crate::tallies::block_tally;
use method::program::{Action, CheckKind, Expr, FunctionInfo, Inner, Listed, Program};
use std::alloc::{AllocError, Global};

/// What a wrap checks behind its object.
pub const WRAPPING: [CheckKind; 4] = [
    CheckKind::Wrap,
    CheckKind::Writes,
    CheckKind::Wrap,
    CheckKind::Invariant,
];

/// Adds what a wrap checks.
fn add_wrap_kinds(object: &Expr, kinds: &mut Vec<CheckKind>) -> Result<(), AllocError>
    ensures { IfOk result (λ u. kinds.new.items ≡ kinds.old.items ++ own.wrap_kinds object.now) }
{
    add_kinds(object, kinds)?;
    add_each(&WRAPPING, kinds)?;
    Ok(())
}

/// Adds what an unwrap checks.
pub fn add_unwrap_kinds(object: &Expr, kinds: &mut Vec<CheckKind>) -> Result<(), AllocError>
    ensures { IfOk result (λ u. kinds.new.items ≡ kinds.old.items ++ own.unwrap_kinds object.now) }
{
    add_kinds(object, kinds)?;
    add_each(
        &[CheckKind::Unwrap, CheckKind::Writes, CheckKind::Claimed],
        kinds,
    )?;
    Ok(())
}

/// Adds what a `free` checks.
fn add_free_kinds(object: &Expr, kinds: &mut Vec<CheckKind>) -> Result<(), AllocError>
    ensures { IfOk result (λ u. kinds.new.items ≡ kinds.old.items ++ own.free_kinds object.now) }
{
    add_kinds(object, kinds)?;
    add_each(&[CheckKind::Free, CheckKind::Writes], kinds)?;
    Ok(())
}

/// Adds what the start of a thread checks of its function.
fn add_entry_kinds(function: &FunctionInfo, kinds: &mut Vec<CheckKind>) -> Result<(), AllocError>
    ensures { IfOk result (λ u. kinds.new.items ≡ kinds.old.items ++ spec.spawn_kinds (Some function.now)) }
{
    add_times(CheckKind::Spawn, function.writes.len(), kinds)?;
    add_times(CheckKind::Spawn, function.requires_.len(), kinds)?;
    Ok(())
}

/// Adds what the start of a thread checks of the function of this number.
fn add_started_kinds(
    program: &Program,
    number: u32,
    kinds: &mut Vec<CheckKind>,
) -> Result<(), AllocError>
    ensures { IfOk result (λ u. kinds.new.items ≡ kinds.old.items ++
        spec.spawn_kinds (slice_get program.now.functions.items number)) }
{
    match function_of(program, number) {
        None => Ok(()),
        Some(function) => {
            add_entry_kinds(function, kinds)?;
            Ok(())
        }
    }
}

/// Adds what the start of a thread checks.
fn add_spawn_kinds(
    program: &Program,
    number: u32,
    arguments: &[Expr],
    kinds: &mut Vec<CheckKind>,
) -> Result<(), AllocError>
    ensures { IfOk result (λ u. kinds.new.items ≡ kinds.old.items ++ own.spawn_kinds program.now number arguments.now) }
{
    add_all_kinds(arguments, kinds)?;
    add_started_kinds(program, number, kinds)?;
    Ok(())
}

/// Adds what the action checks; of an atomic block nothing.
fn add_action_kinds(
    program: &Program,
    action: &Action,
    kinds: &mut Vec<CheckKind>,
) -> Result<(), AllocError>
    ensures { IfOk result (λ u. kinds.new.items ≡ kinds.old.items ++ own.action_kinds program.now action.now) }
{
    match action {
        Action::Simply(statement) => add_simple_kinds(program, false, statement, kinds),
        Action::Declare(_) | Action::Atomic(_, _) => Ok(()),
        Action::Define(_, right) => add_right_kinds(program, false, right, kinds),
        Action::WrapObject(_, _, object) => add_wrap_kinds(object, kinds),
        Action::UnwrapObject(object) => add_unwrap_kinds(object, kinds),
        Action::AssertSpec(_) => {
            kinds.push(CheckKind::Assert)?;
            Ok(())
        }
        Action::FreeObject(object) => add_free_kinds(object, kinds),
        Action::SpawnThread(function, arguments) => {
            add_spawn_kinds(program, *function, arguments, kinds)?;
            Ok(())
        }
    }
}

/// Adds what the listed objects check.
fn add_listed_kinds(listed: &[Listed], kinds: &mut Vec<CheckKind>) -> Result<(), AllocError>
    ensures { IfOk result (λ u. kinds.new.items ≡ kinds.old.items ++ spec.all_kinds (listed_exprs listed.now)) }
{
    for entry in listed {
        add_kinds(&entry.object, kinds)?;
    }
    Ok(())
}

/// Adds, for a listed object that isn't a claim, that its invariant holds at the block's end.
fn add_plain_kind(entry: &Listed, kinds: &mut Vec<CheckKind>) -> Result<(), AllocError>
    ensures { IfOk result (λ u. kinds.new.items ≡ kinds.old.items ++ own.plain_kinds entry.now) }
{
    if entry.is_claim {
        return Ok(());
    }
    kinds.push(CheckKind::Invariant)?;
    Ok(())
}

/// Adds, for each listed object that isn't a claim, that its invariant holds at the block's end.

fn add_plain_kinds(listed: &[Listed], kinds: &mut Vec<CheckKind>) -> Result<(), AllocError>
    ensures { IfOk result (λ u. kinds.new.items ≡ kinds.old.items ++ replicate (plain_listed listed.now) Invariant) }
{
    for entry in listed {
        add_plain_kind(entry, kinds)?;
    }
    Ok(())
}

/// Adds the checks of an atomic block in front of its statements.
fn add_opening_labels(
    alloc: Global,
    line: u32,
    listed: &[Listed],
    labels: &mut Vec<Label>,
) -> Result<(), AllocError>
    ensures { IfOk result (λ u. checks_of labels.new.items ≡
        checks_of labels.old.items ++ spec.on_line line (own.opening_kinds listed.now)) }
{
    let mut kinds = Vec::new(alloc);
    add_listed_kinds(listed, &mut kinds)?;
    add_times(CheckKind::AtomicClosed, listed.len(), &mut kinds)?;
    add_on_line(line, &kinds, labels)?;
    Ok(())
}

/// Adds what an atomic block checks at its end.
#[tactic(auto, using(std::proofs::lemmas::List::append_assoc))]
fn add_closing_kinds(
    program: &Program,
    listed: &[Listed],
    body: &[Inner],
    kinds: &mut Vec<CheckKind>,
) -> Result<(), AllocError>
    ensures { IfOk result (λ u. kinds.new.items ≡ kinds.old.items ++ closing_kinds program.now listed.now body.now) }
{
    let tally = block_tally(program, body)?;
    add_plain_kinds(listed, kinds)?;
    add_times(CheckKind::Invariant, tally.objects, kinds)?;
    add_times(CheckKind::Invariant, tally.claims, kinds)?;
    Ok(())
}

/// Adds the checks of an atomic block at its end.
fn add_closing_labels(
    alloc: Global,
    program: &Program,
    line: u32,
    listed: &[Listed],
    body: &[Inner],
    labels: &mut Vec<Label>,
) -> Result<(), AllocError>
    ensures { IfOk result (λ u. checks_of labels.new.items ≡
        checks_of labels.old.items ++ spec.on_line line (closing_kinds program.now listed.now body.now)) }
{
    let mut kinds = Vec::new(alloc);
    add_closing_kinds(program, listed, body, &mut kinds)?;
    add_on_line(line, &kinds, labels)?;
    Ok(())
}

/// Adds the checks of an atomic block.
#[tactic(auto, using(std::proofs::lemmas::List::append_assoc))]
fn add_atomic_labels(
    alloc: Global,
    program: &Program,
    line: u32,
    listed: &[Listed],
    body: &[Inner],
    labels: &mut Vec<Label>,
) -> Result<(), AllocError>
    ensures { IfOk result (λ u. checks_of labels.new.items ≡
        checks_of labels.old.items ++ own.atomic_labels program.now line listed.now body.now) }
{
    add_opening_labels(alloc, line, listed, labels)?;
    add_block_labels(alloc, program, body, labels)?;
    add_closing_labels(alloc, program, line, listed, body, labels)?;
    Ok(())
}

/// Adds the checks of an action that is no atomic block.
fn add_plain_action_labels(
    alloc: Global,
    program: &Program,
    line: u32,
    action: &Action,
    labels: &mut Vec<Label>,
) -> Result<(), AllocError>
    ensures { IfOk result (λ u. checks_of labels.new.items ≡
        checks_of labels.old.items ++ spec.on_line line (own.action_kinds program.now action.now)) }
{
    let mut kinds = Vec::new(alloc);
    add_action_kinds(program, action, &mut kinds)?;
    add_on_line(line, &kinds, labels)?;
    Ok(())
}

/// Adds the checks of the action.
pub fn add_action_labels(
    alloc: Global,
    program: &Program,
    line: u32,
    action: &Action,
    labels: &mut Vec<Label>,
) -> Result<(), AllocError>
    ensures { IfOk result (λ u. checks_of labels.new.items ≡
        checks_of labels.old.items ++ spec.action_labels program.now line action.now) }
{
    match action {
        Action::Atomic(listed, body) => {
            add_atomic_labels(alloc, program, line, listed, body, labels)?;
            Ok(())
        }
        _ => {
            add_plain_action_labels(alloc, program, line, action, labels)?;
            Ok(())
        }
    }
}
