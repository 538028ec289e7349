//! The labels of a program's checks, in the order of its text.

ghost use Rattle.std.specs.Prelude.{◌≡◌, ◌++◌, IfOk};
ghost use Rattle.method.specs.Labels as spec;
ghost use Rattle.method.specs.Labels.{struct_labels};
ghost use Rattle.check_labels.specs.Kinds as own;
ghost use Rattle.check_labels.specs.Labels.{checks_of, labels_of, items_labels};

use crate::kinds::add_times;
use crate::lines::{Label, add_on_line};
use crate::statements::add_body_labels;
use crate::tables::{function_of, struct_of};
use method::program::{CheckKind, FunctionInfo, Item, Program, StructInfo};
use std::alloc::{AllocError, Global};

/// A check of the program: the item that it belongs to, its ordinal there from 1, its kind and its line.
#[derive(Clone, Copy, Debug, PartialEq, Eq)]
pub struct ProgramLabel {
    pub item: Item,
    pub ordinal: usize,
    pub kind: CheckKind,
    pub line: u32,
}

/// Adds the checks at the function's end.
fn add_end_labels(
    alloc: Global,
    function: &FunctionInfo,
    labels: &mut Vec<Label>,
) -> Result<(), AllocError>
    ensures { IfOk result (λ u. checks_of labels.new.items ≡
        checks_of labels.old.items ++ own.end_labels function.now function.now.result) }
{
    if function.result.is_some() {
        return Ok(());
    }
    let mut kinds = Vec::new(alloc);
    add_times(CheckKind::Ensures, function.ensures_.len(), &mut kinds)?;
    add_on_line(function.end, &kinds, labels)?;
    Ok(())
}

/// Adds the checks of the function.
#[tactic(auto, using(std::proofs::lemmas::List::append_assoc, crate::proofs::Steps::end_law))]
fn add_function_labels(
    alloc: Global,
    program: &Program,
    function: &FunctionInfo,
    labels: &mut Vec<Label>,
) -> Result<(), AllocError>
    ensures { IfOk result (λ u. checks_of labels.new.items ≡
        checks_of labels.old.items ++ spec.labels program.now function.now) }
{
    add_body_labels(alloc, program, function, &function.body, labels)?;
    add_end_labels(alloc, function, labels)?;
    Ok(())
}

/// Adds the checks of the struct.
fn add_struct_labels(info: &StructInfo, labels: &mut Vec<Label>) -> Result<(), AllocError>
    ensures { IfOk result (λ u. checks_of labels.new.items ≡ checks_of labels.old.items ++ struct_labels info.now) }
{
    if info.invariants.len() == 0 && !info.has_approval {
        return Ok(());
    }
    add_on_line(
        info.line,
        &[CheckKind::Reflexive, CheckKind::Stable],
        labels,
    )?;
    Ok(())
}

/// Adds the checks of the struct with the number.
fn add_struct(program: &Program, number: u32, labels: &mut Vec<Label>) -> Result<(), AllocError>
    ensures { IfOk result (λ u. checks_of labels.new.items ≡
        checks_of labels.old.items ++ spec.item_labels program.now (Item.Struct number)) }
{
    match struct_of(program, number) {
        None => Ok(()),
        Some(info) => {
            add_struct_labels(info, labels)?;
            Ok(())
        }
    }
}

/// Adds the checks of the function with the number.
fn add_function(
    alloc: Global,
    program: &Program,
    number: u32,
    labels: &mut Vec<Label>,
) -> Result<(), AllocError>
    ensures { IfOk result (λ u. checks_of labels.new.items ≡
        checks_of labels.old.items ++ spec.item_labels program.now (Item.Function number)) }
{
    match function_of(program, number) {
        None => Ok(()),
        Some(function) => {
            add_function_labels(alloc, program, function, labels)?;
            Ok(())
        }
    }
}

/// Adds the checks of the item.
fn add_item_labels(
    alloc: Global,
    program: &Program,
    item: Item,
    labels: &mut Vec<Label>,
) -> Result<(), AllocError>
    ensures { IfOk result (λ u. checks_of labels.new.items ≡
        checks_of labels.old.items ++ spec.item_labels program.now item) }
{
    match item {
        Item::Struct(number) => add_struct(program, number, labels),
        Item::Function(number) => add_function(alloc, program, number, labels),
    }
}

/// Adds the checks, numbered from 1 on, as labels of the item.
#[tactic(auto, using(crate::proofs::Steps::labels_pushed))]
fn add_numbered(
    item: Item,
    checks: &[Label],
    labels: &mut Vec<ProgramLabel>,
) -> Result<(), AllocError>
    ensures { IfOk result (λ u. labels_of labels.new.items ≡
        labels_of labels.old.items ++ spec.numbered item 1 (checks_of checks.now)) }
{
    let mut ordinal: usize = 1;
    for check in checks {
        let Some(next) = ordinal.checked_add(1) else {
            return Err(AllocError);
        };
        labels.push(ProgramLabel {
            item,
            ordinal,
            kind: check.kind,
            line: check.line,
        })?;
        ordinal = next;
    }
    Ok(())
}

/// Adds the labels of the item.
fn add_item(
    alloc: Global,
    program: &Program,
    item: Item,
    labels: &mut Vec<ProgramLabel>,
) -> Result<(), AllocError>
    ensures { IfOk result (λ u. labels_of labels.new.items ≡
        labels_of labels.old.items ++ spec.numbered item 1 (spec.item_labels program.now item)) }
{
    let mut checks = Vec::new(alloc);
    add_item_labels(alloc, program, item, &mut checks)?;
    add_numbered(item, &checks, labels)?;
    Ok(())
}

/// Adds the labels of the items.
fn add_items(
    alloc: Global,
    program: &Program,
    items: &[Item],
    labels: &mut Vec<ProgramLabel>,
) -> Result<(), AllocError>
    ensures { IfOk result (λ u. labels_of labels.new.items ≡
        labels_of labels.old.items ++ items_labels program.now items.now) }
{
    for &item in items {
        add_item(alloc, program, item, labels)?;
    }
    Ok(())
}

/// The labels of the program.
pub fn program_labels(alloc: Global, program: &Program) -> Result<Vec<ProgramLabel>, AllocError>
    ensures { IfOk result (λ ls. labels_of ls.items ≡ spec.program_labels program.now) }
{
    let mut labels = Vec::new(alloc);
    add_items(alloc, program, &program.items, &mut labels)?;
    Ok(labels)
}
