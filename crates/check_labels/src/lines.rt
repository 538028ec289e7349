//! Checks of a function, each with its line.

ghost use Rattle.std.specs.Prelude.{◌≡◌, ◌++◌, IfOk};
ghost use Rattle.method.specs.Labels as spec;
ghost use Rattle.method.specs.Labels.{on_line};
ghost use Rattle.check_labels.specs.Kinds as own;
ghost use Rattle.check_labels.specs.Labels.{checks_of};

use crate::kinds::{add_kinds, add_times};
use method::program::{CheckKind, Expr, Spec};
use std::alloc::{AllocError, Global};

/// The kind and line of a check.
#[derive(Clone, Copy, Debug, PartialEq, Eq)]
pub struct Label {
    pub kind: CheckKind,
    pub line: u32,
}

/// Adds checks of these kinds on the line.
#[tactic(auto, using(crate::proofs::Steps::checks_pushed))]
pub fn add_on_line(
    line: u32,
    kinds: &[CheckKind],
    labels: &mut Vec<Label>,
) -> Result<(), AllocError>
    ensures { IfOk result (λ u. checks_of labels.new.items ≡ checks_of labels.old.items ++ on_line line kinds.now) }
{
    for &kind in kinds {
        labels.push(Label { kind, line })?;
    }
    Ok(())
}

/// Adds the checks of an expression on the line.
pub fn add_test_labels(
    alloc: Global,
    line: u32,
    e: &Expr,
    labels: &mut Vec<Label>,
) -> Result<(), AllocError>
    ensures { IfOk result (λ u. checks_of labels.new.items ≡
        checks_of labels.old.items ++ on_line line (spec.kinds e.now)) }
{
    let mut kinds = Vec::new(alloc);
    add_kinds(e, &mut kinds)?;
    add_on_line(line, &kinds, labels)?;
    Ok(())
}

/// Adds the checks of a loop's invariants on the line.
pub fn add_invariant_labels(
    alloc: Global,
    line: u32,
    invariants: &[Spec],
    labels: &mut Vec<Label>,
) -> Result<(), AllocError>
    ensures { IfOk result (λ u. checks_of labels.new.items ≡
        checks_of labels.old.items ++ on_line line (own.invariant_kinds invariants.now)) }
{
    let mut kinds = Vec::new(alloc);
    add_times(CheckKind::LoopInv, invariants.len(), &mut kinds)?;
    add_on_line(line, &kinds, labels)?;
    Ok(())
}

/// Adds the checks of a loop's invariants and test on the line.
pub fn add_loop_labels(
    alloc: Global,
    line: u32,
    invariants: &[Spec],
    test: &Expr,
    labels: &mut Vec<Label>,
) -> Result<(), AllocError>
    ensures { IfOk result (λ u. checks_of labels.new.items ≡
        checks_of labels.old.items ++ on_line line (own.loop_kinds invariants.now test.now)) }
{
    let mut kinds = Vec::new(alloc);
    add_times(CheckKind::LoopInv, invariants.len(), &mut kinds)?;
    add_kinds(test, &mut kinds)?;
    add_on_line(line, &kinds, labels)?;
    Ok(())
}
