//! The checks of the statements of a block.

ghost use Rattle.std.specs.Prelude.{◌≡◌, ◌++◌, IfOk};
ghost use Rattle.method.specs.Labels as spec;
ghost use Rattle.check_labels.specs.Labels.{checks_of};

use crate::lines::{Label, add_on_line, add_test_labels};
use crate::simples::add_simple_kinds;
use method::program::{Inner, Program, Simple};
use std::alloc::{AllocError, Global};

/// Adds the checks of the statement, inside or outside a block, on the line.
pub fn add_simple_labels(
    alloc: Global,
    program: &Program,
    inside: bool,
    line: u32,
    statement: &Simple,
    labels: &mut Vec<Label>,
) -> Result<(), AllocError>
    ensures { IfOk result (λ u. checks_of labels.new.items ≡
        checks_of labels.old.items ++ spec.on_line line (spec.simple_kinds program.now inside statement.now)) }
{
    let mut kinds = Vec::new(alloc);
    add_simple_kinds(program, inside, statement, &mut kinds)?;
    add_on_line(line, &kinds, labels)?;
    Ok(())
}

/// Adds the checks of a statement of a block.
#[cycle(inner)]
pub fn add_inner_labels(
    alloc: Global,
    program: &Program,
    inner: &Inner,
    labels: &mut Vec<Label>,
) -> Result<(), AllocError>
    ensures { IfOk result (λ u. checks_of labels.new.items ≡
        checks_of labels.old.items ++ spec.inner_labels program.now inner.now) }
{
    match inner {
        Inner::Inside(line, statement) => {
            add_simple_labels(alloc, program, true, *line, statement, labels)?;
            Ok(())
        }
        Inner::InsideIf(line, test, first, second) => {
            add_test_labels(alloc, *line, test, labels)?;
            add_block_labels(alloc, program, first, labels)?;
            add_block_labels(alloc, program, second, labels)?;
            Ok(())
        }
    }
}

/// Adds the checks of the statements of a block.
#[cycle(inner)]
pub fn add_block_labels(
    alloc: Global,
    program: &Program,
    inners: &[Inner],
    labels: &mut Vec<Label>,
) -> Result<(), AllocError>
    ensures { IfOk result (λ u. checks_of labels.new.items ≡
        checks_of labels.old.items ++ spec.inner_list_labels program.now inners.now) }
{
    for inner in inners {
        add_inner_labels(alloc, program, inner, labels)?;
    }
    Ok(())
}
