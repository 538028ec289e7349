//! Atomic blocks.

ghost use Rattle.std.specs.Prelude.{◌≡◌, IfOk};
ghost use Rattle.method.specs.declared.program.CheckKind.TheVariants.{AtomicClosed as AtomicClosedCheck};
ghost use Rattle.method.specs.Actions.{run_inner, run_list, run_exprs, listed_exprs, listed_objects, atomic};
ghost use Rattle.machine_values.specs.Answers.{Finds, verdict};
ghost use Rattle.machine_values.specs.Items.{YieldsAll};
ghost use Rattle.machine_objects.specs.Runs.{Reading};
ghost use Rattle.machine_ownership.specs.Owned.{PerformsOr};
ghost use Rattle.machine_actions.specs.Running.{PerformsInside};
ghost use Rattle.machine_actions.specs.Inside.{IsInside, closed_tests};
ghost use Rattle.machine_actions.specs.RunsOut.{InnerRunsOut, ListRunsOut, BlockRunsOut};

use crate::simple::{referents, run_simple};
use machine_objects::progress::Progress;
use machine_values::eval::eval;
use machine_values::spot::Spot;
use machine_values::stop::Stop;
use machine_values::tests::check_invariants;
use machine_values::values::is_true;
use method::program::{CheckKind, Inner, Listed};
use object_types::heap::Heap;
use object_types::references::Ref;
use object_types::values::Value;
use spec_values::status::is_closed;
use std::alloc::{AllocError, Global};

/// The place of a statement of this line inside an atomic block; `at` is the block's, with the objects that it lists.
fn inside<'a>(at: &Spot<'a>, line: u32) -> Spot<'a>
    ensures spot { IsInside at.now line result }
    ensures program { result.program.now ≡ at.now.program.now }
{
    Spot {
        choices: &[],
        line,
        inside: true,
        ..*at
    }
}

/// A statement inside an atomic block; `at` is the block's place, with the objects that it lists.
#[cycle(inner)]
fn run_inner(
    alloc: Global,
    at: &Spot<'_>,
    inner: &Inner,
    progress: &mut Progress,
) -> Result<(), Stop>
    ensures { PerformsInside result at.now progress.old progress.new
        (λ p x os. InnerRunsOut p x os inner.now) (λ p x os. run_inner p x os inner.now) }
{
    match inner {
        Inner::Inside(line, simple) => run_simple(alloc, &inside(at, *line), simple, progress),
        Inner::InsideIf(line, test, a, b) => {
            let v = eval(
                alloc,
                &inside(at, *line),
                &progress.heap,
                &progress.locals,
                test,
            )?;
            if is_true(v) {
                return run_list(alloc, at, a, progress);
            }
            run_list(alloc, at, b, progress)
        }
    }
}

/// Statements inside an atomic block, in order; `at` is the block's place, with the objects that it lists.
#[cycle(inner)]
fn run_list(
    alloc: Global,
    at: &Spot<'_>,
    row: &[Inner],
    progress: &mut Progress,
) -> Result<(), Stop>
    ensures { PerformsInside result at.now progress.old progress.new
        (λ p x os. ListRunsOut p x os row.now) (λ p x os. run_list p x os row.now) }
{
    for inner in row {
        run_inner(alloc, at, inner, progress)?;
    }
    Ok(())
}

/// The values of the expressions that an atomic block lists, from left to right.
fn eval_listed(
    alloc: Global,
    at: &Spot<'_>,
    listed: &[Listed],
    progress: &Progress,
) -> Result<Vec<Value>, Stop>
    ensures { Reading at.now progress.now (λ p s g n. YieldsAll result (run_exprs p s (listed_exprs listed.now) n g)) }
{
    let mut values = Vec::new(alloc);
    for item in listed {
        values.push(eval(alloc, at, &progress.heap, &progress.locals, &item.object)?)?;
    }
    Ok(values)
}

/// Checks that the objects are closed.
#[tactic(auto, using(machine_values::proofs::Verdicts::test_next, machine_values::proofs::Verdicts::test_fails, machine_values::proofs::Verdicts::test_end))]
fn check_closed(at: &Spot<'_>, heap: &Heap, objects: &[Ref]) -> Result<(), Stop>
    ensures { Finds result (verdict at.now.line AtomicClosedCheck (closed_tests heap.now objects.now)) }
{
    for o in objects {
        if !is_closed(heap, *o) {
            return Err(at.fault(CheckKind::AtomicClosed));
        }
    }
    Ok(())
}

/// The listed objects whose declared type isn't `\claim`.
fn plain_objects(alloc: Global, listed: &[Listed], objects: &[Ref]) -> Result<Vec<Ref>, AllocError>
    ensures { IfOk result (λ os. os.items ≡ listed_objects listed.now objects.now) }
{
    let mut plain = Vec::new(alloc);
    for (item, o) in listed.iter().zip(objects) {
        if !item.is_claim {
            plain.push(*o)?;
        }
    }
    Ok(plain)
}

/// An atomic block: its objects are closed, its statements run, and then over the whole block the invariants hold of
/// the listed objects, of those whose count it changed, and of the claims that it made.
///
/// # Errors
/// The fault of the first check that fails, of the objects, of a statement or of the end; Wide, with the operands of the
/// first exact result on the way that leaves 128 bits; Misfit and Exhausted where a statement gives them.
pub fn atomic(
    alloc: Global,
    at: &Spot<'_>,
    listed: &[Listed],
    body: &[Inner],
    progress: &mut Progress,
) -> Result<(), Stop>
    ensures { PerformsOr result at.now progress.old progress.new
        (λ p s. BlockRunsOut p s listed.now body.now) (λ p s. atomic p s listed.now body.now) }
{
    let values = eval_listed(alloc, at, listed, progress)?;
    let objects = referents(alloc, &values)?;
    check_closed(at, &progress.heap, &objects)?;
    let before = progress.heap.copy()?;
    let block = Spot {
        listed: &objects,
        ..*at
    };
    run_list(alloc, &block, body, progress)?;
    let plain = plain_objects(alloc, listed, &objects)?;
    check_invariants(at, &plain, &before, &progress.heap)?;
    check_invariants(at, &progress.changed, &before, &progress.heap)?;
    check_invariants(at, &progress.made, &before, &progress.heap)?;
    Ok(())
}
