//! Statements that may also stand inside an atomic block.

ghost use Rattle.std.specs.Prelude.{◌≡◌, IfOk, map};
ghost use Rattle.object_types.specs.Values.{referent};
ghost use Rattle.method.specs.declared.program.Simple.TheVariants.{Assign};
ghost use Rattle.method.specs.Actions.{run_simple};
ghost use Rattle.machine_actions.specs.Running.{PerformsSimple};
ghost use Rattle.machine_actions.specs.RunsOut.{SimpleRunsOut};

use machine_claims::interlocked::right_side;
use machine_claims::making::end_claim;
use machine_objects::progress::Progress;
use machine_objects::store::{left_side, store};
use machine_ownership::owned::owned_change;
use machine_values::eval::{eval, eval_all};
use machine_values::spot::Spot;
use machine_values::stop::Stop;
use machine_values::values::referent;
use method::program::{RightSide, Simple, Target};
use object_types::references::Ref;
use object_types::values::Value;
use std::alloc::{AllocError, Global};

/// An assignment: the left side, the right side, the store.
fn assign(
    alloc: Global,
    at: &Spot<'_>,
    target: &Target,
    right: &RightSide,
    progress: &mut Progress,
) -> Result<(), Stop>
    ensures { PerformsSimple result at.now progress.old progress.new
        (λ p s. SimpleRunsOut p s (Assign target.now right.now)) (λ p s. run_simple p s (Assign target.now right.now)) }
{
    let place = left_side(alloc, at, target, progress)?;
    let v = right_side(alloc, at, right, place, progress)?;
    store(at, place, v, progress)
}

/// The references that values are.
pub fn referents(alloc: Global, values: &[Value]) -> Result<Vec<Ref>, AllocError>
    ensures { IfOk result (λ os. os.items ≡ map referent values.now) }
{
    values.iter().map(|value| referent(*value)).collect(alloc)
}

/// A statement that may also stand inside an atomic block.
///
/// # Errors
/// The fault of its first check that fails; Wide, with the operands of the first exact result on the way that leaves 128
/// bits; Misfit where a malloc has no choice, or there is no claim site of its number; Exhausted where a claim count is
/// at its greatest, or no serial is left for what it makes.
pub fn run_simple(
    alloc: Global,
    at: &Spot<'_>,
    simple: &Simple,
    progress: &mut Progress,
) -> Result<(), Stop>
    ensures { PerformsSimple result at.now progress.old progress.new
        (λ p s. SimpleRunsOut p s simple.now) (λ p s. run_simple p s simple.now) }
{
    match simple {
        Simple::Assign(target, right) => assign(alloc, at, target, right, progress),
        Simple::ChangeOwned(change, e, es) => {
            let o = eval(alloc, at, &progress.heap, &progress.locals, e)?;
            let values = eval_all(alloc, at, &progress.heap, &progress.locals, es)?;
            owned_change(alloc, at, *change, referent(o), &values, progress)
        }
        Simple::EndClaim(_, e, es) => {
            let c = eval(alloc, at, &progress.heap, &progress.locals, e)?;
            let values = eval_all(alloc, at, &progress.heap, &progress.locals, es)?;
            let objects = referents(alloc, &values)?;
            end_claim(at, referent(c), &objects, progress)
        }
    }
}
