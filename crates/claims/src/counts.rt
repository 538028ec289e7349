//! Claim counts.

ghost use Rattle.std.specs.Prelude.{◌≡◌, ◌+ℤ◌, [], ◌∷◌, OnOk, IfSome, IfNone, IfErr};
ghost use Rattle.object_types.specs.Heap.{put_at, count_more};
ghost use Rattle.object_types.specs.Lookups.{look_up, heap_of};
ghost use Rattle.claims.specs.Steps.{step_of, OverflowsIfFull};
ghost use Rattle.int_ranges.specs.Exact.{Leaves};

use object_types::heap::Heap;
use object_types::references::Ref;
use std::alloc::AllocError;
use thiserror::Error;

/// Why a claim isn't made, or doesn't end.
#[derive(Clone, Copy, Debug, PartialEq, Eq, Error)]
pub enum ClaimFault {
    /// The last serial of claims is used.
    #[error("no serial is left for a claim")]
    NoSerial,
    /// A claim count would leave 128 bits.
    #[error("a claim count would leave 128 bits")]
    CountFull,
    #[error("out of memory")]
    OutOfMemory,
}

impl From<AllocError> for ClaimFault {
    ghost use Rattle.claims.specs.declared.counts.ClaimFault.TheVariants.{OutOfMemory};
    ghost use Rattle.std.specs.Prelude.{◌≡◌};

    ghost from_gives = { λ _ fault. fault ≡ OutOfMemory };

    fn from(_fault: AllocError) -> ClaimFault {
        ClaimFault::OutOfMemory
    }
}

/// Whether one claim more lists an object, or one less.
#[derive(Clone, Copy, Debug, PartialEq, Eq)]
pub enum CountStep {
    Up,
    Down,
}

/// The count behind the step, unless it leaves 128 bits.
fn stepped(count: i128, step: CountStep) -> Option<i128>
    ensures some { IfSome result (λ z. z ≡ count +ℤ step_of step) }
    ensures none { IfNone result (Leaves (count +ℤ step_of step)) }
{
    match step {
        CountStep::Up => count.checked_add(1),
        CountStep::Down => count.checked_sub(1),
    }
}

/// Counts one claim more or less of the object.
fn count_one(h: &mut Heap, o: Ref, step: CountStep) -> Result<(), ClaimFault>
    ensures ok { OnOk result (look_up h.new ≡ put_at (look_up h.old) o (record (look_up h.old o) { count = (look_up h.old o).count +ℤ step_of step })) }
    ensures err { IfErr result (λ fault. fault ≡ ClaimFault.NoSerial → ⊥) }
    ensures full { IfErr result (OverflowsIfFull (step_of step) (o ∷ []) (heap_of h.old)) }
{
    let Some(count) = stepped(h.view(o).count, step) else {
        return Err(ClaimFault::CountFull);
    };
    h.set_count(o, count)?;
    Ok(())
}

/// Counts one claim more or less of each object. After a fault the heap is of no more use.
pub fn count_all(h: &mut Heap, objects: &[Ref], step: CountStep) -> Result<(), ClaimFault>
    ensures ok { OnOk result (look_up h.new ≡ (count_more (step_of step) objects.now (heap_of h.old)).get) }
    ensures err { IfErr result (λ fault. fault ≡ ClaimFault.NoSerial → ⊥) }
    ensures full { IfErr result (OverflowsIfFull (step_of step) objects.now (heap_of h.old)) }
{
    for o in objects {
        count_one(h, *o, step)?;
    }
    Ok(())
}
