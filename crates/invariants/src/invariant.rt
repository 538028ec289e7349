//! The invariant of an object over two heaps.

ghost use Rattle.std.specs.Prelude.{◌≡◌, Some, None, IfOk, OnOk, IfErr, IfSome, IfNone};
ghost use Rattle.object_types.specs.Lookups.{heap_of, look_up};
ghost use Rattle.method.specs.Tables.{struct_of};
ghost use Rattle.method.specs.Invariants.{inv_scene, inv_holds, claim_holds, struct_holds};
ghost use Rattle.method.specs.Overflow.{inv_overflow, entries_overflow, struct_overflow};
ghost use Rattle.spec_eval.specs.Answers.{IsWideAt};

use method::program::{Program, StructInfo};
use object_types::heap::Heap;
use object_types::records::Mode;
use object_types::references::Ref;
use spec_eval::env::EvalFault;
use spec_eval::eval::{entry_holds, holds_of};

/// The type number of claims.
const CLAIMS: u32 = 2;

/// The type number of the first struct.
const FIRST_STRUCT: u32 = 3;

/// The struct with the type number.
fn struct_of(program: &Program, ty: u32) -> Option<&StructInfo>
    ensures some { IfSome result (λ info. struct_of program.now ty ≡ Some info.now) }
    ensures none { IfNone result (struct_of program.now ty ≡ None) }
{
    if ty < FIRST_STRUCT {
        return None;
    }
    program.structs.get((ty - FIRST_STRUCT) as usize)
}

/// Whether the invariants of the object's type hold, up to one that doesn't.
#[tactic(auto, using(spec_values::proofs::Deciding::held_err, spec_values::proofs::Deciding::held_false, spec_values::proofs::Deciding::held_stops, spec_values::proofs::Deciding::held_next, spec_values::proofs::Deciding::held_end, spec_values::proofs::Deciding::held_fits))]
fn struct_holds(
    program: &Program,
    info: &StructInfo,
    o: Ref,
    before: &Heap,
    after: &Heap,
) -> Result<bool, EvalFault>
    ensures holds { let s = inv_scene o (heap_of before.now) (heap_of after.now) in IfOk result (λ b. b ≡ struct_holds program.now (Some info.now) s) }
    ensures fits { let s = inv_scene o (heap_of before.now) (heap_of after.now) in OnOk result (struct_overflow program.now (Some info.now) s ≡ None) }
    ensures wide { let s = inv_scene o (heap_of before.now) (heap_of after.now) in IfErr result (λ f. IsWideAt f (struct_overflow program.now (Some info.now) s)) }
{
    for e in &info.invariants {
        if !holds_of(program, e, before, after, o)? {
            return Ok(false);
        }
    }
    Ok(true)
}

/// Whether the property of the claim holds of the heap: its conjuncts, up to one that doesn't.
///
/// # Errors
/// Wide, with the operands of the first exact result on the way that leaves 128 bits.
#[tactic(auto, using(crate::proofs::Entries::kept_err, crate::proofs::Entries::kept_false, crate::proofs::Entries::kept_stops, crate::proofs::Entries::kept_next, crate::proofs::Entries::kept_end, crate::proofs::Entries::kept_fits))]
pub fn claim_holds(program: &Program, c: Ref, heap: &Heap) -> Result<bool, EvalFault>
    ensures holds { IfOk result (λ b. b ≡ claim_holds program.now c (heap_of heap.now)) }
    ensures fits { OnOk result (entries_overflow program.now (heap_of heap.now) (look_up heap.now c).shapes ≡ None) }
    ensures wide { IfErr result (λ f. IsWideAt f (entries_overflow program.now (heap_of heap.now) (look_up heap.now c).shapes)) }
{
    for entry in heap.shapes(c) {
        if !entry_holds(program, heap, entry)? {
            return Ok(false);
        }
    }
    Ok(true)
}

/// Whether the object's invariant holds over the step from the one heap to the other.
///
/// # Errors
/// As `claim_holds`.
#[tactic(auto, unfolding(method::specs::Invariants::inv_holds))]
pub fn inv_holds(program: &Program, o: Ref, before: &Heap, after: &Heap) -> Result<bool, EvalFault>
    ensures holds { IfOk result (λ b. b ≡ inv_holds program.now o (heap_of before.now) (heap_of after.now)) }
    ensures fits { OnOk result (inv_overflow program.now o (heap_of before.now) (heap_of after.now) ≡ None) }
    ensures wide { IfErr result (λ f. IsWideAt f (inv_overflow program.now o (heap_of before.now) (heap_of after.now))) }
{
    if o.ty == CLAIMS {
        return match after.view(o).mode {
            Mode::Closed => claim_holds(program, o, after),
            Mode::Absent | Mode::Open | Mode::Freed => Ok(true),
        };
    }
    match struct_of(program, o.ty) {
        Some(info) => struct_holds(program, info, o, before, after),
        None => Ok(true),
    }
}
