//! The value of an annotation's expression.

ghost use Rattle.std.specs.Prelude.{◌≡◌, None, IfOk, OnOk, IfErr, slice_get};
ghost use Rattle.object_types.specs.Lookups.{heap_of};
ghost use Rattle.method.specs.SpecValue.{value, holds, entry_holds};
ghost use Rattle.method.specs.Overflow.{overflow, shape_overflow};
ghost use Rattle.method.specs.Invariants.{inv_scene};
ghost use Rattle.spec_eval.specs.Scenes.{scene_of};
ghost use Rattle.spec_eval.specs.Answers.{IsWideAt};

use crate::env::{Env, EvalFault};
use crate::places::{in_claim, in_function, in_invariant};
use method::program::{Program, Spec};
use object_types::heap::Heap;
use object_types::references::Ref;
use object_types::shapes::Entry;
use object_types::values::Value;
use spec_values::expression::work_out;
use spec_values::values::is_true;

/// The value of an expression of a function's annotation.
///
/// # Errors
/// Wide, with the operands of the first exact result on the way that leaves 128 bits.
pub fn eval(
    program: &Program,
    e: &Spec,
    before: &Heap,
    after: &Heap,
    env: &Env,
) -> Result<Value, EvalFault>
    ensures value { let s = scene_of env.now (heap_of before.now) (heap_of after.now) in IfOk result (λ v. v ≡ value program.now e.now s) }
    ensures fits { let s = scene_of env.now (heap_of before.now) (heap_of after.now) in OnOk result (overflow program.now e.now s ≡ None) }
    ensures wide { let s = scene_of env.now (heap_of before.now) (heap_of after.now) in IfErr result (λ f. IsWideAt f (overflow program.now e.now s)) }
{
    let at = in_function(program, before, after, env);
    work_out(&at, e).map_err(EvalFault::Wide)
}

/// Whether an expression of a function's annotation holds.
///
/// # Errors
/// As `eval`.
pub fn holds(
    program: &Program,
    e: &Spec,
    before: &Heap,
    after: &Heap,
    env: &Env,
) -> Result<bool, EvalFault>
    ensures holds { let s = scene_of env.now (heap_of before.now) (heap_of after.now) in IfOk result (λ b. b ≡ holds program.now e.now s) }
    ensures fits { let s = scene_of env.now (heap_of before.now) (heap_of after.now) in OnOk result (overflow program.now e.now s ≡ None) }
    ensures wide { let s = scene_of env.now (heap_of before.now) (heap_of after.now) in IfErr result (λ f. IsWideAt f (overflow program.now e.now s)) }
{
    let value = eval(program, e, before, after, env)?;
    Ok(is_true(value))
}

/// Whether an expression of a type's invariant holds of the object.
///
/// # Errors
/// As `eval`.
pub fn holds_of(
    program: &Program,
    e: &Spec,
    before: &Heap,
    after: &Heap,
    o: Ref,
) -> Result<bool, EvalFault>
    ensures holds { let s = inv_scene o (heap_of before.now) (heap_of after.now) in IfOk result (λ b. b ≡ holds program.now e.now s) }
    ensures fits { let s = inv_scene o (heap_of before.now) (heap_of after.now) in OnOk result (overflow program.now e.now s ≡ None) }
    ensures wide { let s = inv_scene o (heap_of before.now) (heap_of after.now) in IfErr result (λ f. IsWideAt f (overflow program.now e.now s)) }
{
    let at = in_invariant(program, before, after, o);
    let value = work_out(&at, e).map_err(EvalFault::Wide)?;
    Ok(is_true(value))
}

/// Whether a conjunct that a claim was made with holds of the heap.
///
/// # Errors
/// As `eval`.
pub fn entry_holds(program: &Program, heap: &Heap, entry: &Entry) -> Result<bool, EvalFault>
    ensures holds { IfOk result (λ b. b ≡ entry_holds program.now (heap_of heap.now) entry.now) }
    ensures fits { let shape = slice_get program.now.shapes.items entry.now.shape in OnOk result (shape_overflow program.now shape (heap_of heap.now) entry.now.values ≡ None) }
    ensures wide { let shape = slice_get program.now.shapes.items entry.now.shape in IfErr result (λ f. IsWideAt f (shape_overflow program.now shape (heap_of heap.now) entry.now.values)) }
{
    let Some(shape) = program.shapes.get(entry.shape as usize) else {
        return Ok(true);
    };
    let at = in_claim(program, heap, entry.values.as_slice());
    let value = work_out(&at, &shape.conjunct).map_err(EvalFault::Wide)?;
    Ok(is_true(value))
}
