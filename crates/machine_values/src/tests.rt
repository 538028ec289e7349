//! Tests of annotations, and the checks made of them.

ghost use Rattle.std.specs.Prelude.{map};
ghost use Rattle.object_types.specs.Lookups.{heap_of};
ghost use Rattle.method.specs.declared.program.CheckKind.TheVariants.{Invariant as InvariantCheck, MakeClaim as MakeClaimCheck};
ghost use Rattle.method.specs.SpecValue.{value};
ghost use Rattle.method.specs.Overflow.{overflow};
ghost use Rattle.method.specs.Expressions.{spec_test, inv_test, entry_test, clause_tests};
ghost use Rattle.machine_values.specs.Answers.{Tests, Worked, Finds, verdict};
ghost use Rattle.machine_values.specs.Testing.{code_scene, spec_tests, inv_tests};

use crate::spot::Spot;
use crate::stop::Stop;
use invariants::invariant::inv_holds;
use method::program::{CheckKind, Clause, Program, Spec};
use object_types::heap::Heap;
use object_types::references::Ref;
use object_types::shapes::Entry;
use object_types::values::Value;
use spec_eval::env::Env;
use spec_eval::eval::{entry_holds, eval, holds};

/// Whether an annotation of a function holds.
pub fn spec_test(
    program: &Program,
    e: &Spec,
    before: &Heap,
    after: &Heap,
    env: &Env,
) -> Result<bool, Stop>
    ensures { Tests result (spec_test program.now e.now (code_scene env.now before.now after.now)) }
{
    let holds = holds(program, e, before, after, env)?;
    Ok(holds)
}

/// The value of an annotation's expression.
pub fn spec_value(
    program: &Program,
    e: &Spec,
    before: &Heap,
    after: &Heap,
    env: &Env,
) -> Result<Value, Stop>
    ensures { let s = code_scene env.now before.now after.now in Worked result (overflow program.now e.now s) (value program.now e.now s) }
{
    let value = eval(program, e, before, after, env)?;
    Ok(value)
}

/// Whether the object's invariant holds over a step.
pub fn inv_test(program: &Program, o: Ref, before: &Heap, after: &Heap) -> Result<bool, Stop>
    ensures { Tests result (inv_test program.now o (heap_of before.now) (heap_of after.now)) }
{
    let holds = inv_holds(program, o, before, after)?;
    Ok(holds)
}

/// Whether a conjunct that a claim was made with holds of the heap.
pub fn entry_test(program: &Program, heap: &Heap, entry: &Entry) -> Result<bool, Stop>
    ensures { Tests result (entry_test program.now (heap_of heap.now) entry.now) }
{
    let holds = entry_holds(program, heap, entry)?;
    Ok(holds)
}

/// Checks annotations, in order.
#[tactic(auto, using(crate::proofs::Verdicts::test_next, crate::proofs::Verdicts::test_fails, crate::proofs::Verdicts::test_stops, crate::proofs::Verdicts::test_end))]
pub fn check_specs(
    at: &Spot<'_>,
    kind: CheckKind,
    specs: &[Spec],
    before: &Heap,
    after: &Heap,
    env: &Env,
) -> Result<(), Stop>
    ensures { Finds result (verdict at.now.line kind (spec_tests at.now.program.now specs.now (code_scene env.now before.now after.now))) }
{
    for e in specs {
        if !spec_test(at.program, e, before, after, env)? {
            return Err(at.fault(kind));
        }
    }
    Ok(())
}

/// Checks clauses of a contract, in order.
#[tactic(auto, using(crate::proofs::Verdicts::test_next, crate::proofs::Verdicts::test_fails, crate::proofs::Verdicts::test_stops, crate::proofs::Verdicts::test_end))]
pub fn check_clauses(
    at: &Spot<'_>,
    kind: CheckKind,
    clauses: &[Clause],
    before: &Heap,
    after: &Heap,
    env: &Env,
) -> Result<(), Stop>
    ensures { Finds result (verdict at.now.line kind (clause_tests at.now.program.now clauses.now (code_scene env.now before.now after.now))) }
{
    for clause in clauses {
        if !spec_test(at.program, &clause.spec, before, after, env)? {
            return Err(at.fault(kind));
        }
    }
    Ok(())
}

/// Checks the invariants of objects over a step, in order.
#[tactic(auto, using(crate::proofs::Verdicts::test_next, crate::proofs::Verdicts::test_fails, crate::proofs::Verdicts::test_stops, crate::proofs::Verdicts::test_end))]
pub fn check_invariants(
    at: &Spot<'_>,
    objects: &[Ref],
    before: &Heap,
    after: &Heap,
) -> Result<(), Stop>
    ensures { Finds result (verdict at.now.line InvariantCheck (inv_tests at.now.program.now before.now after.now objects.now)) }
{
    for o in objects {
        if !inv_test(at.program, *o, before, after)? {
            return Err(at.fault(CheckKind::Invariant));
        }
    }
    Ok(())
}

/// Checks the conjuncts of a claim that is made, in order.
#[tactic(auto, using(crate::proofs::Verdicts::test_next, crate::proofs::Verdicts::test_fails, crate::proofs::Verdicts::test_stops, crate::proofs::Verdicts::test_end))]
pub fn check_entries(at: &Spot<'_>, entries: &[Entry], heap: &Heap) -> Result<(), Stop>
    ensures { Finds result (verdict at.now.line MakeClaimCheck (map (entry_test at.now.program.now (heap_of heap.now)) entries.now)) }
{
    for entry in entries {
        if !entry_test(at.program, heap, entry)? {
            return Err(at.fault(CheckKind::MakeClaim));
        }
    }
    Ok(())
}
