//! Where an annotation's expression begins.

ghost use Rattle.std.specs.Prelude.{◌≡◌};
ghost use Rattle.object_types.specs.Lookups.{heap_of};
ghost use Rattle.method.specs.SpecValue.{claim_scene};
ghost use Rattle.method.specs.Invariants.{inv_scene};
ghost use Rattle.spec_values.specs.Scenes.{scene_at};
ghost use Rattle.spec_eval.specs.Scenes.{scene_of, scene_with};

use crate::env::Env;
use method::program::Program;
use object_types::heap::Heap;
use object_types::references::{NULL, Ref};
use object_types::values::Value;
use spec_values::place::{Bound, Place};

/// No quantifier is around.
static FREE: Bound<'static> = Bound::Free;

/// Where a function's annotation begins.
pub fn in_function<'a>(
    program: &'a Program,
    before: &'a Heap,
    after: &'a Heap,
    env: &'a Env,
) -> Place<'a>
    ensures scene { scene_at result ≡ scene_of env.entry.now (heap_of before.entry.now) (heap_of after.entry.now) }
    ensures program { result.program ≡ program.entry }
{
    Place {
        program,
        before,
        after,
        thread: env.thread,
        this: env.this,
        locals: &env.locals,
        entry: &env.entry,
        is_old: false,
        result: env.result,
        bound: &FREE,
        subject: NULL,
    }
}

/// Where an invariant of the object begins, or with values a claim's conjunct.
fn outside<'a>(
    program: &'a Program,
    before: &'a Heap,
    after: &'a Heap,
    this: Ref,
    values: &'a [Value],
) -> Place<'a>
    ensures scene { scene_at result ≡ scene_with this (heap_of before.entry.now) (heap_of after.entry.now) values.entry.now }
    ensures program { result.program ≡ program.entry }
{
    Place {
        program,
        before,
        after,
        thread: NULL,
        this,
        locals: values,
        entry: &[],
        is_old: false,
        result: Value::Int(0),
        bound: &FREE,
        subject: NULL,
    }
}

/// Where an invariant of the object begins.
pub fn in_invariant<'a>(
    program: &'a Program,
    before: &'a Heap,
    after: &'a Heap,
    o: Ref,
) -> Place<'a>
    ensures scene { scene_at result ≡ inv_scene o (heap_of before.entry.now) (heap_of after.entry.now) }
    ensures program { result.program ≡ program.entry }
{
    outside(program, before, after, o, &[])
}

/// Where a claim's conjunct begins, its holes having these values.
pub fn in_claim<'a>(program: &'a Program, heap: &'a Heap, values: &'a [Value]) -> Place<'a>
    ensures scene { scene_at result ≡ claim_scene program.entry.now (heap_of heap.entry.now) values.entry.now }
    ensures program { result.program ≡ program.entry }
{
    outside(program, heap, heap, NULL, values)
}
