//! Starting threads.

ghost use Rattle.std.specs.Prelude.{◌≡◌, Some, List, IfOk, IfErr};
ghost use Rattle.object_types.specs.declared.references.Ref.{Ref as Reference};
ghost use Rattle.object_types.specs.Heap.{Heap as HeapBefore, IsFinite, is_idle};
ghost use Rattle.method.specs.Expressions.{call_scene};
ghost use Rattle.method.specs.Actions.{spawn};
ghost use Rattle.spec_eval.specs.Scenes.{scene_of};
ghost use Rattle.machine_values.specs.Spots.{heap_at};
ghost use Rattle.machine_values.specs.Items.{OnHeaps};
ghost use Rattle.machine_ownership.specs.Callees.{IsEntered};
ghost use Rattle.machine_ownership.specs.Owned.{PerformsOr};
ghost use Rattle.machine_ownership.specs.RunsOut.{NoThread};
ghost use Rattle.machine_ownership.specs.Threads.{ArePassing, IsLeastIdle, NoneIdle};

use crate::items::is_owned;
pub use crate::items::items_of;
use machine_objects::progress::Progress;
use machine_values::spot::{Context, Spot};
use machine_values::stop::Stop;
use machine_values::tables::THREADS;
use machine_values::tests::{check_clauses, spec_value};
use machine_values::values::referent;
use method::program::{CheckKind, FunctionInfo, Program, Spec};
use object_types::heap::Heap;
use object_types::references::{NULL, Ref};
use object_types::values::Value;
use ownership::effects::hand_over;
use ownership::search::next_reference;
use spec_eval::env::Env;
use std::alloc::Global;

/// Whether the thread owns nothing.
fn is_idle(h: &Heap, t: u32) -> bool
    ensures { (y : List Reference) → IsFinite (heap_at y h.now) → result ≡ is_idle (heap_at y h.now) t }
{
    let thread = Ref {
        ty: THREADS,
        serial: t,
    };
    h.is_kept();
    let mut from = NULL;
    while let Some(o) = h.first(from) {
        if h.view(o).owner.is_same(thread) {
            return false;
        }
        let Some(next) = next_reference(o) else {
            return true;
        };
        from = next;
    }
    true
}

/// The least thread from this number on that owns nothing.
///
/// # Errors
/// Exhausted where each number from this one on is that of a thread which owns something.
fn new_thread(h: &Heap, from: u32) -> Result<Ref, Stop>
    ensures ok { IfOk result (IsLeastIdle h.now from) }
    ensures err { IfErr result (λ stop. stop ≡ Stop.Exhausted) }
    ensures exhausted { IfErr result (λ stop. NoneIdle h.now from) }
{
    let mut serial = from;
    loop {
        if is_idle(h, serial) {
            return Ok(Ref {
                ty: THREADS,
                serial,
            });
        }
        let Some(next) = serial.checked_add(1) else {
            return Err(Stop::Exhausted);
        };
        serial = next;
    }
}

/// The environment of a contract at a call by the thread, with these arguments.
///
/// # Errors
/// OutOfMemory alone.
pub fn call_env(alloc: Global, me: Ref, args: &[Value]) -> Result<Env, Stop>
    ensures ok { IfOk result (λ env. (h : HeapBefore) → scene_of env h h ≡ call_scene me h args.now) }
    ensures err { IfErr result (λ stop. stop ≡ Stop.OutOfMemory) }
{
    let locals = Vec::from_slice(alloc, args)?;
    let entry = Vec::from_slice(alloc, args)?;
    Ok(Env {
        thread: me,
        this: NULL,
        locals,
        entry,
        result: Value::Int(0),
    })
}

/// The items of a writes list that pass to a new thread: each is worked out right before it is checked.
///
/// # Errors
/// Spawn where an item isn't the thread's, closed and writable; Wide, with the operands of the first exact result on
/// the way that leaves 128 bits.
fn passing_items(
    alloc: Global,
    at: &Spot<'_>,
    items: &[Spec],
    args: &[Value],
    h: &Heap,
) -> Result<Vec<Ref>, Stop>
    ensures { OnHeaps at.now h.now (λ s k. ArePassing result at.now.program.now s k items.now args.now) }
{
    let env = call_env(alloc, at.context.me, args)?;
    let mut objects = Vec::new(alloc);
    for e in items {
        let o = referent(spec_value(at.program, e, h, h, &env)?);
        if !is_owned(at, h, o) {
            return Err(at.fault(CheckKind::Spawn));
        }
        objects.push(o)?;
    }
    Ok(objects)
}

/// The context of a function that is called or started; its writes list is worked out at its entry.
///
/// # Errors
/// Wide, with the operands of the first exact result in the writes list that leaves 128 bits.
pub fn callee(
    alloc: Global,
    program: &Program,
    number: u32,
    function: &FunctionInfo,
    me: Ref,
    h: &Heap,
    args: &[Value],
) -> Result<Context, Stop>
    ensures { IsEntered result program.now number function.now me h.now args.now }
{
    let env = call_env(alloc, me, args)?;
    let writes = items_of(alloc, program, &function.writes, h, &env)?;
    let args = Vec::from_slice(alloc, args)?;
    let entry = h.copy()?;
    Ok(Context {
        function: number,
        me,
        entry,
        writes,
        args,
    })
}

/// Starts a thread with a function: what its writes list names passes to it, and then it must meet the requires
/// clauses.
///
/// # Errors
/// Spawn where an item isn't the thread's, closed and writable, or the new thread doesn't meet a requires clause; Wide,
/// with the operands of the first exact result on the way that leaves 128 bits; Exhausted where each number from
/// `progress.next_thread` on is that of a thread which owns something.
pub fn spawn(
    alloc: Global,
    at: &Spot<'_>,
    number: u32,
    function: &FunctionInfo,
    args: &[Value],
    progress: &mut Progress,
) -> Result<(), Stop>
    ensures { PerformsOr result at.now progress.old progress.new
        (λ p s n g. NoThread g.supply g.heap) (λ p s. spawn p s number (Some function.now) args.now) }
{
    let items = passing_items(alloc, at, &function.writes, args, &progress.heap)?;
    let thread = new_thread(&progress.heap, progress.next_thread)?;
    hand_over(&mut progress.heap, &items, thread)?;
    let env = call_env(alloc, thread, args)?;
    check_clauses(
        at,
        CheckKind::Spawn,
        &function.requires_,
        &progress.heap,
        &progress.heap,
        &env,
    )?;
    let context = callee(
        alloc,
        at.program,
        number,
        function,
        thread,
        &progress.heap,
        args,
    )?;
    progress.started.push(context)?;
    Ok(())
}
