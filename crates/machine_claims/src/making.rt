//! Claims: made, ended.

ghost use Rattle.std.specs.Prelude.{◌≡◌, ◌⊎◌, ◌++◌, ◌∷◌, ℕ, negsuc, [], List, map, Some};
ghost use Rattle.std.specs.Prelude.{IsTrue, OnOk, IfOk, IfErr};
ghost use Rattle.object_types.specs.Sets.{all_distinct, every, is_in};
ghost use Rattle.object_types.specs.Heap.{Heap as AHeap, IsFinite, closed_in, fresh};
ghost use Rattle.object_types.specs.Lookups.{look_up, heap_of};
ghost use Rattle.object_types.specs.References.{is_claim};
ghost use Rattle.object_types.specs.declared.references.Ref.{Ref as Reference};
ghost use Rattle.object_types.specs.declared.values.Value.TheVariants.{Ref as Refers};
ghost use Rattle.method.specs.declared.program.CheckKind.TheVariants.{MakeClaim as MakeClaimCheck};
ghost use Rattle.method.specs.declared.program.CheckKind.TheVariants.{DestroyClaim as DestroyClaimCheck};
ghost use Rattle.method.specs.SpecValue.{filling, entry_of, is_exactly};
ghost use Rattle.method.specs.Expressions.{scene};
ghost use Rattle.method.specs.Actions.{Progress as AProgress, Valued, Tally, stored_heap};
ghost use Rattle.method.specs.Actions.{run_claimed, claim_tests, make_claim, end_claim, may_end};
ghost use Rattle.claims.specs.Making.{with_claim, without_claim};
ghost use Rattle.claims.specs.Steps.{Overflows};
ghost use Rattle.machine_values.specs.Spots.{heap_at, spot_at};
ghost use Rattle.machine_values.specs.Answers.{Yields, Finds, verdict, plain};
ghost use Rattle.machine_objects.specs.Runs.{Reading, RunsOr, RunsToOr, IsRefs, IsSilentOr, place_of, count_tests};
ghost use Rattle.machine_claims.specs.RunsOut.{LacksClaim, MakingRunsOut, EndingRunsOut};
ghost use Rattle.machine_claims.specs.Claiming.{run_one, claim_test, Guards, objects_checked, claim_checked};

use claims::counts::ClaimFault;
use claims::making::{add_claim, drop_claim};
use machine_objects::objects::new_reference;
use machine_objects::progress::{Place, Progress};
use machine_objects::store::may_count;
use machine_values::eval::eval;
use machine_values::spot::Spot;
use machine_values::stop::Stop;
use machine_values::tables::{CLAIMS, is_claimable};
use machine_values::tests::{check_entries, check_invariants};
use machine_values::values::{contains, local, referent};
use method::program::{CheckKind, ClaimSite, Claimed, Conjunct, Hole};
use object_types::heap::Heap;
use object_types::records::Mode;
use object_types::references::{NULL, Ref};
use object_types::shapes::Entry;
use object_types::values::{Value, Values};
use ownership::status::wrapped;
use std::alloc::{AllocError, Global};

/// An object that a claim is to claim.
fn claimed_object(
    alloc: Global,
    at: &Spot<'_>,
    claimed: &Claimed,
    progress: &Progress,
) -> Result<Ref, Stop>
    ensures { Reading at.now progress.now (λ p s g n. Yields result (run_one p s claimed.now n g)) }
{
    match claimed {
        Claimed::ClaimedVariable(i) => Ok(referent(local(&progress.locals, *i))),
        Claimed::ClaimedNull => Ok(NULL),
        Claimed::ClaimedOther(e, _) => {
            let value = eval(alloc, at, &progress.heap, &progress.locals, e)?;
            Ok(referent(value))
        }
    }
}

/// The objects that a claim is to claim, from left to right.
fn claimed_objects(
    alloc: Global,
    at: &Spot<'_>,
    claimed: &[Claimed],
    progress: &Progress,
) -> Result<Vec<Ref>, Stop>
    ensures { Reading at.now progress.now (λ p s g n. IsRefs result (run_claimed p s claimed.now n g)) }
{
    let mut objects = Vec::new(alloc);
    for one in claimed {
        objects.push(claimed_object(alloc, at, one, progress)?)?;
    }
    Ok(objects)
}

/// The value that fills a hole of a conjunct in a function's run.
fn filling(at: &Spot<'_>, locals: &[Value], hole: Hole) -> Value
    ensures { (x : List Reference) (h : AHeap) →
        result ≡ filling (scene (spot_at x at.now).context h locals.now) hole }
{
    match hole {
        Hole::OfVariable(i) => local(locals, i),
        Hole::OfBound(_) | Hole::OfThis => Value::Ref(NULL),
        Hole::OfMe => Value::Ref(at.context.me),
        Hole::OfResult => Value::Int(0),
    }
}

/// The values that fill a conjunct's holes.
fn fill_holes(
    alloc: Global,
    at: &Spot<'_>,
    locals: &[Value],
    holes: &[Hole],
) -> Result<Vec<Value>, AllocError>
    ensures { IfOk result (λ vs. (x : List Reference) (h : AHeap) →
        vs.items ≡ map (filling (scene (spot_at x at.now).context h locals.now)) holes.now) }
{
    let mut values = Vec::new(alloc);
    for hole in holes {
        values.push(filling(at, locals, *hole))?;
    }
    Ok(values)
}

/// A conjunct with the values of its holes.
fn fill_conjunct(
    alloc: Global,
    at: &Spot<'_>,
    locals: &[Value],
    conjunct: &Conjunct,
) -> Result<Entry, AllocError>
    ensures { IfOk result (λ e. (x : List Reference) (h : AHeap) →
        e ≡ entry_of (scene (spot_at x at.now).context h locals.now) conjunct.now) }
{
    let values = fill_holes(alloc, at, locals, &conjunct.holes)?;
    Ok(Entry {
        shape: conjunct.shape,
        values: Values::from_slice(alloc, &values)?,
    })
}

/// The conjuncts of a claim that is made, with the values of their holes.
fn fill_conjuncts(
    alloc: Global,
    at: &Spot<'_>,
    locals: &[Value],
    conjuncts: &[Conjunct],
) -> Result<Vec<Entry>, AllocError>
    ensures { IfOk result (λ es. (x : List Reference) (h : AHeap) →
        es.items ≡ map (entry_of (scene (spot_at x at.now).context h locals.now)) conjuncts.now) }
{
    let mut entries = Vec::new(alloc);
    for conjunct in conjuncts {
        entries.push(fill_conjunct(alloc, at, locals, conjunct)?)?;
    }
    Ok(entries)
}

/// Whether the object is closed.
fn is_closed(heap: &Heap, o: Ref) -> bool
    ensures { result ≡ closed_in (heap_of heap.now) o }
{
    matches!(heap.view(o).mode, Mode::Closed)
}

/// Whether the object may be claimed behind these: it is of a claimable type, closed, none of them, and counted here.
fn may_claim(at: &Spot<'_>, heap: &Heap, earlier: &[Ref], o: Ref) -> bool
    ensures { (x y : List Reference) →
        result ≡ claim_test at.now.program.now (spot_at x at.now) (heap_at y heap.now) earlier.now o }
{
    if !is_claimable(at.program, o.ty) {
        return false;
    }
    if !is_closed(heap, o) {
        return false;
    }
    if contains(earlier, o) {
        return false;
    }
    may_count(at, heap, o)
}

/// Checks that the objects may be claimed, each behind those before it.
fn check_claimed(at: &Spot<'_>, heap: &Heap, objects: &[Ref]) -> Result<(), Stop>
    ensures { (x y : List Reference) →
        let tests = claim_tests at.now.program.now (spot_at x at.now) (heap_at y heap.now) [] objects.now in
        Finds result (verdict at.now.line MakeClaimCheck (map plain tests)) }
{
    for i in 0..objects.len() {
        if !may_claim(at, heap, &objects[..i], objects[i]) {
            return Err(at.fault(CheckKind::MakeClaim));
        }
    }
    Ok(())
}

/// A stop for a claim that can't be made, or can't end.
fn stop_of(fault: ClaimFault) -> Stop
    ensures { IsSilentOr (fault ≡ ClaimFault.NoSerial ⊎ fault ≡ ClaimFault.CountFull) result }
{
    match fault {
        ClaimFault::NoSerial | ClaimFault::CountFull => Stop::Exhausted,
        ClaimFault::OutOfMemory => Stop::OutOfMemory,
    }
}

/// Puts a new claim into the heap, at a reference where nothing stands.
///
/// # Errors
/// Exhausted where no such reference is left, or a claim count would leave 128 bits.
fn new_claim(h: &mut Heap, me: Ref, objects: &[Ref], entries: &[Entry]) -> Result<Ref, Stop>
    ensures fresh { IfOk result (λ c. (y : List Reference) → IsFinite (heap_at y h.old) →
        c ≡ fresh (heap_at y h.old) 2) }
    ensures ok { IfOk result (λ c. look_up h.new ≡ (with_claim c me objects.now entries.now (heap_of h.old)).get) }
    ensures err { IfErr result (IsSilentOr (LacksClaim h.old objects.now)) }
{
    new_reference(h, CLAIMS)?;
    add_claim(h, me, objects, entries).map_err(stop_of)
}

/// The heap with the value stored, unchecked.
fn store_unchecked(h: &Heap, place: Place, v: Value) -> Result<Heap, AllocError>
    ensures { IfOk result (λ k. (y : List Reference) →
        look_up k ≡ (stored_heap (place_of place) v (heap_at y h.now)).get) }
{
    match place {
        Place::InLocal(_) => h.copy(),
        Place::InField(o, f) => {
            let mut stored = h.copy()?;
            stored.write(o, f, v)?;
            Ok(stored)
        }
    }
}

/// Checks a new claim, unless the checks wait for a block's end: the step, with the claim stored at the place, gives
/// each conjunct and keeps each object's invariant.
fn check_new_claim(
    at: &Spot<'_>,
    c: Ref,
    place: Place,
    objects: &[Ref],
    entries: &[Entry],
    before: &Heap,
    after: &Heap,
) -> Result<(), Stop>
    ensures { (n : ℕ) (x y z : List Reference) →
        let stored = stored_heap (place_of place) (Refers c) (heap_at z after.now) in
        Guards {A = Valued} result
        (claim_checked at.now.program.now (spot_at x at.now) objects.now entries.now (heap_at y before.now) stored n) }
{
    if at.inside {
        return Ok(());
    }
    let stored = store_unchecked(after, place, Value::Ref(c))?;
    check_entries(at, entries, &stored)?;
    check_invariants(at, objects, before, &stored)
}

/// Notes a new claim and its objects for the block's end.
fn note_claim(progress: &mut Progress, c: Ref, objects: &[Ref]) -> Result<(), AllocError>
    ensures changed { OnOk result (progress.new.changed.items ≡ progress.old.changed.items ++ objects.now) }
    ensures made { OnOk result (progress.new.made.items ≡ progress.old.made.items ++ c ∷ []) }
    ensures rest { OnOk result
        (progress.new ≡ record progress.old { changed = progress.new.changed; made = progress.new.made }) }
{
    progress.changed.extend_from_slice(objects)?;
    progress.made.push(c)?;
    Ok(())
}

/// Makes a claim. Inside an atomic block it and its objects are noted for the block's end; outside, the step, with the
/// value stored, must give each conjunct and keep each object's invariant.
///
/// # Errors
/// Exhausted where no reference is left for a claim, or a claim count would leave 128 bits.
pub fn make_claim(
    alloc: Global,
    at: &Spot<'_>,
    site: &ClaimSite,
    place: Place,
    progress: &mut Progress,
) -> Result<Value, Stop>
    ensures { (t : Tally) →
        Reading at.now progress.old
        (λ p s g n. RunsToOr (MakingRunsOut p s (Some site.now) n g) result progress.new
        (make_claim p s (Some site.now) (place_of place) n t g)) }
{
    let objects = claimed_objects(alloc, at, &site.claimed, progress)?;
    let entries = fill_conjuncts(alloc, at, &progress.locals, &site.conjuncts)?;
    check_claimed(at, &progress.heap, &objects)?;
    let before = progress.heap.copy()?;
    let c = new_claim(&mut progress.heap, at.context.me, &objects, &entries)?;
    check_new_claim(at, c, place, &objects, &entries, &before, &progress.heap)?;
    note_claim(progress, c, &objects)?;
    Ok(Value::Ref(c))
}

/// Whether the objects are each named once.
fn all_distinct(objects: &[Ref]) -> bool
    ensures { result ≡ all_distinct objects.now }
{
    let mut rest = objects;
    while let Some((o, later)) = rest.split_first() {
        if contains(later, *o) {
            return false;
        }
        rest = later;
    }
    true
}

/// Whether each of the objects is in the set.
#[tactic(auto, using(crate::proofs::Membership::every_next, crate::proofs::Membership::every_fails, crate::proofs::Membership::every_end))]
fn all_contained(set: &[Ref], objects: &[Ref]) -> bool
    ensures { result ≡ every (λ o. is_in o set.now) objects.now }
{
    for o in objects {
        if !contains(set, *o) {
            return false;
        }
    }
    true
}

/// Whether the reference is one of a claim.
fn is_claim(c: Ref) -> bool
    ensures { result ≡ is_claim c }
{
    c.ty == CLAIMS
}

/// Whether the claim lists exactly the objects.
fn lists_exactly(h: &Heap, c: Ref, objects: &[Ref]) -> bool
    ensures { result ≡ is_exactly (look_up h.now c).listed objects.now }
{
    let listed = h.listed(c);
    all_contained(listed, objects) && all_contained(objects, listed)
}

/// Whether c is a claim that the thread owns closed and may write, and that lists exactly the objects, each named once.
fn may_end(at: &Spot<'_>, c: Ref, objects: &[Ref], h: &Heap) -> bool
    ensures { (x y : List Reference) →
        result ≡ may_end at.now.program.now (spot_at x at.now) c objects.now (heap_at y h.now) }
{
    if !is_claim(c) {
        return false;
    }
    if !wrapped(h, at.context.me, c) {
        return false;
    }
    if !at.may_write(c) {
        return false;
    }
    if !all_distinct(objects) {
        return false;
    }
    lists_exactly(h, c, objects)
}

/// Checks that the claims of the objects are counted here.
fn check_counted(at: &Spot<'_>, heap: &Heap, objects: &[Ref]) -> Result<(), Stop>
    ensures { (x y : List Reference) →
        let tests = count_tests (spot_at x at.now) (heap_at y heap.now) objects.now in
        Finds result (verdict at.now.line DestroyClaimCheck (map plain tests)) }
{
    for o in objects {
        if !may_count(at, heap, *o) {
            return Err(at.fault(CheckKind::DestroyClaim));
        }
    }
    Ok(())
}

/// Takes the claim out of the heap.
///
/// # Errors
/// Exhausted where a claim count would leave 128 bits.
fn remove_claim(h: &mut Heap, c: Ref) -> Result<(), Stop>
    ensures ok { OnOk result (look_up h.new ≡ (without_claim c (heap_of h.old)).get) }
    ensures distinct { OnOk result (IsTrue (all_distinct (look_up h.old c).listed)) }
    ensures err { IfErr result
        (IsSilentOr (Overflows (negsuc 0) (look_up h.old c).listed (heap_of h.old))) }
{
    h.is_kept();
    drop_claim(h, c).map_err(stop_of)
}

/// Checks the objects' invariants over the step, unless they wait for a block's end.
fn check_objects(at: &Spot<'_>, objects: &[Ref], before: &Heap, after: &Heap) -> Result<(), Stop>
    ensures { (n : ℕ) (x y z : List Reference) →
        let checked = objects_checked at.now.program.now (spot_at x at.now) objects.now in
        Guards {A = AProgress} result (checked (heap_at y before.now) (heap_at z after.now) n) }
{
    if at.inside {
        return Ok(());
    }
    check_invariants(at, objects, before, after)
}

/// Ends a claim on the objects.
///
/// # Errors
/// Exhausted where a claim count would leave 128 bits.
pub fn end_claim(
    at: &Spot<'_>,
    c: Ref,
    objects: &[Ref],
    progress: &mut Progress,
) -> Result<(), Stop>
    ensures { (t : Tally) →
        Reading at.now progress.old
        (λ p s g n. RunsOr (EndingRunsOut c g) result progress.new (end_claim p s c objects.now n t g)) }
{
    if !may_end(at, c, objects, &progress.heap) {
        return Err(at.fault(CheckKind::DestroyClaim));
    }
    check_counted(at, &progress.heap, objects)?;
    let before = progress.heap.copy()?;
    remove_claim(&mut progress.heap, c)?;
    check_objects(at, objects, &before, &progress.heap)?;
    progress.changed.extend_from_slice(objects)?;
    Ok(())
}
