//! Atomic blocks.

ghost use Rattle.std.specs.Prelude.{◌≡◌, IfOk, List, map};
ghost use Rattle.terms.specs.Formula.{Formula};
ghost use Rattle.method.specs.Actions.{listed_exprs};
ghost use Rattle.conditions.specs.Annotations as annotation;
ghost use Rattle.conditions.specs.Formulas.{closed};
ghost use Rattle.conditions.specs.Code as spec;
ghost use Rattle.conditions.specs.Actions as actions;
ghost use Rattle.condition_formulas.specs.Standing.{StandsAs, StandAll, Later};
ghost use Rattle.condition_code.specs.States.{
  AreDeferred,
  AreDeferredClaims,
  AreEntries,
  IsDeferred,
  IsDeferredClaim,
  IsSpot,
  IsState,
};
ghost use Rattle.condition_code.specs.Walks.{AreIds, Ran};
ghost use Rattle.condition_actions.specs.Blocks.{claim_test, kept_test, plain_ids};

use crate::inner::run_list;
use condition_branches::states::without_deferred;
use condition_code::access::inv;
use condition_code::expressions::code;
use condition_code::state::{DeferredClaim, DeferredObject, Entry, Spot, State};
use condition_code::walk::Walk;
use condition_formulas::columns::closed;
use condition_formulas::formulas::imp;
use condition_formulas::lists::all_of;
use condition_formulas::symbolic::term;
use condition_scenes::conjuncts::entry_formula;
use method::program::{Inner, Listed, Program};
use std::alloc::{AllocError, Global};
use term_graph::graph::Graph;

/// The objects that a block lists as terms, with their checks.
fn listed_terms(
    walk: &mut Walk,
    a: &Spot<'_>,
    st: &State,
    listed: &[Listed],
) -> Result<Vec<u32>, AllocError>
    ensures { (b : spec.Spot) (s : spec.State) → IsSpot walk.old.graph a.now b → IsState walk.old.graph st.now s →
        IfOk result (λ ids.
        Ran AreIds walk.old walk.new ids (spec.all_code a.now.program.now b s (listed_exprs listed.now))) }
{
    let mut terms = Vec::new(walk.alloc);
    for item in listed {
        let v = code(walk, a, st, &item.object)?;
        let id = term(&mut walk.graph, v)?;
        terms.push(id)?;
    }
    Ok(terms)
}

/// That each of the objects is closed.
fn each_closed(
    alloc: Global,
    graph: &mut Graph,
    heap: u32,
    objects: &[u32],
) -> Result<Vec<u32>, AllocError>
    ensures stands { (h : Formula) (os : List Formula) → StandsAs graph.old heap h → StandAll graph.old objects.now os →
        IfOk result (λ ids. StandAll graph.new ids.items (map (closed h) os)) }
    ensures later { Later graph.old graph.new }
{
    let mut tests = Vec::new(alloc);
    for o in objects {
        let test = closed(graph, heap, *o)?;
        tests.push(test)?;
    }
    Ok(tests)
}

/// The listed objects whose declared type isn't `\claim`.
fn plain_objects(alloc: Global, listed: &[Listed], objects: &[u32]) -> Result<Vec<u32>, AllocError>
    ensures { IfOk result (λ ids. ids.items ≡ plain_ids listed.now objects.now) }
{
    let mut plain = Vec::new(alloc);
    for (item, o) in listed.iter().zip(objects) {
        if !item.is_claim {
            plain.push(*o)?;
        }
    }
    Ok(plain)
}

/// The invariant of each of the objects, over two heaps.
fn invariants(
    alloc: Global,
    graph: &mut Graph,
    objects: &[u32],
    before: u32,
    after: u32,
) -> Result<Vec<u32>, AllocError>
    ensures stands { (os : List Formula) (h0 h1 : Formula) →
        StandAll graph.old objects.now os → StandsAs graph.old before h0 → StandsAs graph.old after h1 →
        IfOk result (λ ids. StandAll graph.new ids.items (map (λ o. spec.inv o h0 h1) os)) }
    ensures later { Later graph.old graph.new }
{
    let mut tests = Vec::new(alloc);
    for o in objects {
        let test = inv(graph, *o, before, after)?;
        tests.push(test)?;
    }
    Ok(tests)
}

/// The formula, where all of these hold.
fn imply_all(graph: &mut Graph, guards: &[u32], formula: u32) -> Result<u32, AllocError>
    ensures stands { (gs : List Formula) (f : Formula) →
        StandAll graph.old guards.now gs → StandsAs graph.old formula f →
        IfOk result (λ id. StandsAs graph.new id (actions.imply_all gs f)) }
    ensures later { Later graph.old graph.new }
{
    let mut whole = formula;
    let mut i = guards.len();
    while i > 0 {
        i -= 1;
        whole = imp(graph, guards[i], whole)?;
    }
    Ok(whole)
}

/// The object's invariant over the block, where the tests on the way to it were passed.
fn deferred_test(
    graph: &mut Graph,
    before: u32,
    after: u32,
    object: &DeferredObject,
) -> Result<u32, AllocError>
    ensures stands { (h0 h1 : Formula) (d : spec.DeferredObject) →
        StandsAs graph.old before h0 → StandsAs graph.old after h1 → IsDeferred graph.old object.now d →
        IfOk result (λ id. StandsAs graph.new id (kept_test h0 h1 d)) }
    ensures later { Later graph.old graph.new }
{
    let test = inv(graph, object.which, before, after)?;
    imply_all(graph, &object.guards, test)
}

/// The tests of the objects that are to be checked at the block's end.
fn deferred_tests(
    alloc: Global,
    graph: &mut Graph,
    before: u32,
    after: u32,
    changed: &[DeferredObject],
) -> Result<Vec<u32>, AllocError>
    ensures stands { (h0 h1 : Formula) (ds : List spec.DeferredObject) →
        StandsAs graph.old before h0 → StandsAs graph.old after h1 → AreDeferred graph.old changed.now ds →
        IfOk result (λ ids. StandAll graph.new ids.items (map (kept_test h0 h1) ds)) }
    ensures later { Later graph.old graph.new }
{
    let mut tests = Vec::new(alloc);
    for object in changed {
        let test = deferred_test(graph, before, after, object)?;
        tests.push(test)?;
    }
    Ok(tests)
}

/// The conjuncts of a claim on the heap.
fn entry_formulas(
    alloc: Global,
    graph: &mut Graph,
    program: &Program,
    heap: u32,
    entries: &[Entry],
) -> Result<Vec<u32>, AllocError>
    ensures stands { (h : Formula) (es : List annotation.Entry) →
        StandsAs graph.old heap h → AreEntries graph.old entries.now es →
        IfOk result (λ ids. StandAll graph.new ids.items (map (annotation.entry_formula program.now h) es)) }
    ensures later { Later graph.old graph.new }
{
    let mut formulas = Vec::new(alloc);
    for entry in entries {
        let formula = entry_formula(alloc, graph, program, heap, entry)?;
        formulas.push(formula)?;
    }
    Ok(formulas)
}

/// That the claim has its conjuncts if it is still closed, where the tests on the way to it were passed.
fn made_test(
    alloc: Global,
    graph: &mut Graph,
    program: &Program,
    heap: u32,
    claim: &DeferredClaim,
) -> Result<u32, AllocError>
    ensures stands { (h : Formula) (d : spec.DeferredClaim) →
        StandsAs graph.old heap h → IsDeferredClaim graph.old claim.now d →
        IfOk result (λ id. StandsAs graph.new id (claim_test program.now h d)) }
    ensures later { Later graph.old graph.new }
{
    let conjuncts = entry_formulas(alloc, graph, program, heap, &claim.entries)?;
    let all = all_of(graph, &conjuncts)?;
    let stands = closed(graph, heap, claim.which)?;
    let test = imp(graph, stands, all)?;
    imply_all(graph, &claim.guards, test)
}

/// The tests of the claims that the block has made.
fn made_tests(
    alloc: Global,
    graph: &mut Graph,
    program: &Program,
    heap: u32,
    made: &[DeferredClaim],
) -> Result<Vec<u32>, AllocError>
    ensures stands { (h : Formula) (ds : List spec.DeferredClaim) →
        StandsAs graph.old heap h → AreDeferredClaims graph.old made.now ds →
        IfOk result (λ ids. StandAll graph.new ids.items (map (claim_test program.now h) ds)) }
    ensures later { Later graph.old graph.new }
{
    let mut tests = Vec::new(alloc);
    for claim in made {
        let test = made_test(alloc, graph, program, heap, claim)?;
        tests.push(test)?;
    }
    Ok(tests)
}

/// The end of a block that began in the heap `before`: over the whole block the invariants hold of the listed objects
/// and of those whose count it changed, and the claims that it made have their conjuncts.
fn block_end(
    walk: &mut Walk,
    program: &Program,
    listed: &[Listed],
    objects: &[u32],
    before: u32,
    st: State,
) -> Result<State, AllocError>
    ensures { (b : spec.Spot) (os : List Formula) (h : Formula) (s : spec.State) →
        StandAll walk.old.graph objects.now os → StandsAs walk.old.graph before h → IsState walk.old.graph st s →
        IfOk result (λ r. Ran IsState walk.old walk.new r (actions.block_end program.now b listed.now os h s)) }
{
    let plain = plain_objects(walk.alloc, listed, objects)?;
    let kept = invariants(walk.alloc, &mut walk.graph, &plain, before, st.heap)?;
    walk.check_each(&kept)?;
    let changed = deferred_tests(walk.alloc, &mut walk.graph, before, st.heap, &st.changed)?;
    walk.check_each(&changed)?;
    let made = made_tests(walk.alloc, &mut walk.graph, program, st.heap, &st.made)?;
    walk.check_each(&made)?;
    let state = without_deferred(walk.alloc, &st)?;
    Ok(state)
}

/// An atomic block: the listed objects are closed, then its statements, then the checks of its end.
pub fn atomic(
    walk: &mut Walk,
    a: &Spot<'_>,
    listed: &[Listed],
    body: &[Inner],
    st: State,
) -> Result<State, AllocError>
    ensures { (b : spec.Spot) (s : spec.State) → IsSpot walk.old.graph a.now b → IsState walk.old.graph st s →
        IfOk result (λ r. Ran IsState walk.old walk.new r
        (actions.atomic a.now.program.now b listed.now body.now s)) }
{
    let objects = listed_terms(walk, a, &st, listed)?;
    let closed = each_closed(walk.alloc, &mut walk.graph, st.heap, &objects)?;
    walk.check_each(&closed)?;
    let start = without_deferred(walk.alloc, &st)?;
    let block = Spot {
        inside: true,
        listed: &objects,
        ..*a
    };
    let end = run_list(walk, &block, body, start)?;
    let state = block_end(walk, a.program, listed, &objects, st.heap, end)?;
    Ok(state)
}
