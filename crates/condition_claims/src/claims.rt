//! Claims made and ended.

ghost use Rattle.std.specs.Prelude.{◌≡◌, ◌++◌, IfOk, IfSome, IfNone, List, Some, None, map, slice_get, pos};
ghost use Rattle.terms.specs.declared.term.Term.{Term};
ghost use Rattle.terms.specs.Formula.{Formula, Node};
ghost use Rattle.terms.specs.declared.term.Kind.TheVariants as k;
ghost use Rattle.conditions.specs.Annotations as annotation;
ghost use Rattle.conditions.specs.Code as spec;
ghost use Rattle.conditions.specs.Actions as actions;
ghost use Rattle.conditions.specs.Formulas.{nat, null, row, status};
ghost use Rattle.condition_formulas.specs.Standing.{StandsAs, StandAll, Later};
ghost use Rattle.annotation_scenes.specs.Scenes.{IsScene};
ghost use Rattle.condition_code.specs.States.{AreDeferred, AreEntries, IsSpot, IsState, IsValueAndState};
ghost use Rattle.condition_code.specs.Walks.{AreIds, Ran};
ghost use Rattle.condition_stores.specs.Places.{IsPlace};
ghost use Rattle.condition_claims.specs.Drafts.{IsDraft};
ghost use Rattle.condition_claims.specs.Pieces.{checked_claim, claim_end, claim_fact, claim_of_site, claimed_term, deferred_claim, lists_only};

use crate::admissible::is_of_type;
use crate::heaps::{change_counts, new_claim, without_claim};
use crate::stability::claim_stable;
use crate::tests::{all_distinct, claim_tests, each_inv, each_may_count, entry_formulas};
use annotation_scenes::scene::Scene;
use condition_annotations::tables::each_listed;
use condition_code::access::{wrapped, writable};
use condition_code::expressions::code;
use condition_code::forms::local;
use condition_code::scenes::scene;
use condition_code::state::{
    DeferredClaim, DeferredObject, Entry, Spot, State, ValueAndState, new_heap, new_reference,
};
use condition_code::walk::Walk;
use condition_formulas::columns::mode;
use condition_formulas::formulas::{eq, nat, node, null};
use condition_formulas::lists::{all_of, joined};
use condition_formulas::symbolic::{Symbolic, term};
use condition_scenes::conjuncts::entry_of;
use condition_stores::place::{Place, stored_heap};
use method::program::{ClaimSite, Claimed, Conjunct, Program};
use std::alloc::{AllocError, Global};
use term_graph::graph::Graph;
use terms::term::Kind;

/// A claim that is being made: its reference, the objects that it is to list, where its value goes, and the heap before
/// it.
#[derive(Clone, Copy)]
pub struct Draft<'a> {
    pub claim: u32,
    pub objects: &'a [u32],
    pub place: Place,
    pub heap: u32,
}

/// The value of a claimed object, with its checks.
fn claimed_term(
    walk: &mut Walk,
    a: &Spot<'_>,
    claimed: &Claimed,
    st: &State,
) -> Result<u32, AllocError>
    ensures { (b : spec.Spot) (s : spec.State) → IsSpot walk.old.graph a.now b → IsState walk.old.graph st.now s →
        IfOk result (λ r. Ran StandsAs walk.old walk.new r (claimed_term a.now.program.now b claimed.now s)) }
{
    match claimed {
        Claimed::ClaimedVariable(i) => {
            let value = local(walk, st, *i)?;
            let id = term(&mut walk.graph, value)?;
            Ok(id)
        }
        Claimed::ClaimedNull => {
            let id = null(&mut walk.graph)?;
            Ok(id)
        }
        Claimed::ClaimedOther(e, _) => {
            let value = code(walk, a, st, e)?;
            let id = term(&mut walk.graph, value)?;
            Ok(id)
        }
    }
}

/// The claimed objects of a claim site.
fn claimed_terms(
    walk: &mut Walk,
    a: &Spot<'_>,
    all: &[Claimed],
    st: &State,
) -> Result<Vec<u32>, AllocError>
    ensures { (b : spec.Spot) (s : spec.State) → IsSpot walk.old.graph a.now b → IsState walk.old.graph st.now s →
        IfOk result (λ r. Ran AreIds walk.old walk.new r (actions.claimed_terms a.now.program.now b all.now s)) }
{
    let mut objects = Vec::new(walk.alloc);
    for claimed in all {
        let o = claimed_term(walk, a, claimed, st)?;
        objects.push(o)?;
    }
    Ok(objects)
}

/// The conjuncts with what fills them in the scene.
fn entries_in(
    alloc: Global,
    graph: &mut Graph,
    scene: &Scene<'_>,
    conjuncts: &[Conjunct],
) -> Result<Vec<Entry>, AllocError>
    ensures stands { (s : annotation.Scene) → IsScene graph.old scene.now s →
        IfOk result (λ es. AreEntries graph.new es.items (map (annotation.entry_of s) conjuncts.now)) }
    ensures later { Later graph.old graph.new }
{
    let mut entries = Vec::new(alloc);
    for conjunct in conjuncts {
        let entry = entry_of(alloc, graph, scene, conjunct)?;
        entries.push(entry)?;
    }
    Ok(entries)
}

/// The conjuncts of a claim that the site makes here.
fn site_entries(
    alloc: Global,
    graph: &mut Graph,
    a: &Spot<'_>,
    site: &ClaimSite,
    st: &State,
) -> Result<Vec<Entry>, AllocError>
    ensures stands { (b : spec.Spot) (s : spec.State) → IsSpot graph.old a.now b → IsState graph.old st.now s →
        IfOk result (λ es. AreEntries graph.new es.items
        (map (annotation.entry_of (spec.scene b s)) site.now.conjuncts.items)) }
    ensures later { Later graph.old graph.new }
{
    let words = scene(graph, a, st)?;
    entries_in(alloc, graph, &words, &site.conjuncts)
}

/// The objects are noted for the block's end, behind those that are.
pub fn defer(
    alloc: Global,
    changed: &mut Vec<DeferredObject>,
    objects: &[u32],
) -> Result<(), AllocError>
    ensures { (ts : List Term) (ds : List spec.DeferredObject) (os : List Formula) →
        AreDeferred ts changed.old.items ds → StandAll ts objects.now os →
        IfOk result (λ u. AreDeferred ts changed.new.items (ds ++ actions.defer os)) }
{
    for o in objects {
        changed.push(DeferredObject {
            guards: Vec::new(alloc),
            which: *o,
        })?;
    }
    Ok(())
}

/// The claim, which is noted for the block's end with its objects.
fn defer_claim(
    alloc: Global,
    draft: Draft<'_>,
    entries: Vec<Entry>,
    mut st: State,
) -> Result<ValueAndState, AllocError>
    ensures { (ts : List Term) (c : Formula) (os : List Formula) (q : actions.Place) (h : Formula)
        (es : List annotation.Entry) (s : spec.State) →
        IsDraft ts draft.entry c os q h → AreEntries ts entries.items es → IsState ts st s →
        IfOk result (λ v. IsValueAndState ts v (deferred_claim c os es s)) }
{
    defer(alloc, &mut st.changed, draft.objects)?;
    st.made.push(DeferredClaim {
        guards: Vec::new(alloc),
        which: draft.claim,
        entries,
    })?;
    Ok(ValueAndState {
        value: Symbolic::Reference(draft.claim),
        state: st,
    })
}

/// The claim, outside a block: the step, with the value stored, must give each conjunct and keep each object's
/// invariant.
fn check_claim(
    walk: &mut Walk,
    program: &Program,
    draft: Draft<'_>,
    entries: &[Entry],
    st: State,
) -> Result<ValueAndState, AllocError>
    ensures { (c : Formula) (os : List Formula) (q : actions.Place) (h : Formula)
        (es : List annotation.Entry) (s : spec.State) →
        IsDraft walk.old.graph draft.entry c os q h → AreEntries walk.old.graph entries.now es →
        IsState walk.old.graph st s →
        IfOk result (λ r. Ran IsValueAndState walk.old walk.new r (checked_claim program.now c os es q h s)) }
{
    let value = Symbolic::Reference(draft.claim);
    let stored = stored_heap(&mut walk.graph, draft.place, value, st.heap)?;
    let conjuncts = entry_formulas(walk.alloc, &mut walk.graph, program, stored, entries)?;
    walk.check_each(&conjuncts)?;
    let kept = each_inv(
        walk.alloc,
        &mut walk.graph,
        draft.objects,
        draft.heap,
        stored,
    )?;
    walk.check_each(&kept)?;
    Ok(ValueAndState { value, state: st })
}

/// What a new claim has to keep: inside a block it is noted for the end, outside it is checked here.
fn claim_effect(
    walk: &mut Walk,
    a: &Spot<'_>,
    draft: Draft<'_>,
    entries: Vec<Entry>,
    st: State,
) -> Result<ValueAndState, AllocError>
    ensures { (b : spec.Spot) (c : Formula) (os : List Formula) (q : actions.Place) (h : Formula)
        (es : List annotation.Entry) (s : spec.State) →
        IsSpot walk.old.graph a.now b → IsDraft walk.old.graph draft.entry c os q h →
        AreEntries walk.old.graph entries.items es → IsState walk.old.graph st s →
        IfOk result (λ r. Ran IsValueAndState walk.old walk.new r
        (actions.claim_effect a.now.program.now b c os es q h s)) }
{
    if a.inside {
        let value = defer_claim(walk.alloc, draft, entries, st)?;
        return Ok(value);
    }
    let value = check_claim(walk, a.program, draft, &entries, st)?;
    Ok(value)
}

/// That the claim was absent in the heap before it, and that `now` is this heap with the claim.
fn claim_fact(
    alloc: Global,
    graph: &mut Graph,
    program: &Program,
    draft: Draft<'_>,
    entries: &[Entry],
    now: u32,
) -> Result<u32, AllocError>
    ensures stands { (b : spec.Spot) (c : Formula) (os : List Formula) (q : actions.Place) (h : Formula)
        (es : List annotation.Entry) (g : Formula) →
        IsDraft graph.old draft.entry c os q h → AreEntries graph.old entries.now es → StandsAs graph.old now g →
        IfOk result (λ id. StandsAs graph.new id (claim_fact program.now b c os es h g)) }
    ensures later { Later graph.old graph.new }
{
    let typed = is_of_type(graph, draft.claim, 2)?;
    let was = mode(graph, draft.heap, draft.claim)?;
    let zero = nat(graph, 0)?;
    let absent = eq(graph, was, zero)?;
    let with = new_claim(
        alloc,
        graph,
        program,
        draft.claim,
        draft.objects,
        entries,
        draft.heap,
    )?;
    let made = eq(graph, now, with)?;
    all_of(graph, &[typed, absent, made])
}

/// A new claim, with the counts of what it claims, and its checks; the heap of the state is the one with the claim.
fn add_claim(
    walk: &mut Walk,
    a: &Spot<'_>,
    draft: Draft<'_>,
    entries: Vec<Entry>,
    mut st: State,
) -> Result<ValueAndState, AllocError>
    ensures { (b : spec.Spot) (c : Formula) (os : List Formula) (q : actions.Place) (h : Formula)
        (es : List annotation.Entry) (s : spec.State) →
        IsSpot walk.old.graph a.now b → IsDraft walk.old.graph draft.entry c os q h →
        AreEntries walk.old.graph entries.items es → IsState walk.old.graph st s →
        IfOk result (λ r. Ran IsValueAndState walk.old walk.new r
        (actions.add_claim a.now.program.now b c os es q h s)) }
{
    let known = claim_fact(
        walk.alloc,
        &mut walk.graph,
        a.program,
        draft,
        &entries,
        st.heap,
    )?;
    walk.fact(known)?;
    let counted = change_counts(
        walk.alloc,
        &mut walk.graph,
        Kind::Add,
        draft.objects,
        st.heap,
    )?;
    st.heap = counted;
    let value = claim_effect(walk, a, draft, entries, st)?;
    Ok(value)
}

/// A new claim of the site, which lists these objects.
fn claim_of_site(
    walk: &mut Walk,
    a: &Spot<'_>,
    site: &ClaimSite,
    objects: &[u32],
    place: Place,
    st: State,
) -> Result<ValueAndState, AllocError>
    ensures { (b : spec.Spot) (os : List Formula) (q : actions.Place) (s : spec.State) →
        IsSpot walk.old.graph a.now b → StandAll walk.old.graph objects.now os → IsPlace walk.old.graph place q →
        IsState walk.old.graph st s →
        IfOk result (λ r. Ran IsValueAndState walk.old walk.new r
        (claim_of_site a.now.program.now b site.now os q s)) }
{
    let entries = site_entries(walk.alloc, &mut walk.graph, a, site, &st)?;
    let heap = st.heap;
    let reference = new_reference(&mut walk.graph, st)?;
    let claim = term(&mut walk.graph, reference.value)?;
    let fresh = new_heap(&mut walk.graph, reference.state)?;
    let draft = Draft {
        claim,
        objects,
        place,
        heap,
    };
    let value = add_claim(walk, a, draft, entries, fresh)?;
    Ok(value)
}

/// The claim of the site, which must be stable.
fn make_claim_at(
    walk: &mut Walk,
    a: &Spot<'_>,
    site: &ClaimSite,
    place: Place,
    st: State,
) -> Result<ValueAndState, AllocError>
    ensures { (b : spec.Spot) (q : actions.Place) (s : spec.State) →
        IsSpot walk.old.graph a.now b → IsPlace walk.old.graph place q → IsState walk.old.graph st s →
        IfOk result (λ r. Ran IsValueAndState walk.old walk.new r
        (actions.make_claim a.now.program.now b (Some site.now) q s)) }
{
    let objects = claimed_terms(walk, a, &site.claimed, &st)?;
    let tests = claim_tests(walk.alloc, &mut walk.graph, a, st.heap, &objects)?;
    walk.check_each(&tests)?;
    let stable = claim_stable(walk, a.program, site)?;
    walk.standalone(stable)?;
    let value = claim_of_site(walk, a, site, &objects, place, st)?;
    Ok(value)
}

/// NULL, in the place of a claim without site.
fn no_claim(
    walk: &mut Walk,
    a: &Spot<'_>,
    place: Place,
    st: State,
) -> Result<ValueAndState, AllocError>
    ensures { (b : spec.Spot) (q : actions.Place) (s : spec.State) → IsState walk.old.graph st s →
        IfOk result (λ r. Ran IsValueAndState walk.old walk.new r
        (actions.make_claim a.now.program.now b None q s)) }
{
    let nothing = null(&mut walk.graph)?;
    Ok(ValueAndState {
        value: Symbolic::Reference(nothing),
        state: st,
    })
}

/// The claim site with the number.
fn site_at(program: &Program, number: u32) -> Option<&ClaimSite>
    ensures some { IfSome result (λ site. slice_get program.now.sites.items number ≡ Some site.now) }
    ensures none { IfNone result (slice_get program.now.sites.items number ≡ None) }
{
    program.sites.get(number as usize)
}

/// The claim of the site with this number, whose value goes to the place: its checks, and the heap with it.
pub fn make_claim(
    walk: &mut Walk,
    a: &Spot<'_>,
    site: u32,
    place: Place,
    st: State,
) -> Result<ValueAndState, AllocError>
    ensures { (b : spec.Spot) (q : actions.Place) (s : spec.State) →
        IsSpot walk.old.graph a.now b → IsPlace walk.old.graph place q → IsState walk.old.graph st s →
        IfOk result (λ r. Ran IsValueAndState walk.old walk.new r
        (actions.make_claim a.now.program.now b (slice_get a.now.program.now.sites.items site) q s)) }
{
    match site_at(a.program, site) {
        Some(info) => make_claim_at(walk, a, info, place, st),
        None => no_claim(walk, a, place, st),
    }
}

/// The quantified formula with this number, of these arguments.
fn all(graph: &mut Graph, number: u32, args: &[u32]) -> Result<u32, AllocError>
    ensures stands { (fs : List Formula) → StandAll graph.old args.now fs →
        IfOk result (λ id. StandsAs graph.new id (Node k.All (pos number) (row fs))) }
    ensures later { Later graph.old graph.new }
{
    node(graph, Kind::All, number as i128, args)
}

/// That the claim lists no other than these objects, by the formula with the number.
fn lists_only(
    alloc: Global,
    graph: &mut Graph,
    number: u32,
    heap: u32,
    claim: u32,
    objects: &[u32],
) -> Result<u32, AllocError>
    ensures stands { (h c : Formula) (os : List Formula) →
        StandsAs graph.old heap h → StandsAs graph.old claim c → StandAll graph.old objects.now os →
        IfOk result (λ id. StandsAs graph.new id (lists_only number h c os)) }
    ensures later { Later graph.old graph.new }
{
    let args = joined(alloc, &[heap, claim], objects)?;
    all(graph, number, &args)
}

/// That it is a wrapped, writable claim whose claimed set is exactly these objects, each named once.
fn may_end(
    alloc: Global,
    graph: &mut Graph,
    a: &Spot<'_>,
    number: u32,
    claim: u32,
    objects: &[u32],
    st: &State,
) -> Result<u32, AllocError>
    ensures stands { (b : spec.Spot) (c : Formula) (os : List Formula) (s : spec.State) →
        IsSpot graph.old a.now b → StandsAs graph.old claim c → StandAll graph.old objects.now os →
        IsState graph.old st.now s →
        IfOk result (λ id. StandsAs graph.new id (actions.may_end a.now.program.now b number c os s)) }
    ensures later { Later graph.old graph.new }
{
    let shut = wrapped(graph, st, claim)?;
    let allowed = writable(alloc, graph, a, claim)?;
    let typed = is_of_type(graph, claim, 2)?;
    let listing = each_listed(alloc, graph, st.heap, claim, objects)?;
    let only = lists_only(alloc, graph, number, st.heap, claim, objects)?;
    let distinct = all_distinct(alloc, graph, objects)?;
    let mut tests = joined(alloc, &[shut, allowed, typed], &listing)?;
    let rest = joined(alloc, &[only], &distinct)?;
    tests.extend_from_slice(&rest)?;
    all_of(graph, &tests)
}

/// The state where the claim has ended, with the heap then: inside a block its objects are noted, outside each keeps
/// its invariant.
fn claim_end(
    walk: &mut Walk,
    a: &Spot<'_>,
    objects: &[u32],
    heap: u32,
    mut st: State,
) -> Result<State, AllocError>
    ensures { (b : spec.Spot) (os : List Formula) (h : Formula) (s : spec.State) →
        IsSpot walk.old.graph a.now b → StandAll walk.old.graph objects.now os → StandsAs walk.old.graph heap h →
        IsState walk.old.graph st s →
        IfOk result (λ r. Ran IsState walk.old walk.new r (claim_end b os h s)) }
{
    if a.inside {
        defer(walk.alloc, &mut st.changed, objects)?;
        st.heap = heap;
        return Ok(st);
    }
    let kept = each_inv(walk.alloc, &mut walk.graph, objects, st.heap, heap)?;
    walk.check_each(&kept)?;
    st.heap = heap;
    Ok(st)
}

/// The claim ends, which must list exactly these objects: formula `number` says that it lists no other.
pub fn end_claim(
    walk: &mut Walk,
    a: &Spot<'_>,
    number: u32,
    claim: u32,
    objects: &[u32],
    st: State,
) -> Result<State, AllocError>
    ensures { (b : spec.Spot) (c : Formula) (os : List Formula) (s : spec.State) →
        IsSpot walk.old.graph a.now b → StandsAs walk.old.graph claim c → StandAll walk.old.graph objects.now os →
        IsState walk.old.graph st s →
        IfOk result (λ r. Ran IsState walk.old walk.new r
        (actions.end_claim a.now.program.now b number c os s
        (actions.change_counts k.Sub os (status s.heap c (nat 3) null)))) }
{
    let may = may_end(walk.alloc, &mut walk.graph, a, number, claim, objects, &st)?;
    walk.check(may)?;
    let counts = each_may_count(walk.alloc, &mut walk.graph, a, st.heap, objects)?;
    walk.check_each(&counts)?;
    let heap = without_claim(walk.alloc, &mut walk.graph, claim, objects, st.heap)?;
    let value = claim_end(walk, a, objects, heap, st)?;
    Ok(value)
}
