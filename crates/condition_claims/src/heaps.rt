//! Heaps where claims are made and ended.

ghost use Rattle.std.specs.Prelude.{IfOk, List};
ghost use Rattle.terms.specs.Formula.{Formula};
ghost use Rattle.terms.specs.declared.term.Kind.TheVariants as k;
ghost use Rattle.conditions.specs.Annotations as annotation;
ghost use Rattle.conditions.specs.Code as spec;
ghost use Rattle.conditions.specs.Actions as actions;
ghost use Rattle.conditions.specs.Formulas as formulas;
ghost use Rattle.condition_formulas.specs.Standing.{StandsAs, StandAll, Later};
ghost use Rattle.condition_code.specs.States.{AreEntries, IsEntry};
ghost use Rattle.condition_claims.specs.Pieces.{with_conjunct, with_count, with_object};

use annotation_scenes::quantifiers::terms;
use condition_code::state::Entry;
use condition_formulas::columns::{count, set, shape_column, status};
use condition_formulas::formulas::{me, nat, node, null};
use condition_formulas::lists::joined;
use method::program::Program;
use std::alloc::{AllocError, Global};
use term_graph::graph::Graph;
use terms::term::Kind;

/// How many claims list an object.
const COUNT: usize = 2;

/// Whether a claim lists an object.
const LISTED: usize = 4;

/// The heap where the object's count is changed by 1.
fn with_count(
    alloc: Global,
    graph: &mut Graph,
    way: Kind,
    o: u32,
    heap: u32,
) -> Result<u32, AllocError>
    ensures stands { (x h : Formula) → StandsAs graph.old o x → StandsAs graph.old heap h →
        IfOk result (λ id. StandsAs graph.new id (with_count way x h)) }
    ensures later { Later graph.old graph.new }
{
    let claims = count(graph, heap, o)?;
    let one = nat(graph, 1)?;
    let changed = node(graph, way, 0, &[claims, one])?;
    set(alloc, graph, COUNT, heap, &[o], changed)
}

/// The heap where each object's count is changed by 1, one after the other.
pub fn change_counts(
    alloc: Global,
    graph: &mut Graph,
    way: Kind,
    objects: &[u32],
    heap: u32,
) -> Result<u32, AllocError>
    ensures stands { (os : List Formula) (h : Formula) →
        StandAll graph.old objects.now os → StandsAs graph.old heap h →
        IfOk result (λ id. StandsAs graph.new id (actions.change_counts way os h)) }
    ensures later { Later graph.old graph.new }
{
    let mut changed = heap;
    for o in objects {
        changed = with_count(alloc, graph, way, *o, changed)?;
    }
    Ok(changed)
}

/// The heap where the claim lists the object.
fn with_object(
    alloc: Global,
    graph: &mut Graph,
    claim: u32,
    o: u32,
    heap: u32,
) -> Result<u32, AllocError>
    ensures stands { (c x h : Formula) →
        StandsAs graph.old claim c → StandsAs graph.old o x → StandsAs graph.old heap h →
        IfOk result (λ id. StandsAs graph.new id (with_object c x h)) }
    ensures later { Later graph.old graph.new }
{
    let one = nat(graph, 1)?;
    set(alloc, graph, LISTED, heap, &[claim, o], one)
}

/// The heap where the claim lists each of the objects.
pub fn list_objects(
    alloc: Global,
    graph: &mut Graph,
    claim: u32,
    objects: &[u32],
    heap: u32,
) -> Result<u32, AllocError>
    ensures stands { (c : Formula) (os : List Formula) (h : Formula) →
        StandsAs graph.old claim c → StandAll graph.old objects.now os → StandsAs graph.old heap h →
        IfOk result (λ id. StandsAs graph.new id (actions.list_objects c os h)) }
    ensures later { Later graph.old graph.new }
{
    let mut listing = heap;
    for o in objects {
        listing = with_object(alloc, graph, claim, *o, listing)?;
    }
    Ok(listing)
}

/// The heap where the claim has the conjunct.
fn with_conjunct(
    alloc: Global,
    graph: &mut Graph,
    program: &Program,
    claim: u32,
    entry: &Entry,
    heap: u32,
) -> Result<u32, AllocError>
    ensures stands { (c : Formula) (e : annotation.Entry) (h : Formula) →
        StandsAs graph.old claim c → IsEntry graph.old entry.now e → StandsAs graph.old heap h →
        IfOk result (λ id. StandsAs graph.new id (with_conjunct program.now c e h)) }
    ensures later { Later graph.old graph.new }
{
    let values = terms(alloc, graph, &entry.values)?;
    let keys = joined(alloc, &[claim], &values)?;
    let one = nat(graph, 1)?;
    set(
        alloc,
        graph,
        shape_column(program, entry.shape),
        heap,
        &keys,
        one,
    )
}

/// The heap where the claim has each of the conjuncts.
pub fn record_shapes(
    alloc: Global,
    graph: &mut Graph,
    program: &Program,
    claim: u32,
    entries: &[Entry],
    heap: u32,
) -> Result<u32, AllocError>
    ensures stands { (c : Formula) (es : List annotation.Entry) (h : Formula) →
        StandsAs graph.old claim c → AreEntries graph.old entries.now es → StandsAs graph.old heap h →
        IfOk result (λ id. StandsAs graph.new id (actions.record_shapes program.now c es h)) }
    ensures later { Later graph.old graph.new }
{
    let mut recording = heap;
    for entry in entries {
        recording = with_conjunct(alloc, graph, program, claim, entry, recording)?;
    }
    Ok(recording)
}

/// The heap with the new claim, which lists these objects and has these conjuncts.
pub fn new_claim(
    alloc: Global,
    graph: &mut Graph,
    program: &Program,
    claim: u32,
    objects: &[u32],
    entries: &[Entry],
    heap: u32,
) -> Result<u32, AllocError>
    ensures stands { (b : spec.Spot) (c : Formula) (os : List Formula) (es : List annotation.Entry) (h : Formula) →
        StandsAs graph.old claim c → StandAll graph.old objects.now os → AreEntries graph.old entries.now es →
        StandsAs graph.old heap h →
        IfOk result (λ id. StandsAs graph.new id (actions.new_claim program.now b c os es h)) }
    ensures later { Later graph.old graph.new }
{
    let shut = nat(graph, 2)?;
    let thread = me(graph)?;
    let begun = status(graph, heap, claim, shut, thread)?;
    let listing = list_objects(alloc, graph, claim, objects, begun)?;
    record_shapes(alloc, graph, program, claim, entries, listing)
}

/// The heap where the claim, which lists these objects, has ended.
pub fn without_claim(
    alloc: Global,
    graph: &mut Graph,
    claim: u32,
    objects: &[u32],
    heap: u32,
) -> Result<u32, AllocError>
    ensures stands { (c : Formula) (os : List Formula) (h : Formula) →
        StandsAs graph.old claim c → StandAll graph.old objects.now os → StandsAs graph.old heap h →
        IfOk result (λ id. StandsAs graph.new id (actions.change_counts k.Sub os
        (formulas.status h c (formulas.nat 3) formulas.null))) }
    ensures later { Later graph.old graph.new }
{
    let gone = nat(graph, 3)?;
    let nobody = null(graph)?;
    let freed = status(graph, heap, claim, gone, nobody)?;
    change_counts(alloc, graph, Kind::Sub, objects, freed)
}
