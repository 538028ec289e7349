//! What is tested of the objects that a claim lists.

ghost use Rattle.std.specs.Prelude.{[], IfOk, List, map};
ghost use Rattle.terms.specs.Formula.{Formula};
ghost use Rattle.conditions.specs.Annotations as annotation;
ghost use Rattle.conditions.specs.Code as spec;
ghost use Rattle.conditions.specs.Actions as actions;
ghost use Rattle.condition_formulas.specs.Standing.{StandsAs, StandAll, Later};
ghost use Rattle.condition_code.specs.States.{AreEntries, IsSpot};
ghost use Rattle.condition_claims.specs.Pieces.{claim_test, claimable_number, of_claimable_type};

use condition_code::access::inv;
use condition_code::state::{Entry, Spot};
use condition_formulas::columns::closed;
use condition_formulas::formulas::{nat, typ};
use condition_formulas::lists::{all_of, any_of, is_any, joined, listed};
use condition_formulas::symbolic::unlike;
use condition_scenes::conjuncts::entry_formula;
use condition_stores::stores::may_count;
use method::program::{Program, StructInfo};
use std::alloc::{AllocError, Global};
use term_graph::graph::Graph;

/// The number of a type, if it is claimable.
fn claimable_number(
    alloc: Global,
    graph: &mut Graph,
    number: usize,
    is_claimable: bool,
) -> Result<Vec<u32>, AllocError>
    ensures stands { IfOk result (λ ids. StandAll graph.new ids.items (claimable_number number is_claimable)) }
    ensures later { Later graph.old graph.new }
{
    if is_claimable {
        let id = nat(graph, number)?;
        let one = listed(alloc, &[id])?;
        return Ok(one);
    }
    Ok(Vec::new(alloc))
}

/// The numbers of the claimable types; the first of the list is type 3.
fn claimable_types(
    alloc: Global,
    graph: &mut Graph,
    structs: &[StructInfo],
) -> Result<Vec<u32>, AllocError>
    ensures stands { IfOk result (λ ids. StandAll graph.new ids.items (actions.claimable_from 3 structs.now)) }
    ensures later { Later graph.old graph.new }
{
    let mut all = Vec::new(alloc);
    for (i, info) in structs.iter().enumerate() {
        let number = claimable_number(alloc, graph, 3 + i, info.is_claimable)?;
        all.extend_from_slice(&number)?;
    }
    Ok(all)
}

/// That the object is of a claimable type.
fn of_claimable_type(
    alloc: Global,
    graph: &mut Graph,
    program: &Program,
    o: u32,
) -> Result<u32, AllocError>
    ensures stands { (x : Formula) → StandsAs graph.old o x →
        IfOk result (λ id. StandsAs graph.new id (of_claimable_type program.now x)) }
    ensures later { Later graph.old graph.new }
{
    let number = typ(graph, o)?;
    let types = claimable_types(alloc, graph, &program.structs)?;
    let any = is_any(alloc, graph, number, &types)?;
    any_of(graph, &any)
}

/// That the object is none of the earlier ones, one by one.
fn distinct_from(
    alloc: Global,
    graph: &mut Graph,
    o: u32,
    earlier: &[u32],
) -> Result<Vec<u32>, AllocError>
    ensures stands { (x : Formula) (qs : List Formula) →
        StandsAs graph.old o x → StandAll graph.old earlier.now qs →
        IfOk result (λ ids. StandAll graph.new ids.items (actions.distinct_from x qs)) }
    ensures later { Later graph.old graph.new }
{
    let mut all = Vec::new(alloc);
    for q in earlier {
        let apart = unlike(graph, o, *q)?;
        all.push(apart)?;
    }
    Ok(all)
}

/// That each object is none of those before it.
pub fn all_distinct(
    alloc: Global,
    graph: &mut Graph,
    objects: &[u32],
) -> Result<Vec<u32>, AllocError>
    ensures stands { (os : List Formula) → StandAll graph.old objects.now os →
        IfOk result (λ ids. StandAll graph.new ids.items (actions.all_distinct [] os)) }
    ensures later { Later graph.old graph.new }
{
    let mut all = Vec::new(alloc);
    for i in 0..objects.len() {
        let apart = distinct_from(alloc, graph, objects[i], &objects[..i])?;
        all.extend_from_slice(&apart)?;
    }
    Ok(all)
}

/// That the object may be claimed: it is of a claimable type, closed, none of the earlier ones, and its owner has its
/// part.
fn claim_test(
    alloc: Global,
    graph: &mut Graph,
    a: &Spot<'_>,
    heap: u32,
    earlier: &[u32],
    o: u32,
) -> Result<u32, AllocError>
    ensures stands { (b : spec.Spot) (h : Formula) (qs : List Formula) (x : Formula) →
        IsSpot graph.old a.now b → StandsAs graph.old heap h → StandAll graph.old earlier.now qs →
        StandsAs graph.old o x →
        IfOk result (λ id. StandsAs graph.new id (claim_test a.now.program.now b h qs x)) }
    ensures later { Later graph.old graph.new }
{
    let claimable = of_claimable_type(alloc, graph, a.program, o)?;
    let shut = closed(graph, heap, o)?;
    let apart = distinct_from(alloc, graph, o, earlier)?;
    let allowed = may_count(alloc, graph, a, heap, o)?;
    let mut tests = joined(alloc, &[claimable, shut], &apart)?;
    tests.push(allowed)?;
    all_of(graph, &tests)
}

/// That each of the objects may be claimed.
pub fn claim_tests(
    alloc: Global,
    graph: &mut Graph,
    a: &Spot<'_>,
    heap: u32,
    objects: &[u32],
) -> Result<Vec<u32>, AllocError>
    ensures stands { (b : spec.Spot) (h : Formula) (os : List Formula) →
        IsSpot graph.old a.now b → StandsAs graph.old heap h → StandAll graph.old objects.now os →
        IfOk result (λ ids. StandAll graph.new ids.items (actions.claim_tests a.now.program.now b h [] os)) }
    ensures later { Later graph.old graph.new }
{
    let mut all = Vec::new(alloc);
    for i in 0..objects.len() {
        let test = claim_test(alloc, graph, a, heap, &objects[..i], objects[i])?;
        all.push(test)?;
    }
    Ok(all)
}

/// That the owner of each object has its part in making and destroying claims of it.
pub fn each_may_count(
    alloc: Global,
    graph: &mut Graph,
    a: &Spot<'_>,
    heap: u32,
    objects: &[u32],
) -> Result<Vec<u32>, AllocError>
    ensures stands { (b : spec.Spot) (h : Formula) (os : List Formula) →
        IsSpot graph.old a.now b → StandsAs graph.old heap h → StandAll graph.old objects.now os →
        IfOk result (λ ids. StandAll graph.new ids.items (map (actions.may_count a.now.program.now b h) os)) }
    ensures later { Later graph.old graph.new }
{
    let mut all = Vec::new(alloc);
    for o in objects {
        let allowed = may_count(alloc, graph, a, heap, *o)?;
        all.push(allowed)?;
    }
    Ok(all)
}

/// The invariant of each object over two heaps.
pub fn each_inv(
    alloc: Global,
    graph: &mut Graph,
    objects: &[u32],
    before: u32,
    after: u32,
) -> Result<Vec<u32>, AllocError>
    ensures stands { (os : List Formula) (h0 h1 : Formula) →
        StandAll graph.old objects.now os → StandsAs graph.old before h0 → StandsAs graph.old after h1 →
        IfOk result (λ ids. StandAll graph.new ids.items (map (λ o. spec.inv o h0 h1) os)) }
    ensures later { Later graph.old graph.new }
{
    let mut all = Vec::new(alloc);
    for o in objects {
        let kept = inv(graph, *o, before, after)?;
        all.push(kept)?;
    }
    Ok(all)
}

/// The formula of each conjunct, on a heap.
pub fn entry_formulas(
    alloc: Global,
    graph: &mut Graph,
    program: &Program,
    heap: u32,
    entries: &[Entry],
) -> Result<Vec<u32>, AllocError>
    ensures stands { (h : Formula) (es : List annotation.Entry) →
        StandsAs graph.old heap h → AreEntries graph.old entries.now es →
        IfOk result (λ ids. StandAll graph.new ids.items (map (annotation.entry_formula program.now h) es)) }
    ensures later { Later graph.old graph.new }
{
    let mut all = Vec::new(alloc);
    for entry in entries {
        let id = entry_formula(alloc, graph, program, heap, entry)?;
        all.push(id)?;
    }
    Ok(all)
}
