//! The quantified formulas of wraps and of ends of claims.

ghost use Rattle.std.specs.Prelude.{◌≡◌, ◌++◌, ◌∷◌, [], ◌+◌, ◌^◌, ◌<◌, IfOk, List, true, false, length, replicate};
ghost use Rattle.terms.specs.declared.sort.Sort.TheVariants as sort;
ghost use Rattle.terms.specs.Formula.{Formula};
ghost use Rattle.conditions.specs.Quantified as spec;
ghost use Rattle.condition_formulas.specs.Standing.{StandsAs, StandAll, Later};
ghost use Rattle.quantified_formulas.specs.Forms.{IsQuantified};

use crate::quantified::{Quantified, add_references};
use condition_formulas::columns::{lists, owns, wrapped, writable};
use condition_formulas::formulas::{and, heap, imp, reference};
use condition_formulas::lists::{any_of, is_any};
use method::program::{Expr, Spec};
use std::alloc::{AllocError, Global};
use term_graph::graph::Graph;
use terms::sort::Sort;

/// So many reference constants, from number `first` on.
fn references_from(
    alloc: Global,
    graph: &mut Graph,
    first: usize,
    count: usize,
) -> Result<Vec<u32>, AllocError>
    requires { first + count < 2 ^ 64 }
    ensures stands { IfOk result (λ ids. StandAll graph.new ids.items (spec.references_from first count)) }
    ensures later { Later graph.old graph.new }
{
    let mut all = Vec::new(alloc);
    for i in 0..count {
        let constant = reference(graph, first + i)?;
        all.push(constant)?;
    }
    Ok(all)
}

/// That the member of an object's set is wrapped and writable: the set's heap, the object, the heap, the thread, the
/// heap at the function's entry, the writes list, the member.
fn members_body(
    alloc: Global,
    graph: &mut Graph,
    set: u32,
    o: u32,
    heap: u32,
    thread: u32,
    entry: u32,
    writes: &[u32],
    member: u32,
) -> Result<u32, AllocError>
    ensures stands { (s o' h t e : Formula) (w : List Formula) (q : Formula) →
        StandsAs graph.old set s → StandsAs graph.old o o' → StandsAs graph.old heap h →
        StandsAs graph.old thread t → StandsAs graph.old entry e → StandAll graph.old writes.now w →
        StandsAs graph.old member q →
        IfOk result (λ id. StandsAs graph.new id (spec.members_body s o' h t e w q)) }
    ensures later { Later graph.old graph.new }
{
    let owned = owns(graph, set, o, member)?;
    let shut = wrapped(graph, thread, heap, member)?;
    let allowed = writable(alloc, graph, thread, entry, writes, member)?;
    let both = and(graph, shut, allowed)?;
    imp(graph, owned, both)
}

/// The sorts of arguments: those in front, as many references as written objects, and a heap.
fn argument_sorts(alloc: Global, front: &[Sort], writes: usize) -> Result<Vec<Sort>, AllocError>
    ensures { IfOk result (λ all. all.items ≡ front.now ++ replicate writes sort.Ref ++ sort.Heap ∷ []) }
{
    let mut sorts = Vec::new(alloc);
    sorts.extend_from_slice(front)?;
    add_references(writes, &mut sorts)?;
    sorts.push(Sort::Heap)?;
    Ok(sorts)
}

/// The formula of a wrap of a type whose owned set is fixed; the set may then be that of another heap.
fn fixed_members(
    alloc: Global,
    graph: &mut Graph,
    number: u32,
    writes: &[Spec],
) -> Result<Quantified, AllocError>
    ensures stands { IfOk result (λ q. IsQuantified graph.new q
        (spec.members_quantified true number (length writes.now))) }
    ensures later { Later graph.old graph.new }
{
    let front = [Sort::Heap, Sort::Ref, Sort::Heap, Sort::Ref];
    let arguments = argument_sorts(alloc, &front, writes.len())?;
    let set = heap(graph, 0)?;
    let object = reference(graph, 1)?;
    let now = heap(graph, 2)?;
    let thread = reference(graph, 3)?;
    let written = references_from(alloc, graph, 4, writes.len())?;
    let entry = heap(graph, 4 + writes.len())?;
    let member = reference(graph, 5 + writes.len())?;
    let body = members_body(
        alloc, graph, set, object, now, thread, entry, &written, member,
    )?;
    Ok(Quantified {
        number,
        arguments,
        body,
    })
}

/// The formula of a wrap of a type whose owned set may change.
fn current_members(
    alloc: Global,
    graph: &mut Graph,
    number: u32,
    writes: &[Spec],
) -> Result<Quantified, AllocError>
    ensures stands { IfOk result (λ q. IsQuantified graph.new q
        (spec.members_quantified false number (length writes.now))) }
    ensures later { Later graph.old graph.new }
{
    let front = [Sort::Heap, Sort::Ref, Sort::Ref];
    let arguments = argument_sorts(alloc, &front, writes.len())?;
    let now = heap(graph, 0)?;
    let object = reference(graph, 1)?;
    let thread = reference(graph, 2)?;
    let written = references_from(alloc, graph, 3, writes.len())?;
    let entry = heap(graph, 3 + writes.len())?;
    let member = reference(graph, 4 + writes.len())?;
    let body = members_body(
        alloc, graph, now, object, now, thread, entry, &written, member,
    )?;
    Ok(Quantified {
        number,
        arguments,
        body,
    })
}

/// The formula of a wrap: that each member of the object is wrapped and writable. Whether the type's owned set is
/// fixed, the formula's number, and the function's writes list.
pub fn members(
    alloc: Global,
    graph: &mut Graph,
    is_fixed: bool,
    number: u32,
    writes: &[Spec],
) -> Result<Quantified, AllocError>
    ensures stands { IfOk result (λ q. IsQuantified graph.new q
        (spec.members_quantified is_fixed number (length writes.now))) }
    ensures later { Later graph.old graph.new }
{
    if is_fixed {
        return fixed_members(alloc, graph, number, writes);
    }
    current_members(alloc, graph, number, writes)
}

/// The sorts of a claim's end: a heap, the claim, and as many references as it has objects.
fn listed_sorts(alloc: Global, objects: usize) -> Result<Vec<Sort>, AllocError>
    ensures { IfOk result (λ all. all.items ≡ sort.Heap ∷ sort.Ref ∷ replicate objects sort.Ref) }
{
    let mut sorts = Vec::new(alloc);
    sorts.push(Sort::Heap)?;
    sorts.push(Sort::Ref)?;
    add_references(objects, &mut sorts)?;
    Ok(sorts)
}

/// The formula of a claim's end: that what the claim lists is among its objects.
pub fn listed_objects(
    alloc: Global,
    graph: &mut Graph,
    number: u32,
    objects: &[Expr],
) -> Result<Quantified, AllocError>
    ensures stands { IfOk result (λ q. IsQuantified graph.new q
        (spec.listed_quantified number (length objects.now))) }
    ensures later { Later graph.old graph.new }
{
    let arguments = listed_sorts(alloc, objects.len())?;
    let now = heap(graph, 0)?;
    let claim = reference(graph, 1)?;
    let member = reference(graph, 2 + objects.len())?;
    let known = references_from(alloc, graph, 2, objects.len())?;
    let listed = lists(graph, now, claim, member)?;
    let same = is_any(alloc, graph, member, &known)?;
    let one = any_of(graph, &same)?;
    let body = imp(graph, listed, one)?;
    Ok(Quantified {
        number,
        arguments,
        body,
    })
}
