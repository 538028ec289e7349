//! Quantified formulas: their bodies over a scene of constants, and their arguments.

ghost use Rattle.std.specs.Prelude.{◌≡◌, ◌∷◌, ◌++◌, [], IfOk, List, ℕ, pos, map, length};
ghost use Rattle.terms.specs.Formula.{Formula, Node};
ghost use Rattle.terms.specs.declared.term.Kind.TheVariants as k;
ghost use Rattle.conditions.specs.Formulas as formulas;
ghost use Rattle.conditions.specs.Symbolic as symbolic;
ghost use Rattle.conditions.specs.Annotations as spec;
ghost use Rattle.condition_formulas.specs.Standing.{StandsAs, StandAll, Later};
ghost use Rattle.condition_formulas.specs.Symbolics.{IsSymbolic, AreSymbolic};
ghost use Rattle.annotation_scenes.specs.Scenes.{IsScene};
ghost use Rattle.annotation_scenes.specs.Quantifying.{places_of, part_at};

use crate::scene::Scene;
use condition_formulas::columns::{lists, owns};
use condition_formulas::constants::constants;
use condition_formulas::formulas::{and, imp, node, not, null, reference};
use condition_formulas::lists::{all_of, any_of, is_any, joined};
use condition_formulas::symbolic::{Symbolic, ranges, term, test};
use method::program::DeclaredType;
use std::alloc::{AllocError, Global};
use term_graph::graph::Graph;
use terms::term::Kind;

/// The terms of values.
pub fn terms(alloc: Global, graph: &mut Graph, values: &[Symbolic]) -> Result<Vec<u32>, AllocError>
    ensures stands { (ws : List symbolic.Symbolic) → AreSymbolic graph.old values.now ws → IfOk result (λ ids. StandAll graph.new ids.items (map symbolic.term ws)) }
    ensures later { Later graph.old graph.new }
{
    let mut all = Vec::new(alloc);
    for value in values {
        let id = term(graph, *value)?;
        all.push(id)?;
    }
    Ok(all)
}

/// The reference that a body is about.
pub fn subject_of(graph: &mut Graph, scene: &Scene<'_>) -> Result<u32, AllocError>
    ensures stands { (s : spec.Scene) → IsScene graph.old scene.now s → IfOk result (λ id. StandsAs graph.new id (spec.subject_of s)) }
    ensures later { Later graph.old graph.new }
{
    reference(
        graph,
        5 + scene.locals.len() + scene.entry.len() + scene.bound.len(),
    )
}

/// What stands at the place, NULL where it is none.
fn part(graph: &mut Graph, parts: &[u32], place: u128) -> Result<u32, AllocError>
    ensures stands { (fs : List Formula) → StandAll graph.old parts.now fs → IfOk result (λ id. StandsAs graph.new id (part_at fs place)) }
    ensures later { Later graph.old graph.new }
{
    if place >= parts.len() as u128 {
        return null(graph);
    }
    Ok(parts[place as usize])
}

/// What stands at those places that are free: all but the one behind the parts.
fn at_places(
    alloc: Global,
    graph: &mut Graph,
    parts: &[u32],
    places: &[u128],
) -> Result<Vec<u32>, AllocError>
    ensures stands { (fs : List Formula) → StandAll graph.old parts.now fs → IfOk result (λ ids. StandAll graph.new ids.items (map (part_at fs) (places_of fs places.now))) }
    ensures later { Later graph.old graph.new }
{
    let mut free = Vec::new(alloc);
    for place in places {
        if *place == parts.len() as u128 {
            continue;
        }
        let id = part(graph, parts, *place)?;
        free.push(id)?;
    }
    Ok(free)
}

/// What a scene holds, in a fixed order.
fn parts(alloc: Global, graph: &mut Graph, scene: &Scene<'_>) -> Result<Vec<u32>, AllocError>
    ensures stands { (s : spec.Scene) → IsScene graph.old scene.now s → IfOk result (λ ids. StandAll graph.new ids.items (spec.parts s)) }
    ensures later { Later graph.old graph.new }
{
    let result = term(graph, scene.result)?;
    let locals = terms(alloc, graph, scene.locals)?;
    let entry = terms(alloc, graph, scene.entry)?;
    let state = joined(
        alloc,
        &[scene.after, scene.before, scene.me, scene.this, result],
        &locals,
    )?;
    let words = joined(alloc, &state, &entry)?;
    joined(alloc, &words, scene.bound)
}

/// The arguments of a body: what stands at the places whose constants it has.
fn free_parts(
    alloc: Global,
    graph: &mut Graph,
    scene: &Scene<'_>,
    body: u32,
) -> Result<Vec<u32>, AllocError>
    ensures stands { (s : spec.Scene) (f : Formula) → IsScene graph.old scene.now s → StandsAs graph.old body f → IfOk result (λ ids. StandAll graph.new ids.items (spec.free_parts s f)) }
    ensures later { Later graph.old graph.new }
{
    let parts = parts(alloc, graph, scene)?;
    let places = constants(alloc, graph, body)?;
    at_places(alloc, graph, &parts, &places)
}

/// The quantified formula with this number, of these arguments.
fn all(graph: &mut Graph, number: u32, args: &[u32]) -> Result<u32, AllocError>
    ensures stands { (fs : List Formula) → StandAll graph.old args.now fs → IfOk result (λ id. StandsAs graph.new id (Node k.All (pos number) (formulas.row fs))) }
    ensures later { Later graph.old graph.new }
{
    node(graph, Kind::All, number as i128, args)
}

/// The quantified formula with this number, whose body over the scene of constants is given.
pub fn quantifier(
    alloc: Global,
    graph: &mut Graph,
    scene: &Scene<'_>,
    number: u32,
    body: u32,
) -> Result<u32, AllocError>
    ensures stands { (s : spec.Scene) (f : Formula) → IsScene graph.old scene.now s → StandsAs graph.old body f → IfOk result (λ id. StandsAs graph.new id (spec.quantifier s number f)) }
    ensures later { Later graph.old graph.new }
{
    let free = free_parts(alloc, graph, scene, body)?;
    all(graph, number, &free)
}

/// The formula, of references of the type.
fn implied_by_type(
    alloc: Global,
    graph: &mut Graph,
    ty: DeclaredType,
    member: u32,
    body: u32,
) -> Result<u32, AllocError>
    ensures stands { (r f : Formula) → StandsAs graph.old member r → StandsAs graph.old body f → IfOk result (λ id. StandsAs graph.new id (spec.imp_in_type ty r f)) }
    ensures later { Later graph.old graph.new }
{
    let within = ranges(alloc, graph, ty, member)?;
    let typed = all_of(graph, &within)?;
    imp(graph, typed, body)
}

/// The body of a `\forall`: each reference of the type that is a member of the object's set passes.
pub fn body_of_all(
    alloc: Global,
    graph: &mut Graph,
    ty: DeclaredType,
    heap: u32,
    object: Symbolic,
    member: u32,
    passes: Symbolic,
) -> Result<u32, AllocError>
    ensures stands { (h : Formula) (v : symbolic.Symbolic) (r : Formula) (w : symbolic.Symbolic) → StandsAs graph.old heap h → IsSymbolic graph.old object v → StandsAs graph.old member r → IsSymbolic graph.old passes w → IfOk result (λ id. StandsAs graph.new id (spec.imp_in_type ty r (formulas.imp (formulas.owns h (symbolic.term v) r) (symbolic.test w)))) }
    ensures later { Later graph.old graph.new }
{
    let owner = term(graph, object)?;
    let owned = owns(graph, heap, owner, member)?;
    let holds = test(graph, passes)?;
    let body = imp(graph, owned, holds)?;
    implied_by_type(alloc, graph, ty, member, body)
}

/// The formulas behind a first one, joined by `and` and grouped to the left.
fn and_left(graph: &mut Graph, first: u32, rest: &[u32]) -> Result<u32, AllocError>
    ensures stands { (f : Formula) (fs : List Formula) → StandsAs graph.old first f → StandAll graph.old rest.now fs → IfOk result (λ id. StandsAs graph.new id (spec.and_left f fs)) }
    ensures later { Later graph.old graph.new }
{
    let mut all = first;
    for id in rest {
        all = and(graph, all, *id)?;
    }
    Ok(all)
}

/// The body of an `\exists`, which is the denial of one that denies.
pub fn body_of_some(
    alloc: Global,
    graph: &mut Graph,
    ty: DeclaredType,
    heap: u32,
    object: Symbolic,
    member: u32,
    pass: &[u32],
) -> Result<u32, AllocError>
    ensures stands { (h : Formula) (v : symbolic.Symbolic) (r : Formula) (fs : List Formula) → StandsAs graph.old heap h → IsSymbolic graph.old object v → StandsAs graph.old member r → StandAll graph.old pass.now fs → IfOk result (λ id. StandsAs graph.new id (spec.imp_in_type ty r (formulas.not' (spec.and_left (formulas.owns h (symbolic.term v) r) fs)))) }
    ensures later { Later graph.old graph.new }
{
    let owner = term(graph, object)?;
    let owned = owns(graph, heap, owner, member)?;
    let together = and_left(graph, owned, pass)?;
    let body = not(graph, together)?;
    implied_by_type(alloc, graph, ty, member, body)
}

/// The body of a `\claims_only`: what the claim lists is one of the objects.
pub fn body_of_only(
    alloc: Global,
    graph: &mut Graph,
    heap: u32,
    claim: Symbolic,
    member: u32,
    objects: &[u32],
) -> Result<u32, AllocError>
    ensures stands { (h : Formula) (v : symbolic.Symbolic) (r : Formula) (fs : List Formula) → StandsAs graph.old heap h → IsSymbolic graph.old claim v → StandsAs graph.old member r → StandAll graph.old objects.now fs → IfOk result (λ id. StandsAs graph.new id (formulas.imp (formulas.lists h (symbolic.term v) r) (formulas.any_of (formulas.is_any r fs)))) }
    ensures later { Later graph.old graph.new }
{
    let claim_id = term(graph, claim)?;
    let listed = lists(graph, heap, claim_id, member)?;
    let same = is_any(alloc, graph, member, objects)?;
    let one = any_of(graph, &same)?;
    imp(graph, listed, one)
}
