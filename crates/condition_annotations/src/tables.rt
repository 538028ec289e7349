//! Rows of formulas that a translation needs.

ghost use Rattle.std.specs.Prelude.{◌≡◌, ◌++◌, if◌then◌else◌, IfOk, List, map, drop, length};
ghost use Rattle.terms.specs.Formula.{Formula};
ghost use Rattle.conditions.specs.Formulas as formulas;
ghost use Rattle.conditions.specs.Symbolic as symbolic;
ghost use Rattle.conditions.specs.Annotations as spec;
ghost use Rattle.condition_formulas.specs.Standing.{StandsAs, StandAll, Later};
ghost use Rattle.condition_formulas.specs.Symbolics.{IsSymbolic};
ghost use Rattle.annotation_scenes.specs.Scenes.{IsScene};
ghost use Rattle.condition_annotations.specs.Rows.{hole_terms};

use annotation_scenes::scene::{Scene, hole_value};
use condition_formulas::columns::{has_shape, lists};
use condition_formulas::formulas::{falsehood, int, truth};
use condition_formulas::symbolic::{Symbolic, term};
use method::program::{Conjunct, Hole, Program};
use std::alloc::{AllocError, Global};
use term_graph::graph::Graph;

/// An integer literal.
#[tactic(auto, using(condition_formulas::proofs::Symbolics::is_number))]
pub fn literal(graph: &mut Graph, z: &i128) -> Result<Symbolic, AllocError>
    ensures stands { IfOk result (λ r. IsSymbolic graph.new r (symbolic.Number (formulas.int z.now))) }
    ensures later { Later graph.old graph.new }
{
    let z = *z;
    let id = int(graph, z)?;
    Ok(Symbolic::Number(id))
}

/// `true` or `false`
pub fn truth_value(graph: &mut Graph, holds: bool) -> Result<u32, AllocError>
    ensures stands { IfOk result (λ id. StandsAs graph.new id (if holds then formulas.true_formula else formulas.false_formula)) }
    ensures later { Later graph.old graph.new }
{
    if holds {
        return truth(graph);
    }
    falsehood(graph)
}

/// The variables where parameters have their values at entry.
pub fn earlier_locals(alloc: Global, scene: &Scene<'_>) -> Result<Vec<Symbolic>, AllocError>
    ensures { IfOk result (λ all. all.items ≡ scene.now.entry.now ++ drop (length scene.now.entry.now) scene.now.locals.now) }
{
    let mut all = Vec::new(alloc);
    all.extend_from_slice(scene.entry)?;
    if scene.entry.len() < scene.locals.len() {
        all.extend_from_slice(&scene.locals[scene.entry.len()..])?;
    }
    Ok(all)
}

/// That the claim lists each of these.
pub fn each_listed(
    alloc: Global,
    graph: &mut Graph,
    heap: u32,
    claim: u32,
    ids: &[u32],
) -> Result<Vec<u32>, AllocError>
    ensures stands { (h f : Formula) (fs : List Formula) → StandsAs graph.old heap h → StandsAs graph.old claim f → StandAll graph.old ids.now fs → IfOk result (λ all. StandAll graph.new all.items (map (formulas.lists h f) fs)) }
    ensures later { Later graph.old graph.new }
{
    let mut all = Vec::new(alloc);
    for id in ids {
        let listed = lists(graph, heap, claim, *id)?;
        all.push(listed)?;
    }
    Ok(all)
}

/// The terms that fill these holes.
fn fillings(
    alloc: Global,
    graph: &mut Graph,
    scene: &Scene<'_>,
    holes: &[Hole],
) -> Result<Vec<u32>, AllocError>
    ensures stands { (s : spec.Scene) → IsScene graph.old scene.now s → IfOk result (λ ids. StandAll graph.new ids.items (hole_terms holes.now s)) }
    ensures later { Later graph.old graph.new }
{
    let mut all = Vec::new(alloc);
    for hole in holes {
        let value = hole_value(graph, scene, *hole)?;
        let id = term(graph, value)?;
        all.push(id)?;
    }
    Ok(all)
}

/// That the claim that is spoken of was made with the conjunct.
pub fn has(
    alloc: Global,
    graph: &mut Graph,
    program: &Program,
    scene: &Scene<'_>,
    conjunct: &Conjunct,
) -> Result<Symbolic, AllocError>
    ensures stands { (s : spec.Scene) → IsScene graph.old scene.now s → IfOk result (λ r. IsSymbolic graph.new r (symbolic.Truth (formulas.has_shape program.now (spec.current_heap s) s.subject conjunct.now.shape (hole_terms conjunct.now.holes.items s)))) }
    ensures later { Later graph.old graph.new }
{
    let heap = scene.heap();
    let values = fillings(alloc, graph, scene, &conjunct.holes)?;
    let id = has_shape(
        alloc,
        graph,
        program,
        heap,
        scene.subject,
        conjunct.shape,
        &values,
    )?;
    Ok(Symbolic::Truth(id))
}
