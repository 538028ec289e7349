//! A claim's conjuncts: what fills them, and their formulas on a heap.

ghost use Rattle.std.specs.Prelude.{◌≡◌, IfOk, IfSome, IfNone, List, slice_get};
ghost use Rattle.terms.specs.Formula.{Formula};
ghost use Rattle.conditions.specs.Symbolic as symbolic;
ghost use Rattle.conditions.specs.Annotations as spec;
ghost use Rattle.condition_formulas.specs.Standing.{StandsAs, Later};
ghost use Rattle.condition_formulas.specs.Symbolics.{AreSymbolic};
ghost use Rattle.annotation_scenes.specs.Scenes.{IsScene};
ghost use Rattle.condition_code.specs.States.{IsEntry};
ghost use Rattle.condition_scenes.specs.Conjuncts.{fillings};

use annotation_scenes::scene::{Scene, hole_value};
use condition_annotations::truth::formula;
use condition_code::state::Entry;
use condition_formulas::formulas::{nat, null, truth};
use condition_formulas::symbolic::Symbolic;
use method::program::{Conjunct, Hole, Program, Shape};
use std::alloc::{AllocError, Global};
use term_graph::graph::Graph;

/// What fills these holes, one by one.
fn hole_values(
    alloc: Global,
    graph: &mut Graph,
    scene: &Scene<'_>,
    holes: &[Hole],
) -> Result<Vec<Symbolic>, AllocError>
    ensures stands { (s : spec.Scene) → IsScene graph.old scene.now s →
        IfOk result (λ vs. AreSymbolic graph.new vs.items (fillings s holes.now)) }
    ensures later { Later graph.old graph.new }
{
    let mut values = Vec::new(alloc);
    for hole in holes {
        let value = hole_value(graph, scene, *hole)?;
        values.push(value)?;
    }
    Ok(values)
}

/// The conjunct with the values that fill its holes. Only want of memory is an error.
pub fn entry_of(
    alloc: Global,
    graph: &mut Graph,
    scene: &Scene<'_>,
    conjunct: &Conjunct,
) -> Result<Entry, AllocError>
    ensures stands { (s : spec.Scene) → IsScene graph.old scene.now s →
        IfOk result (λ e. IsEntry graph.new e (spec.entry_of s conjunct.now)) }
    ensures later { Later graph.old graph.new }
{
    let values = hole_values(alloc, graph, scene, &conjunct.holes)?;
    Ok(Entry {
        shape: conjunct.shape,
        values,
    })
}

/// The words of a conjunct of the program's claims, with these values on a heap.
pub fn claim_scene<'a>(
    graph: &mut Graph,
    program: &Program,
    heap: u32,
    values: &'a [Symbolic],
) -> Result<Scene<'a>, AllocError>
    ensures stands { (h : Formula) (ws : List symbolic.Symbolic) →
        StandsAs graph.old heap h → AreSymbolic graph.old values.now ws →
        IfOk result (λ c. IsScene graph.new c (spec.claim_scene program.now h ws)) }
    ensures later { Later graph.old graph.new }
{
    let nothing = null(graph)?;
    let zero = nat(graph, 0)?;
    Ok(Scene {
        before: heap,
        after: heap,
        past: false,
        me: nothing,
        this: nothing,
        locals: values,
        entry: &[],
        result: Symbolic::Number(zero),
        bound: &[],
        subject: nothing,
    })
}

/// The formula of a shape's conjunct with these values, on a heap.
pub fn shape_formula(
    alloc: Global,
    graph: &mut Graph,
    program: &Program,
    shape: &Shape,
    heap: u32,
    values: &[Symbolic],
) -> Result<u32, AllocError>
    ensures stands { (h : Formula) (ws : List symbolic.Symbolic) →
        StandsAs graph.old heap h → AreSymbolic graph.old values.now ws →
        IfOk result (λ id. StandsAs graph.new id (spec.shape_formula program.now (Some shape.now) h ws)) }
    ensures later { Later graph.old graph.new }
{
    let words = claim_scene(graph, program, heap, values)?;
    formula(alloc, graph, program, &shape.conjunct, &words)
}

/// The shape with the number in the program's table.
fn shape_at(program: &Program, number: u32) -> Option<&Shape>
    ensures some { IfSome result (λ shape. slice_get program.now.shapes.items number ≡ Some shape.now) }
    ensures none { IfNone result (slice_get program.now.shapes.items number ≡ None) }
{
    program.shapes.get(number as usize)
}

/// The formula of a claim's conjunct, on a heap; one whose shape isn't in the program's table is true.
pub fn entry_formula(
    alloc: Global,
    graph: &mut Graph,
    program: &Program,
    heap: u32,
    entry: &Entry,
) -> Result<u32, AllocError>
    ensures stands { (h : Formula) (e : spec.Entry) → StandsAs graph.old heap h → IsEntry graph.old entry.now e →
        IfOk result (λ id. StandsAs graph.new id (spec.entry_formula program.now h e)) }
    ensures later { Later graph.old graph.new }
{
    match shape_at(program, entry.shape) {
        Some(shape) => shape_formula(alloc, graph, program, shape, heap, &entry.values),
        None => truth(graph),
    }
}
