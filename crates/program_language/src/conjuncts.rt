//! The conjuncts of claims, one formula for each shape.

ghost use Rattle.std.specs.Prelude.{IfOk, ◌+◌, ◌<◌, ◌^◌};
ghost use Rattle.condition_meaning.specs.Languages as spec;
ghost use Rattle.condition_formulas.specs.Standing.{StandsAs, StandAll, Later};
ghost use Rattle.condition_formulas.specs.Symbolics.{IsSymbolic, AreSymbolic};
ghost use Rattle.program_language.specs.Tables.{shape_formulas};

use condition_formulas::formulas::{heap, integer, reference};
use condition_formulas::symbolic::Symbolic;
use condition_scenes::conjuncts::shape_formula;
use method::program::{Program, Shape, Sort as HoleSort};
use std::alloc::{AllocError, Global};
use term_graph::graph::Graph;

/// Constant number n of the hole's sort.
#[tactic(auto, using(condition_formulas::proofs::Symbolics::is_number, condition_formulas::proofs::Symbolics::is_reference))]
fn hole_constant(graph: &mut Graph, n: usize, hole: HoleSort) -> Result<Symbolic, AllocError>
    ensures stands { IfOk result (λ v. IsSymbolic graph.new v (spec.hole_constant n hole)) }
    ensures later { Later graph.old graph.new }
{
    match hole {
        HoleSort::IntSort => {
            let id = integer(graph, n)?;
            Ok(Symbolic::Number(id))
        }
        HoleSort::RefSort => {
            let id = reference(graph, n)?;
            Ok(Symbolic::Reference(id))
        }
    }
}

/// Constants of the holes' sorts, from number 1 on.
fn hole_constants(
    alloc: Global,
    graph: &mut Graph,
    holes: &[HoleSort],
) -> Result<Vec<Symbolic>, AllocError>
    ensures stands { IfOk result (λ vs. AreSymbolic graph.new vs.items (spec.hole_constants 1 holes.now)) }
    ensures later { Later graph.old graph.new }
{
    let mut values = Vec::new(alloc);
    for (i, hole) in holes.iter().enumerate() {
        let value = hole_constant(graph, 1 + i, *hole)?;
        values.push(value)?;
    }
    Ok(values)
}

/// The conjunct of the shape: the heap is constant 0, the values of its holes stand behind it.
fn conjunct_formula(
    alloc: Global,
    graph: &mut Graph,
    program: &Program,
    shape: &Shape,
) -> Result<u32, AllocError>
    ensures stands { IfOk result (λ id. StandsAs graph.new id (spec.conjunct_formula program.now shape.now)) }
    ensures later { Later graph.old graph.new }
{
    let now = heap(graph, 0)?;
    let values = hole_constants(alloc, graph, &shape.holes)?;
    shape_formula(alloc, graph, program, shape, now, &values)
}

/// The conjuncts of these shapes.
fn each_conjunct(
    alloc: Global,
    graph: &mut Graph,
    program: &Program,
    shapes: &[Shape],
) -> Result<Vec<u32>, AllocError>
    ensures stands { IfOk result (λ ids. StandAll graph.new ids.items (shape_formulas program.now shapes.now)) }
    ensures later { Later graph.old graph.new }
{
    let mut all = Vec::new(alloc);
    for shape in shapes {
        let id = conjunct_formula(alloc, graph, program, shape)?;
        all.push(id)?;
    }
    Ok(all)
}

/// The conjuncts of the program's shapes. Only want of memory is an error.
pub fn conjuncts(
    alloc: Global,
    graph: &mut Graph,
    program: &Program,
) -> Result<Vec<u32>, AllocError>
    ensures stands { IfOk result (λ ids. StandAll graph.new ids.items (spec.conjuncts_of program.now)) }
    ensures later { Later graph.old graph.new }
{
    each_conjunct(alloc, graph, program, &program.shapes)
}
