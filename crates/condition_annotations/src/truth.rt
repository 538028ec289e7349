//! The truth of an annotation.

ghost use Rattle.std.specs.Prelude.{IfOk};
ghost use Rattle.conditions.specs.Annotations as spec;
ghost use Rattle.condition_formulas.specs.Standing.{StandsAs, Later};
ghost use Rattle.annotation_scenes.specs.Scenes.{IsScene};

use crate::translate::translate;
use annotation_scenes::scene::Scene;
use condition_formulas::symbolic::test;
use method::program::{Program, Spec};
use std::alloc::{AllocError, Global};
use term_graph::graph::Graph;

/// The formula that holds where the annotation does. Only want of memory is an error.
pub fn formula(
    alloc: Global,
    graph: &mut Graph,
    program: &Program,
    e: &Spec,
    scene: &Scene<'_>,
) -> Result<u32, AllocError>
    ensures stands { (s : spec.Scene) → IsScene graph.old scene.now s → IfOk result (λ id. StandsAs graph.new id (spec.formula program.now e.now s)) }
    ensures later { Later graph.old graph.new }
{
    let value = translate(alloc, graph, program, e, scene)?;
    test(graph, value)
}
