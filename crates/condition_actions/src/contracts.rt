//! The clauses of contracts as formulas.

ghost use Rattle.std.specs.Prelude.{IfOk};
ghost use Rattle.conditions.specs.Annotations as annotation;
ghost use Rattle.conditions.specs.Code as spec;
ghost use Rattle.conditions.specs.Actions as actions;
ghost use Rattle.condition_formulas.specs.Standing.{StandAll, Later};
ghost use Rattle.annotation_scenes.specs.Scenes.{IsScene};

use annotation_scenes::scene::Scene;
use condition_annotations::translate::terms_of;
use condition_annotations::truth::formula;
use method::program::{Clause, Program, Spec};
use std::alloc::{AllocError, Global};
use term_graph::graph::Graph;

/// The values of a writes list, one by one.
pub fn items_of(
    alloc: Global,
    graph: &mut Graph,
    program: &Program,
    items: &[Spec],
    scene: &Scene<'_>,
) -> Result<Vec<u32>, AllocError>
    ensures stands { (b : spec.Spot) (s : annotation.Scene) → IsScene graph.old scene.now s →
        IfOk result (λ ids. StandAll graph.new ids.items (actions.items_of program.now b items.now s)) }
    ensures later { Later graph.old graph.new }
{
    terms_of(alloc, graph, program, items, scene)
}

/// The truth of clauses, one by one.
pub fn clauses(
    alloc: Global,
    graph: &mut Graph,
    program: &Program,
    list: &[Clause],
    scene: &Scene<'_>,
) -> Result<Vec<u32>, AllocError>
    ensures stands { (b : spec.Spot) (s : annotation.Scene) → IsScene graph.old scene.now s →
        IfOk result (λ ids. StandAll graph.new ids.items (actions.clauses program.now b list.now s)) }
    ensures later { Later graph.old graph.new }
{
    let mut truths = Vec::new(alloc);
    for clause in list {
        let truth = formula(alloc, graph, program, &clause.spec, scene)?;
        truths.push(truth)?;
    }
    Ok(truths)
}
