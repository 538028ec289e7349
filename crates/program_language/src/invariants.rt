//! The invariants of structs, one formula for each struct.

ghost use Rattle.std.specs.Prelude.{IfOk};
ghost use Rattle.condition_meaning.specs.Languages as spec;
ghost use Rattle.condition_formulas.specs.Standing.{StandsAs, StandAll, Later};
ghost use Rattle.annotation_scenes.specs.Scenes.{IsScene};
ghost use Rattle.program_language.specs.Tables.{struct_formulas};

use annotation_scenes::scene::Scene;
use condition_annotations::translate::tests;
use condition_code::scenes::inv_scene;
use condition_formulas::formulas::{heap, reference};
use condition_formulas::lists::all_of;
use method::program::{Program, StructInfo};
use std::alloc::{AllocError, Global};
use term_graph::graph::Graph;

/// The words of invariants: the object, the earlier and the later heap are constants.
fn struct_scene(graph: &mut Graph) -> Result<Scene<'static>, AllocError>
    ensures stands { IfOk result (λ c. IsScene graph.new c spec.struct_scene) }
    ensures later { Later graph.old graph.new }
{
    let object = reference(graph, 0)?;
    let before = heap(graph, 1)?;
    let after = heap(graph, 2)?;
    inv_scene(graph, object, before, after)
}

/// The invariants of the struct as one formula; the scene holds the words of invariants.
fn invariant_formula(
    alloc: Global,
    graph: &mut Graph,
    program: &Program,
    scene: &Scene<'_>,
    info: &StructInfo,
) -> Result<u32, AllocError>
    ensures stands { IsScene graph.old scene.now spec.struct_scene →
        IfOk result (λ id. StandsAs graph.new id (spec.invariant_formula program.now info.now)) }
    ensures later { Later graph.old graph.new }
{
    let each = tests(alloc, graph, program, &info.invariants, scene)?;
    all_of(graph, &each)
}

/// The invariants of these structs; the scene holds the words of invariants.
fn each_invariant(
    alloc: Global,
    graph: &mut Graph,
    program: &Program,
    scene: &Scene<'_>,
    structs: &[StructInfo],
) -> Result<Vec<u32>, AllocError>
    ensures stands { IsScene graph.old scene.now spec.struct_scene →
        IfOk result (λ ids. StandAll graph.new ids.items (struct_formulas program.now structs.now)) }
    ensures later { Later graph.old graph.new }
{
    let mut all = Vec::new(alloc);
    for info in structs {
        let id = invariant_formula(alloc, graph, program, scene, info)?;
        all.push(id)?;
    }
    Ok(all)
}

/// The invariants of the program's structs. Only want of memory is an error.
pub fn invariants(
    alloc: Global,
    graph: &mut Graph,
    program: &Program,
) -> Result<Vec<u32>, AllocError>
    ensures stands { IfOk result (λ ids. StandAll graph.new ids.items (spec.invariants_of program.now)) }
    ensures later { Later graph.old graph.new }
{
    let scene = struct_scene(graph)?;
    each_invariant(alloc, graph, program, &scene, &program.structs)
}
