//! The quantified formulas of `\forall`, `\exists` and `\claims_only`.

ghost use Rattle.std.specs.Prelude.{◌∷◌, IfOk, List};
ghost use Rattle.terms.specs.Formula.{Formula};
ghost use Rattle.conditions.specs.Formulas.{null};
ghost use Rattle.conditions.specs.Annotations as spec;
ghost use Rattle.condition_formulas.specs.Standing.{StandAll, Later};
ghost use Rattle.annotation_scenes.specs.Scenes.{IsScene};
ghost use Rattle.quantified_formulas.specs.Bodies as bodies;
ghost use Rattle.quantified_formulas.specs.Forms.{IsQuantified};

use crate::quantified::{Quantified, quantify};
use annotation_scenes::formal::formal_scene;
use annotation_scenes::quantifiers::{body_of_all, body_of_only, body_of_some, subject_of};
use annotation_scenes::scene::Scene;
use condition_annotations::translate::{terms_of, tests, translate};
use condition_formulas::formulas::null;
use condition_formulas::lists::joined;
use method::program::{DeclaredType, Program, Spec};
use std::alloc::{AllocError, Global};
use term_graph::graph::Graph;

/// The formula of a `\forall`: its number, the type, the object whose members it is about, and what holds of each.
pub fn for_all(
    alloc: Global,
    graph: &mut Graph,
    program: &Program,
    scene: &Scene<'_>,
    number: u32,
    ty: DeclaredType,
    e: &Spec,
    body: &Spec,
) -> Result<Quantified, AllocError>
    ensures stands { (s : spec.Scene) → IsScene graph.old scene.now s →
        IfOk result (λ q. IsQuantified graph.new q (bodies.for_all program.now s number ty e.now body.now)) }
    ensures later { Later graph.old graph.new }
{
    let formal = formal_scene(alloc, graph, scene)?;
    let words = formal.scene();
    let owner = translate(alloc, graph, program, e, &words)?;
    let member = subject_of(graph, scene)?;
    let bound = joined(alloc, &[member], words.bound)?;
    let inner = words.within(&bound);
    let passes = translate(alloc, graph, program, body, &inner)?;
    let heap = words.heap();
    let whole = body_of_all(alloc, graph, ty, heap, owner, member, passes)?;
    quantify(alloc, graph, scene, number, whole)
}

/// The formula of an `\exists`: its number, the type, the object whose members it is about, and the conjuncts behind.
pub fn exists(
    alloc: Global,
    graph: &mut Graph,
    program: &Program,
    scene: &Scene<'_>,
    number: u32,
    ty: DeclaredType,
    e: &Spec,
    conjuncts: &[Spec],
) -> Result<Quantified, AllocError>
    ensures stands { (s : spec.Scene) → IsScene graph.old scene.now s →
        IfOk result (λ q. IsQuantified graph.new q (bodies.exists program.now s number ty e.now conjuncts.now)) }
    ensures later { Later graph.old graph.new }
{
    let formal = formal_scene(alloc, graph, scene)?;
    let words = formal.scene();
    let owner = translate(alloc, graph, program, e, &words)?;
    let member = subject_of(graph, scene)?;
    let bound = joined(alloc, &[member], words.bound)?;
    let inner = words.within(&bound);
    let pass = tests(alloc, graph, program, conjuncts, &inner)?;
    let heap = words.heap();
    let whole = body_of_some(alloc, graph, ty, heap, owner, member, &pass)?;
    quantify(alloc, graph, scene, number, whole)
}

/// The formula of a `\claims_only`: its number, the claim, and the objects that it lists and no others.
pub fn claims_only(
    alloc: Global,
    graph: &mut Graph,
    program: &Program,
    scene: &Scene<'_>,
    number: u32,
    claim: &Spec,
    objects: &[Spec],
) -> Result<Quantified, AllocError>
    ensures stands { (s : spec.Scene) → IsScene graph.old scene.now s →
        IfOk result (λ q. IsQuantified graph.new q (bodies.claims_only program.now s number claim.now objects.now)) }
    ensures later { Later graph.old graph.new }
{
    let formal = formal_scene(alloc, graph, scene)?;
    let words = formal.scene();
    let about = translate(alloc, graph, program, claim, &words)?;
    let member = subject_of(graph, scene)?;
    let ids = terms_of(alloc, graph, program, objects, &words)?;
    let heap = words.heap();
    let whole = body_of_only(alloc, graph, heap, about, member, &ids)?;
    quantify(alloc, graph, scene, number, whole)
}

/// The bound variables of an inner annotation: one more, by its sort alone.
pub fn bound_within(
    alloc: Global,
    graph: &mut Graph,
    scene: &Scene<'_>,
) -> Result<Vec<u32>, AllocError>
    ensures stands { (s : spec.Scene) → IsScene graph.old scene.now s →
        IfOk result (λ ids. StandAll graph.new ids.items (null ∷ s.bound)) }
    ensures later { Later graph.old graph.new }
{
    let nothing = null(graph)?;
    joined(alloc, &[nothing], scene.bound)
}
