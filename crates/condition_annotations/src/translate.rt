//! The formula of an annotation.

ghost use Rattle.std.specs.Prelude.{◌≡◌, ◌∷◌, ◌++◌, [], IfOk, List, ℕ, map, drop, length};
ghost use Rattle.terms.specs.Formula.{Formula};
ghost use Rattle.conditions.specs.Formulas as formulas;
ghost use Rattle.conditions.specs.Symbolic as symbolic;
ghost use Rattle.conditions.specs.Annotations as spec;
ghost use Rattle.condition_formulas.specs.Standing.{StandsAs, StandAll, Later};
ghost use Rattle.condition_formulas.specs.Symbolics.{IsSymbolic};
ghost use Rattle.annotation_scenes.specs.Scenes.{IsScene, IsFormal};
ghost use Rattle.condition_annotations.specs.Rows.{each_test, each_term};

use crate::tables::{each_listed, earlier_locals, has, literal, truth_value};
use crate::words;
use annotation_scenes::formal::{FormalScene, formal_scene};
use annotation_scenes::quantifiers::{
    body_of_all, body_of_only, body_of_some, quantifier, subject_of,
};
use annotation_scenes::scene::{Scene, bound_ref, variable};
use condition_formulas::formulas::{not, null};
use condition_formulas::lists::{all_of, joined};
use condition_formulas::symbolic::{Symbolic, term, test};
use method::program::{DeclaredType, Program, Spec};
use std::alloc::{AllocError, Global};
use term_graph::graph::Graph;

/// What an annotation's expression comes to in the scene, with its formulas in the graph. Only want of memory is an error.
#[cycle(translate)]
pub fn translate(
    alloc: Global,
    graph: &mut Graph,
    program: &Program,
    e: &Spec,
    scene: &Scene<'_>,
) -> Result<Symbolic, AllocError>
    ensures stands { (s : spec.Scene) → IsScene graph.old scene.now s → IfOk result (λ r. IsSymbolic graph.new r (spec.translate program.now e.now s)) }
    ensures later { Later graph.old graph.new }
{
    match e {
        Spec::Number(z) => literal(graph, z),
        Spec::Truth(holds) => {
            let id = truth_value(graph, *holds)?;
            Ok(Symbolic::Truth(id))
        }
        Spec::Null => {
            let id = null(graph)?;
            Ok(Symbolic::Reference(id))
        }
        Spec::Variable(i) => variable(graph, scene, *i),
        Spec::Bound(i) => {
            let id = bound_ref(graph, scene, *i)?;
            Ok(Symbolic::Reference(id))
        }
        Spec::This => Ok(Symbolic::Reference(scene.this)),
        Spec::Me => Ok(Symbolic::Reference(scene.me)),
        Spec::Result => Ok(scene.result),
        Spec::Field(e, f) => {
            let o = translate(alloc, graph, program, e, scene)?;
            words::field_value(graph, program, scene, o, *f)
        }
        Spec::Closed(e) => {
            let o = translate(alloc, graph, program, e, scene)?;
            words::is_closed(graph, scene, o)
        }
        Spec::Owner(e) => {
            let o = translate(alloc, graph, program, e, scene)?;
            words::owner_of(graph, scene, o)
        }
        Spec::ClaimCount(e) => {
            let o = translate(alloc, graph, program, e, scene)?;
            words::claim_count(graph, scene, o)
        }
        Spec::Not(e) => {
            let o = translate(alloc, graph, program, e, scene)?;
            words::negation(graph, o)
        }
        Spec::Negate(e) => {
            let o = translate(alloc, graph, program, e, scene)?;
            words::opposite(graph, o)
        }
        Spec::Wrapped(e) => {
            let o = translate(alloc, graph, program, e, scene)?;
            words::is_wrapped(graph, scene, o)
        }
        Spec::Wrapped0(e) => {
            let o = translate(alloc, graph, program, e, scene)?;
            words::is_wrapped0(graph, scene, o)
        }
        Spec::Mutable(e) => {
            let o = translate(alloc, graph, program, e, scene)?;
            words::is_mutable(graph, scene, o)
        }
        Spec::Fresh(e) => {
            let o = translate(alloc, graph, program, e, scene)?;
            words::is_fresh(graph, scene, o)
        }
        Spec::Lists(e) => {
            let o = translate(alloc, graph, program, e, scene)?;
            words::is_listed(graph, scene, o)
        }
        Spec::Member(a, b) => {
            let left = translate(alloc, graph, program, a, scene)?;
            let right = translate(alloc, graph, program, b, scene)?;
            words::is_member(graph, scene, left, right)
        }
        Spec::Arithmetic(operator, a, b) => {
            let left = translate(alloc, graph, program, a, scene)?;
            let right = translate(alloc, graph, program, b, scene)?;
            words::arithmetic(graph, *operator, left, right)
        }
        Spec::Compare(operator, a, b) => {
            let left = translate(alloc, graph, program, a, scene)?;
            let right = translate(alloc, graph, program, b, scene)?;
            words::comparison(graph, *operator, left, right)
        }
        Spec::And(a, b) => {
            let left = translate(alloc, graph, program, a, scene)?;
            let right = translate(alloc, graph, program, b, scene)?;
            words::conjunction(graph, left, right)
        }
        Spec::Or(a, b) => {
            let left = translate(alloc, graph, program, a, scene)?;
            let right = translate(alloc, graph, program, b, scene)?;
            words::disjunction(graph, left, right)
        }
        Spec::Implies(a, b) => {
            let left = translate(alloc, graph, program, a, scene)?;
            let right = translate(alloc, graph, program, b, scene)?;
            words::implication(graph, left, right)
        }
        Spec::Iff(a, b) => {
            let left = translate(alloc, graph, program, a, scene)?;
            let right = translate(alloc, graph, program, b, scene)?;
            words::equivalence(graph, left, right)
        }
        Spec::ClaimsObject(a, b) => {
            let left = translate(alloc, graph, program, a, scene)?;
            let right = translate(alloc, graph, program, b, scene)?;
            words::claims_object(graph, scene, left, right)
        }
        Spec::Choose(a, b, c) => {
            let test = translate(alloc, graph, program, a, scene)?;
            let first = translate(alloc, graph, program, b, scene)?;
            let second = translate(alloc, graph, program, c, scene)?;
            words::choice(graph, test, first, second)
        }
        Spec::Old(e) => translate(alloc, graph, program, e, &scene.old()),
        Spec::Unchanged(e) => {
            let locals = earlier_locals(alloc, scene)?;
            let earlier = translate(alloc, graph, program, e, &scene.as_present(&locals))?;
            let now = translate(alloc, graph, program, e, scene)?;
            words::equality(graph, earlier, now)
        }
        Spec::ClaimsOnly(n, c, objects) => {
            let formal = formal_scene(alloc, graph, scene)?;
            let words = formal.scene();
            let about = translate(alloc, graph, program, c, &words)?;
            let claim = translate(alloc, graph, program, c, scene)?;
            claims_only(
                alloc, graph, program, scene, &formal, *n, claim, about, objects,
            )
        }
        Spec::Claims(c, conjuncts) => {
            let claim = translate(alloc, graph, program, c, scene)?;
            claims(alloc, graph, program, scene, claim, conjuncts)
        }
        Spec::Has(conjunct) => has(alloc, graph, program, scene, conjunct),
        Spec::ForAll(n, ty, e, body) => {
            let formal = formal_scene(alloc, graph, scene)?;
            let words = formal.scene();
            let owner = translate(alloc, graph, program, e, &words)?;
            for_all(alloc, graph, program, scene, &formal, *n, *ty, owner, body)
        }
        Spec::Exists(n, ty, e, conjuncts) => {
            let formal = formal_scene(alloc, graph, scene)?;
            let words = formal.scene();
            let owner = translate(alloc, graph, program, e, &words)?;
            exists(
                alloc, graph, program, scene, &formal, *n, *ty, owner, conjuncts,
            )
        }
    }
}

/// The truths of annotations.
#[cycle(translate)]
pub fn tests(
    alloc: Global,
    graph: &mut Graph,
    program: &Program,
    es: &[Spec],
    scene: &Scene<'_>,
) -> Result<Vec<u32>, AllocError>
    ensures stands { (s : spec.Scene) → IsScene graph.old scene.now s → IfOk result (λ ids. StandAll graph.new ids.items (each_test program.now es.now s)) }
    ensures later { Later graph.old graph.new }
{
    let mut all = Vec::new(alloc);
    for e in es {
        let value = translate(alloc, graph, program, e, scene)?;
        let id = test(graph, value)?;
        all.push(id)?;
    }
    Ok(all)
}

/// The terms of annotations.
#[cycle(translate)]
pub fn terms_of(
    alloc: Global,
    graph: &mut Graph,
    program: &Program,
    es: &[Spec],
    scene: &Scene<'_>,
) -> Result<Vec<u32>, AllocError>
    ensures stands { (s : spec.Scene) → IsScene graph.old scene.now s → IfOk result (λ ids. StandAll graph.new ids.items (each_term program.now es.now s)) }
    ensures later { Later graph.old graph.new }
{
    let mut all = Vec::new(alloc);
    for e in es {
        let value = translate(alloc, graph, program, e, scene)?;
        let id = term(graph, value)?;
        all.push(id)?;
    }
    Ok(all)
}

/// `\claims(claim, E)`
#[cycle(translate)]
fn claims(
    alloc: Global,
    graph: &mut Graph,
    program: &Program,
    scene: &Scene<'_>,
    claim: Symbolic,
    conjuncts: &[Spec],
) -> Result<Symbolic, AllocError>
    ensures stands { (s : spec.Scene) (v : symbolic.Symbolic) → IsScene graph.old scene.now s → IsSymbolic graph.old claim v → IfOk result (λ r. IsSymbolic graph.new r (symbolic.Truth (formulas.all_of (each_test program.now conjuncts.now (spec.with_subject (symbolic.term v) s))))) }
    ensures later { Later graph.old graph.new }
{
    let subject = term(graph, claim)?;
    let all = tests(alloc, graph, program, conjuncts, &scene.about(subject))?;
    let id = all_of(graph, &all)?;
    Ok(Symbolic::Truth(id))
}

/// `\forall`, of an object's set; the object is translated over the scene of constants.
#[cycle(translate)]
fn for_all(
    alloc: Global,
    graph: &mut Graph,
    program: &Program,
    scene: &Scene<'_>,
    formal: &FormalScene,
    number: u32,
    ty: DeclaredType,
    owner: Symbolic,
    body: &Spec,
) -> Result<Symbolic, AllocError>
    ensures stands { (s : spec.Scene) (v : symbolic.Symbolic) → IsScene graph.old scene.now s → IsFormal graph.old formal.now (spec.formal_scene s) → IsSymbolic graph.old owner v → IfOk result (λ r. IsSymbolic graph.new r (symbolic.Truth (spec.quantifier s number (spec.body_of_all ty s v (spec.translate program.now body.now (spec.bind_ref (spec.subject_of s) (spec.formal_scene s))))))) }
    ensures later { Later graph.old graph.new }
{
    let words = formal.scene();
    let member = subject_of(graph, scene)?;
    let bound = joined(alloc, &[member], words.bound)?;
    let inner = words.within(&bound);
    let passes = translate(alloc, graph, program, body, &inner)?;
    let heap = words.heap();
    let whole = body_of_all(alloc, graph, ty, heap, owner, member, passes)?;
    let id = quantifier(alloc, graph, scene, number, whole)?;
    Ok(Symbolic::Truth(id))
}

/// `\exists`, of an object's set; the object is translated over the scene of constants.
#[cycle(translate)]
fn exists(
    alloc: Global,
    graph: &mut Graph,
    program: &Program,
    scene: &Scene<'_>,
    formal: &FormalScene,
    number: u32,
    ty: DeclaredType,
    owner: Symbolic,
    conjuncts: &[Spec],
) -> Result<Symbolic, AllocError>
    ensures stands { (s : spec.Scene) (v : symbolic.Symbolic) → IsScene graph.old scene.now s → IsFormal graph.old formal.now (spec.formal_scene s) → IsSymbolic graph.old owner v → IfOk result (λ r. IsSymbolic graph.new r (symbolic.Truth (formulas.not' (spec.quantifier s number (spec.body_of_some ty s v (each_test program.now conjuncts.now (spec.bind_ref (spec.subject_of s) (spec.formal_scene s)))))))) }
    ensures later { Later graph.old graph.new }
{
    let words = formal.scene();
    let member = subject_of(graph, scene)?;
    let bound = joined(alloc, &[member], words.bound)?;
    let inner = words.within(&bound);
    let pass = tests(alloc, graph, program, conjuncts, &inner)?;
    let heap = words.heap();
    let whole = body_of_some(alloc, graph, ty, heap, owner, member, &pass)?;
    let all = quantifier(alloc, graph, scene, number, whole)?;
    let id = not(graph, all)?;
    Ok(Symbolic::Truth(id))
}

/// That the claim, which is translated over the scene of constants, lists none but the objects.
#[cycle(translate)]
fn lists_no_others(
    alloc: Global,
    graph: &mut Graph,
    program: &Program,
    scene: &Scene<'_>,
    formal: &FormalScene,
    number: u32,
    about: Symbolic,
    objects: &[Spec],
) -> Result<u32, AllocError>
    ensures stands { (s : spec.Scene) (w : symbolic.Symbolic) → IsScene graph.old scene.now s → IsFormal graph.old formal.now (spec.formal_scene s) → IsSymbolic graph.old about w → IfOk result (λ id. StandsAs graph.new id (spec.quantifier s number (spec.body_of_only s w (each_term program.now objects.now (spec.formal_scene s))))) }
    ensures later { Later graph.old graph.new }
{
    let words = formal.scene();
    let member = subject_of(graph, scene)?;
    let ids = terms_of(alloc, graph, program, objects, &words)?;
    let heap = words.heap();
    let whole = body_of_only(alloc, graph, heap, about, member, &ids)?;
    quantifier(alloc, graph, scene, number, whole)
}

/// `\claims_only(claim, o, ..)`; `about` is the claim over the scene of constants.
#[cycle(translate)]
fn claims_only(
    alloc: Global,
    graph: &mut Graph,
    program: &Program,
    scene: &Scene<'_>,
    formal: &FormalScene,
    number: u32,
    claim: Symbolic,
    about: Symbolic,
    objects: &[Spec],
) -> Result<Symbolic, AllocError>
    ensures stands { (s : spec.Scene) (v w : symbolic.Symbolic) → IsScene graph.old scene.now s → IsFormal graph.old formal.now (spec.formal_scene s) → IsSymbolic graph.old claim v → IsSymbolic graph.old about w → IfOk result (λ r. IsSymbolic graph.new r (symbolic.Truth (formulas.all_of (map (formulas.lists (spec.current_heap s) (symbolic.term v)) (each_term program.now objects.now s) ++ spec.quantifier s number (spec.body_of_only s w (each_term program.now objects.now (spec.formal_scene s))) ∷ [])))) }
    ensures later { Later graph.old graph.new }
{
    let subject = term(graph, claim)?;
    let ids = terms_of(alloc, graph, program, objects, scene)?;
    let mut all = each_listed(alloc, graph, scene.heap(), subject, &ids)?;
    let no_others = lists_no_others(alloc, graph, program, scene, formal, number, about, objects)?;
    all.push(no_others)?;
    let id = all_of(graph, &all)?;
    Ok(Symbolic::Truth(id))
}
