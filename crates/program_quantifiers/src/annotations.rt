//! The quantified formulas of annotations, an outer one before those in it.

ghost use Rattle.std.specs.Prelude.{◌∷◌, [], OnOk};
ghost use Rattle.conditions.specs.Annotations as annotation;
ghost use Rattle.conditions.specs.Quantified as spec;
ghost use Rattle.annotation_scenes.specs.Scenes.{IsScene};
ghost use Rattle.quantified_formulas.specs.Bodies as bodies;
ghost use Rattle.program_quantifiers.specs.Quantifiers.{Adds};

use crate::quantifiers::Quantifiers;
use annotation_scenes::scene::Scene;
use method::program::{Clause, DeclaredType, Program, Spec};
use quantified_formulas::bodies::{bound_within, claims_only, exists, for_all};
use std::alloc::{AllocError, Global};

/// Adds the formula of a `\forall`.
fn add_for_all(
    alloc: Global,
    list: &mut Quantifiers,
    program: &Program,
    scene: &Scene<'_>,
    number: u32,
    ty: DeclaredType,
    e: &Spec,
    body: &Spec,
) -> Result<(), AllocError>
    ensures { (s : annotation.Scene) → IsScene list.old.graph scene.now s →
        OnOk result (Adds list.old list.new (bodies.for_all program.now s number ty e.now body.now ∷ [])) }
{
    let one = for_all(alloc, &mut list.graph, program, scene, number, ty, e, body)?;
    list.formulas.push(one)?;
    Ok(())
}

/// Adds the formula of an `\exists`.
fn add_exists(
    alloc: Global,
    list: &mut Quantifiers,
    program: &Program,
    scene: &Scene<'_>,
    number: u32,
    ty: DeclaredType,
    e: &Spec,
    conjuncts: &[Spec],
) -> Result<(), AllocError>
    ensures { (s : annotation.Scene) → IsScene list.old.graph scene.now s →
        OnOk result (Adds list.old list.new (bodies.exists program.now s number ty e.now conjuncts.now ∷ [])) }
{
    let one = exists(
        alloc,
        &mut list.graph,
        program,
        scene,
        number,
        ty,
        e,
        conjuncts,
    )?;
    list.formulas.push(one)?;
    Ok(())
}

/// Adds the formula of a `\claims_only`.
fn add_claims_only(
    alloc: Global,
    list: &mut Quantifiers,
    program: &Program,
    scene: &Scene<'_>,
    number: u32,
    claim: &Spec,
    objects: &[Spec],
) -> Result<(), AllocError>
    ensures { (s : annotation.Scene) → IsScene list.old.graph scene.now s →
        OnOk result (Adds list.old list.new (bodies.claims_only program.now s number claim.now objects.now ∷ [])) }
{
    let one = claims_only(
        alloc,
        &mut list.graph,
        program,
        scene,
        number,
        claim,
        objects,
    )?;
    list.formulas.push(one)?;
    Ok(())
}

/// Adds the formulas of an annotation. Only want of memory is an error.
#[cycle(add_annotation)]
pub fn add_annotation(
    alloc: Global,
    list: &mut Quantifiers,
    program: &Program,
    e: &Spec,
    scene: &Scene<'_>,
) -> Result<(), AllocError>
    ensures { (s : annotation.Scene) → IsScene list.old.graph scene.now s →
        OnOk result (Adds list.old list.new (spec.spec_quantifiers program.now e.now s)) }
{
    match e {
        Spec::Number(_)
        | Spec::Truth(_)
        | Spec::Null
        | Spec::Variable(_)
        | Spec::Bound(_)
        | Spec::This
        | Spec::Me
        | Spec::Result
        | Spec::Has(_) => Ok(()),
        Spec::Field(x, _)
        | Spec::Closed(x)
        | Spec::Owner(x)
        | Spec::ClaimCount(x)
        | Spec::Not(x)
        | Spec::Negate(x)
        | Spec::Unchanged(x)
        | Spec::Wrapped(x)
        | Spec::Wrapped0(x)
        | Spec::Mutable(x)
        | Spec::Fresh(x)
        | Spec::Lists(x) => add_annotation(alloc, list, program, x, scene),
        Spec::Member(x, y)
        | Spec::Arithmetic(_, x, y)
        | Spec::Compare(_, x, y)
        | Spec::And(x, y)
        | Spec::Or(x, y)
        | Spec::Implies(x, y)
        | Spec::Iff(x, y)
        | Spec::ClaimsObject(x, y) => {
            add_annotation(alloc, list, program, x, scene)?;
            add_annotation(alloc, list, program, y, scene)
        }
        Spec::Choose(x, y, z) => {
            add_annotation(alloc, list, program, x, scene)?;
            add_annotation(alloc, list, program, y, scene)?;
            add_annotation(alloc, list, program, z, scene)
        }
        Spec::Old(x) => add_annotation(alloc, list, program, x, &scene.old()),
        Spec::ClaimsOnly(n, c, objects) => {
            add_claims_only(alloc, list, program, scene, *n, c, objects)?;
            add_annotation(alloc, list, program, c, scene)?;
            add_annotations(alloc, list, program, objects, scene)
        }
        Spec::Claims(c, conjuncts) => {
            add_annotation(alloc, list, program, c, scene)?;
            add_annotations(alloc, list, program, conjuncts, scene)
        }
        Spec::ForAll(n, ty, x, body) => {
            add_for_all(alloc, list, program, scene, *n, *ty, x, body)?;
            add_annotation(alloc, list, program, x, scene)?;
            let bound = bound_within(alloc, &mut list.graph, scene)?;
            let inner = scene.within(&bound);
            add_annotation(alloc, list, program, body, &inner)
        }
        Spec::Exists(n, ty, x, conjuncts) => {
            add_exists(alloc, list, program, scene, *n, *ty, x, conjuncts)?;
            add_annotation(alloc, list, program, x, scene)?;
            let bound = bound_within(alloc, &mut list.graph, scene)?;
            let inner = scene.within(&bound);
            add_annotations(alloc, list, program, conjuncts, &inner)
        }
    }
}

/// Adds the formulas of several annotations.
#[cycle(add_annotation)]
pub fn add_annotations(
    alloc: Global,
    list: &mut Quantifiers,
    program: &Program,
    es: &[Spec],
    scene: &Scene<'_>,
) -> Result<(), AllocError>
    ensures { (s : annotation.Scene) → IsScene list.old.graph scene.now s →
        OnOk result (Adds list.old list.new (spec.specs_quantifiers program.now es.now s)) }
{
    for e in es {
        add_annotation(alloc, list, program, e, scene)?;
    }
    Ok(())
}

/// Adds the formulas of a contract's clauses.
pub fn add_clauses(
    alloc: Global,
    list: &mut Quantifiers,
    program: &Program,
    clauses: &[Clause],
    scene: &Scene<'_>,
) -> Result<(), AllocError>
    ensures { (s : annotation.Scene) → IsScene list.old.graph scene.now s →
        OnOk result (Adds list.old list.new (spec.clauses_quantifiers program.now clauses.now s)) }
{
    for clause in clauses {
        add_annotation(alloc, list, program, &clause.spec, scene)?;
    }
    Ok(())
}
