//! A quantified formula from its body over a scene of constants.

ghost use Rattle.std.specs.Prelude.{◌≡◌, ◌++◌, IfOk, OnOk, List, map, length, replicate};
ghost use Rattle.terms.specs.declared.sort.Sort.TheVariants as sort;
ghost use Rattle.terms.specs.declared.term.Term.{Term};
ghost use Rattle.terms.specs.Formula.{Formula};
ghost use Rattle.conditions.specs.Annotations as annotation;
ghost use Rattle.conditions.specs.Quantified as spec;
ghost use Rattle.condition_formulas.specs.Standing.{StandsAs, Later};
ghost use Rattle.annotation_scenes.specs.Scenes.{IsScene};
ghost use Rattle.quantified_formulas.specs.Sorts.{value_sort, scene_sorts, sort_at, without};
ghost use Rattle.quantified_formulas.specs.Forms.{IsQuantified};

use crate::renumbering::renumbered;
use annotation_scenes::scene::Scene;
use condition_formulas::constants::constants;
use condition_formulas::symbolic::Symbolic;
use std::alloc::{AllocError, Global};
use term_graph::graph::Graph;
use terms::sort::Sort;

/// A quantified formula: its number, the sorts of its arguments, and the node of its body, in which argument k stands
/// as the constant with number k, and the reference that it is about as the one behind all.
#[derive(Drop)]
pub struct Quantified {
    pub number: u32,
    pub arguments: Vec<Sort>,
    pub body: u32,
}

/// The sort of a constant like this value.
fn value_sort(value: Symbolic) -> Sort
    ensures { result ≡ value_sort value }
{
    match value {
        Symbolic::Truth(_) | Symbolic::Number(_) => Sort::Int,
        Symbolic::Reference(_) => Sort::Ref,
    }
}

/// Appends the sorts of constants like these values.
fn add_value_sorts(values: &[Symbolic], sorts: &mut Vec<Sort>) -> Result<(), AllocError>
    ensures { OnOk result (sorts.new.items ≡ sorts.old.items ++ map value_sort values.now) }
{
    for value in values {
        sorts.push(value_sort(*value))?;
    }
    Ok(())
}

/// Appends the sorts of so many references.
pub fn add_references(count: usize, sorts: &mut Vec<Sort>) -> Result<(), AllocError>
    ensures { OnOk result (sorts.new.items ≡ sorts.old.items ++ replicate count sort.Ref) }
{
    let mut left = count;
    while left > 0 {
        left -= 1;
        sorts.push(Sort::Ref)?;
    }
    Ok(())
}

/// The sorts of what a scene of constants holds that is of this scene's form.
fn scene_sorts(alloc: Global, scene: &Scene<'_>) -> Result<Vec<Sort>, AllocError>
    ensures { IfOk result (λ all. all.items ≡ scene_sorts scene.now) }
{
    let mut sorts = Vec::new(alloc);
    sorts.extend_from_slice(&[Sort::Heap, Sort::Heap, Sort::Ref, Sort::Ref])?;
    sorts.push(value_sort(scene.result))?;
    add_value_sorts(scene.locals, &mut sorts)?;
    add_value_sorts(scene.entry, &mut sorts)?;
    add_references(scene.bound.len(), &mut sorts)?;
    Ok(sorts)
}

/// The sort at the place; behind all of them that of NULL.
fn sort_at(sorts: &[Sort], place: u128) -> Sort
    ensures { result ≡ sort_at sorts.now place }
{
    if place >= sorts.len() as u128 {
        return Sort::Ref;
    }
    sorts[place as usize]
}

/// The sorts at these places.
fn sorts_at(alloc: Global, sorts: &[Sort], places: &[u128]) -> Result<Vec<Sort>, AllocError>
    ensures { IfOk result (λ all. all.items ≡ map (sort_at sorts.now) places.now) }
{
    let mut all = Vec::new(alloc);
    for place in places {
        all.push(sort_at(sorts, *place))?;
    }
    Ok(all)
}

/// The numbers but this one.
fn without(alloc: Global, number: usize, numbers: &[u128]) -> Result<Vec<u128>, AllocError>
    ensures { IfOk result (λ all. all.items ≡ without number numbers.now) }
{
    let mut others = Vec::new(alloc);
    for one in numbers {
        if *one == number as u128 {
            continue;
        }
        others.push(*one)?;
    }
    Ok(others)
}

/// How many parts the scene has.
fn part_count(scene: &Scene<'_>) -> usize
    ensures { (ts : List Term) (s : annotation.Scene) → IsScene ts scene.now s →
        result ≡ length (annotation.parts s) }
{
    5 + scene.locals.len() + scene.entry.len() + scene.bound.len()
}

/// The quantified formula with this number, whose body over the scene of constants is given.
pub fn quantify(
    alloc: Global,
    graph: &mut Graph,
    scene: &Scene<'_>,
    number: u32,
    body: u32,
) -> Result<Quantified, AllocError>
    ensures stands { (s : annotation.Scene) (f : Formula) → IsScene graph.old scene.now s → StandsAs graph.old body f →
        IfOk result (λ q. IsQuantified graph.new q (spec.quantifier_formula s number f)) }
    ensures later { Later graph.old graph.new }
{
    let numbers = constants(alloc, graph, body)?;
    let places = without(alloc, part_count(scene), &numbers)?;
    let sorts = scene_sorts(alloc, scene)?;
    let arguments = sorts_at(alloc, &sorts, &places)?;
    let body = renumbered(alloc, graph, &places, body)?;
    Ok(Quantified {
        number,
        arguments,
        body,
    })
}
