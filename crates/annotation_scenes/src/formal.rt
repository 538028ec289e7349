//! Scenes of constants, over which quantified formulas are written.

ghost use Rattle.std.specs.Prelude.{◌≡◌, ◌+◌, ◌^◌, ◌<◌, IfOk, List, ℕ, length};
ghost use Rattle.terms.specs.declared.term.Term.{Term};
ghost use Rattle.terms.specs.Formula.{Formula};
ghost use Rattle.conditions.specs.Symbolic as symbolic;
ghost use Rattle.conditions.specs.Annotations as spec;
ghost use Rattle.condition_formulas.specs.Standing.{StandsAs, StandAll, Later};
ghost use Rattle.condition_formulas.specs.Symbolics.{IsSymbolic, AreSymbolic};
ghost use Rattle.annotation_scenes.specs.Scenes.{IsScene, IsFormal};

use crate::scene::Scene;
use condition_formulas::formulas::{heap, integer, null, reference};
use condition_formulas::symbolic::Symbolic;
use std::alloc::{AllocError, Global};
use term_graph::graph::Graph;

/// A scene that owns its lists.
#[derive(Drop)]
pub struct FormalScene {
    pub before: u32,
    pub after: u32,
    pub past: bool,
    pub me: u32,
    pub this: u32,
    pub locals: Vec<Symbolic>,
    pub entry: Vec<Symbolic>,
    pub result: Symbolic,
    pub bound: Vec<u32>,
    pub subject: u32,
}

impl FormalScene {
    /// The same words, borrowed.
    pub fn scene(&self) -> Scene<'_>
        ensures { (ts : List Term) (s : spec.Scene) → IsFormal ts self.now s → IsScene ts result s }
    {
        Scene {
            before: self.before,
            after: self.after,
            past: self.past,
            me: self.me,
            this: self.this,
            locals: &self.locals,
            entry: &self.entry,
            result: self.result,
            bound: &self.bound,
            subject: self.subject,
        }
    }
}

/// Constant number n of the value's sort.
fn constant_like(graph: &mut Graph, n: usize, value: Symbolic) -> Result<Symbolic, AllocError>
    ensures stands { (w : symbolic.Symbolic) → IsSymbolic graph.old value w → IfOk result (λ r. IsSymbolic graph.new r (spec.constant_like n w)) }
    ensures later { Later graph.old graph.new }
{
    match value {
        Symbolic::Truth(_) => {
            let id = integer(graph, n)?;
            Ok(Symbolic::Number(id))
        }
        Symbolic::Number(_) => {
            let id = integer(graph, n)?;
            Ok(Symbolic::Number(id))
        }
        Symbolic::Reference(_) => {
            let id = reference(graph, n)?;
            Ok(Symbolic::Reference(id))
        }
    }
}

/// Constants of the values' sorts, one by one, from number `first` on.
fn constants_like(
    alloc: Global,
    graph: &mut Graph,
    first: usize,
    values: &[Symbolic],
) -> Result<Vec<Symbolic>, AllocError>
    requires { first < 2 ^ 63 }
    ensures stands { (ws : List symbolic.Symbolic) → AreSymbolic graph.old values.now ws → IfOk result (λ vs. AreSymbolic graph.new vs.items (spec.constants_like first ws)) }
    ensures later { Later graph.old graph.new }
{
    let mut like = Vec::new(alloc);
    for (i, value) in values.iter().enumerate() {
        let constant = constant_like(graph, first + i, *value)?;
        like.push(constant)?;
    }
    Ok(like)
}

/// As many reference constants, from number `first` on.
fn references_like(
    alloc: Global,
    graph: &mut Graph,
    first: usize,
    ids: &[u32],
) -> Result<Vec<u32>, AllocError>
    requires { first < 2 ^ 63 }
    ensures stands { (fs : List Formula) → StandAll graph.old ids.now fs → IfOk result (λ all. StandAll graph.new all.items (spec.references_like first fs)) }
    ensures later { Later graph.old graph.new }
{
    let mut like = Vec::new(alloc);
    for i in 0..ids.len() {
        let constant = reference(graph, first + i)?;
        like.push(constant)?;
    }
    Ok(like)
}

/// The scene of constants, each with the number of its place.
pub fn formal_scene(
    alloc: Global,
    graph: &mut Graph,
    scene: &Scene<'_>,
) -> Result<FormalScene, AllocError>
    ensures stands { (s : spec.Scene) → IsScene graph.old scene.now s → IfOk result (λ formal. IsFormal graph.new formal (spec.formal_scene s)) }
    ensures later { Later graph.old graph.new }
{
    let after = heap(graph, 0)?;
    let before = heap(graph, 1)?;
    let me = reference(graph, 2)?;
    let this = reference(graph, 3)?;
    let result = constant_like(graph, 4, scene.result)?;
    let subject = null(graph)?;
    let entry_first = 5 + scene.locals.len();
    let bound_first = entry_first + scene.entry.len();
    let locals = constants_like(alloc, graph, 5, scene.locals)?;
    let entry = constants_like(alloc, graph, entry_first, scene.entry)?;
    let bound = references_like(alloc, graph, bound_first, scene.bound)?;
    Ok(FormalScene {
        before,
        after,
        past: scene.past,
        me,
        this,
        locals,
        entry,
        result,
        bound,
        subject,
    })
}
