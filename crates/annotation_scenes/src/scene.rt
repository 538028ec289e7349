//! What the words of an annotation stand for.

ghost use Rattle.std.specs.Prelude.{◌≡◌, IfOk, List, ℕ};
ghost use Rattle.terms.specs.declared.term.Term.{Term};
ghost use Rattle.terms.specs.Formula.{Formula};
ghost use Rattle.conditions.specs.Symbolic as symbolic;
ghost use Rattle.conditions.specs.Annotations as spec;
ghost use Rattle.condition_formulas.specs.Standing.{StandsAs, StandAll, Later};
ghost use Rattle.condition_formulas.specs.Symbolics.{IsSymbolic, AreSymbolic};
ghost use Rattle.annotation_scenes.specs.Scenes.{IsScene};

use condition_formulas::formulas::{nat, null};
use condition_formulas::symbolic::Symbolic;
use method::program::Hole;
use std::alloc::AllocError;
use term_graph::graph::Graph;

/// What the words of an annotation stand for, by the numbers of their nodes; inside `\old` it is past. The bound
/// variables stand innermost first; `subject` is the claim that a `\claims` around speaks of.
#[derive(Clone, Copy)]
pub struct Scene<'a> {
    pub before: u32,
    pub after: u32,
    pub past: bool,
    /// `\me`
    pub me: u32,
    /// `\this`
    pub this: u32,
    /// the variables of the function now
    pub locals: &'a [Symbolic],
    /// its parameters at its entry
    pub entry: &'a [Symbolic],
    /// `\result`
    pub result: Symbolic,
    pub bound: &'a [u32],
    pub subject: u32,
}

impl<'a> Scene<'a> {
    /// The words inside `\old`.
    #[tactic(auto, using(crate::proofs::Scenes::in_past))]
    pub fn old(&self) -> Scene<'a>
        ensures { (ts : List Term) (s : spec.Scene) → IsScene ts self.now s → IsScene ts result (spec.old_scene s) }
    {
        Scene {
            past: true,
            ..*self
        }
    }

    /// The words of what a `\claims` says of its claim.
    #[tactic(auto, using(crate::proofs::Scenes::of_claim))]
    pub fn about(&self, claim: u32) -> Scene<'a>
        ensures { (ts : List Term) (s : spec.Scene) (c : Formula) → IsScene ts self.now s → StandsAs ts claim c → IsScene ts result (spec.with_subject c s) }
    {
        Scene {
            subject: claim,
            ..*self
        }
    }

    /// The heap that is spoken of.
    #[tactic(auto, using(crate::proofs::Scenes::heap_is))]
    pub fn heap(&self) -> u32
        ensures { (ts : List Term) (s : spec.Scene) → IsScene ts self.now s → StandsAs ts result (spec.current_heap s) }
    {
        if self.past { self.before } else { self.after }
    }

    /// The words where these variables are bound.
    #[tactic(auto, using(crate::proofs::Scenes::with_bound))]
    pub fn within<'b>(&self, bound: &'b [u32]) -> Scene<'b>
    where
        'a: 'b,
        ensures { (ts : List Term) (s : spec.Scene) (fs : List Formula) → IsScene ts self.now s → StandAll ts bound.now fs → IsScene ts result (record s { bound = fs }) }
    {
        Scene { bound, ..*self }
    }

    /// The earlier state as the present one, where the variables have these values.
    #[tactic(auto, using(crate::proofs::Scenes::before_as_after))]
    pub fn as_present<'b>(&self, locals: &'b [Symbolic]) -> Scene<'b>
    where
        'a: 'b,
        ensures { (ts : List Term) (s : spec.Scene) (vs : List symbolic.Symbolic) → IsScene ts self.now s → AreSymbolic ts locals.now vs → IsScene ts result (record s { after = s.before; locals = vs }) }
    {
        Scene {
            after: self.before,
            locals,
            ..*self
        }
    }
}

/// The value of a variable by its number, 0 where there are not so many.
fn value_at(graph: &mut Graph, values: &[Symbolic], i: u32) -> Result<Symbolic, AllocError>
    ensures stands { (vs : List symbolic.Symbolic) → AreSymbolic graph.old values.now vs → IfOk result (λ r. IsSymbolic graph.new r (spec.symbolic_at vs i)) }
    ensures later { Later graph.old graph.new }
{
    let at = i as usize;
    if at >= values.len() {
        let zero = nat(graph, 0)?;
        return Ok(Symbolic::Number(zero));
    }
    Ok(values[at])
}

/// The value of a variable; in the past a parameter has its value at entry.
pub fn variable(graph: &mut Graph, scene: &Scene<'_>, i: u32) -> Result<Symbolic, AllocError>
    ensures stands { (s : spec.Scene) → IsScene graph.old scene.now s → IfOk result (λ r. IsSymbolic graph.new r (spec.variable s i)) }
    ensures later { Later graph.old graph.new }
{
    if scene.past && (i as usize) < scene.entry.len() {
        return value_at(graph, scene.entry, i);
    }
    value_at(graph, scene.locals, i)
}

/// A bound variable by its number, 0 being the innermost; NULL where there are not so many.
pub fn bound_ref(graph: &mut Graph, scene: &Scene<'_>, i: u32) -> Result<u32, AllocError>
    ensures stands { (s : spec.Scene) → IsScene graph.old scene.now s → IfOk result (λ id. StandsAs graph.new id (spec.bound_ref s i)) }
    ensures later { Later graph.old graph.new }
{
    let at = i as usize;
    if at >= scene.bound.len() {
        return null(graph);
    }
    Ok(scene.bound[at])
}

/// What a hole of a conjunct is filled with.
pub fn hole_value(graph: &mut Graph, scene: &Scene<'_>, hole: Hole) -> Result<Symbolic, AllocError>
    ensures stands { (s : spec.Scene) → IsScene graph.old scene.now s → IfOk result (λ r. IsSymbolic graph.new r (spec.hole_value s hole)) }
    ensures later { Later graph.old graph.new }
{
    match hole {
        Hole::OfVariable(i) => variable(graph, scene, i),
        Hole::OfBound(i) => {
            let id = bound_ref(graph, scene, i)?;
            Ok(Symbolic::Reference(id))
        }
        Hole::OfMe => Ok(Symbolic::Reference(scene.me)),
        Hole::OfThis => Ok(Symbolic::Reference(scene.this)),
        Hole::OfResult => Ok(scene.result),
    }
}
