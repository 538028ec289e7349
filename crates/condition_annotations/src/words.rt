//! The words of an annotation, whose parts are formulas.

ghost use Rattle.std.specs.Prelude.{◌≡◌, ◌∷◌, [], IfOk, List, pos};
ghost use Rattle.terms.specs.Formula.{Formula, binary};
ghost use Rattle.terms.specs.declared.term.Kind.TheVariants as k;
ghost use Rattle.method.specs.Tables.{type_of_field};
ghost use Rattle.conditions.specs.Formulas as formulas;
ghost use Rattle.conditions.specs.Symbolic as symbolic;
ghost use Rattle.conditions.specs.Annotations as spec;
ghost use Rattle.condition_formulas.specs.Standing.{StandsAs, StandAll, Later};
ghost use Rattle.condition_formulas.specs.Symbolics.{IsSymbolic};
ghost use Rattle.annotation_scenes.specs.Scenes.{IsScene};

use annotation_scenes::scene::Scene;
use condition_formulas::columns::{closed, count, field, lists, mutable, owner, owns, wrapped};
use condition_formulas::formulas::{and, eq, imp, nat, not, or};
use condition_formulas::symbolic::{
    Symbolic, choose, compare, compute, symbolic_of_type, term, test, unlike,
};
use method::program::{Comparison, DeclaredType, Operator, Program};
use std::alloc::AllocError;
use term_graph::graph::Graph;

/// The declared type of a field.
pub fn type_of_field(program: &Program, field: u32) -> DeclaredType
    ensures { result ≡ type_of_field program.now field }
{
    match program.fields.get(field as usize) {
        Some(info) => info.ty,
        None => DeclaredType::Object,
    }
}

/// `o->f`
pub fn field_value(
    graph: &mut Graph,
    program: &Program,
    scene: &Scene<'_>,
    o: Symbolic,
    number: u32,
) -> Result<Symbolic, AllocError>
    ensures stands { (s : spec.Scene) (v : symbolic.Symbolic) → IsScene graph.old scene.now s → IsSymbolic graph.old o v → IfOk result (λ w. IsSymbolic graph.new w (symbolic.symbolic_of_type (type_of_field program.now number) (formulas.get (formulas.field_column number) (spec.current_heap s) (symbolic.term v ∷ [])))) }
    ensures later { Later graph.old graph.new }
{
    let heap = scene.heap();
    let o = term(graph, o)?;
    let held = field(graph, number, heap, o)?;
    Ok(symbolic_of_type(type_of_field(program, number), held))
}

/// `o->\closed`
pub fn is_closed(graph: &mut Graph, scene: &Scene<'_>, e: Symbolic) -> Result<Symbolic, AllocError>
    ensures stands { (s : spec.Scene) (v : symbolic.Symbolic) → IsScene graph.old scene.now s → IsSymbolic graph.old e v → IfOk result (λ r. IsSymbolic graph.new r (symbolic.Truth (formulas.closed (spec.current_heap s) (symbolic.term v)))) }
    ensures later { Later graph.old graph.new }
{
    let heap = scene.heap();
    let o = term(graph, e)?;
    let id = closed(graph, heap, o)?;
    Ok(Symbolic::Truth(id))
}

/// `o->\owner`
pub fn owner_of(graph: &mut Graph, scene: &Scene<'_>, e: Symbolic) -> Result<Symbolic, AllocError>
    ensures stands { (s : spec.Scene) (v : symbolic.Symbolic) → IsScene graph.old scene.now s → IsSymbolic graph.old e v → IfOk result (λ r. IsSymbolic graph.new r (symbolic.Reference (formulas.owner (spec.current_heap s) (symbolic.term v)))) }
    ensures later { Later graph.old graph.new }
{
    let heap = scene.heap();
    let o = term(graph, e)?;
    let id = owner(graph, heap, o)?;
    Ok(Symbolic::Reference(id))
}

/// `o->\claim_count`
pub fn claim_count(
    graph: &mut Graph,
    scene: &Scene<'_>,
    e: Symbolic,
) -> Result<Symbolic, AllocError>
    ensures stands { (s : spec.Scene) (v : symbolic.Symbolic) → IsScene graph.old scene.now s → IsSymbolic graph.old e v → IfOk result (λ r. IsSymbolic graph.new r (symbolic.Number (formulas.count (spec.current_heap s) (symbolic.term v)))) }
    ensures later { Later graph.old graph.new }
{
    let heap = scene.heap();
    let o = term(graph, e)?;
    let id = count(graph, heap, o)?;
    Ok(Symbolic::Number(id))
}

/// `a \in b->\owns`
pub fn is_member(
    graph: &mut Graph,
    scene: &Scene<'_>,
    a: Symbolic,
    b: Symbolic,
) -> Result<Symbolic, AllocError>
    ensures stands { (s : spec.Scene) (v w : symbolic.Symbolic) → IsScene graph.old scene.now s → IsSymbolic graph.old a v → IsSymbolic graph.old b w → IfOk result (λ r. IsSymbolic graph.new r (symbolic.Truth (formulas.owns (spec.current_heap s) (symbolic.term w) (symbolic.term v)))) }
    ensures later { Later graph.old graph.new }
{
    let heap = scene.heap();
    let member = term(graph, a)?;
    let object = term(graph, b)?;
    let id = owns(graph, heap, object, member)?;
    Ok(Symbolic::Truth(id))
}

/// `!e`
pub fn negation(graph: &mut Graph, e: Symbolic) -> Result<Symbolic, AllocError>
    ensures stands { (v : symbolic.Symbolic) → IsSymbolic graph.old e v → IfOk result (λ r. IsSymbolic graph.new r (symbolic.Truth (formulas.not' (symbolic.test v)))) }
    ensures later { Later graph.old graph.new }
{
    let holds = test(graph, e)?;
    let id = not(graph, holds)?;
    Ok(Symbolic::Truth(id))
}

/// `-e`
pub fn opposite(graph: &mut Graph, e: Symbolic) -> Result<Symbolic, AllocError>
    ensures stands { (v : symbolic.Symbolic) → IsSymbolic graph.old e v → IfOk result (λ r. IsSymbolic graph.new r (symbolic.Number (binary k.Sub (formulas.nat 0) (symbolic.term v)))) }
    ensures later { Later graph.old graph.new }
{
    let number = term(graph, e)?;
    let zero = nat(graph, 0)?;
    let id = compute(graph, Operator::Minus, zero, number)?;
    Ok(Symbolic::Number(id))
}

/// An operation on integers.
pub fn arithmetic(
    graph: &mut Graph,
    operator: Operator,
    a: Symbolic,
    b: Symbolic,
) -> Result<Symbolic, AllocError>
    ensures stands { (v w : symbolic.Symbolic) → IsSymbolic graph.old a v → IsSymbolic graph.old b w → IfOk result (λ r. IsSymbolic graph.new r (symbolic.Number (symbolic.compute operator (symbolic.term v) (symbolic.term w)))) }
    ensures later { Later graph.old graph.new }
{
    let left = term(graph, a)?;
    let right = term(graph, b)?;
    let id = compute(graph, operator, left, right)?;
    Ok(Symbolic::Number(id))
}

/// A comparison.
pub fn comparison(
    graph: &mut Graph,
    operator: Comparison,
    a: Symbolic,
    b: Symbolic,
) -> Result<Symbolic, AllocError>
    ensures stands { (v w : symbolic.Symbolic) → IsSymbolic graph.old a v → IsSymbolic graph.old b w → IfOk result (λ r. IsSymbolic graph.new r (symbolic.Truth (symbolic.compare operator (symbolic.term v) (symbolic.term w)))) }
    ensures later { Later graph.old graph.new }
{
    let left = term(graph, a)?;
    let right = term(graph, b)?;
    let id = compare(graph, operator, left, right)?;
    Ok(Symbolic::Truth(id))
}

/// `a && b`
pub fn conjunction(graph: &mut Graph, a: Symbolic, b: Symbolic) -> Result<Symbolic, AllocError>
    ensures stands { (v w : symbolic.Symbolic) → IsSymbolic graph.old a v → IsSymbolic graph.old b w → IfOk result (λ r. IsSymbolic graph.new r (symbolic.Truth (formulas.and' (symbolic.test v) (symbolic.test w)))) }
    ensures later { Later graph.old graph.new }
{
    let left = test(graph, a)?;
    let right = test(graph, b)?;
    let id = and(graph, left, right)?;
    Ok(Symbolic::Truth(id))
}

/// `a || b`
pub fn disjunction(graph: &mut Graph, a: Symbolic, b: Symbolic) -> Result<Symbolic, AllocError>
    ensures stands { (v w : symbolic.Symbolic) → IsSymbolic graph.old a v → IsSymbolic graph.old b w → IfOk result (λ r. IsSymbolic graph.new r (symbolic.Truth (formulas.or' (symbolic.test v) (symbolic.test w)))) }
    ensures later { Later graph.old graph.new }
{
    let left = test(graph, a)?;
    let right = test(graph, b)?;
    let id = or(graph, left, right)?;
    Ok(Symbolic::Truth(id))
}

/// `a ==> b`
pub fn implication(graph: &mut Graph, a: Symbolic, b: Symbolic) -> Result<Symbolic, AllocError>
    ensures stands { (v w : symbolic.Symbolic) → IsSymbolic graph.old a v → IsSymbolic graph.old b w → IfOk result (λ r. IsSymbolic graph.new r (symbolic.Truth (formulas.imp (symbolic.test v) (symbolic.test w)))) }
    ensures later { Later graph.old graph.new }
{
    let left = test(graph, a)?;
    let right = test(graph, b)?;
    let id = imp(graph, left, right)?;
    Ok(Symbolic::Truth(id))
}

/// `a <==> b`
pub fn equivalence(graph: &mut Graph, a: Symbolic, b: Symbolic) -> Result<Symbolic, AllocError>
    ensures stands { (v w : symbolic.Symbolic) → IsSymbolic graph.old a v → IsSymbolic graph.old b w → IfOk result (λ r. IsSymbolic graph.new r (symbolic.Truth (spec.iff (symbolic.test v) (symbolic.test w)))) }
    ensures later { Later graph.old graph.new }
{
    let left = test(graph, a)?;
    let right = test(graph, b)?;
    let there = imp(graph, left, right)?;
    let back = imp(graph, right, left)?;
    let id = and(graph, there, back)?;
    Ok(Symbolic::Truth(id))
}

/// `a ? b : c`
pub fn choice(
    graph: &mut Graph,
    a: Symbolic,
    b: Symbolic,
    c: Symbolic,
) -> Result<Symbolic, AllocError>
    ensures stands { (u v w : symbolic.Symbolic) → IsSymbolic graph.old a u → IsSymbolic graph.old b v → IsSymbolic graph.old c w → IfOk result (λ r. IsSymbolic graph.new r (symbolic.choose (symbolic.test u) v w)) }
    ensures later { Later graph.old graph.new }
{
    let holds = test(graph, a)?;
    choose(graph, holds, b, c)
}

/// That a and b are equal.
pub fn equality(graph: &mut Graph, a: Symbolic, b: Symbolic) -> Result<Symbolic, AllocError>
    ensures stands { (v w : symbolic.Symbolic) → IsSymbolic graph.old a v → IsSymbolic graph.old b w → IfOk result (λ r. IsSymbolic graph.new r (symbolic.Truth (formulas.eq (symbolic.term v) (symbolic.term w)))) }
    ensures later { Later graph.old graph.new }
{
    let left = term(graph, a)?;
    let right = term(graph, b)?;
    let id = eq(graph, left, right)?;
    Ok(Symbolic::Truth(id))
}

/// `\wrapped(o)`
pub fn is_wrapped(graph: &mut Graph, scene: &Scene<'_>, e: Symbolic) -> Result<Symbolic, AllocError>
    ensures stands { (s : spec.Scene) (v : symbolic.Symbolic) → IsScene graph.old scene.now s → IsSymbolic graph.old e v → IfOk result (λ r. IsSymbolic graph.new r (symbolic.Truth (formulas.wrapped s.me (spec.current_heap s) (symbolic.term v)))) }
    ensures later { Later graph.old graph.new }
{
    let heap = scene.heap();
    let o = term(graph, e)?;
    let id = wrapped(graph, scene.me, heap, o)?;
    Ok(Symbolic::Truth(id))
}

/// `\wrapped0(o)`
pub fn is_wrapped0(
    graph: &mut Graph,
    scene: &Scene<'_>,
    e: Symbolic,
) -> Result<Symbolic, AllocError>
    ensures stands { (s : spec.Scene) (v : symbolic.Symbolic) → IsScene graph.old scene.now s → IsSymbolic graph.old e v → IfOk result (λ r. IsSymbolic graph.new r (symbolic.Truth (spec.wrapped0 s (symbolic.term v)))) }
    ensures later { Later graph.old graph.new }
{
    let heap = scene.heap();
    let o = term(graph, e)?;
    let shut = closed(graph, heap, o)?;
    let holder = owner(graph, heap, o)?;
    let mine = eq(graph, holder, scene.me)?;
    let claims = count(graph, heap, o)?;
    let zero = nat(graph, 0)?;
    let unclaimed = eq(graph, claims, zero)?;
    let alone = and(graph, mine, unclaimed)?;
    let id = and(graph, shut, alone)?;
    Ok(Symbolic::Truth(id))
}

/// `\mutable(o)`
pub fn is_mutable(graph: &mut Graph, scene: &Scene<'_>, e: Symbolic) -> Result<Symbolic, AllocError>
    ensures stands { (s : spec.Scene) (v : symbolic.Symbolic) → IsScene graph.old scene.now s → IsSymbolic graph.old e v → IfOk result (λ r. IsSymbolic graph.new r (symbolic.Truth (formulas.mutable s.me (spec.current_heap s) (symbolic.term v)))) }
    ensures later { Later graph.old graph.new }
{
    let heap = scene.heap();
    let o = term(graph, e)?;
    let id = mutable(graph, scene.me, heap, o)?;
    Ok(Symbolic::Truth(id))
}

/// `\fresh(o)`
pub fn is_fresh(graph: &mut Graph, scene: &Scene<'_>, e: Symbolic) -> Result<Symbolic, AllocError>
    ensures stands { (s : spec.Scene) (v : symbolic.Symbolic) → IsScene graph.old scene.now s → IsSymbolic graph.old e v → IfOk result (λ r. IsSymbolic graph.new r (symbolic.Truth (formulas.not' (formulas.eq (formulas.owner s.before (symbolic.term v)) s.me)))) }
    ensures later { Later graph.old graph.new }
{
    let o = term(graph, e)?;
    let holder = owner(graph, scene.before, o)?;
    let id = unlike(graph, holder, scene.me)?;
    Ok(Symbolic::Truth(id))
}

/// `\claims_object(a, b)`
pub fn claims_object(
    graph: &mut Graph,
    scene: &Scene<'_>,
    a: Symbolic,
    b: Symbolic,
) -> Result<Symbolic, AllocError>
    ensures stands { (s : spec.Scene) (v w : symbolic.Symbolic) → IsScene graph.old scene.now s → IsSymbolic graph.old a v → IsSymbolic graph.old b w → IfOk result (λ r. IsSymbolic graph.new r (symbolic.Truth (formulas.lists (spec.current_heap s) (symbolic.term v) (symbolic.term w)))) }
    ensures later { Later graph.old graph.new }
{
    let heap = scene.heap();
    let claim = term(graph, a)?;
    let object = term(graph, b)?;
    let id = lists(graph, heap, claim, object)?;
    Ok(Symbolic::Truth(id))
}

/// That the claim that is spoken of lists the object.
pub fn is_listed(graph: &mut Graph, scene: &Scene<'_>, e: Symbolic) -> Result<Symbolic, AllocError>
    ensures stands { (s : spec.Scene) (v : symbolic.Symbolic) → IsScene graph.old scene.now s → IsSymbolic graph.old e v → IfOk result (λ r. IsSymbolic graph.new r (symbolic.Truth (formulas.lists (spec.current_heap s) s.subject (symbolic.term v)))) }
    ensures later { Later graph.old graph.new }
{
    let heap = scene.heap();
    let o = term(graph, e)?;
    let id = lists(graph, heap, scene.subject, o)?;
    Ok(Symbolic::Truth(id))
}
