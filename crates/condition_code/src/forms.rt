//! The forms of expressions, from what their parts come to.

ghost use Rattle.std.specs.Prelude.{IfOk, List};
ghost use Rattle.terms.specs.Formula.{binary};
ghost use Rattle.terms.specs.declared.term.Kind.TheVariants as k;
ghost use Rattle.method.specs.declared.program.Program.{Program};
ghost use Rattle.conditions.specs.Code as spec;
ghost use Rattle.conditions.specs.Formulas as formulas;
ghost use Rattle.conditions.specs.Paths.{Gives};
ghost use Rattle.conditions.specs.Annotations.{symbolic_at};
ghost use Rattle.conditions.specs.Symbolic as symbolic;
ghost use Rattle.condition_formulas.specs.Standing.{StandsAs, Later};
ghost use Rattle.condition_formulas.specs.Symbolics.{AreSymbolic, IsSymbolic};
ghost use Rattle.condition_code.specs.States.{IsSpot, IsState};
ghost use Rattle.condition_code.specs.Walks.{Ran};

use crate::operations::{arithmetic, field_read, negated};
use crate::state::{Spot, State};
use crate::walk::Walk;
use condition_formulas::formulas::{and, int, nat, not, null, or};
use condition_formulas::symbolic::{Symbolic, choose, compare, compute, term, test};
use int_ranges::ctype::CType;
use method::program::{Comparison, Operator};
use std::alloc::AllocError;
use term_graph::graph::Graph;

/// An integer literal.
pub fn literal(walk: &mut Walk, z: i128) -> Result<Symbolic, AllocError>
    ensures { IfOk result (λ v. Ran IsSymbolic walk.old walk.new v (Gives (symbolic.Number (formulas.int z)))) }
{
    let id = int(&mut walk.graph, z)?;
    Ok(Symbolic::Number(id))
}

/// NULL
pub fn nothing(walk: &mut Walk) -> Result<Symbolic, AllocError>
    ensures { IfOk result (λ v. Ran IsSymbolic walk.old walk.new v (Gives (symbolic.Reference formulas.null))) }
{
    let id = null(&mut walk.graph)?;
    Ok(Symbolic::Reference(id))
}

/// The value of a variable by its number, 0 where there are not so many.
fn value_at(graph: &mut Graph, values: &[Symbolic], i: u32) -> Result<Symbolic, AllocError>
    ensures stands { (vs : List symbolic.Symbolic) → AreSymbolic graph.old values.now vs → IfOk result (λ r. IsSymbolic graph.new r (symbolic_at vs i)) }
    ensures later { Later graph.old graph.new }
{
    let at = i as usize;
    if at >= values.len() {
        let zero = nat(graph, 0)?;
        return Ok(Symbolic::Number(zero));
    }
    Ok(values[at])
}

/// A variable by its number, 0 where there are not so many.
pub fn local(walk: &mut Walk, st: &State, i: u32) -> Result<Symbolic, AllocError>
    ensures { (s : spec.State) → IsState walk.old.graph st.now s → IfOk result (λ v. Ran IsSymbolic walk.old walk.new v (Gives (symbolic_at s.locals i))) }
{
    let value = value_at(&mut walk.graph, &st.locals, i)?;
    Ok(value)
}

/// `o->f`
pub fn field_of(
    walk: &mut Walk,
    a: &Spot<'_>,
    st: &State,
    o: Symbolic,
    f: u32,
) -> Result<Symbolic, AllocError>
    ensures { (b : spec.Spot) (s : spec.State) (w : symbolic.Symbolic) → IsSpot walk.old.graph a.now b → IsState walk.old.graph st.now s → IsSymbolic walk.old.graph o w → IfOk result (λ v. Ran IsSymbolic walk.old walk.new v (spec.field_read a.now.program.now b s (symbolic.term w) f)) }
{
    let id = term(&mut walk.graph, o)?;
    let value = field_read(walk, a, st, id, f)?;
    Ok(value)
}

/// That the value isn't true.
pub fn failing(graph: &mut Graph, v: Symbolic) -> Result<u32, AllocError>
    ensures stands { (w : symbolic.Symbolic) → IsSymbolic graph.old v w → IfOk result (λ id. StandsAs graph.new id (formulas.not' (symbolic.test w))) }
    ensures later { Later graph.old graph.new }
{
    let passes = test(graph, v)?;
    not(graph, passes)
}

/// `!e`
pub fn negation(walk: &mut Walk, v: Symbolic) -> Result<Symbolic, AllocError>
    ensures { (w : symbolic.Symbolic) → IsSymbolic walk.old.graph v w → IfOk result (λ r. Ran IsSymbolic walk.old walk.new r (Gives (symbolic.Truth (formulas.not' (symbolic.test w))))) }
{
    let id = failing(&mut walk.graph, v)?;
    Ok(Symbolic::Truth(id))
}

/// `-e`
pub fn opposite(walk: &mut Walk, ty: CType, v: Symbolic) -> Result<Symbolic, AllocError>
    ensures { (p : Program) (b : spec.Spot) (w : symbolic.Symbolic) → IsSymbolic walk.old.graph v w → IfOk result (λ r. Ran IsSymbolic walk.old walk.new r (spec.negated p b ty (binary k.Sub (formulas.nat 0) (symbolic.term w)))) }
{
    let x = term(&mut walk.graph, v)?;
    let zero = nat(&mut walk.graph, 0)?;
    let id = compute(&mut walk.graph, Operator::Minus, zero, x)?;
    let value = negated(walk, ty, id)?;
    Ok(value)
}

/// An operation on integers.
pub fn operation(
    walk: &mut Walk,
    operator: Operator,
    ty: CType,
    v: Symbolic,
    w: Symbolic,
) -> Result<Symbolic, AllocError>
    ensures { (p : Program) (b : spec.Spot) (x y : symbolic.Symbolic) → IsSymbolic walk.old.graph v x → IsSymbolic walk.old.graph w y → IfOk result (λ r. Ran IsSymbolic walk.old walk.new r (spec.arithmetic p b operator ty (symbolic.term x) (symbolic.term y))) }
{
    let left = term(&mut walk.graph, v)?;
    let right = term(&mut walk.graph, w)?;
    let value = arithmetic(walk, operator, ty, left, right)?;
    Ok(value)
}

/// A comparison.
pub fn compared(
    walk: &mut Walk,
    comparison: Comparison,
    v: Symbolic,
    w: Symbolic,
) -> Result<Symbolic, AllocError>
    ensures { (x y : symbolic.Symbolic) → IsSymbolic walk.old.graph v x → IsSymbolic walk.old.graph w y → IfOk result (λ r. Ran IsSymbolic walk.old walk.new r (Gives (symbolic.Truth (symbolic.compare comparison (symbolic.term x) (symbolic.term y))))) }
{
    let left = term(&mut walk.graph, v)?;
    let right = term(&mut walk.graph, w)?;
    let id = compare(&mut walk.graph, comparison, left, right)?;
    Ok(Symbolic::Truth(id))
}

/// `a && b`
pub fn conjunction(walk: &mut Walk, v: Symbolic, w: Symbolic) -> Result<Symbolic, AllocError>
    ensures { (x y : symbolic.Symbolic) → IsSymbolic walk.old.graph v x → IsSymbolic walk.old.graph w y → IfOk result (λ r. Ran IsSymbolic walk.old walk.new r (Gives (symbolic.Truth (formulas.and' (symbolic.test x) (symbolic.test y))))) }
{
    let left = test(&mut walk.graph, v)?;
    let right = test(&mut walk.graph, w)?;
    let id = and(&mut walk.graph, left, right)?;
    Ok(Symbolic::Truth(id))
}

/// `a || b`
pub fn disjunction(walk: &mut Walk, v: Symbolic, w: Symbolic) -> Result<Symbolic, AllocError>
    ensures { (x y : symbolic.Symbolic) → IsSymbolic walk.old.graph v x → IsSymbolic walk.old.graph w y → IfOk result (λ r. Ran IsSymbolic walk.old walk.new r (Gives (symbolic.Truth (formulas.or' (symbolic.test x) (symbolic.test y))))) }
{
    let left = test(&mut walk.graph, v)?;
    let right = test(&mut walk.graph, w)?;
    let id = or(&mut walk.graph, left, right)?;
    Ok(Symbolic::Truth(id))
}

/// `a ? b : c`
pub fn choice(
    walk: &mut Walk,
    u: Symbolic,
    v: Symbolic,
    w: Symbolic,
) -> Result<Symbolic, AllocError>
    ensures { (x y z : symbolic.Symbolic) → IsSymbolic walk.old.graph u x → IsSymbolic walk.old.graph v y → IsSymbolic walk.old.graph w z → IfOk result (λ r. Ran IsSymbolic walk.old walk.new r (Gives (symbolic.choose (symbolic.test x) y z))) }
{
    let passes = test(&mut walk.graph, u)?;
    let value = choose(&mut walk.graph, passes, v, w)?;
    Ok(value)
}
