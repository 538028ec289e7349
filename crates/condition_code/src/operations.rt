//! Operations of code, with their checks.

ghost use Rattle.std.specs.Prelude.{◌≡◌, IfOk};
ghost use Rattle.terms.specs.Formula.{Formula};
ghost use Rattle.method.specs.declared.program.Program.{Program};
ghost use Rattle.method.specs.Expressions.{divides};
ghost use Rattle.conditions.specs.Code as spec;
ghost use Rattle.conditions.specs.Formulas as formulas;
ghost use Rattle.conditions.specs.Paths.{Gives, check};
ghost use Rattle.conditions.specs.Symbolic as symbolic;
ghost use Rattle.condition_formulas.specs.Standing.{StandsAs, Later};
ghost use Rattle.condition_formulas.specs.Symbolics.{IsSymbolic};
ghost use Rattle.condition_code.specs.States.{IsSpot, IsState};
ghost use Rattle.condition_code.specs.Walks.{Ran};

use crate::access::readable;
use crate::state::{Spot, State};
use crate::walk::Walk;
use condition_annotations::words::type_of_field;
use condition_formulas::columns::field;
use condition_formulas::formulas::nat;
use condition_formulas::lists::all_of;
use condition_formulas::symbolic::{Symbolic, bounds, compute, symbolic_of_type, term, unlike};
use int_ranges::ctype::CType;
use method::program::Operator;
use std::alloc::{AllocError, Global};
use term_graph::graph::Graph;

/// The number whose range is checked: of a remainder, the quotient's.
pub fn checked_result(
    graph: &mut Graph,
    operator: Operator,
    x: u32,
    y: u32,
) -> Result<u32, AllocError>
    ensures stands { (p : Program) (b : spec.Spot) (f g : Formula) → StandsAs graph.old x f → StandsAs graph.old y g → IfOk result (λ id. StandsAs graph.new id (spec.checked_result p b operator f g)) }
    ensures later { Later graph.old graph.new }
{
    match operator {
        Operator::Plus => compute(graph, Operator::Plus, x, y),
        Operator::Minus => compute(graph, Operator::Minus, x, y),
        Operator::Times => compute(graph, Operator::Times, x, y),
        Operator::Over => compute(graph, Operator::Over, x, y),
        Operator::Modulo => compute(graph, Operator::Over, x, y),
    }
}

/// That x is a number of the type.
pub fn in_range(alloc: Global, graph: &mut Graph, ty: CType, x: u32) -> Result<u32, AllocError>
    ensures stands { (p : Program) (b : spec.Spot) (f : Formula) → StandsAs graph.old x f → IfOk result (λ id. StandsAs graph.new id (spec.in_range p b ty f)) }
    ensures later { Later graph.old graph.new }
{
    let within = bounds(alloc, graph, ty, x)?;
    all_of(graph, &within)
}

/// Whether the operator divides.
fn divides(operator: Operator) -> bool
    ensures { result ≡ divides operator }
{
    match operator {
        Operator::Plus => false,
        Operator::Minus => false,
        Operator::Times => false,
        Operator::Over => true,
        Operator::Modulo => true,
    }
}

/// That y isn't 0.
fn is_nonzero(graph: &mut Graph, y: u32) -> Result<u32, AllocError>
    ensures stands { (g : Formula) → StandsAs graph.old y g → IfOk result (λ id. StandsAs graph.new id (formulas.not' (formulas.eq g (formulas.nat 0)))) }
    ensures later { Later graph.old graph.new }
{
    let zero = nat(graph, 0)?;
    unlike(graph, y, zero)
}

/// An operation whose result must be in range.
fn ranged(
    walk: &mut Walk,
    operator: Operator,
    ty: CType,
    x: u32,
    y: u32,
) -> Result<Symbolic, AllocError>
    ensures { (p : Program) (b : spec.Spot) (f g : Formula) → StandsAs walk.old.graph x f → StandsAs walk.old.graph y g → IfOk result (λ v. Ran IsSymbolic walk.old walk.new v (check (spec.in_range p b ty (spec.checked_result p b operator f g)) (Gives (symbolic.Number (symbolic.compute operator f g))))) }
{
    let checked = checked_result(&mut walk.graph, operator, x, y)?;
    let fits = in_range(walk.alloc, &mut walk.graph, ty, checked)?;
    walk.check(fits)?;
    let value = compute(&mut walk.graph, operator, x, y)?;
    Ok(Symbolic::Number(value))
}

/// A sum, difference, product, quotient or remainder: a divisor isn't 0, and the result is in range.
pub fn arithmetic(
    walk: &mut Walk,
    operator: Operator,
    ty: CType,
    x: u32,
    y: u32,
) -> Result<Symbolic, AllocError>
    ensures { (p : Program) (b : spec.Spot) (f g : Formula) → StandsAs walk.old.graph x f → StandsAs walk.old.graph y g → IfOk result (λ v. Ran IsSymbolic walk.old walk.new v (spec.arithmetic p b operator ty f g)) }
{
    if divides(operator) {
        let nonzero = is_nonzero(&mut walk.graph, y)?;
        walk.check(nonzero)?;
        let value = ranged(walk, operator, ty, x, y)?;
        return Ok(value);
    }
    let value = ranged(walk, operator, ty, x, y)?;
    Ok(value)
}

/// A conversion, whose value must be in range.
pub fn converted(walk: &mut Walk, ty: CType, value: Symbolic) -> Result<Symbolic, AllocError>
    ensures { (p : Program) (b : spec.Spot) (w : symbolic.Symbolic) → IsSymbolic walk.old.graph value w → IfOk result (λ v. Ran IsSymbolic walk.old walk.new v (spec.converted p b ty w)) }
{
    let x = term(&mut walk.graph, value)?;
    let fits = in_range(walk.alloc, &mut walk.graph, ty, x)?;
    walk.check(fits)?;
    Ok(value)
}

/// A negative, in range.
pub fn negated(walk: &mut Walk, ty: CType, x: u32) -> Result<Symbolic, AllocError>
    ensures { (p : Program) (b : spec.Spot) (f : Formula) → StandsAs walk.old.graph x f → IfOk result (λ v. Ran IsSymbolic walk.old walk.new v (spec.negated p b ty f)) }
{
    let fits = in_range(walk.alloc, &mut walk.graph, ty, x)?;
    walk.check(fits)?;
    Ok(Symbolic::Number(x))
}

/// A field is read.
pub fn field_read(
    walk: &mut Walk,
    a: &Spot<'_>,
    st: &State,
    o: u32,
    f: u32,
) -> Result<Symbolic, AllocError>
    ensures { (b : spec.Spot) (s : spec.State) (x : Formula) → IsSpot walk.old.graph a.now b → IsState walk.old.graph st.now s → StandsAs walk.old.graph o x → IfOk result (λ v. Ran IsSymbolic walk.old walk.new v (spec.field_read a.now.program.now b s x f)) }
{
    let allowed = readable(walk.alloc, &mut walk.graph, a, st, o, f)?;
    walk.check(allowed)?;
    let value = field(&mut walk.graph, f, st.heap, o)?;
    Ok(symbolic_of_type(type_of_field(a.program, f), value))
}
