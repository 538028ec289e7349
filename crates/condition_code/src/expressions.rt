//! Expressions of code as formulas, with the checks on the way.

ghost use Rattle.std.specs.Prelude.{IfOk};
ghost use Rattle.conditions.specs.Code as spec;
ghost use Rattle.condition_formulas.specs.Symbolics.{IsSymbolic};
ghost use Rattle.condition_code.specs.States.{AreValues, IsSpot, IsState};
ghost use Rattle.condition_code.specs.Walks.{AreIds, Ran};

use crate::forms::{
    choice, compared, conjunction, disjunction, failing, field_of, literal, local, negation,
    nothing, operation, opposite,
};
use crate::operations::converted;
use crate::state::{Spot, State};
use crate::walk::Walk;
use condition_formulas::symbolic::{Symbolic, term, test};
use method::program::Expr;
use std::alloc::AllocError;

/// An expression: its checks from left to right, those behind a test only where it is passed.
pub fn code(walk: &mut Walk, a: &Spot<'_>, st: &State, e: &Expr) -> Result<Symbolic, AllocError>
    ensures { (b : spec.Spot) (s : spec.State) → IsSpot walk.old.graph a.now b → IsState walk.old.graph st.now s → IfOk result (λ v. Ran IsSymbolic walk.old walk.new v (spec.code a.now.program.now b s e.now)) }
{
    match e {
        Expr::Number(z) => literal(walk, *z),
        Expr::Null => nothing(walk),
        Expr::Variable(i) => local(walk, st, *i),
        Expr::Field(x, f) => {
            let v = code(walk, a, st, x)?;
            let value = field_of(walk, a, st, v, *f)?;
            Ok(value)
        }
        Expr::Not(x) => {
            let v = code(walk, a, st, x)?;
            let value = negation(walk, v)?;
            Ok(value)
        }
        Expr::Negate(x, ty) => {
            let v = code(walk, a, st, x)?;
            let value = opposite(walk, *ty, v)?;
            Ok(value)
        }
        Expr::Arithmetic(operator, x, y, ty) => {
            let v = code(walk, a, st, x)?;
            let w = code(walk, a, st, y)?;
            let value = operation(walk, *operator, *ty, v, w)?;
            Ok(value)
        }
        Expr::Compare(comparison, x, y) => {
            let v = code(walk, a, st, x)?;
            let w = code(walk, a, st, y)?;
            let value = compared(walk, *comparison, v, w)?;
            Ok(value)
        }
        Expr::And(x, y) => {
            let v = code(walk, a, st, x)?;
            let passes = test(&mut walk.graph, v)?;
            let from = walk.place();
            let w = code(walk, a, st, y)?;
            walk.guard(from, passes)?;
            let value = conjunction(walk, v, w)?;
            Ok(value)
        }
        Expr::Or(x, y) => {
            let v = code(walk, a, st, x)?;
            let fails = failing(&mut walk.graph, v)?;
            let from = walk.place();
            let w = code(walk, a, st, y)?;
            walk.guard(from, fails)?;
            let value = disjunction(walk, v, w)?;
            Ok(value)
        }
        Expr::Choose(x, y, z) => {
            let u = code(walk, a, st, x)?;
            let passes = test(&mut walk.graph, u)?;
            let from = walk.place();
            let v = code(walk, a, st, y)?;
            walk.guard(from, passes)?;
            let fails = failing(&mut walk.graph, u)?;
            let behind = walk.place();
            let w = code(walk, a, st, z)?;
            walk.guard(behind, fails)?;
            let value = choice(walk, u, v, w)?;
            Ok(value)
        }
        Expr::Convert(x, ty) => {
            let v = code(walk, a, st, x)?;
            let value = converted(walk, *ty, v)?;
            Ok(value)
        }
    }
}

/// Several expressions, as terms.
pub fn all_code(
    walk: &mut Walk,
    a: &Spot<'_>,
    st: &State,
    es: &[Expr],
) -> Result<Vec<u32>, AllocError>
    ensures { (b : spec.Spot) (s : spec.State) → IsSpot walk.old.graph a.now b → IsState walk.old.graph st.now s → IfOk result (λ v. Ran AreIds walk.old walk.new v (spec.all_code a.now.program.now b s es.now)) }
{
    let mut terms = Vec::new(walk.alloc);
    for e in es {
        let v = code(walk, a, st, e)?;
        let id = term(&mut walk.graph, v)?;
        terms.push(id)?;
    }
    Ok(terms)
}

/// Several expressions.
pub fn all_symbolic(
    walk: &mut Walk,
    a: &Spot<'_>,
    st: &State,
    es: &[Expr],
) -> Result<Vec<Symbolic>, AllocError>
    ensures { (b : spec.Spot) (s : spec.State) → IsSpot walk.old.graph a.now b → IsState walk.old.graph st.now s → IfOk result (λ v. Ran AreValues walk.old walk.new v (spec.all_symbolic a.now.program.now b s es.now)) }
{
    let mut values = Vec::new(walk.alloc);
    for e in es {
        let v = code(walk, a, st, e)?;
        values.push(v)?;
    }
    Ok(values)
}
