//! Expressions of actions as terms.

ghost use Rattle.std.specs.Prelude.{◌∷◌, [], IfOk};
ghost use Rattle.method.specs.Actions.{operands};
ghost use Rattle.conditions.specs.Code as spec;
ghost use Rattle.condition_formulas.specs.Standing.{StandsAs};
ghost use Rattle.condition_code.specs.States.{IsSpot, IsState};
ghost use Rattle.condition_code.specs.Walks.{AreIds, Ran};
ghost use Rattle.condition_actions.specs.Operands.{term_of};

use condition_code::expressions::code;
use condition_code::state::{Spot, State};
use condition_code::walk::Walk;
use condition_formulas::lists::listed;
use condition_formulas::symbolic::term;
use method::program::{Expr, Operation};
use std::alloc::AllocError;

/// The term of an expression, with its checks.
pub fn term_of(walk: &mut Walk, a: &Spot<'_>, st: &State, e: &Expr) -> Result<u32, AllocError>
    ensures { (b : spec.Spot) (s : spec.State) → IsSpot walk.old.graph a.now b → IsState walk.old.graph st.now s →
        IfOk result (λ id. Ran StandsAs walk.old walk.new id (term_of a.now.program.now b s e.now)) }
{
    let value = code(walk, a, st, e)?;
    let id = term(&mut walk.graph, value)?;
    Ok(id)
}

/// The one operand of an operation.
fn one_term(walk: &mut Walk, a: &Spot<'_>, st: &State, e: &Expr) -> Result<Vec<u32>, AllocError>
    ensures { (b : spec.Spot) (s : spec.State) → IsSpot walk.old.graph a.now b → IsState walk.old.graph st.now s →
        IfOk result (λ ids. Ran AreIds walk.old walk.new ids (spec.all_code a.now.program.now b s (e.now ∷ []))) }
{
    let id = term_of(walk, a, st, e)?;
    let ids = listed(walk.alloc, &[id])?;
    Ok(ids)
}

/// The two operands of an operation.
fn two_terms(
    walk: &mut Walk,
    a: &Spot<'_>,
    st: &State,
    e: &Expr,
    e2: &Expr,
) -> Result<Vec<u32>, AllocError>
    ensures { (b : spec.Spot) (s : spec.State) → IsSpot walk.old.graph a.now b → IsState walk.old.graph st.now s →
        IfOk result (λ ids.
        Ran AreIds walk.old walk.new ids (spec.all_code a.now.program.now b s (e.now ∷ e2.now ∷ []))) }
{
    let first = term_of(walk, a, st, e)?;
    let second = term_of(walk, a, st, e2)?;
    let ids = listed(walk.alloc, &[first, second])?;
    Ok(ids)
}

/// The operands of an Interlocked operation as terms.
pub fn operands(
    walk: &mut Walk,
    a: &Spot<'_>,
    st: &State,
    operation: &Operation,
) -> Result<Vec<u32>, AllocError>
    ensures { (b : spec.Spot) (s : spec.State) → IsSpot walk.old.graph a.now b → IsState walk.old.graph st.now s →
        IfOk result (λ ids.
        Ran AreIds walk.old walk.new ids (spec.all_code a.now.program.now b s (operands operation.now))) }
{
    match operation {
        Operation::CompareExchange(new, old) => two_terms(walk, a, st, new, old),
        Operation::Exchange(new) => one_term(walk, a, st, new),
        Operation::Increment | Operation::Decrement => Ok(Vec::new(walk.alloc)),
    }
}
