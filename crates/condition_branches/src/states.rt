//! The states that ways of a branch begin with.

ghost use Rattle.std.specs.Prelude.{◌≡◌, IfOk, List};
ghost use Rattle.terms.specs.declared.term.Term.{Term};
ghost use Rattle.conditions.specs.Code as spec;
ghost use Rattle.conditions.specs.Actions as actions;
ghost use Rattle.condition_code.specs.States.{IsState};

use condition_code::state::State;
use condition_formulas::symbolic::Symbolic;
use std::alloc::{AllocError, Global};

/// These values, owned.
pub fn copied(alloc: Global, values: &[Symbolic]) -> Result<Vec<Symbolic>, AllocError>
    ensures { IfOk result (λ all. all.items ≡ values.now) }
{
    let mut all = Vec::new(alloc);
    all.extend_from_slice(values)?;
    Ok(all)
}

/// The state with nothing noted for the block's end.
pub fn without_deferred(alloc: Global, st: &State) -> Result<State, AllocError>
    ensures { (ts : List Term) (s : spec.State) → IsState ts st.now s →
        IfOk result (λ r. IsState ts r (actions.without_deferred s)) }
{
    let locals = copied(alloc, &st.locals)?;
    Ok(State {
        heap: st.heap,
        locals,
        integers: st.integers,
        references: st.references,
        heaps: st.heaps,
        changed: Vec::new(alloc),
        made: Vec::new(alloc),
    })
}

/// The state where the constants of a later one are made, and nothing is noted for the block's end.
pub fn with_counters(alloc: Global, st: &State, later: &State) -> Result<State, AllocError>
    ensures { (ts : List Term) (s l : spec.State) → IsState ts st.now s → IsState ts later.now l →
        IfOk result (λ r. IsState ts r (actions.with_counters s l)) }
{
    let locals = copied(alloc, &st.locals)?;
    Ok(State {
        heap: st.heap,
        locals,
        integers: later.integers,
        references: later.references,
        heaps: later.heaps,
        changed: Vec::new(alloc),
        made: Vec::new(alloc),
    })
}
