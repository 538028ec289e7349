//! What others may do between the steps of a function, and what its own calls and loops may.

ghost use Rattle.std.specs.Prelude.{true, false, IfOk, List};
ghost use Rattle.terms.specs.Formula.{Formula};
ghost use Rattle.conditions.specs.Code as spec;
ghost use Rattle.conditions.specs.Statements as statements;
ghost use Rattle.condition_formulas.specs.Standing.{StandsAs, StandAll};
ghost use Rattle.condition_code.specs.States.{IsState};
ghost use Rattle.condition_code.specs.Walks.{Ran};

use condition_code::state::{State, new_heap};
use condition_code::walk::Walk;
use condition_formulas::formulas::{me, node};
use condition_formulas::lists::joined;
use std::alloc::AllocError;
use terms::term::Kind;

/// The heap is good, and stays.
fn stays_good(walk: &mut Walk, st: State) -> Result<State, AllocError>
    ensures { (s : spec.State) → IsState walk.old.graph st s →
        IfOk result (λ r. Ran IsState walk.old walk.new r (statements.interference true true s)) }
{
    let good = node(&mut walk.graph, Kind::Good, 0, &[st.heap])?;
    walk.fact(good)?;
    Ok(st)
}

/// Other threads go on.
fn others_go_on(walk: &mut Walk, st: State) -> Result<State, AllocError>
    ensures { (s : spec.State) → IsState walk.old.graph st s →
        IfOk result (λ r. Ran IsState walk.old walk.new r (statements.interference true false s)) }
{
    let before = st.heap;
    let moved = new_heap(&mut walk.graph, st)?;
    let thread = me(&mut walk.graph)?;
    let relied = node(
        &mut walk.graph,
        Kind::Rely,
        0,
        &[thread, before, moved.heap],
    )?;
    walk.fact(relied)?;
    Ok(moved)
}

/// Before an item that reads or changes the heap, other threads may go on; of a quiet one the heap is good, and stays.
pub fn interference(
    walk: &mut Walk,
    reads: bool,
    quiet: bool,
    st: State,
) -> Result<State, AllocError>
    ensures { (s : spec.State) → IsState walk.old.graph st s →
        IfOk result (λ r. Ran IsState walk.old walk.new r (statements.interference reads quiet s)) }
{
    if !reads {
        return Ok(st);
    }
    if quiet {
        let good = stays_good(walk, st)?;
        return Ok(good);
    }
    let moved = others_go_on(walk, st)?;
    Ok(moved)
}

/// The heap becomes any that all threads together may leave, where this one writes only `writes` and what it didn't own in
/// `entry`.
pub fn frame_step(
    walk: &mut Walk,
    entry: u32,
    writes: &[u32],
    st: State,
) -> Result<State, AllocError>
    ensures { (e : Formula) (w : List Formula) (s : spec.State) →
        StandsAs walk.old.graph entry e → StandAll walk.old.graph writes.now w → IsState walk.old.graph st s →
        IfOk result (λ r. Ran IsState walk.old walk.new r (statements.frame_step e w s)) }
{
    let before = st.heap;
    let moved = new_heap(&mut walk.graph, st)?;
    let thread = me(&mut walk.graph)?;
    let parts = joined(walk.alloc, &[thread, before, moved.heap, entry], writes)?;
    let framed = node(&mut walk.graph, Kind::Frame, 0, &parts)?;
    walk.fact(framed)?;
    Ok(moved)
}
