//! The invariants of loops, and the variables that loops change.

ghost use Rattle.std.specs.Prelude.{◌≡◌, IfOk, List, length};
ghost use Rattle.method.specs.Tables as tables;
ghost use Rattle.method.specs.declared.program.FunctionInfo.{FunctionInfo};
ghost use Rattle.conditions.specs.Actions as actions;
ghost use Rattle.conditions.specs.Code as spec;
ghost use Rattle.conditions.specs.Statements as statements;
ghost use Rattle.condition_formulas.specs.Standing.{StandAll, Later};
ghost use Rattle.condition_code.specs.States.{IsSpot, IsState};
ghost use Rattle.condition_code.specs.Walks.{Ran};
ghost use Rattle.statement_text.specs.Rows.{all_declare, all_set};
ghost use Rattle.condition_control.specs.Forms as forms;

use crate::interference::frame_step;
use condition_annotations::translate::tests;
use condition_code::scenes::scene;
use condition_code::state::{Spot, State, new_value};
use condition_code::walk::Walk;
use condition_stores::stores::put_local;
use method::program::{DeclaredType, FunctionInfo, Spec, Stmt};
use statement_text::declaring::add_all_declares;
use statement_text::setting::add_all_sets;
use std::alloc::{AllocError, Global};
use term_graph::graph::Graph;

/// The loop's invariants at this place, one by one.
fn invariant_formulas(
    alloc: Global,
    graph: &mut Graph,
    a: &Spot<'_>,
    invs: &[Spec],
    st: &State,
) -> Result<Vec<u32>, AllocError>
    ensures stands { (f : FunctionInfo) (b : spec.Spot) (s : spec.State) →
        IsSpot graph.old a.now b → IsState graph.old st.now s →
        IfOk result (λ ids. StandAll graph.new ids.items
        (statements.invariant_formulas a.now.program.now f b invs.now s)) }
    ensures later { Later graph.old graph.new }
{
    let words = scene(graph, a, st)?;
    let formulas = tests(alloc, graph, a.program, invs, &words)?;
    Ok(formulas)
}

/// The loop's invariants are checked.
pub fn check_invariants(
    walk: &mut Walk,
    a: &Spot<'_>,
    invs: &[Spec],
    st: State,
) -> Result<State, AllocError>
    ensures { (f : FunctionInfo) (b : spec.Spot) (s : spec.State) →
        IsSpot walk.old.graph a.now b → IsState walk.old.graph st s →
        IfOk result (λ r. Ran IsState walk.old walk.new r
        (statements.check_invariants a.now.program.now f b invs.now s)) }
{
    let formulas = invariant_formulas(walk.alloc, &mut walk.graph, a, invs, &st)?;
    walk.check_each(&formulas)?;
    Ok(st)
}

/// The loop's invariants are known.
fn assume_invariants(
    walk: &mut Walk,
    a: &Spot<'_>,
    invs: &[Spec],
    st: State,
) -> Result<State, AllocError>
    ensures { (f : FunctionInfo) (b : spec.Spot) (s : spec.State) →
        IsSpot walk.old.graph a.now b → IsState walk.old.graph st s →
        IfOk result (λ r. Ran IsState walk.old walk.new r
        (statements.assume_invariants a.now.program.now f b invs.now s)) }
{
    let formulas = invariant_formulas(walk.alloc, &mut walk.graph, a, invs, &st)?;
    walk.all_facts(&formulas)?;
    Ok(st)
}

/// The type of a variable of the function by its number; `\object` where there are not so many.
fn type_of_variable(f: &FunctionInfo, i: u32) -> DeclaredType
    ensures { result ≡ tables.type_of_variable f.now i }
{
    match f.variables.get(i as usize) {
        Some(variable) => variable.ty,
        None => DeclaredType::Object,
    }
}

/// Whether the list has the number.
fn is_of(numbers: &[u32], i: u32) -> bool
    ensures { result ≡ actions.is_of numbers.now i }
{
    for number in numbers {
        if *number == i {
            return true;
        }
    }
    false
}

/// Whether a loop whose body sets and declares these variables changes this one.
fn is_changed(sets: &[u32], declares: &[u32], i: u32) -> bool
    ensures { result ≡ forms.set_outside sets.now declares.now i }
{
    is_of(sets, i) && !is_of(declares, i)
}

/// One variable has any value in range, if it is set.
fn havoc_one(
    walk: &mut Walk,
    is_set: bool,
    f: &FunctionInfo,
    i: u32,
    st: State,
) -> Result<State, AllocError>
    ensures { (s : spec.State) → IsState walk.old.graph st s →
        IfOk result (λ r. Ran IsState walk.old walk.new r (statements.havoc_one is_set f.now i s)) }
{
    if !is_set {
        return Ok(st);
    }
    let value = new_value(walk, type_of_variable(f, i), st)?;
    Ok(put_local(i, value))
}

/// How many variables the function has.
fn variable_count(f: &FunctionInfo) -> Result<u32, AllocError>
    ensures { IfOk result (λ n. n ≡ length f.now.variables.items) }
{
    match u32::try_from(f.variables.len()) {
        Ok(count) => Ok(count),
        Err(_) => Err(AllocError),
    }
}

/// The variables that a loop changes, whose body sets and declares these, have any values in range.
fn havoc(
    walk: &mut Walk,
    f: &FunctionInfo,
    sets: &[u32],
    declares: &[u32],
    mut st: State,
) -> Result<State, AllocError>
    ensures { (s : spec.State) → IsState walk.old.graph st s →
        IfOk result (λ r. Ran IsState walk.old walk.new r
        (statements.havoc f.now (forms.set_outside sets.now declares.now) 0 f.now.variables.items s)) }
{
    let count = variable_count(f)?;
    for i in 0..count {
        let is_set = is_changed(sets, declares, i);
        st = havoc_one(walk, is_set, f, i, st)?;
    }
    Ok(st)
}

/// The variables that a loop with this body changes have any values in range.
fn havoc_body(
    walk: &mut Walk,
    f: &FunctionInfo,
    body: &[Stmt],
    st: State,
) -> Result<State, AllocError>
    ensures { (s : spec.State) → IsState walk.old.graph st s →
        IfOk result (λ r. Ran IsState walk.old walk.new r
        (statements.havoc f.now (forms.set_outside (all_set body.now) (all_declare body.now)) 0
        f.now.variables.items s)) }
{
    let mut sets = Vec::new(walk.alloc);
    add_all_sets(body, &mut sets)?;
    let mut declares = Vec::new(walk.alloc);
    add_all_declares(body, &mut declares)?;
    let changed = havoc(walk, f, &sets, &declares, st)?;
    Ok(changed)
}

/// The loop's first checks, and then any turn of it.
pub fn any_turn(
    walk: &mut Walk,
    a: &Spot<'_>,
    f: &FunctionInfo,
    invs: &[Spec],
    body: &[Stmt],
    st: State,
) -> Result<State, AllocError>
    ensures { (b : spec.Spot) (s : spec.State) → IsSpot walk.old.graph a.now b → IsState walk.old.graph st s →
        IfOk result (λ r. Ran IsState walk.old walk.new r
        (forms.any_turn a.now.program.now f.now b invs.now
        (forms.set_outside (all_set body.now) (all_declare body.now)) s)) }
{
    let checked = check_invariants(walk, a, invs, st)?;
    let changed = havoc_body(walk, f, body, checked)?;
    let framed = frame_step(walk, a.entry, a.writes, changed)?;
    let known = assume_invariants(walk, a, invs, framed)?;
    Ok(known)
}
