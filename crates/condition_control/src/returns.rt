//! Returns, and the ends of bodies.

ghost use Rattle.std.specs.Prelude.{◌≡◌, ◌||◌, None, IfOk};
ghost use Rattle.method.specs.Text as text;
ghost use Rattle.method.specs.declared.program.FunctionInfo.{FunctionInfo};
ghost use Rattle.conditions.specs.Code as spec;
ghost use Rattle.conditions.specs.Formulas.{false_formula};
ghost use Rattle.conditions.specs.Paths.{Gives, fact};
ghost use Rattle.conditions.specs.Statements as statements;
ghost use Rattle.condition_formulas.specs.Symbolics.{IsSymbolic};
ghost use Rattle.condition_code.specs.States.{IsSpot, IsState};
ghost use Rattle.condition_code.specs.Walks.{Ran};
ghost use Rattle.condition_control.specs.Forms as forms;

use crate::contracts::ensures_at;
use crate::interference::interference;
use condition_code::expressions::code;
use condition_code::state::{Spot, State};
use condition_code::walk::Walk;
use condition_formulas::formulas::{falsehood, nat};
use condition_formulas::symbolic::Symbolic;
use method::program::{DeclaredType, Expr, FunctionInfo};
use statement_text::reading::{clauses_read, option_reads};
use std::alloc::AllocError;

/// The value that is returned.
fn value_of(
    walk: &mut Walk,
    a: &Spot<'_>,
    e: &Option<Expr>,
    st: &State,
) -> Result<Symbolic, AllocError>
    ensures { (f : FunctionInfo) (b : spec.Spot) (s : spec.State) →
        IsSpot walk.old.graph a.now b → IsState walk.old.graph st.now s →
        IfOk result (λ r. Ran IsSymbolic walk.old walk.new r (statements.value_of a.now.program.now f b e.now s)) }
{
    match e {
        Some(e) => {
            let value = code(walk, a, st, e)?;
            Ok(value)
        }
        None => {
            let zero = nat(&mut walk.graph, 0)?;
            Ok(Symbolic::Number(zero))
        }
    }
}

/// The checks of a return, or of the body's end.
fn return_checks(
    walk: &mut Walk,
    a: &Spot<'_>,
    f: &FunctionInfo,
    e: &Option<Expr>,
    st: State,
) -> Result<State, AllocError>
    ensures { (b : spec.Spot) (s : spec.State) → IsSpot walk.old.graph a.now b → IsState walk.old.graph st s →
        IfOk result (λ r. Ran IsState walk.old walk.new r
        (statements.return_checks a.now.program.now f.now b e.now s)) }
{
    let value = value_of(walk, a, e, &st)?;
    let ensured = ensures_at(
        walk.alloc,
        &mut walk.graph,
        a.program,
        f,
        a.entry,
        a.args,
        st.heap,
        value,
    )?;
    walk.check_each(&ensured)?;
    Ok(st)
}

/// Nothing goes on from here.
fn over(walk: &mut Walk, st: State) -> Result<State, AllocError>
    ensures { (s : spec.State) → IsState walk.old.graph st s →
        IfOk result (λ r. Ran IsState walk.old walk.new r (fact false_formula (Gives s))) }
{
    let never = falsehood(&mut walk.graph)?;
    walk.fact(never)?;
    Ok(st)
}

/// Whether a return reads or changes the heap.
fn return_reads(f: &FunctionInfo, e: &Option<Expr>) -> bool
    ensures { result ≡ (text.option_reads e.now || text.clauses_read f.now.ensures_.items) }
{
    option_reads(e) || clauses_read(&f.ensures_)
}

/// A return as a statement.
pub fn return_statement(
    walk: &mut Walk,
    a: &Spot<'_>,
    f: &FunctionInfo,
    e: &Option<Expr>,
    st: State,
) -> Result<State, AllocError>
    ensures { (b : spec.Spot) (s : spec.State) → IsSpot walk.old.graph a.now b → IsState walk.old.graph st s →
        IfOk result (λ r. Ran IsState walk.old walk.new r (forms.returned a.now.program.now f.now b e.now s)) }
{
    let moved = interference(walk, return_reads(f, e), false, st)?;
    let checked = return_checks(walk, a, f, e, moved)?;
    let ended = over(walk, checked)?;
    Ok(ended)
}

/// The end of the body of a function without a value makes the checks of a return.
fn plain_end(
    walk: &mut Walk,
    a: &Spot<'_>,
    f: &FunctionInfo,
    st: State,
) -> Result<State, AllocError>
    ensures { (b : spec.Spot) (s : spec.State) → IsSpot walk.old.graph a.now b → IsState walk.old.graph st s →
        IfOk result (λ r. Ran IsState walk.old walk.new r
        (statements.body_end a.now.program.now f.now b None s)) }
{
    let moved = interference(walk, clauses_read(&f.ensures_), false, st)?;
    let nothing = None;
    let checked = return_checks(walk, a, f, &nothing, moved)?;
    Ok(checked)
}

/// The end of a body with a value of this type, or without one.
pub fn body_end(
    walk: &mut Walk,
    a: &Spot<'_>,
    f: &FunctionInfo,
    ty: Option<DeclaredType>,
    st: State,
) -> Result<State, AllocError>
    ensures { (b : spec.Spot) (s : spec.State) → IsSpot walk.old.graph a.now b → IsState walk.old.graph st s →
        IfOk result (λ r. Ran IsState walk.old walk.new r (statements.body_end a.now.program.now f.now b ty s)) }
{
    match ty {
        Some(_) => Ok(st),
        None => {
            let ended = plain_end(walk, a, f, st)?;
            Ok(ended)
        }
    }
}
