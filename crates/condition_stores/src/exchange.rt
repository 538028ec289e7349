//! Interlocked operations.

ghost use Rattle.std.specs.Prelude.{◌≡◌, [], ◌∷◌, if◌then◌else◌, IfOk, List, slice_index_or};
ghost use Rattle.terms.specs.Formula.{Formula};
ghost use Rattle.method.specs.Actions.{counts};
ghost use Rattle.method.specs.Tables.{type_of_field};
ghost use Rattle.method.specs.declared.program.Program.{Program};
ghost use Rattle.terms.specs.declared.term.Term.{Term};
ghost use Rattle.conditions.specs.Code as spec;
ghost use Rattle.conditions.specs.Actions as actions;
ghost use Rattle.conditions.specs.Formulas as formulas;
ghost use Rattle.conditions.specs.Formulas.{get, field_column, null, all_of};
ghost use Rattle.conditions.specs.Paths.{Check};
ghost use Rattle.conditions.specs.Symbolic as symbolic;
ghost use Rattle.condition_formulas.specs.Standing.{StandsAs, StandAll, Later};
ghost use Rattle.condition_formulas.specs.Symbolics.{IsSymbolic};
ghost use Rattle.condition_code.specs.Steps.{all_checks};
ghost use Rattle.condition_code.specs.States.{IsSpot, IsState, IsValueAndState};
ghost use Rattle.condition_code.specs.Walks.{Ran, Went};
ghost use Rattle.condition_stores.specs.Exchanges.{compared_as, range_checks};

use crate::place::Place;
use crate::stores::{convert_to, store};
use condition_annotations::words::type_of_field;
use condition_code::access::readable;
use condition_code::expressions::code;
use condition_code::state::{Spot, State, ValueAndState};
use condition_code::walk::Walk;
use condition_formulas::columns::field as field_at;
use condition_formulas::formulas::{eq, ite, nat, null};
use condition_formulas::lists::{all_of, listed};
use condition_formulas::symbolic::{Symbolic, compute, ranges, term, unlike};
use int_ranges::ctype::CType;
use method::program::{Expr, InterlockedResult, Operation, Operator};
use std::alloc::{AllocError, Global};
use term_graph::graph::Graph;

/// An operand by its place, NULL where there are not so many.
fn operand_at(graph: &mut Graph, operands: &[u32], i: usize) -> Result<u32, AllocError>
    ensures stands { (xs : List Formula) → StandAll graph.old operands.now xs →
        IfOk result (λ id. StandsAs graph.new id (slice_index_or xs i null)) }
    ensures later { Later graph.old graph.new }
{
    if i >= operands.len() {
        return null(graph);
    }
    Ok(operands[i])
}

/// The first operand where the field has the value of the second, else what it had.
fn compared_value(graph: &mut Graph, operands: &[u32], was: u32) -> Result<u32, AllocError>
    ensures stands { (xs : List Formula) (y : Formula) →
        StandAll graph.old operands.now xs → StandsAs graph.old was y →
        IfOk result (λ id. StandsAs graph.new id
        (formulas.ite (formulas.eq y (slice_index_or xs 1 null)) (slice_index_or xs 0 null) y)) }
    ensures later { Later graph.old graph.new }
{
    let old = operand_at(graph, operands, 1)?;
    let same = eq(graph, was, old)?;
    let new = operand_at(graph, operands, 0)?;
    ite(graph, same, new, was)
}

/// A count with one more, or one less.
fn counted(graph: &mut Graph, operator: Operator, was: u32) -> Result<u32, AllocError>
    ensures stands { (y : Formula) → StandsAs graph.old was y →
        IfOk result (λ id. StandsAs graph.new id (symbolic.compute operator y (formulas.nat 1))) }
    ensures later { Later graph.old graph.new }
{
    let one = nat(graph, 1)?;
    compute(graph, operator, was, one)
}

/// What an Interlocked operation stores.
fn stored_value(
    graph: &mut Graph,
    operation: &Operation,
    operands: &[u32],
    was: u32,
) -> Result<u32, AllocError>
    ensures stands { (p : Program) (b : spec.Spot) (xs : List Formula) (y : Formula) →
        StandAll graph.old operands.now xs → StandsAs graph.old was y →
        IfOk result (λ id. StandsAs graph.new id (actions.stored_value p b operation.now xs y)) }
    ensures later { Later graph.old graph.new }
{
    match operation {
        Operation::CompareExchange(_, _) => compared_value(graph, operands, was),
        Operation::Exchange(_) => operand_at(graph, operands, 0),
        Operation::Increment => counted(graph, Operator::Plus, was),
        Operation::Decrement => counted(graph, Operator::Minus, was),
    }
}

/// Whether the operation counts, so that its result must be in range.
fn counts(operation: &Operation) -> bool
    ensures { result ≡ counts operation.now }
{
    match operation {
        Operation::CompareExchange(_, _) => false,
        Operation::Exchange(_) => false,
        Operation::Increment => true,
        Operation::Decrement => true,
    }
}

/// What an Interlocked operation gives: a count its new value, the others the earlier one.
fn operation_result(operation: &Operation, was: u32, now: u32) -> u32
    ensures { (p : Program) (b : spec.Spot) (ts : List Term) (x y : Formula) →
        StandsAs ts was x → StandsAs ts now y →
        StandsAs ts result (actions.operation_result p b operation.now x y) }
{
    match operation {
        Operation::CompareExchange(_, _) => was,
        Operation::Exchange(_) => was,
        Operation::Increment => now,
        Operation::Decrement => now,
    }
}

/// That the new value is one of the field's type.
fn is_in_type(
    alloc: Global,
    graph: &mut Graph,
    a: &Spot<'_>,
    field: u32,
    now: u32,
) -> Result<u32, AllocError>
    ensures stands { (y : Formula) → StandsAs graph.old now y →
        IfOk result (λ id. StandsAs graph.new id
        (all_of (symbolic.ranges (type_of_field a.now.program.now field) y))) }
    ensures later { Later graph.old graph.new }
{
    let fits = ranges(alloc, graph, type_of_field(a.program, field), now)?;
    all_of(graph, &fits)
}

/// What is checked of a new value: of a count its range.
fn range_checks(
    alloc: Global,
    graph: &mut Graph,
    a: &Spot<'_>,
    operation: &Operation,
    field: u32,
    now: u32,
) -> Result<Vec<u32>, AllocError>
    ensures stands { (y : Formula) → StandsAs graph.old now y →
        IfOk result (λ ids. StandAll graph.new ids.items (range_checks a.now.program.now operation.now field y)) }
    ensures later { Later graph.old graph.new }
{
    if counts(operation) {
        let fits = is_in_type(alloc, graph, a, field, now)?;
        return listed(alloc, &[fits]);
    }
    Ok(Vec::new(alloc))
}

/// It is checked that the field may be read, and that a count's new value is in range.
fn check_exchange(
    walk: &mut Walk,
    a: &Spot<'_>,
    operation: &Operation,
    o: u32,
    field: u32,
    now: u32,
    st: &State,
) -> Result<(), AllocError>
    ensures { (b : spec.Spot) (x y : Formula) (s : spec.State) →
        IsSpot walk.old.graph a.now b → StandsAs walk.old.graph o x → StandsAs walk.old.graph now y →
        IsState walk.old.graph st.now s →
        IfOk result (λ u. Went walk.old walk.new (Check (spec.readable a.now.program.now b s x field)
        (all_checks (range_checks a.now.program.now operation.now field y)))) }
{
    let allowed = readable(walk.alloc, &mut walk.graph, a, st, o, field)?;
    walk.check(allowed)?;
    let checks = range_checks(walk.alloc, &mut walk.graph, a, operation, field, now)?;
    walk.check_each(&checks)?;
    Ok(())
}

/// An Interlocked operation on the field of o, with its checks and its store.
pub fn exchange(
    walk: &mut Walk,
    a: &Spot<'_>,
    operation: &Operation,
    o: u32,
    field: u32,
    operands: &[u32],
    st: State,
) -> Result<ValueAndState, AllocError>
    ensures { (b : spec.Spot) (x : Formula) (xs : List Formula) (s : spec.State) →
        IsSpot walk.old.graph a.now b → StandsAs walk.old.graph o x → StandAll walk.old.graph operands.now xs →
        IsState walk.old.graph st s →
        IfOk result (λ r. Ran IsValueAndState walk.old walk.new r
        (actions.exchange a.now.program.now b operation.now x field xs (get (field_column field) s.heap (x ∷ [])) s)) }
{
    let was = field_at(&mut walk.graph, field, st.heap, o)?;
    let now = stored_value(&mut walk.graph, operation, operands, was)?;
    check_exchange(walk, a, operation, o, field, now, &st)?;
    let state = store(walk, a, Place::Field(o, field), Symbolic::Number(now), st)?;
    let value = operation_result(operation, was, now);
    Ok(ValueAndState {
        value: Symbolic::Number(value),
        state,
    })
}

/// A comparison of two terms by `==` or `!=`.
fn equality(graph: &mut Graph, equal: bool, x: u32, y: u32) -> Result<u32, AllocError>
    ensures stands { (f g : Formula) → StandsAs graph.old x f → StandsAs graph.old y g →
        IfOk result (λ id. StandsAs graph.new id
        (if equal then formulas.eq f g else formulas.not' (formulas.eq f g))) }
    ensures later { Later graph.old graph.new }
{
    if equal {
        return eq(graph, x, y);
    }
    unlike(graph, x, y)
}

/// A comparison of two values by `==` or `!=`.
fn compared(
    graph: &mut Graph,
    equal: bool,
    v: Symbolic,
    w: Symbolic,
) -> Result<Symbolic, AllocError>
    ensures stands { (p : Program) (b : spec.Spot) (x y : symbolic.Symbolic) →
        IsSymbolic graph.old v x → IsSymbolic graph.old w y →
        IfOk result (λ r. IsSymbolic graph.new r
        (actions.equality p b equal (symbolic.term x) (symbolic.term y))) }
    ensures later { Later graph.old graph.new }
{
    let left = term(graph, v)?;
    let right = term(graph, w)?;
    let id = equality(graph, equal, left, right)?;
    Ok(Symbolic::Truth(id))
}

/// An operation's value is compared with another one, and what comes of it converted.
fn compared_result(
    walk: &mut Walk,
    a: &Spot<'_>,
    equal: bool,
    e: &Expr,
    last: Option<CType>,
    x: Symbolic,
    st: State,
) -> Result<ValueAndState, AllocError>
    ensures { (b : spec.Spot) (w : symbolic.Symbolic) (s : spec.State) →
        IsSpot walk.old.graph a.now b → IsSymbolic walk.old.graph x w → IsState walk.old.graph st s →
        IfOk result (λ r. Ran IsValueAndState walk.old walk.new r
        (compared_as a.now.program.now b equal e.now last w s)) }
{
    let y = code(walk, a, &st, e)?;
    let test = compared(&mut walk.graph, equal, x, y)?;
    let value = convert_to(walk, last, test)?;
    Ok(ValueAndState { value, state: st })
}

/// What is made of an operation's value: a conversion, or a comparison.
pub fn exchange_result(
    walk: &mut Walk,
    a: &Spot<'_>,
    result_form: &InterlockedResult,
    v: ValueAndState,
) -> Result<ValueAndState, AllocError>
    ensures { (b : spec.Spot) (w : spec.ValueAndState) →
        IsSpot walk.old.graph a.now b → IsValueAndState walk.old.graph v w →
        IfOk result (λ r. Ran IsValueAndState walk.old walk.new r
        (actions.exchange_result a.now.program.now b result_form.now w)) }
{
    let state = v.state;
    match result_form {
        InterlockedResult::Plainly(ty) => {
            let value = convert_to(walk, *ty, v.value)?;
            Ok(ValueAndState { value, state })
        }
        InterlockedResult::Compared(ty, equal, e, last) => {
            let x = convert_to(walk, *ty, v.value)?;
            let value = compared_result(walk, a, *equal, e, *last, x, state)?;
            Ok(value)
        }
    }
}
