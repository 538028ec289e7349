//! New objects.

ghost use Rattle.std.specs.Prelude.{ℕ, IfOk, List, Some, None};
ghost use Rattle.terms.specs.Formula.{Formula};
ghost use Rattle.method.specs.declared.program.Program.{Program};
ghost use Rattle.method.specs.Tables.{struct_of};
ghost use Rattle.conditions.specs.Code as spec;
ghost use Rattle.conditions.specs.Actions as actions;
ghost use Rattle.conditions.specs.Formulas as formulas;
ghost use Rattle.conditions.specs.Symbolic as symbolic;
ghost use Rattle.condition_formulas.specs.Standing.{StandsAs, Later};
ghost use Rattle.condition_formulas.specs.Symbolics.{AreSymbolic};
ghost use Rattle.condition_code.specs.States.{IsSpot, IsState, IsValueAndState};
ghost use Rattle.condition_code.specs.Walks.{Ran};
ghost use Rattle.condition_stores.specs.Objects.{IsValuesAndState, made_formula, nothing_formula, one_content};

use crate::heaps::with_fields;
use crate::tables::struct_of;
use condition_annotations::words::type_of_field;
use condition_code::state::{Spot, State, ValueAndState, new_heap, new_reference, new_value};
use condition_code::walk::Walk;
use condition_formulas::columns::{mode, status};
use condition_formulas::formulas::{and, eq, me, nat, null, or};
use condition_formulas::lists::all_of;
use condition_formulas::symbolic::{Symbolic, has_type, term};
use method::program::StructInfo;
use std::alloc::AllocError;
use term_graph::graph::Graph;

/// Several values, and the state behind them.
#[derive(Drop)]
pub struct ValuesAndState {
    pub values: Vec<Symbolic>,
    pub state: State,
}

/// Any value of one field more, behind those of the fields before it.
fn add_content(
    walk: &mut Walk,
    a: &Spot<'_>,
    field: u32,
    so_far: ValuesAndState,
) -> Result<ValuesAndState, AllocError>
    ensures { (w : actions.ValuesAndState) → IsValuesAndState walk.old.graph so_far w →
        IfOk result (λ r. Ran IsValuesAndState walk.old walk.new r (one_content a.now.program.now field w)) }
{
    let mut values = so_far.values;
    let v = new_value(walk, type_of_field(a.program, field), so_far.state)?;
    values.push(v.value)?;
    Ok(ValuesAndState {
        values,
        state: v.state,
    })
}

/// Any values of as many fields, from this one on.
fn contents(
    walk: &mut Walk,
    a: &Spot<'_>,
    first: u32,
    count: u32,
    st: State,
) -> Result<ValuesAndState, AllocError>
    ensures { (b : spec.Spot) (s : spec.State) → IsState walk.old.graph st s →
        IfOk result (λ r. Ran IsValuesAndState walk.old walk.new r
        (actions.contents a.now.program.now b first count s)) }
{
    let mut found = ValuesAndState {
        values: Vec::new(walk.alloc),
        state: st,
    };
    let mut field = first;
    for _ in 0..count {
        found = add_content(walk, a, field, found)?;
        let Some(next) = field.checked_add(1) else {
            return Err(AllocError);
        };
        field = next;
    }
    Ok(found)
}

/// That there is no new object: r is NULL, and the heap as it was.
fn nothing_new(graph: &mut Graph, r: u32, before: u32, after: u32) -> Result<u32, AllocError>
    ensures stands { (x h0 h1 : Formula) →
        StandsAs graph.old r x → StandsAs graph.old before h0 → StandsAs graph.old after h1 →
        IfOk result (λ id. StandsAs graph.new id (nothing_formula x h0 h1)) }
    ensures later { Later graph.old graph.new }
{
    let nothing = null(graph)?;
    let none = eq(graph, r, nothing)?;
    let same = eq(graph, after, before)?;
    and(graph, none, same)
}

/// That o is absent from the heap.
fn is_absent(graph: &mut Graph, heap: u32, o: u32) -> Result<u32, AllocError>
    ensures stands { (h x : Formula) → StandsAs graph.old heap h → StandsAs graph.old o x →
        IfOk result (λ id. StandsAs graph.new id (formulas.eq (formulas.mode h x) (formulas.nat 0))) }
    ensures later { Later graph.old graph.new }
{
    let now = mode(graph, heap, o)?;
    let zero = nat(graph, 0)?;
    eq(graph, now, zero)
}

/// The heap where o is open, `\me` its owner, and its fields from this one on have these values.
fn heap_with(
    graph: &mut Graph,
    o: u32,
    first: u32,
    values: &[Symbolic],
    heap: u32,
) -> Result<u32, AllocError>
    ensures stands { (x : Formula) (ws : List symbolic.Symbolic) (h : Formula) →
        StandsAs graph.old o x → AreSymbolic graph.old values.now ws → StandsAs graph.old heap h →
        IfOk result (λ id. StandsAs graph.new id
        (actions.with_fields x first ws (formulas.status h x (formulas.nat 1) formulas.me))) }
    ensures later { Later graph.old graph.new }
{
    let one = nat(graph, 1)?;
    let thread = me(graph)?;
    let open = status(graph, heap, o, one, thread)?;
    with_fields(graph, o, first, values, open)
}

/// That o is a new open object of the type with these values, from the field on.
fn is_made(
    graph: &mut Graph,
    ty: u32,
    first: u32,
    o: u32,
    values: &[Symbolic],
    before: u32,
    after: u32,
) -> Result<u32, AllocError>
    ensures stands { (x : Formula) (ws : List symbolic.Symbolic) (h0 h1 : Formula) →
        StandsAs graph.old o x → AreSymbolic graph.old values.now ws →
        StandsAs graph.old before h0 → StandsAs graph.old after h1 →
        IfOk result (λ id. StandsAs graph.new id (made_formula ty first x ws h0 h1)) }
    ensures later { Later graph.old graph.new }
{
    let typed = has_type(graph, o, ty as usize)?;
    let absent = is_absent(graph, before, o)?;
    let heap = heap_with(graph, o, first, values, before)?;
    let same = eq(graph, after, heap)?;
    all_of(graph, &[typed, absent, same])
}

/// That r is NULL and the heap as it was, or r is a new open object of the type with these values.
fn null_or_made(
    graph: &mut Graph,
    ty: u32,
    first: u32,
    r: u32,
    values: &[Symbolic],
    before: u32,
    after: u32,
) -> Result<u32, AllocError>
    ensures stands { (x : Formula) (ws : List symbolic.Symbolic) (h0 h1 : Formula) →
        StandsAs graph.old r x → AreSymbolic graph.old values.now ws →
        StandsAs graph.old before h0 → StandsAs graph.old after h1 →
        IfOk result (λ id. StandsAs graph.new id
        (formulas.or' (nothing_formula x h0 h1) (made_formula ty first x ws h0 h1))) }
    ensures later { Later graph.old graph.new }
{
    let none = nothing_new(graph, r, before, after)?;
    let made = is_made(graph, ty, first, r, values, before, after)?;
    or(graph, none, made)
}

/// NULL, or a new open object with these contents.
fn new_object(
    walk: &mut Walk,
    ty: u32,
    first: u32,
    r: u32,
    before: u32,
    w: ValuesAndState,
) -> Result<ValueAndState, AllocError>
    ensures { (p : Program) (b : spec.Spot) (x h : Formula) (v : actions.ValuesAndState) →
        StandsAs walk.old.graph r x → StandsAs walk.old.graph before h → IsValuesAndState walk.old.graph w v →
        IfOk result (λ u. Ran IsValueAndState walk.old walk.new u (actions.new_object p b ty first x h v)) }
{
    let values = w.values;
    let state = new_heap(&mut walk.graph, w.state)?;
    let either = null_or_made(&mut walk.graph, ty, first, r, &values, before, state.heap)?;
    walk.fact(either)?;
    Ok(ValueAndState {
        value: Symbolic::Reference(r),
        state,
    })
}

/// NULL, or a new open object of the struct with any values in its fields.
fn new_struct(
    walk: &mut Walk,
    a: &Spot<'_>,
    ty: u32,
    info: &StructInfo,
    st: State,
) -> Result<ValueAndState, AllocError>
    ensures { (b : spec.Spot) (s : spec.State) → IsState walk.old.graph st s →
        IfOk result (λ r. Ran IsValueAndState walk.old walk.new r
        (actions.malloc a.now.program.now b ty (Some info.now) s)) }
{
    let before = st.heap;
    let r = new_reference(&mut walk.graph, st)?;
    let o = term(&mut walk.graph, r.value)?;
    let w = contents(walk, a, info.first_field, info.fields, r.state)?;
    let object = new_object(walk, ty, info.first_field, o, before, w)?;
    Ok(object)
}

/// `malloc` of a type that is no struct.
fn no_object(walk: &mut Walk, st: State) -> Result<ValueAndState, AllocError>
    ensures { (p : Program) (b : spec.Spot) (ty : ℕ) (s : spec.State) → IsState walk.old.graph st s →
        IfOk result (λ r. Ran IsValueAndState walk.old walk.new r (actions.malloc p b ty None s)) }
{
    let nothing = null(&mut walk.graph)?;
    Ok(ValueAndState {
        value: Symbolic::Reference(nothing),
        state: st,
    })
}

/// NULL, or a new open object of the type with any values in its fields.
pub fn malloc(
    walk: &mut Walk,
    a: &Spot<'_>,
    ty: u32,
    st: State,
) -> Result<ValueAndState, AllocError>
    ensures { (b : spec.Spot) (s : spec.State) → IsSpot walk.old.graph a.now b → IsState walk.old.graph st s →
        IfOk result (λ r. Ran IsValueAndState walk.old walk.new r
        (actions.malloc a.now.program.now b ty (struct_of a.now.program.now ty) s)) }
{
    match struct_of(a.program, ty) {
        Some(info) => {
            let object = new_struct(walk, a, ty, info, st)?;
            Ok(object)
        }
        None => {
            let nothing = no_object(walk, st)?;
            Ok(nothing)
        }
    }
}
