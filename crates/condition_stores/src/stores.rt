//! Values stored, with the checks of a store.

ghost use Rattle.std.specs.Prelude.{◌≡◌, ◌&&◌, ◌∷◌, [], IfOk, List, slice_set};
ghost use Rattle.terms.specs.declared.term.Term.{Term};
ghost use Rattle.terms.specs.Formula.{Formula};
ghost use Rattle.method.specs.declared.program.Program.{Program};
ghost use Rattle.method.specs.Tables.{is_volatile};
ghost use Rattle.conditions.specs.Code as spec;
ghost use Rattle.conditions.specs.Formulas.{and', any_of, eq, me};
ghost use Rattle.conditions.specs.Symbolic as symbolic;
ghost use Rattle.conditions.specs.Actions as actions;
ghost use Rattle.conditions.specs.Admissible as admissible;
ghost use Rattle.condition_formulas.specs.Standing.{StandsAs, StandAll, Later};
ghost use Rattle.condition_formulas.specs.Symbolics.{IsSymbolic};
ghost use Rattle.condition_code.specs.States.{IsSpot, IsState, IsValueAndState};
ghost use Rattle.condition_code.specs.Walks.{Ran};
ghost use Rattle.condition_stores.specs.Changes.{listed_change};
ghost use Rattle.condition_stores.specs.Places.{IsPlace};

use crate::place::{Place, stored_heap};
use crate::tables::{is_approved, is_volatile};
use condition_code::access::{is_listed, mutable, writable};
use condition_code::operations::converted;
use condition_code::state::{Spot, State, ValueAndState};
use condition_code::walk::Walk;
use condition_formulas::columns::owner;
use condition_formulas::formulas::{and, eq, me};
use condition_formulas::lists::{any_of, joined, listed};
use condition_formulas::symbolic::Symbolic;
use int_ranges::ctype::CType;
use std::alloc::{AllocError, Global};
use term_graph::graph::Graph;

/// That `\me` is this owner, and may write o.
fn owned_by_writer(
    alloc: Global,
    graph: &mut Graph,
    a: &Spot<'_>,
    holder: u32,
    o: u32,
) -> Result<u32, AllocError>
    ensures stands { (b : spec.Spot) (t x : Formula) →
        IsSpot graph.old a.now b → StandsAs graph.old holder t → StandsAs graph.old o x →
        IfOk result (λ id. StandsAs graph.new id (and' (eq t me) (spec.writable a.now.program.now b x))) }
    ensures later { Later graph.old graph.new }
{
    let thread = me(graph)?;
    let mine = eq(graph, holder, thread)?;
    let free = writable(alloc, graph, a, o)?;
    and(graph, mine, free)
}

/// That the formula holds, or o is one of those that the block around lists.
fn or_listed(
    alloc: Global,
    graph: &mut Graph,
    a: &Spot<'_>,
    formula: u32,
    o: u32,
) -> Result<u32, AllocError>
    ensures stands { (b : spec.Spot) (f x : Formula) →
        IsSpot graph.old a.now b → StandsAs graph.old formula f → StandsAs graph.old o x →
        IfOk result (λ id. StandsAs graph.new id (any_of (f ∷ spec.is_listed a.now.program.now b x))) }
    ensures later { Later graph.old graph.new }
{
    let listed = is_listed(alloc, graph, a, o)?;
    let ways = joined(alloc, &[formula], &listed)?;
    any_of(graph, &ways)
}

/// That the owner of o has its part in making and destroying claims of o, and in changing its approved fields: `\me`
/// owns it and may write o; inside a block also a listed object does.
pub fn may_count(
    alloc: Global,
    graph: &mut Graph,
    a: &Spot<'_>,
    heap: u32,
    o: u32,
) -> Result<u32, AllocError>
    ensures stands { (b : spec.Spot) (h x : Formula) →
        IsSpot graph.old a.now b → StandsAs graph.old heap h → StandsAs graph.old o x →
        IfOk result (λ id. StandsAs graph.new id (actions.may_count a.now.program.now b h x)) }
    ensures later { Later graph.old graph.new }
{
    let holder = owner(graph, heap, o)?;
    let mine = owned_by_writer(alloc, graph, a, holder, o)?;
    or_listed(alloc, graph, a, mine, holder)
}

/// That the block around lists o.
pub fn is_in_block(
    alloc: Global,
    graph: &mut Graph,
    a: &Spot<'_>,
    o: u32,
) -> Result<u32, AllocError>
    ensures stands { (b : spec.Spot) (x : Formula) → IsSpot graph.old a.now b → StandsAs graph.old o x →
        IfOk result (λ id. StandsAs graph.new id (any_of (spec.is_listed a.now.program.now b x))) }
    ensures later { Later graph.old graph.new }
{
    let listed = is_listed(alloc, graph, a, o)?;
    any_of(graph, &listed)
}

/// That an approved field of o may change: the block lists o, and its owner has its part.
fn approved_change(
    alloc: Global,
    graph: &mut Graph,
    a: &Spot<'_>,
    heap: u32,
    o: u32,
) -> Result<Vec<u32>, AllocError>
    ensures stands { (b : spec.Spot) (h x : Formula) →
        IsSpot graph.old a.now b → StandsAs graph.old heap h → StandsAs graph.old o x →
        IfOk result (λ ids. StandAll graph.new ids.items
        (and' (any_of (spec.is_listed a.now.program.now b x)) (actions.may_count a.now.program.now b h x) ∷ [])) }
    ensures later { Later graph.old graph.new }
{
    let open = is_in_block(alloc, graph, a, o)?;
    let part = may_count(alloc, graph, a, heap, o)?;
    let both = and(graph, open, part)?;
    listed(alloc, &[both])
}

/// Whether the field may change of a listed object: inside a block, where it is volatile.
fn changes_inside(a: &Spot<'_>, field: u32) -> bool
    ensures { result ≡ (a.now.inside && is_volatile a.now.program.now field) }
{
    let volatile = is_volatile(a.program, field);
    a.inside && volatile
}

/// That a volatile field of a listed object may change: the block lists o, and of an approved field its owner has its
/// part.
fn listed_change(
    alloc: Global,
    graph: &mut Graph,
    a: &Spot<'_>,
    o: u32,
    field: u32,
    heap: u32,
) -> Result<Vec<u32>, AllocError>
    ensures stands { (b : spec.Spot) (x h : Formula) →
        IsSpot graph.old a.now b → StandsAs graph.old o x → StandsAs graph.old heap h →
        IfOk result (λ ids. StandAll graph.new ids.items (listed_change a.now.program.now b x field h)) }
    ensures later { Later graph.old graph.new }
{
    if is_approved(a.program, field) {
        return approved_change(alloc, graph, a, heap, o);
    }
    is_listed(alloc, graph, a, o)
}

/// What beside being mutable lets o->f be changed: inside a block, where f is volatile, that the block lists o; of an
/// approved field also that its owner has its part.
fn may_change(
    alloc: Global,
    graph: &mut Graph,
    a: &Spot<'_>,
    o: u32,
    field: u32,
    heap: u32,
) -> Result<Vec<u32>, AllocError>
    ensures stands { (b : spec.Spot) (x h : Formula) →
        IsSpot graph.old a.now b → StandsAs graph.old o x → StandsAs graph.old heap h →
        IfOk result (λ ids. StandAll graph.new ids.items (actions.may_change a.now.program.now b x field h)) }
    ensures later { Later graph.old graph.new }
{
    if changes_inside(a, field) {
        return listed_change(alloc, graph, a, o, field, heap);
    }
    Ok(Vec::new(alloc))
}

/// That o is mutable, or o->f may be changed all the same.
fn is_changeable(
    alloc: Global,
    graph: &mut Graph,
    a: &Spot<'_>,
    st: &State,
    o: u32,
    field: u32,
) -> Result<u32, AllocError>
    ensures stands { (b : spec.Spot) (s : spec.State) (x : Formula) →
        IsSpot graph.old a.now b → IsState graph.old st.now s → StandsAs graph.old o x →
        IfOk result (λ id. StandsAs graph.new id
        (any_of (spec.mutable s x ∷ actions.may_change a.now.program.now b x field s.heap))) }
    ensures later { Later graph.old graph.new }
{
    let open = mutable(graph, st, o)?;
    let change = may_change(alloc, graph, a, o, field, st.heap)?;
    let ways = joined(alloc, &[open], &change)?;
    any_of(graph, &ways)
}

/// That o may be written, or the block around lists it.
fn is_free(alloc: Global, graph: &mut Graph, a: &Spot<'_>, o: u32) -> Result<u32, AllocError>
    ensures stands { (b : spec.Spot) (x : Formula) → IsSpot graph.old a.now b → StandsAs graph.old o x →
        IfOk result (λ id. StandsAs graph.new id
        (any_of (spec.writable a.now.program.now b x ∷ spec.is_listed a.now.program.now b x))) }
    ensures later { Later graph.old graph.new }
{
    let free = writable(alloc, graph, a, o)?;
    or_listed(alloc, graph, a, free, o)
}

/// The state with this heap.
pub fn with_heap(mut st: State, heap: u32) -> State
    ensures { (ts : List Term) (s : spec.State) (h : Formula) → IsState ts st s → StandsAs ts heap h →
        IsState ts result (spec.with_heap s h) }
{
    st.heap = heap;
    st
}

/// A field of o gets the value, with the checks of a store.
fn store_field(
    walk: &mut Walk,
    a: &Spot<'_>,
    o: u32,
    field: u32,
    value: Symbolic,
    st: State,
) -> Result<State, AllocError>
    ensures { (b : spec.Spot) (x : Formula) (w : symbolic.Symbolic) (s : spec.State) →
        IsSpot walk.old.graph a.now b → StandsAs walk.old.graph o x → IsSymbolic walk.old.graph value w →
        IsState walk.old.graph st s →
        IfOk result (λ r. Ran IsState walk.old walk.new r
        (actions.store a.now.program.now b (actions.InField x field) w s)) }
{
    let change = is_changeable(walk.alloc, &mut walk.graph, a, &st, o, field)?;
    walk.check(change)?;
    let free = is_free(walk.alloc, &mut walk.graph, a, o)?;
    walk.check(free)?;
    let heap = stored_heap(&mut walk.graph, Place::Field(o, field), value, st.heap)?;
    Ok(with_heap(st, heap))
}

/// The value goes to the place, with the checks of a store.
pub fn store(
    walk: &mut Walk,
    a: &Spot<'_>,
    place: Place,
    value: Symbolic,
    st: State,
) -> Result<State, AllocError>
    ensures { (b : spec.Spot) (q : actions.Place) (w : symbolic.Symbolic) (s : spec.State) →
        IsSpot walk.old.graph a.now b → IsPlace walk.old.graph place q → IsSymbolic walk.old.graph value w →
        IsState walk.old.graph st s →
        IfOk result (λ r. Ran IsState walk.old walk.new r (actions.store a.now.program.now b q w s)) }
{
    match place {
        Place::Local(i) => Ok(put_local(i, ValueAndState { value, state: st })),
        Place::Field(o, field) => {
            let state = store_field(walk, a, o, field, value, st)?;
            Ok(state)
        }
    }
}

/// The variable gets the value; where there are not so many, nothing changes.
fn put_value(locals: &mut Vec<Symbolic>, i: u32, value: Symbolic)
    ensures { locals.new.items ≡ slice_set locals.old.items i value }
{
    let at = i as usize;
    if at >= locals.len() {
        return;
    }
    locals[at] = value;
}

/// The state where the variable has the value.
pub fn put_local(i: u32, v: ValueAndState) -> State
    ensures { (ts : List Term) (w : spec.ValueAndState) → IsValueAndState ts v w →
        IsState ts result (admissible.put_local i w) }
{
    let value = v.value;
    let mut state = v.state;
    put_value(&mut state.locals, i, value);
    state
}

/// A conversion, where there is one.
pub fn convert_to(
    walk: &mut Walk,
    ty: Option<CType>,
    value: Symbolic,
) -> Result<Symbolic, AllocError>
    ensures { (p : Program) (b : spec.Spot) (w : symbolic.Symbolic) → IsSymbolic walk.old.graph value w →
        IfOk result (λ r. Ran IsSymbolic walk.old walk.new r (actions.convert_to p b ty w)) }
{
    match ty {
        None => Ok(value),
        Some(c) => {
            let inside = converted(walk, c, value)?;
            Ok(inside)
        }
    }
}
