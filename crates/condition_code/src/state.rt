//! What stays the same in a function's code, and what the code changes on its way.

ghost use Rattle.std.specs.Prelude.{IfOk};
ghost use Rattle.conditions.specs.Code as spec;
ghost use Rattle.condition_formulas.specs.Standing.{Later};
ghost use Rattle.condition_code.specs.States.{IsState, IsValueAndState};
ghost use Rattle.condition_code.specs.Walks.{Ran};

use crate::walk::Walk;
use condition_formulas::formulas::{heap, integer, reference};
use condition_formulas::symbolic::{Symbolic, ranges, term};
use method::program::{DeclaredType, Program};
use std::alloc::AllocError;
use term_graph::graph::Graph;

/// What stays the same in a function: the program, the heap at the function's entry, its writes list and its arguments
/// there; and whether this is inside an atomic block, and the objects that it lists.
#[derive(Clone, Copy)]
pub struct Spot<'a> {
    pub program: &'a Program,
    pub entry: u32,
    pub writes: &'a [u32],
    pub args: &'a [Symbolic],
    pub inside: bool,
    pub listed: &'a [u32],
}

/// A conjunct of a claim: its shape, and what its holes stand for.
#[derive(Drop)]
pub struct Entry {
    pub shape: u32,
    pub values: Vec<Symbolic>,
}

/// An object whose invariant is to be checked at the block's end, where the tests on the way to it were passed.
#[derive(Drop)]
pub struct DeferredObject {
    pub guards: Vec<u32>,
    pub which: u32,
}

/// A claim that a block has made, whose conjuncts are to be checked at its end.
#[derive(Drop)]
pub struct DeferredClaim {
    pub guards: Vec<u32>,
    pub which: u32,
    pub entries: Vec<Entry>,
}

/// What the code changes on its way: the heap, the variables, and how many constants of each sort are made.
#[derive(Drop)]
pub struct State {
    pub heap: u32,
    pub locals: Vec<Symbolic>,
    pub integers: usize,
    pub references: usize,
    pub heaps: usize,
    pub changed: Vec<DeferredObject>,
    pub made: Vec<DeferredClaim>,
}

/// A value, and the state behind it.
#[derive(Drop)]
pub struct ValueAndState {
    pub value: Symbolic,
    pub state: State,
}

/// A new integer constant.
pub fn new_integer(graph: &mut Graph, mut st: State) -> Result<ValueAndState, AllocError>
    ensures stands { (s : spec.State) → IsState graph.old st s → IfOk result (λ v. IsValueAndState graph.new v (spec.new_integer s)) }
    ensures later { Later graph.old graph.new }
{
    let Some(integers) = st.integers.checked_add(1) else {
        return Err(AllocError);
    };
    let constant = integer(graph, st.integers)?;
    st.integers = integers;
    Ok(ValueAndState {
        value: Symbolic::Number(constant),
        state: st,
    })
}

/// A new reference constant.
pub fn new_reference(graph: &mut Graph, mut st: State) -> Result<ValueAndState, AllocError>
    ensures stands { (s : spec.State) → IsState graph.old st s → IfOk result (λ v. IsValueAndState graph.new v (spec.new_reference s)) }
    ensures later { Later graph.old graph.new }
{
    let Some(references) = st.references.checked_add(1) else {
        return Err(AllocError);
    };
    let constant = reference(graph, st.references)?;
    st.references = references;
    Ok(ValueAndState {
        value: Symbolic::Reference(constant),
        state: st,
    })
}

/// The heap becomes any.
pub fn new_heap(graph: &mut Graph, mut st: State) -> Result<State, AllocError>
    ensures stands { (s : spec.State) → IsState graph.old st s → IfOk result (λ v. IsState graph.new v (spec.new_heap s)) }
    ensures later { Later graph.old graph.new }
{
    let Some(heaps) = st.heaps.checked_add(1) else {
        return Err(AllocError);
    };
    let constant = heap(graph, st.heaps)?;
    st.heap = constant;
    st.heaps = heaps;
    Ok(st)
}

/// A new constant for a value of the type.
pub fn new_of(graph: &mut Graph, ty: DeclaredType, st: State) -> Result<ValueAndState, AllocError>
    ensures stands { (s : spec.State) → IsState graph.old st s → IfOk result (λ v. IsValueAndState graph.new v (spec.new_of ty s)) }
    ensures later { Later graph.old graph.new }
{
    match ty {
        DeclaredType::Integer(_) => new_integer(graph, st),
        DeclaredType::Pointer(_) => new_reference(graph, st),
        DeclaredType::Object => new_reference(graph, st),
        DeclaredType::Claim => new_reference(graph, st),
    }
}

/// It is a fact that the value is one of its type.
pub fn range_facts(
    walk: &mut Walk,
    ty: DeclaredType,
    v: ValueAndState,
) -> Result<ValueAndState, AllocError>
    ensures { (w : spec.ValueAndState) → IsValueAndState walk.old.graph v w → IfOk result (λ r. Ran IsValueAndState walk.old walk.new r (spec.range_facts ty w)) }
{
    let value = term(&mut walk.graph, v.value)?;
    let facts = ranges(walk.alloc, &mut walk.graph, ty, value)?;
    walk.all_facts(&facts)?;
    Ok(v)
}

/// Any value of the type.
pub fn new_value(walk: &mut Walk, ty: DeclaredType, st: State) -> Result<ValueAndState, AllocError>
    ensures { (s : spec.State) → IsState walk.old.graph st s → IfOk result (λ r. Ran IsValueAndState walk.old walk.new r (spec.new_value ty s)) }
{
    let v = new_of(&mut walk.graph, ty, st)?;
    let value = range_facts(walk, ty, v)?;
    Ok(value)
}
