//! New threads.

ghost use Rattle.std.specs.Prelude.{IfOk, List, map, slice_get};
ghost use Rattle.terms.specs.Formula.{Formula};
ghost use Rattle.conditions.specs.Code as spec;
ghost use Rattle.conditions.specs.Symbolic as symbolic;
ghost use Rattle.conditions.specs.Actions as actions;
ghost use Rattle.condition_formulas.specs.Standing.{StandsAs, StandAll, Later};
ghost use Rattle.condition_formulas.specs.Symbolics.{AreSymbolic};
ghost use Rattle.condition_code.specs.States.{IsSpot, IsState};
ghost use Rattle.condition_code.specs.Walks.{Ran};
ghost use Rattle.condition_actions.specs.Threads.{newness, passable, spawned};

use crate::contracts::{clauses, items_of};
use crate::tables::function_at;
use crate::wrapping::with_heap;
use condition_code::access::{wrapped, writable};
use condition_code::expressions::all_symbolic;
use condition_code::scenes::call_scene;
use condition_code::state::{Spot, State, new_reference};
use condition_code::walk::Walk;
use condition_formulas::columns::set;
use condition_formulas::formulas::{and, eq, me, node, not};
use condition_formulas::lists::listed;
use condition_formulas::symbolic::{Symbolic, has_type, term};
use method::program::{Expr, FunctionInfo};
use std::alloc::{AllocError, Global};
use term_graph::graph::Graph;
use terms::term::Kind;

/// The column of owners.
const OWNER: usize = 1;

/// The type number of threads.
const THREAD: usize = 1;

/// The heap where the thread owns each of the objects.
fn transfer(
    alloc: Global,
    graph: &mut Graph,
    objects: &[u32],
    thread: u32,
    heap: u32,
) -> Result<u32, AllocError>
    ensures stands { (os : List Formula) (t h : Formula) →
        StandAll graph.old objects.now os → StandsAs graph.old thread t → StandsAs graph.old heap h →
        IfOk result (λ id. StandsAs graph.new id (actions.transfer os t h)) }
    ensures later { Later graph.old graph.new }
{
    let mut behind = heap;
    for o in objects {
        behind = set(alloc, graph, OWNER, behind, &[*o], thread)?;
    }
    Ok(behind)
}

/// What is known of a new thread: it is one, it isn't `\me`, and it does nothing in the heap.
fn newness(alloc: Global, graph: &mut Graph, thread: u32, heap: u32) -> Result<Vec<u32>, AllocError>
    ensures stands { (u h : Formula) → StandsAs graph.old thread u → StandsAs graph.old heap h →
        IfOk result (λ ids. StandAll graph.new ids.items (newness u h)) }
    ensures later { Later graph.old graph.new }
{
    let is_thread = has_type(graph, thread, THREAD)?;
    let own = me(graph)?;
    let same = eq(graph, thread, own)?;
    let other = not(graph, same)?;
    let idle = node(graph, Kind::Idle, 0, &[thread, heap])?;
    listed(alloc, &[is_thread, other, idle])
}

/// The thread starts in the heap where the items are its own, and must meet the requires clauses there.
fn start_thread(
    walk: &mut Walk,
    a: &Spot<'_>,
    f: &FunctionInfo,
    args: &[Symbolic],
    thread: u32,
    heap: u32,
    st: State,
) -> Result<State, AllocError>
    ensures { (b : spec.Spot) (ws : List symbolic.Symbolic) (items : List Formula) (u h : Formula) (s : spec.State) →
        AreSymbolic walk.old.graph args.now ws → StandsAs walk.old.graph thread u → StandsAs walk.old.graph heap h →
        IsState walk.old.graph st s →
        IfOk result (λ r. Ran IsState walk.old walk.new r
        (actions.start_thread a.now.program.now b f.now ws items u h s)) }
{
    let facts = newness(walk.alloc, &mut walk.graph, thread, st.heap)?;
    walk.all_facts(&facts)?;
    let words = call_scene(&mut walk.graph, thread, heap, args)?;
    let needs = clauses(walk.alloc, &mut walk.graph, a.program, &f.requires_, &words)?;
    walk.check_each(&needs)?;
    Ok(with_heap(st, heap))
}

/// That the item is wrapped, and may be written.
fn is_passable(
    alloc: Global,
    graph: &mut Graph,
    a: &Spot<'_>,
    st: &State,
    o: u32,
) -> Result<u32, AllocError>
    ensures stands { (b : spec.Spot) (s : spec.State) (x : Formula) →
        IsSpot graph.old a.now b → IsState graph.old st.now s → StandsAs graph.old o x →
        IfOk result (λ id. StandsAs graph.new id (passable a.now.program.now b s x)) }
    ensures later { Later graph.old graph.new }
{
    let owned = wrapped(graph, st, o)?;
    let may = writable(alloc, graph, a, o)?;
    and(graph, owned, may)
}

/// That each of the items is.
fn each_passable(
    alloc: Global,
    graph: &mut Graph,
    a: &Spot<'_>,
    st: &State,
    items: &[u32],
) -> Result<Vec<u32>, AllocError>
    ensures stands { (b : spec.Spot) (s : spec.State) (xs : List Formula) →
        IsSpot graph.old a.now b → IsState graph.old st.now s → StandAll graph.old items.now xs →
        IfOk result (λ ids. StandAll graph.new ids.items (map (passable a.now.program.now b s) xs)) }
    ensures later { Later graph.old graph.new }
{
    let mut tests = Vec::new(alloc);
    for o in items {
        let test = is_passable(alloc, graph, a, st, *o)?;
        tests.push(test)?;
    }
    Ok(tests)
}

/// A new thread, which gets the items.
fn spawn_items(
    walk: &mut Walk,
    a: &Spot<'_>,
    f: &FunctionInfo,
    args: &[Symbolic],
    items: &[u32],
    st: State,
) -> Result<State, AllocError>
    ensures { (b : spec.Spot) (ws : List symbolic.Symbolic) (xs : List Formula) (s : spec.State) →
        IsSpot walk.old.graph a.now b → AreSymbolic walk.old.graph args.now ws → StandAll walk.old.graph items.now xs →
        IsState walk.old.graph st s →
        IfOk result (λ r. Ran IsState walk.old walk.new r
        (actions.spawn_items a.now.program.now b f.now ws xs s)) }
{
    let tests = each_passable(walk.alloc, &mut walk.graph, a, &st, items)?;
    walk.check_each(&tests)?;
    let heap = st.heap;
    let u = new_reference(&mut walk.graph, st)?;
    let thread = term(&mut walk.graph, u.value)?;
    let behind = transfer(walk.alloc, &mut walk.graph, items, thread, heap)?;
    let state = start_thread(walk, a, f, args, thread, behind, u.state)?;
    Ok(state)
}

/// A new thread of the function, which gets the items of its writes list.
fn spawn_function(
    walk: &mut Walk,
    a: &Spot<'_>,
    f: &FunctionInfo,
    args: &[Symbolic],
    st: State,
) -> Result<State, AllocError>
    ensures { (b : spec.Spot) (ws : List symbolic.Symbolic) (s : spec.State) →
        IsSpot walk.old.graph a.now b → AreSymbolic walk.old.graph args.now ws → IsState walk.old.graph st s →
        IfOk result (λ r. Ran IsState walk.old walk.new r
        (actions.spawn a.now.program.now b (Some f.now) ws s)) }
{
    let own = me(&mut walk.graph)?;
    let words = call_scene(&mut walk.graph, own, st.heap, args)?;
    let items = items_of(walk.alloc, &mut walk.graph, a.program, &f.writes, &words)?;
    let state = spawn_items(walk, a, f, args, &items, st)?;
    Ok(state)
}

/// A new thread of the function with this number, if the program has it.
fn spawn(
    walk: &mut Walk,
    a: &Spot<'_>,
    number: u32,
    args: &[Symbolic],
    st: State,
) -> Result<State, AllocError>
    ensures { (b : spec.Spot) (ws : List symbolic.Symbolic) (s : spec.State) →
        IsSpot walk.old.graph a.now b → AreSymbolic walk.old.graph args.now ws → IsState walk.old.graph st s →
        IfOk result (λ r. Ran IsState walk.old walk.new r
        (actions.spawn a.now.program.now b (slice_get a.now.program.now.functions.items number) ws s)) }
{
    match function_at(a.program, number) {
        Some(f) => spawn_function(walk, a, f, args, st),
        None => Ok(st),
    }
}

/// `_(spawn)` of the function with this number, by these expressions.
pub fn spawn_thread(
    walk: &mut Walk,
    a: &Spot<'_>,
    number: u32,
    arguments: &[Expr],
    st: State,
) -> Result<State, AllocError>
    ensures { (b : spec.Spot) (s : spec.State) → IsSpot walk.old.graph a.now b → IsState walk.old.graph st s →
        IfOk result (λ r. Ran IsState walk.old walk.new r
        (spawned a.now.program.now b number arguments.now s)) }
{
    let args = all_symbolic(walk, a, &st, arguments)?;
    let state = spawn(walk, a, number, &args, st)?;
    Ok(state)
}
