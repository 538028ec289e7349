//! Objects wrapped and unwrapped.

ghost use Rattle.std.specs.Prelude.{◌≡◌, ◌∷◌, [], if◌then◌else◌, pos, IfOk, List};
ghost use Rattle.terms.specs.declared.term.Term.{Term};
ghost use Rattle.terms.specs.declared.term.Kind.TheVariants as k;
ghost use Rattle.terms.specs.Formula.{Formula, Node};
ghost use Rattle.method.specs.Tables.{struct_of};
ghost use Rattle.conditions.specs.Formulas.{count, eq, me, nat, node, null, row, status};
ghost use Rattle.conditions.specs.Code as spec;
ghost use Rattle.conditions.specs.Paths.{Check, Done};
ghost use Rattle.conditions.specs.Actions as actions;
ghost use Rattle.condition_formulas.specs.Standing.{StandsAs, StandAll, Later};
ghost use Rattle.condition_code.specs.States.{IsSpot, IsState};
ghost use Rattle.condition_code.specs.Walks.{Ran, Went};
ghost use Rattle.condition_actions.specs.Wraps.{owning_heap};

use crate::contracts::items_of;
use crate::tables::{has_fixed_owns, struct_of};
use condition_code::access::{inv, mutable, wrapped, writable};
use condition_code::scenes::inv_scene;
use condition_code::state::{Spot, State};
use condition_code::walk::Walk;
use condition_formulas::columns::{count, status};
use condition_formulas::formulas::{eq, me, nat, node, null};
use condition_formulas::lists::listed;
use condition_stores::owning::set_members;
use method::program::Program;
use std::alloc::{AllocError, Global};
use term_graph::graph::Graph;
use terms::term::Kind;

/// A wrap: the object, the heap with the set that it is to own, and the number of the formula that says that its
/// members are wrapped and writable; `fixed` where the set is what the invariants of the type name.
#[derive(Clone, Copy, Debug)]
struct Wrap {
    object: u32,
    set: u32,
    number: u32,
    fixed: bool,
}

/// The state with this heap.
#[tactic(auto, using(crate::proofs::Kept::of_heap))]
pub fn with_heap(mut st: State, heap: u32) -> State
    ensures { (ts : List Term) (s : spec.State) (h : Formula) → IsState ts st s → StandsAs ts heap h →
        IsState ts result (spec.with_heap s h) }
{
    st.heap = heap;
    st
}

/// It is checked that o is mutable, and that it may be written.
fn check_changeable(walk: &mut Walk, a: &Spot<'_>, st: &State, o: u32) -> Result<(), AllocError>
    ensures { (b : spec.Spot) (x : Formula) (s : spec.State) →
        IsSpot walk.old.graph a.now b → StandsAs walk.old.graph o x → IsState walk.old.graph st.now s →
        IfOk result (λ u. Went walk.old walk.new
        (Check (spec.mutable s x) (Check (spec.writable a.now.program.now b x) Done))) }
{
    let open = mutable(&mut walk.graph, st, o)?;
    walk.check(open)?;
    let may = writable(walk.alloc, &mut walk.graph, a, o)?;
    walk.check(may)?;
    Ok(())
}

/// What the invariants of the type's struct name as owned by o.
fn mine_of(
    alloc: Global,
    graph: &mut Graph,
    program: &Program,
    ty: u32,
    o: u32,
    heap: u32,
) -> Result<Vec<u32>, AllocError>
    ensures stands { (b : spec.Spot) (x h : Formula) → StandsAs graph.old o x → StandsAs graph.old heap h →
        IfOk result (λ ids.
        StandAll graph.new ids.items (actions.mine_of program.now b h x (struct_of program.now ty))) }
    ensures later { Later graph.old graph.new }
{
    match struct_of(program, ty) {
        Some(info) => {
            let words = inv_scene(graph, o, heap, heap)?;
            items_of(alloc, graph, program, &info.mine, &words)
        }
        None => Ok(Vec::new(alloc)),
    }
}

/// The heap with the set that a wrap makes o's own: of a type with a fixed set, what its invariants name.
fn owning_heap(
    alloc: Global,
    graph: &mut Graph,
    program: &Program,
    ty: u32,
    o: u32,
    heap: u32,
) -> Result<u32, AllocError>
    ensures stands { (b : spec.Spot) (x h : Formula) → StandsAs graph.old o x → StandsAs graph.old heap h →
        IfOk result (λ id. StandsAs graph.new id (owning_heap program.now b ty x h)) }
    ensures later { Later graph.old graph.new }
{
    if !has_fixed_owns(program, ty) {
        return Ok(heap);
    }
    let members = mine_of(alloc, graph, program, ty, o, heap)?;
    let set = set_members(graph, o, &members, heap)?;
    Ok(set)
}

/// What the formula on the members speaks of first: the set, where it is fixed, the object, the heap and the thread.
fn members_front(alloc: Global, wrap: Wrap, heap: u32, thread: u32) -> Result<Vec<u32>, AllocError>
    ensures { IfOk result (λ ids. ids.items ≡
        (if wrap.fixed then wrap.set ∷ wrap.object ∷ heap ∷ thread ∷ [] else heap ∷ wrap.object ∷ thread ∷ [])) }
{
    if wrap.fixed {
        return listed(alloc, &[wrap.set, wrap.object, heap, thread]);
    }
    listed(alloc, &[heap, wrap.object, thread])
}

/// The quantified formula with this number, of these arguments.
fn quantified(graph: &mut Graph, number: u32, args: &[u32]) -> Result<u32, AllocError>
    ensures stands { (fs : List Formula) → StandAll graph.old args.now fs →
        IfOk result (λ id. StandsAs graph.new id (Node k.All (pos number) (row fs))) }
    ensures later { Later graph.old graph.new }
{
    node(graph, Kind::All, number as i128, args)
}

/// That the members are wrapped and writable.
fn members_formula(
    alloc: Global,
    graph: &mut Graph,
    a: &Spot<'_>,
    wrap: Wrap,
    heap: u32,
) -> Result<u32, AllocError>
    ensures stands { (b : spec.Spot) (y x h : Formula) →
        IsSpot graph.old a.now b → StandsAs graph.old wrap.set y → StandsAs graph.old wrap.object x →
        StandsAs graph.old heap h →
        IfOk result (λ id. StandsAs graph.new id
        (actions.members_formula a.now.program.now b wrap.fixed wrap.number y x h)) }
    ensures later { Later graph.old graph.new }
{
    let thread = me(graph)?;
    let mut args = members_front(alloc, wrap, heap, thread)?;
    args.extend_from_slice(a.writes)?;
    args.push(a.entry)?;
    quantified(graph, wrap.number, &args)
}

/// The heap where o is closed, with the set as its own.
fn closed_heap(graph: &mut Graph, set: u32, o: u32) -> Result<u32, AllocError>
    ensures stands { (y x : Formula) → StandsAs graph.old set y → StandsAs graph.old o x →
        IfOk result (λ id. StandsAs graph.new id (node k.Close (y ∷ x ∷ me ∷ []))) }
    ensures later { Later graph.old graph.new }
{
    let thread = me(graph)?;
    node(graph, Kind::Close, 0, &[set, o, thread])
}

/// The object is closed, with the set as its own.
fn close_object(walk: &mut Walk, a: &Spot<'_>, wrap: Wrap, st: State) -> Result<State, AllocError>
    ensures { (b : spec.Spot) (y x : Formula) (s : spec.State) →
        IsSpot walk.old.graph a.now b → StandsAs walk.old.graph wrap.set y → StandsAs walk.old.graph wrap.object x →
        IsState walk.old.graph st s →
        IfOk result (λ r. Ran IsState walk.old walk.new r
        (actions.close_object a.now.program.now b wrap.fixed wrap.number y x s)) }
{
    check_changeable(walk, a, &st, wrap.object)?;
    let members = members_formula(walk.alloc, &mut walk.graph, a, wrap, st.heap)?;
    walk.check(members)?;
    let closed = closed_heap(&mut walk.graph, wrap.set, wrap.object)?;
    let holds = inv(&mut walk.graph, wrap.object, st.heap, closed)?;
    walk.check(holds)?;
    Ok(with_heap(st, closed))
}

/// The object, of this type, is wrapped; formula `number` says that its members are wrapped and writable.
pub fn wrap_object(
    walk: &mut Walk,
    a: &Spot<'_>,
    ty: u32,
    number: u32,
    o: u32,
    st: State,
) -> Result<State, AllocError>
    ensures { (b : spec.Spot) (x : Formula) (s : spec.State) →
        IsSpot walk.old.graph a.now b → StandsAs walk.old.graph o x → IsState walk.old.graph st s →
        IfOk result (λ r. Ran IsState walk.old walk.new r (actions.wrap_object a.now.program.now b ty number x s)) }
{
    let set = owning_heap(walk.alloc, &mut walk.graph, a.program, ty, o, st.heap)?;
    let wrap = Wrap {
        object: o,
        set,
        number,
        fixed: has_fixed_owns(a.program, ty),
    };
    let state = close_object(walk, a, wrap, st)?;
    Ok(state)
}

/// That no claim lists o.
fn is_unclaimed(graph: &mut Graph, heap: u32, o: u32) -> Result<u32, AllocError>
    ensures stands { (h x : Formula) → StandsAs graph.old heap h → StandsAs graph.old o x →
        IfOk result (λ id. StandsAs graph.new id (eq (count h x) (nat 0))) }
    ensures later { Later graph.old graph.new }
{
    let claims = count(graph, heap, o)?;
    let zero = nat(graph, 0)?;
    eq(graph, claims, zero)
}

/// The heap where o is open.
fn opened_heap(graph: &mut Graph, heap: u32, o: u32) -> Result<u32, AllocError>
    ensures stands { (h x : Formula) → StandsAs graph.old heap h → StandsAs graph.old o x →
        IfOk result (λ id. StandsAs graph.new id (node k.Open (h ∷ x ∷ me ∷ []))) }
    ensures later { Later graph.old graph.new }
{
    let thread = me(graph)?;
    node(graph, Kind::Open, 0, &[heap, o, thread])
}

/// The object is unwrapped.
pub fn unwrap_object(walk: &mut Walk, a: &Spot<'_>, o: u32, st: State) -> Result<State, AllocError>
    ensures { (b : spec.Spot) (x : Formula) (s : spec.State) →
        IsSpot walk.old.graph a.now b → StandsAs walk.old.graph o x → IsState walk.old.graph st s →
        IfOk result (λ r. Ran IsState walk.old walk.new r (actions.unwrap_object a.now.program.now b x s)) }
{
    let closed = wrapped(&mut walk.graph, &st, o)?;
    walk.check(closed)?;
    let may = writable(walk.alloc, &mut walk.graph, a, o)?;
    walk.check(may)?;
    let unclaimed = is_unclaimed(&mut walk.graph, st.heap, o)?;
    walk.check(unclaimed)?;
    let open = opened_heap(&mut walk.graph, st.heap, o)?;
    Ok(with_heap(st, open))
}

/// The heap where o is freed.
fn freed_heap(graph: &mut Graph, heap: u32, o: u32) -> Result<u32, AllocError>
    ensures stands { (h x : Formula) → StandsAs graph.old heap h → StandsAs graph.old o x →
        IfOk result (λ id. StandsAs graph.new id (status h x (nat 3) null)) }
    ensures later { Later graph.old graph.new }
{
    let freed = nat(graph, 3)?;
    let nobody = null(graph)?;
    status(graph, heap, o, freed, nobody)
}

/// The object is freed.
pub fn free(walk: &mut Walk, a: &Spot<'_>, o: u32, st: State) -> Result<State, AllocError>
    ensures { (b : spec.Spot) (x : Formula) (s : spec.State) →
        IsSpot walk.old.graph a.now b → StandsAs walk.old.graph o x → IsState walk.old.graph st s →
        IfOk result (λ r. Ran IsState walk.old walk.new r (actions.free a.now.program.now b x s)) }
{
    check_changeable(walk, a, &st, o)?;
    let freed = freed_heap(&mut walk.graph, st.heap, o)?;
    Ok(with_heap(st, freed))
}
