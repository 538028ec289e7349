//! Changes of owned sets.

ghost use Rattle.std.specs.Prelude.{IfOk, List};
ghost use Rattle.terms.specs.Formula.{Formula};
ghost use Rattle.conditions.specs.Code as spec;
ghost use Rattle.conditions.specs.Actions as actions;
ghost use Rattle.conditions.specs.Formulas as formulas;
ghost use Rattle.conditions.specs.Paths.{Done, Check, check, Gives};
ghost use Rattle.method.specs.declared.program.OwnsChange.TheVariants.{Added as Added', Removed as Removed'};
ghost use Rattle.condition_formulas.specs.Standing.{StandsAs, StandAll, Later};
ghost use Rattle.condition_code.specs.States.{IsSpot, IsState};
ghost use Rattle.condition_code.specs.Walks.{Ran, Went};
ghost use Rattle.condition_stores.specs.Members.{change_open, handed_heap, join_inside, leave_inside};

use crate::heaps::{add_members, with_member, with_owner, without_members};
use crate::stores::{is_in_block, with_heap};
use condition_code::access::{mutable, wrapped, writable};
use condition_code::state::{Spot, State};
use condition_code::walk::Walk;
use condition_formulas::columns::owns;
use condition_formulas::formulas::{and, me};
use method::program::OwnsChange;
use std::alloc::{AllocError, Global};
use term_graph::graph::Graph;

/// The heap where these are the members of o.
pub fn set_members(graph: &mut Graph, o: u32, members: &[u32], heap: u32) -> Result<u32, AllocError>
    ensures stands { (x : Formula) (qs : List Formula) (h : Formula) →
        StandsAs graph.old o x → StandAll graph.old members.now qs → StandsAs graph.old heap h →
        IfOk result (λ id. StandsAs graph.new id (actions.set_members x qs h)) }
    ensures later { Later graph.old graph.new }
{
    let empty = without_members(graph, heap, o)?;
    add_members(graph, o, members, empty)
}

/// It is checked that o is mutable and may be written.
fn check_open(walk: &mut Walk, a: &Spot<'_>, o: u32, st: &State) -> Result<(), AllocError>
    ensures { (b : spec.Spot) (x : Formula) (s : spec.State) →
        IsSpot walk.old.graph a.now b → StandsAs walk.old.graph o x → IsState walk.old.graph st.now s →
        IfOk result (λ u. Went walk.old walk.new
        (Check (spec.mutable s x) (Check (spec.writable a.now.program.now b x) Done))) }
{
    let open = mutable(&mut walk.graph, st, o)?;
    walk.check(open)?;
    let free = writable(walk.alloc, &mut walk.graph, a, o)?;
    walk.check(free)?;
    Ok(())
}

/// The owned set of o gets this number at q: o is mutable and may be written.
fn change_open(
    walk: &mut Walk,
    a: &Spot<'_>,
    o: u32,
    q: u32,
    number: usize,
    st: State,
) -> Result<State, AllocError>
    ensures { (b : spec.Spot) (x y : Formula) (s : spec.State) →
        IsSpot walk.old.graph a.now b → StandsAs walk.old.graph o x → StandsAs walk.old.graph q y →
        IsState walk.old.graph st s →
        IfOk result (λ r. Ran IsState walk.old walk.new r
        (change_open a.now.program.now b x y number s)) }
{
    check_open(walk, a, o, &st)?;
    let heap = with_member(&mut walk.graph, st.heap, o, q, number)?;
    Ok(with_heap(st, heap))
}

/// The heap where the owned set of o has this number at q, and q this owner.
fn hand_over(
    graph: &mut Graph,
    heap: u32,
    o: u32,
    q: u32,
    number: usize,
    owner: u32,
) -> Result<u32, AllocError>
    ensures stands { (h x y t : Formula) →
        StandsAs graph.old heap h → StandsAs graph.old o x → StandsAs graph.old q y →
        StandsAs graph.old owner t →
        IfOk result (λ id. StandsAs graph.new id (handed_heap h x y number t)) }
    ensures later { Later graph.old graph.new }
{
    let counted = with_member(graph, heap, o, q, number)?;
    with_owner(graph, counted, q, owner)
}

/// That q is wrapped and may be written.
fn may_join(
    alloc: Global,
    graph: &mut Graph,
    a: &Spot<'_>,
    st: &State,
    q: u32,
) -> Result<u32, AllocError>
    ensures stands { (b : spec.Spot) (s : spec.State) (y : Formula) →
        IsSpot graph.old a.now b → IsState graph.old st.now s → StandsAs graph.old q y →
        IfOk result (λ id. StandsAs graph.new id
        (formulas.and' (spec.wrapped s y) (spec.writable a.now.program.now b y))) }
    ensures later { Later graph.old graph.new }
{
    let shut = wrapped(graph, st, q)?;
    let free = writable(alloc, graph, a, q)?;
    and(graph, shut, free)
}

/// Inside a block, q joins the owned set of a listed object.
fn join_inside(
    walk: &mut Walk,
    a: &Spot<'_>,
    o: u32,
    q: u32,
    st: State,
) -> Result<State, AllocError>
    ensures { (b : spec.Spot) (x y : Formula) (s : spec.State) →
        IsSpot walk.old.graph a.now b → StandsAs walk.old.graph o x → StandsAs walk.old.graph q y →
        IsState walk.old.graph st s →
        IfOk result (λ r. Ran IsState walk.old walk.new r (join_inside a.now.program.now b x y s)) }
{
    let among = is_in_block(walk.alloc, &mut walk.graph, a, o)?;
    walk.check(among)?;
    let may = may_join(walk.alloc, &mut walk.graph, a, &st, q)?;
    walk.check(may)?;
    let heap = hand_over(&mut walk.graph, st.heap, o, q, 1, o)?;
    Ok(with_heap(st, heap))
}

/// The heap where q is no member of o, and `\me` its owner.
fn release(graph: &mut Graph, heap: u32, o: u32, q: u32) -> Result<u32, AllocError>
    ensures stands { (h x y : Formula) →
        StandsAs graph.old heap h → StandsAs graph.old o x → StandsAs graph.old q y →
        IfOk result (λ id. StandsAs graph.new id (handed_heap h x y 0 formulas.me)) }
    ensures later { Later graph.old graph.new }
{
    let thread = me(graph)?;
    hand_over(graph, heap, o, q, 0, thread)
}

/// Inside a block, q leaves the owned set of a listed object.
fn leave_inside(
    walk: &mut Walk,
    a: &Spot<'_>,
    o: u32,
    q: u32,
    st: State,
) -> Result<State, AllocError>
    ensures { (b : spec.Spot) (x y : Formula) (s : spec.State) →
        IsSpot walk.old.graph a.now b → StandsAs walk.old.graph o x → StandsAs walk.old.graph q y →
        IsState walk.old.graph st s →
        IfOk result (λ r. Ran IsState walk.old walk.new r (leave_inside a.now.program.now b x y s)) }
{
    let among = is_in_block(walk.alloc, &mut walk.graph, a, o)?;
    walk.check(among)?;
    let held = owns(&mut walk.graph, st.heap, o, q)?;
    walk.check(held)?;
    let heap = release(&mut walk.graph, st.heap, o, q)?;
    Ok(with_heap(st, heap))
}

/// q joins the owned set of o.
fn join(walk: &mut Walk, a: &Spot<'_>, o: u32, q: u32, st: State) -> Result<State, AllocError>
    ensures { (b : spec.Spot) (x y : Formula) (s : spec.State) →
        IsSpot walk.old.graph a.now b → StandsAs walk.old.graph o x → StandsAs walk.old.graph q y →
        IsState walk.old.graph st s →
        IfOk result (λ r. Ran IsState walk.old walk.new r (actions.member_change a.now.program.now b Added' x y s)) }
{
    if a.inside {
        let state = join_inside(walk, a, o, q, st)?;
        return Ok(state);
    }
    let state = change_open(walk, a, o, q, 1, st)?;
    Ok(state)
}

/// q leaves the owned set of o.
fn leave(walk: &mut Walk, a: &Spot<'_>, o: u32, q: u32, st: State) -> Result<State, AllocError>
    ensures { (b : spec.Spot) (x y : Formula) (s : spec.State) →
        IsSpot walk.old.graph a.now b → StandsAs walk.old.graph o x → StandsAs walk.old.graph q y →
        IsState walk.old.graph st s →
        IfOk result (λ r. Ran IsState walk.old walk.new r
        (actions.member_change a.now.program.now b Removed' x y s)) }
{
    if a.inside {
        let state = leave_inside(walk, a, o, q, st)?;
        return Ok(state);
    }
    let state = change_open(walk, a, o, q, 0, st)?;
    Ok(state)
}

/// One member more or less of the owned set of o.
fn member_change(
    walk: &mut Walk,
    a: &Spot<'_>,
    change: OwnsChange,
    o: u32,
    q: u32,
    st: State,
) -> Result<State, AllocError>
    ensures { (b : spec.Spot) (x y : Formula) (s : spec.State) →
        IsSpot walk.old.graph a.now b → StandsAs walk.old.graph o x → StandsAs walk.old.graph q y →
        IsState walk.old.graph st s →
        IfOk result (λ r. Ran IsState walk.old walk.new r
        (actions.member_change a.now.program.now b change x y s)) }
{
    match change {
        OwnsChange::Assigned => Ok(st),
        OwnsChange::Added => {
            let state = join(walk, a, o, q, st)?;
            Ok(state)
        }
        OwnsChange::Removed => {
            let state = leave(walk, a, o, q, st)?;
            Ok(state)
        }
    }
}

/// Members more or less, one after the other.
fn members_change(
    walk: &mut Walk,
    a: &Spot<'_>,
    change: OwnsChange,
    o: u32,
    members: &[u32],
    st: State,
) -> Result<State, AllocError>
    ensures { (b : spec.Spot) (x : Formula) (qs : List Formula) (s : spec.State) →
        IsSpot walk.old.graph a.now b → StandsAs walk.old.graph o x → StandAll walk.old.graph members.now qs →
        IsState walk.old.graph st s →
        IfOk result (λ r. Ran IsState walk.old walk.new r
        (actions.members_change a.now.program.now b change x qs s)) }
{
    let mut state = st;
    for q in members {
        state = member_change(walk, a, change, o, *q, state)?;
    }
    Ok(state)
}

/// The owned set of o becomes these members: o is mutable and may be written.
fn assign_members(
    walk: &mut Walk,
    a: &Spot<'_>,
    o: u32,
    members: &[u32],
    st: State,
) -> Result<State, AllocError>
    ensures { (b : spec.Spot) (x : Formula) (qs : List Formula) (s : spec.State) →
        IsSpot walk.old.graph a.now b → StandsAs walk.old.graph o x → StandAll walk.old.graph members.now qs →
        IsState walk.old.graph st s →
        IfOk result (λ r. Ran IsState walk.old walk.new r
        (check (spec.mutable s x) (check (spec.writable a.now.program.now b x)
        (Gives (spec.with_heap s (actions.set_members x qs s.heap)))))) }
{
    check_open(walk, a, o, &st)?;
    let heap = set_members(&mut walk.graph, o, members, st.heap)?;
    Ok(with_heap(st, heap))
}

/// The owned set of o becomes these members, or has them besides, or has them no more; each change with its checks.
pub fn owned_change(
    walk: &mut Walk,
    a: &Spot<'_>,
    change: OwnsChange,
    o: u32,
    members: &[u32],
    st: State,
) -> Result<State, AllocError>
    ensures { (b : spec.Spot) (x : Formula) (qs : List Formula) (s : spec.State) →
        IsSpot walk.old.graph a.now b → StandsAs walk.old.graph o x → StandAll walk.old.graph members.now qs →
        IsState walk.old.graph st s →
        IfOk result (λ r. Ran IsState walk.old walk.new r (actions.owned_change a.now.program.now b change x qs s)) }
{
    match change {
        OwnsChange::Assigned => {
            let state = assign_members(walk, a, o, members, st)?;
            Ok(state)
        }
        OwnsChange::Added => {
            let state = members_change(walk, a, OwnsChange::Added, o, members, st)?;
            Ok(state)
        }
        OwnsChange::Removed => {
            let state = members_change(walk, a, OwnsChange::Removed, o, members, st)?;
            Ok(state)
        }
    }
}
