//! The status of objects, and what may be read and written.

ghost use Rattle.std.specs.Prelude.{◌≡◌, IfOk, List};
ghost use Rattle.terms.specs.Formula.{Formula};
ghost use Rattle.conditions.specs.Code as spec;
ghost use Rattle.condition_formulas.specs.Standing.{StandsAs, StandAll, Later};
ghost use Rattle.condition_code.specs.States.{IsSpot, IsState, steady};
ghost use Rattle.method.specs.Tables.{is_volatile};

use crate::state::{Spot, State};
use condition_formulas::columns;
use condition_formulas::formulas::{me, node};
use condition_formulas::lists::{any_of, is_any, joined, listed};
use method::program::Program;
use std::alloc::{AllocError, Global};
use term_graph::graph::Graph;
use terms::term::Kind;

/// That o is open, and `\me` its owner.
pub fn mutable(graph: &mut Graph, st: &State, o: u32) -> Result<u32, AllocError>
    ensures stands { (s : spec.State) (x : Formula) → IsState graph.old st.now s → StandsAs graph.old o x → IfOk result (λ id. StandsAs graph.new id (spec.mutable s x)) }
    ensures later { Later graph.old graph.new }
{
    let thread = me(graph)?;
    columns::mutable(graph, thread, st.heap, o)
}

/// That o is closed, and `\me` its owner.
pub fn wrapped(graph: &mut Graph, st: &State, o: u32) -> Result<u32, AllocError>
    ensures stands { (s : spec.State) (x : Formula) → IsState graph.old st.now s → StandsAs graph.old o x → IfOk result (λ id. StandsAs graph.new id (spec.wrapped s x)) }
    ensures later { Later graph.old graph.new }
{
    let thread = me(graph)?;
    columns::wrapped(graph, thread, st.heap, o)
}

/// The invariant of o over two heaps.
pub fn inv(graph: &mut Graph, o: u32, before: u32, after: u32) -> Result<u32, AllocError>
    ensures stands { (x h0 h1 : Formula) → StandsAs graph.old o x → StandsAs graph.old before h0 → StandsAs graph.old after h1 → IfOk result (λ id. StandsAs graph.new id (spec.inv x h0 h1)) }
    ensures later { Later graph.old graph.new }
{
    node(graph, Kind::Inv, 0, &[o, before, after])
}

/// That o may be written: it is in the writes list, or `\me` didn't own it at entry.
pub fn writable(alloc: Global, graph: &mut Graph, a: &Spot<'_>, o: u32) -> Result<u32, AllocError>
    ensures stands { (b : spec.Spot) (x : Formula) → IsSpot graph.old a.now b → StandsAs graph.old o x → IfOk result (λ id. StandsAs graph.new id (spec.writable a.now.program.now b x)) }
    ensures later { Later graph.old graph.new }
{
    let thread = me(graph)?;
    columns::writable(alloc, graph, thread, a.entry, a.writes, o)
}

/// That o is one of those that the block around lists, one by one.
pub fn is_listed(
    alloc: Global,
    graph: &mut Graph,
    a: &Spot<'_>,
    o: u32,
) -> Result<Vec<u32>, AllocError>
    ensures stands { (b : spec.Spot) (x : Formula) → IsSpot graph.old a.now b → StandsAs graph.old o x → IfOk result (λ ids. StandAll graph.new ids.items (spec.is_listed a.now.program.now b x)) }
    ensures later { Later graph.old graph.new }
{
    if !a.inside {
        return Ok(Vec::new(alloc));
    }
    is_any(alloc, graph, o, a.listed)
}

/// Whether the field is volatile.
fn is_volatile(program: &Program, field: u32) -> bool
    ensures { result ≡ is_volatile program.now field }
{
    match program.fields.get(field as usize) {
        Some(info) => info.is_volatile,
        None => false,
    }
}

/// That o->f doesn't change, since o is in the stable set; none of a volatile field.
fn steady(
    alloc: Global,
    graph: &mut Graph,
    a: &Spot<'_>,
    st: &State,
    o: u32,
    f: u32,
) -> Result<Vec<u32>, AllocError>
    ensures stands { (s : spec.State) (x : Formula) → IsState graph.old st.now s → StandsAs graph.old o x → IfOk result (λ ids. StandAll graph.new ids.items (steady a.now.program.now s x f)) }
    ensures later { Later graph.old graph.new }
{
    if is_volatile(a.program, f) {
        return Ok(Vec::new(alloc));
    }
    let thread = me(graph)?;
    let stays = node(graph, Kind::Stab, 0, &[thread, st.heap, o, st.heap])?;
    listed(alloc, &[stays])
}

/// That o->f may be read: o is mutable, or f doesn't change while o is in the stable set, or the block lists o.
pub fn readable(
    alloc: Global,
    graph: &mut Graph,
    a: &Spot<'_>,
    st: &State,
    o: u32,
    f: u32,
) -> Result<u32, AllocError>
    ensures stands { (b : spec.Spot) (s : spec.State) (x : Formula) → IsSpot graph.old a.now b → IsState graph.old st.now s → StandsAs graph.old o x → IfOk result (λ id. StandsAs graph.new id (spec.readable a.now.program.now b s x f)) }
    ensures later { Later graph.old graph.new }
{
    let open = mutable(graph, st, o)?;
    let steady = steady(alloc, graph, a, st, o, f)?;
    let listed = is_listed(alloc, graph, a, o)?;
    let mut ways = joined(alloc, &[open], &steady)?;
    ways.extend_from_slice(&listed)?;
    any_of(graph, &ways)
}
