//! What a heap has: an object's status, its fields, and what claims say.

ghost use Rattle.std.specs.Prelude.{◌≡◌, ◌+◌, ◌∷◌, ◌++◌, [], IfOk, List, ℕ, pos};
ghost use Rattle.terms.specs.Formula.{Formula, Node};
ghost use Rattle.terms.specs.declared.term.Kind.TheVariants as k;
ghost use Rattle.condition_formulas.specs.Standing.{StandsAs, StandAll, Later};
ghost use Rattle.conditions.specs.Formulas as spec;

use crate::formulas::{and, eq, nat, node, not};
use crate::lists::{any_of, is_any, joined};
use method::program::Program;
use std::alloc::{AllocError, Global};
use term_graph::graph::Graph;
use terms::term::Kind;

/// The columns of each program; those of its fields come behind them, and then those of its shapes.
const MODE: usize = 0;

const OWNER: usize = 1;

const COUNT: usize = 2;

const OWNED: usize = 3;

const LISTED: usize = 4;

/// The column of a field by its number.
pub fn field_column(field: u32) -> usize
    ensures { result ≡ spec.field_column field }
{
    5 + field as usize
}

/// The column of a shape by its number.
pub fn shape_column(program: &Program, shape: u32) -> usize
    ensures { result ≡ spec.shape_column program.now shape }
{
    5 + program.fields.len() + shape as usize
}

/// What a column has for a heap and keys.
fn read(graph: &mut Graph, column: usize, args: &[u32]) -> Result<u32, AllocError>
    ensures stands { (fs : List Formula) → StandAll graph.old args.now fs → IfOk result (λ id. StandsAs graph.new id (Node k.Get (pos column) (spec.row fs))) }
    ensures later { Later graph.old graph.new }
{
    node(graph, Kind::Get, column as i128, args)
}

/// A heap with a value stored in a column, for the heap, the keys and the value.
fn stored(graph: &mut Graph, column: usize, args: &[u32]) -> Result<u32, AllocError>
    ensures stands { (fs : List Formula) → StandAll graph.old args.now fs → IfOk result (λ id. StandsAs graph.new id (Node k.Set (pos column) (spec.row fs))) }
    ensures later { Later graph.old graph.new }
{
    node(graph, Kind::Set, column as i128, args)
}

/// What a column of the heap has at the keys.
pub fn get(
    alloc: Global,
    graph: &mut Graph,
    column: usize,
    heap: u32,
    keys: &[u32],
) -> Result<u32, AllocError>
    ensures stands { (h : Formula) (fs : List Formula) → StandsAs graph.old heap h → StandAll graph.old keys.now fs → IfOk result (λ id. StandsAs graph.new id (spec.get column h fs)) }
    ensures later { Later graph.old graph.new }
{
    let args = joined(alloc, &[heap], keys)?;
    read(graph, column, &args)
}

/// The heap with a value stored in a column at the keys.
pub fn set(
    alloc: Global,
    graph: &mut Graph,
    column: usize,
    heap: u32,
    keys: &[u32],
    value: u32,
) -> Result<u32, AllocError>
    ensures stands { (h : Formula) (fs : List Formula) (v : Formula) → StandsAs graph.old heap h → StandAll graph.old keys.now fs → StandsAs graph.old value v → IfOk result (λ id. StandsAs graph.new id (spec.set column h fs v)) }
    ensures later { Later graph.old graph.new }
{
    let mut args = joined(alloc, &[heap], keys)?;
    args.push(value)?;
    stored(graph, column, &args)
}

/// The mode of an object: 0 absent, 1 open, 2 closed, 3 freed.
pub fn mode(graph: &mut Graph, heap: u32, o: u32) -> Result<u32, AllocError>
    ensures stands { (h x : Formula) → StandsAs graph.old heap h → StandsAs graph.old o x → IfOk result (λ id. StandsAs graph.new id (spec.mode h x)) }
    ensures later { Later graph.old graph.new }
{
    read(graph, MODE, &[heap, o])
}

/// The owner of an object.
pub fn owner(graph: &mut Graph, heap: u32, o: u32) -> Result<u32, AllocError>
    ensures stands { (h x : Formula) → StandsAs graph.old heap h → StandsAs graph.old o x → IfOk result (λ id. StandsAs graph.new id (spec.owner h x)) }
    ensures later { Later graph.old graph.new }
{
    read(graph, OWNER, &[heap, o])
}

/// How many claims list an object.
pub fn count(graph: &mut Graph, heap: u32, o: u32) -> Result<u32, AllocError>
    ensures stands { (h x : Formula) → StandsAs graph.old heap h → StandsAs graph.old o x → IfOk result (λ id. StandsAs graph.new id (spec.count h x)) }
    ensures later { Later graph.old graph.new }
{
    read(graph, COUNT, &[heap, o])
}

/// What a field of an object has, by the number of the field.
pub fn field(graph: &mut Graph, number: u32, heap: u32, o: u32) -> Result<u32, AllocError>
    ensures stands { (h x : Formula) → StandsAs graph.old heap h → StandsAs graph.old o x → IfOk result (λ id. StandsAs graph.new id (spec.get (spec.field_column number) h (x ∷ []))) }
    ensures later { Later graph.old graph.new }
{
    read(graph, field_column(number), &[heap, o])
}

/// That q is in the owned set of o.
pub fn owns(graph: &mut Graph, heap: u32, o: u32, q: u32) -> Result<u32, AllocError>
    ensures stands { (h x y : Formula) → StandsAs graph.old heap h → StandsAs graph.old o x → StandsAs graph.old q y → IfOk result (λ id. StandsAs graph.new id (spec.owns h x y)) }
    ensures later { Later graph.old graph.new }
{
    let held = read(graph, OWNED, &[heap, o, q])?;
    let one = nat(graph, 1)?;
    eq(graph, held, one)
}

/// That the claim lists the object.
pub fn lists(graph: &mut Graph, heap: u32, claim: u32, o: u32) -> Result<u32, AllocError>
    ensures stands { (h x y : Formula) → StandsAs graph.old heap h → StandsAs graph.old claim x → StandsAs graph.old o y → IfOk result (λ id. StandsAs graph.new id (spec.lists h x y)) }
    ensures later { Later graph.old graph.new }
{
    let held = read(graph, LISTED, &[heap, claim, o])?;
    let one = nat(graph, 1)?;
    eq(graph, held, one)
}

/// That the claim was made with a conjunct of this shape and these values.
pub fn has_shape(
    alloc: Global,
    graph: &mut Graph,
    program: &Program,
    heap: u32,
    claim: u32,
    shape: u32,
    values: &[u32],
) -> Result<u32, AllocError>
    ensures stands { (h x : Formula) (fs : List Formula) → StandsAs graph.old heap h → StandsAs graph.old claim x → StandAll graph.old values.now fs → IfOk result (λ id. StandsAs graph.new id (spec.has_shape program.now h x shape fs)) }
    ensures later { Later graph.old graph.new }
{
    let args = joined(alloc, &[heap, claim], values)?;
    let held = read(graph, shape_column(program, shape), &args)?;
    let one = nat(graph, 1)?;
    eq(graph, held, one)
}

/// That the object is closed.
pub fn closed(graph: &mut Graph, heap: u32, o: u32) -> Result<u32, AllocError>
    ensures stands { (h x : Formula) → StandsAs graph.old heap h → StandsAs graph.old o x → IfOk result (λ id. StandsAs graph.new id (spec.closed h x)) }
    ensures later { Later graph.old graph.new }
{
    let now = mode(graph, heap, o)?;
    let two = nat(graph, 2)?;
    eq(graph, now, two)
}

/// That the object is open, and the thread owns it.
pub fn mutable(graph: &mut Graph, thread: u32, heap: u32, o: u32) -> Result<u32, AllocError>
    ensures stands { (t h x : Formula) → StandsAs graph.old thread t → StandsAs graph.old heap h → StandsAs graph.old o x → IfOk result (λ id. StandsAs graph.new id (spec.mutable t h x)) }
    ensures later { Later graph.old graph.new }
{
    let now = mode(graph, heap, o)?;
    let one = nat(graph, 1)?;
    let open = eq(graph, now, one)?;
    let holder = owner(graph, heap, o)?;
    let mine = eq(graph, holder, thread)?;
    and(graph, open, mine)
}

/// That the object is closed, and the thread owns it.
pub fn wrapped(graph: &mut Graph, thread: u32, heap: u32, o: u32) -> Result<u32, AllocError>
    ensures stands { (t h x : Formula) → StandsAs graph.old thread t → StandsAs graph.old heap h → StandsAs graph.old o x → IfOk result (λ id. StandsAs graph.new id (spec.wrapped t h x)) }
    ensures later { Later graph.old graph.new }
{
    let shut = closed(graph, heap, o)?;
    let holder = owner(graph, heap, o)?;
    let mine = eq(graph, holder, thread)?;
    and(graph, shut, mine)
}

/// That the object is in the writes list, or the thread did not own it at the entry.
pub fn writable(
    alloc: Global,
    graph: &mut Graph,
    thread: u32,
    entry: u32,
    writes: &[u32],
    o: u32,
) -> Result<u32, AllocError>
    ensures stands { (t e : Formula) (w : List Formula) (x : Formula) → StandsAs graph.old thread t → StandsAs graph.old entry e → StandAll graph.old writes.now w → StandsAs graph.old o x → IfOk result (λ id. StandsAs graph.new id (spec.writable t e w x)) }
    ensures later { Later graph.old graph.new }
{
    let mut any = is_any(alloc, graph, o, writes)?;
    let holder = owner(graph, entry, o)?;
    let mine = eq(graph, holder, thread)?;
    let other = not(graph, mine)?;
    any.push(other)?;
    any_of(graph, &any)
}

/// The heap where the object has this mode and this owner.
pub fn status(
    graph: &mut Graph,
    heap: u32,
    o: u32,
    mode: u32,
    thread: u32,
) -> Result<u32, AllocError>
    ensures stands { (h x m t : Formula) → StandsAs graph.old heap h → StandsAs graph.old o x → StandsAs graph.old mode m → StandsAs graph.old thread t → IfOk result (λ id. StandsAs graph.new id (spec.status h x m t)) }
    ensures later { Later graph.old graph.new }
{
    let changed = stored(graph, MODE, &[heap, o, mode])?;
    stored(graph, OWNER, &[changed, o, thread])
}
