//! Heaps with values stored.

ghost use Rattle.std.specs.Prelude.{[], ◌∷◌, IfOk, List, pos};
ghost use Rattle.terms.specs.Formula.{Formula, Node};
ghost use Rattle.terms.specs.declared.term.Kind.TheVariants as k;
ghost use Rattle.conditions.specs.Formulas as formulas;
ghost use Rattle.conditions.specs.Symbolic as symbolic;
ghost use Rattle.conditions.specs.Actions as actions;
ghost use Rattle.condition_formulas.specs.Standing.{StandsAs, StandAll, Later};
ghost use Rattle.condition_formulas.specs.Symbolics.{IsSymbolic, AreSymbolic};

use condition_formulas::columns::field_column;
use condition_formulas::formulas::{nat, node};
use condition_formulas::symbolic::{Symbolic, term};
use std::alloc::AllocError;
use term_graph::graph::Graph;
use terms::term::Kind;

/// The columns of owners and of owned sets.
const OWNER: usize = 1;

const OWNED: usize = 3;

/// A heap with a value stored in a column, for the heap, the keys and the value.
fn stored(graph: &mut Graph, column: usize, args: &[u32]) -> Result<u32, AllocError>
    ensures stands { (fs : List Formula) → StandAll graph.old args.now fs →
        IfOk result (λ id. StandsAs graph.new id (Node k.Set (pos column) (formulas.row fs))) }
    ensures later { Later graph.old graph.new }
{
    node(graph, Kind::Set, column as i128, args)
}

/// The heap where this is the owner of o.
pub fn with_owner(graph: &mut Graph, heap: u32, o: u32, owner: u32) -> Result<u32, AllocError>
    ensures stands { (h x t : Formula) →
        StandsAs graph.old heap h → StandsAs graph.old o x → StandsAs graph.old owner t →
        IfOk result (λ id. StandsAs graph.new id (formulas.set formulas.owner_column h (x ∷ []) t)) }
    ensures later { Later graph.old graph.new }
{
    stored(graph, OWNER, &[heap, o, owner])
}

/// The heap where the owned set of o has this number at q: 1 for a member, 0 for none.
pub fn with_member(
    graph: &mut Graph,
    heap: u32,
    o: u32,
    q: u32,
    number: usize,
) -> Result<u32, AllocError>
    ensures stands { (h x y : Formula) →
        StandsAs graph.old heap h → StandsAs graph.old o x → StandsAs graph.old q y →
        IfOk result (λ id. StandsAs graph.new id
        (formulas.set formulas.owned_column h (x ∷ y ∷ []) (formulas.nat number))) }
    ensures later { Later graph.old graph.new }
{
    let value = nat(graph, number)?;
    stored(graph, OWNED, &[heap, o, q, value])
}

/// The heap with this value in a field of o.
pub fn with_field(
    graph: &mut Graph,
    heap: u32,
    o: u32,
    field: u32,
    value: u32,
) -> Result<u32, AllocError>
    ensures stands { (h x v : Formula) →
        StandsAs graph.old heap h → StandsAs graph.old o x → StandsAs graph.old value v →
        IfOk result (λ id. StandsAs graph.new id
        (formulas.set (formulas.field_column field) h (x ∷ []) v)) }
    ensures later { Later graph.old graph.new }
{
    stored(graph, field_column(field), &[heap, o, value])
}

/// The heap where the owned set of o is empty.
pub fn without_members(graph: &mut Graph, heap: u32, o: u32) -> Result<u32, AllocError>
    ensures stands { (h x : Formula) → StandsAs graph.old heap h → StandsAs graph.old o x →
        IfOk result (λ id. StandsAs graph.new id (formulas.node k.Clear (h ∷ x ∷ []))) }
    ensures later { Later graph.old graph.new }
{
    node(graph, Kind::Clear, 0, &[heap, o])
}

/// The heap where these are members of o besides.
pub fn add_members(graph: &mut Graph, o: u32, members: &[u32], heap: u32) -> Result<u32, AllocError>
    ensures stands { (x : Formula) (qs : List Formula) (h : Formula) →
        StandsAs graph.old o x → StandAll graph.old members.now qs → StandsAs graph.old heap h →
        IfOk result (λ id. StandsAs graph.new id (actions.add_members x qs h)) }
    ensures later { Later graph.old graph.new }
{
    let mut grown = heap;
    for q in members {
        grown = with_member(graph, grown, o, *q, 1)?;
    }
    Ok(grown)
}

/// The heap with this value in a field of o, as the term that it stands for.
pub fn with_value(
    graph: &mut Graph,
    heap: u32,
    o: u32,
    field: u32,
    value: Symbolic,
) -> Result<u32, AllocError>
    ensures stands { (h x : Formula) (w : symbolic.Symbolic) →
        StandsAs graph.old heap h → StandsAs graph.old o x → IsSymbolic graph.old value w →
        IfOk result (λ id. StandsAs graph.new id
        (formulas.set (formulas.field_column field) h (x ∷ []) (symbolic.term w))) }
    ensures later { Later graph.old graph.new }
{
    let held = term(graph, value)?;
    with_field(graph, heap, o, field, held)
}

/// The heap where the fields of o, from this one on, have these values.
pub fn with_fields(
    graph: &mut Graph,
    o: u32,
    first: u32,
    values: &[Symbolic],
    heap: u32,
) -> Result<u32, AllocError>
    ensures stands { (x : Formula) (ws : List symbolic.Symbolic) (h : Formula) →
        StandsAs graph.old o x → AreSymbolic graph.old values.now ws → StandsAs graph.old heap h →
        IfOk result (λ id. StandsAs graph.new id (actions.with_fields x first ws h)) }
    ensures later { Later graph.old graph.new }
{
    let mut full = heap;
    let mut field = first;
    for value in values {
        full = with_value(graph, full, o, field, *value)?;
        let Some(next) = field.checked_add(1) else {
            return Err(AllocError);
        };
        field = next;
    }
    Ok(full)
}
