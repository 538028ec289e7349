//! Where a value goes.

ghost use Rattle.std.specs.Prelude.{IfOk};
ghost use Rattle.terms.specs.Formula.{Formula};
ghost use Rattle.conditions.specs.Code as spec;
ghost use Rattle.conditions.specs.Symbolic as symbolic;
ghost use Rattle.conditions.specs.Actions as actions;
ghost use Rattle.conditions.specs.Paths.{Gives};
ghost use Rattle.condition_formulas.specs.Standing.{StandsAs, Later};
ghost use Rattle.condition_formulas.specs.Symbolics.{IsSymbolic};
ghost use Rattle.condition_code.specs.States.{IsSpot, IsState};
ghost use Rattle.condition_code.specs.Walks.{Ran};
ghost use Rattle.condition_stores.specs.Places.{IsPlace};

use crate::heaps::with_value;
use condition_code::expressions::code;
use condition_code::state::{Spot, State};
use condition_code::walk::Walk;
use condition_formulas::symbolic::{Symbolic, term};
use method::program::Target;
use std::alloc::AllocError;
use term_graph::graph::Graph;

/// Where a value goes, once the left side is worked out: a variable by its number, or a field of the object of a node.
#[derive(Clone, Copy, Debug)]
pub enum Place {
    Local(u32),
    /// the object, the field
    Field(u32, u32),
}

/// A field of the object that the value stands for.
fn field_place(walk: &mut Walk, v: Symbolic, field: u32) -> Result<Place, AllocError>
    ensures { (w : symbolic.Symbolic) → IsSymbolic walk.old.graph v w →
        IfOk result (λ r. Ran IsPlace walk.old walk.new r (Gives (actions.InField (symbolic.term w) field))) }
{
    let o = term(&mut walk.graph, v)?;
    Ok(Place::Field(o, field))
}

/// A left side is worked out, with the checks of its object.
pub fn left_side(
    walk: &mut Walk,
    a: &Spot<'_>,
    target: &Target,
    st: &State,
) -> Result<Place, AllocError>
    ensures { (b : spec.Spot) (s : spec.State) → IsSpot walk.old.graph a.now b → IsState walk.old.graph st.now s →
        IfOk result (λ r. Ran IsPlace walk.old walk.new r (actions.left_side a.now.program.now b target.now s)) }
{
    match target {
        Target::Local(i) => Ok(Place::Local(*i)),
        Target::FieldOf(e, field) => {
            let v = code(walk, a, st, e)?;
            let place = field_place(walk, v, *field)?;
            Ok(place)
        }
    }
}

/// The heap with the value stored at the place.
pub fn stored_heap(
    graph: &mut Graph,
    place: Place,
    value: Symbolic,
    heap: u32,
) -> Result<u32, AllocError>
    ensures stands { (q : actions.Place) (w : symbolic.Symbolic) (h : Formula) →
        IsPlace graph.old place q → IsSymbolic graph.old value w → StandsAs graph.old heap h →
        IfOk result (λ id. StandsAs graph.new id (actions.stored_heap q w h)) }
    ensures later { Later graph.old graph.new }
{
    match place {
        Place::Local(_) => Ok(heap),
        Place::Field(o, field) => with_value(graph, heap, o, field, value),
    }
}
