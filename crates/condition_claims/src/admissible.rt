//! The conditions of types.

ghost use Rattle.std.specs.Prelude.{IfOk};
ghost use Rattle.terms.specs.Formula.{Formula};
ghost use Rattle.conditions.specs.Formulas as formulas;
ghost use Rattle.conditions.specs.Admissible as admissible;
ghost use Rattle.condition_formulas.specs.Standing.{StandsAs, StandAll, Later};
ghost use Rattle.condition_claims.specs.Settings.{IsSetting, kept_step};

use condition_code::access::inv;
use condition_formulas::columns::closed;
use condition_formulas::formulas::{eq, heap, imp, nat, node, not, reference, typ};
use condition_formulas::lists::{all_of, listed};
use std::alloc::{AllocError, Global};
use term_graph::graph::Graph;
use terms::term::Kind;

/// What the conditions of types and claims speak of: any object, and any heap before and after a step.
#[derive(Clone, Copy)]
pub struct Setting {
    pub object: u32,
    pub before: u32,
    pub after: u32,
}

impl Setting {
    /// The constants that stand for them.
    pub fn new(graph: &mut Graph) -> Result<Setting, AllocError>
        ensures stands { IfOk result (λ on. IsSetting graph.new on) }
        ensures later { Later graph.old graph.new }
    {
        let object = reference(graph, 0)?;
        let before = heap(graph, 0)?;
        let after = heap(graph, 1)?;
        Ok(Setting {
            object,
            before,
            after,
        })
    }
}

/// That x has this type number.
pub fn is_of_type(graph: &mut Graph, x: u32, ty: usize) -> Result<u32, AllocError>
    ensures stands { (f : Formula) → StandsAs graph.old x f →
        IfOk result (λ id. StandsAs graph.new id (formulas.eq (formulas.typ f) (formulas.nat ty))) }
    ensures later { Later graph.old graph.new }
{
    let number = typ(graph, x)?;
    let wanted = nat(graph, ty)?;
    eq(graph, number, wanted)
}

/// That the step is a kept one from a good heap, and leaves the object, of this type, closed.
fn kept_step(alloc: Global, graph: &mut Graph, on: Setting, ty: u32) -> Result<Vec<u32>, AllocError>
    ensures stands { IsSetting graph.old on → IfOk result (λ ids. StandAll graph.new ids.items (kept_step ty)) }
    ensures later { Later graph.old graph.new }
{
    let good = node(graph, Kind::Good, 0, &[on.before])?;
    let kept = node(graph, Kind::Kept, 0, &[on.before, on.after])?;
    let typed = is_of_type(graph, on.object, ty as usize)?;
    let shut = closed(graph, on.after, on.object)?;
    listed(alloc, &[good, kept, typed, shut])
}

/// That a kept step leaves the objects of the type with an invariant that holds of the later heap alone.
pub fn reflexive(alloc: Global, graph: &mut Graph, ty: u32) -> Result<u32, AllocError>
    ensures stands { IfOk result (λ id. StandsAs graph.new id (admissible.reflexive ty)) }
    ensures later { Later graph.old graph.new }
{
    let on = Setting::new(graph)?;
    let step = kept_step(alloc, graph, on, ty)?;
    let all = all_of(graph, &step)?;
    let holds = inv(graph, on.object, on.after, on.after)?;
    imp(graph, all, holds)
}

/// That the step is a legal one from a good heap, which doesn't touch the object, of this type.
pub fn untouched(
    alloc: Global,
    graph: &mut Graph,
    on: Setting,
    ty: u32,
) -> Result<Vec<u32>, AllocError>
    ensures stands { IsSetting graph.old on →
        IfOk result (λ ids. StandAll graph.new ids.items (admissible.untouched ty)) }
    ensures later { Later graph.old graph.new }
{
    let good = node(graph, Kind::Good, 0, &[on.before])?;
    let legal = node(graph, Kind::Legal, 0, &[on.before, on.after])?;
    let typed = is_of_type(graph, on.object, ty as usize)?;
    let first = closed(graph, on.before, on.object)?;
    let last = closed(graph, on.after, on.object)?;
    let touches = node(graph, Kind::Touched, 0, &[on.object, on.before, on.after])?;
    let apart = not(graph, touches)?;
    listed(alloc, &[good, legal, typed, first, last, apart])
}

/// That no legal step breaks the invariant of an object of the type that it doesn't touch.
pub fn stable(alloc: Global, graph: &mut Graph, ty: u32) -> Result<u32, AllocError>
    ensures stands { IfOk result (λ id. StandsAs graph.new id (admissible.stable ty)) }
    ensures later { Later graph.old graph.new }
{
    let on = Setting::new(graph)?;
    let step = untouched(alloc, graph, on, ty)?;
    let all = all_of(graph, &step)?;
    let holds = inv(graph, on.object, on.before, on.after)?;
    imp(graph, all, holds)
}
