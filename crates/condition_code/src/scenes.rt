//! The words of annotations at the places of code.

ghost use Rattle.std.specs.Prelude.{IfOk, List};
ghost use Rattle.terms.specs.Formula.{Formula};
ghost use Rattle.conditions.specs.Code as spec;
ghost use Rattle.conditions.specs.Symbolic as symbolic;
ghost use Rattle.condition_formulas.specs.Standing.{StandsAs, Later};
ghost use Rattle.condition_formulas.specs.Symbolics.{IsSymbolic, AreSymbolic};
ghost use Rattle.annotation_scenes.specs.Scenes.{IsScene};
ghost use Rattle.condition_code.specs.States.{IsSpot, IsState};

use crate::state::{Spot, State};
use annotation_scenes::scene::Scene;
use condition_formulas::formulas::{me, nat, null};
use condition_formulas::symbolic::Symbolic;
use std::alloc::AllocError;
use term_graph::graph::Graph;

/// The words of an annotation at a place in a function.
pub fn scene<'s>(graph: &mut Graph, a: &Spot<'s>, st: &'s State) -> Result<Scene<'s>, AllocError>
    ensures stands { (b : spec.Spot) (s : spec.State) → IsSpot graph.old a.now b → IsState graph.old st.now s → IfOk result (λ c. IsScene graph.new c (spec.scene b s)) }
    ensures later { Later graph.old graph.new }
{
    let thread = me(graph)?;
    let nothing = null(graph)?;
    let zero = nat(graph, 0)?;
    Ok(Scene {
        before: a.entry,
        after: st.heap,
        past: false,
        me: thread,
        this: nothing,
        locals: &st.locals,
        entry: a.args,
        result: Symbolic::Number(zero),
        bound: &[],
        subject: nothing,
    })
}

/// The words of a contract at a call, and at the return.
pub fn call_scene<'s>(
    graph: &mut Graph,
    thread: u32,
    heap: u32,
    args: &'s [Symbolic],
) -> Result<Scene<'s>, AllocError>
    ensures stands { (t h : Formula) (ws : List symbolic.Symbolic) → StandsAs graph.old thread t → StandsAs graph.old heap h → AreSymbolic graph.old args.now ws → IfOk result (λ c. IsScene graph.new c (spec.call_scene t h ws)) }
    ensures later { Later graph.old graph.new }
{
    let nothing = null(graph)?;
    let zero = nat(graph, 0)?;
    Ok(Scene {
        before: heap,
        after: heap,
        past: false,
        me: thread,
        this: nothing,
        locals: args,
        entry: args,
        result: Symbolic::Number(zero),
        bound: &[],
        subject: nothing,
    })
}

/// The words of a contract at the return, with the function's value.
pub fn return_scene<'s>(
    graph: &mut Graph,
    entry: u32,
    args: &'s [Symbolic],
    heap: u32,
    value: Symbolic,
) -> Result<Scene<'s>, AllocError>
    ensures stands { (e : Formula) (ws : List symbolic.Symbolic) (h : Formula) (w : symbolic.Symbolic) → StandsAs graph.old entry e → AreSymbolic graph.old args.now ws → StandsAs graph.old heap h → IsSymbolic graph.old value w → IfOk result (λ c. IsScene graph.new c (spec.return_scene e ws h w)) }
    ensures later { Later graph.old graph.new }
{
    let thread = me(graph)?;
    let nothing = null(graph)?;
    Ok(Scene {
        before: entry,
        after: heap,
        past: false,
        me: thread,
        this: nothing,
        locals: args,
        entry: args,
        result: value,
        bound: &[],
        subject: nothing,
    })
}

/// The words of an invariant of the object o.
pub fn inv_scene(
    graph: &mut Graph,
    o: u32,
    before: u32,
    after: u32,
) -> Result<Scene<'static>, AllocError>
    ensures stands { (x h0 h1 : Formula) → StandsAs graph.old o x → StandsAs graph.old before h0 → StandsAs graph.old after h1 → IfOk result (λ c. IsScene graph.new c (spec.inv_scene x h0 h1)) }
    ensures later { Later graph.old graph.new }
{
    let nothing = null(graph)?;
    let zero = nat(graph, 0)?;
    Ok(Scene {
        before,
        after,
        past: false,
        me: nothing,
        this: o,
        locals: &[],
        entry: &[],
        result: Symbolic::Number(zero),
        bound: &[],
        subject: nothing,
    })
}
