//! The clauses of contracts where functions are called, begin and end.

ghost use Rattle.std.specs.Prelude.{IfOk, List, map};
ghost use Rattle.terms.specs.Formula.{Formula};
ghost use Rattle.method.specs.declared.program.Program.{Program};
ghost use Rattle.conditions.specs.Actions as actions;
ghost use Rattle.conditions.specs.Code as spec;
ghost use Rattle.conditions.specs.Formulas.{me};
ghost use Rattle.conditions.specs.Symbolic as symbolic;
ghost use Rattle.condition_formulas.specs.Standing.{StandsAs, StandAll, Later};
ghost use Rattle.condition_formulas.specs.Symbolics.{AreSymbolic, IsSymbolic};
ghost use Rattle.annotation_scenes.specs.Scenes.{IsScene};
ghost use Rattle.condition_code.specs.States.{IsSpot};

use annotation_scenes::scene::Scene;
use condition_actions::contracts::{clauses, items_of};
use condition_code::access::writable;
use condition_code::scenes::{call_scene, return_scene};
use condition_code::state::Spot;
use condition_formulas::formulas::me;
use condition_formulas::symbolic::Symbolic;
use method::program::{FunctionInfo, Program};
use std::alloc::{AllocError, Global};
use term_graph::graph::Graph;

/// The words of a contract where the function is called by this thread.
fn own_scene<'s>(
    graph: &mut Graph,
    heap: u32,
    args: &'s [Symbolic],
) -> Result<Scene<'s>, AllocError>
    ensures stands { (h : Formula) (ws : List symbolic.Symbolic) →
        StandsAs graph.old heap h → AreSymbolic graph.old args.now ws →
        IfOk result (λ c. IsScene graph.new c (spec.call_scene me h ws)) }
    ensures later { Later graph.old graph.new }
{
    let thread = me(graph)?;
    call_scene(graph, thread, heap, args)
}

/// The items that the function writes where it is called, one by one.
pub fn items_at(
    alloc: Global,
    graph: &mut Graph,
    program: &Program,
    g: &FunctionInfo,
    heap: u32,
    args: &[Symbolic],
) -> Result<Vec<u32>, AllocError>
    ensures stands { (b : spec.Spot) (h : Formula) (ws : List symbolic.Symbolic) →
        StandsAs graph.old heap h → AreSymbolic graph.old args.now ws →
        IfOk result (λ ids. StandAll graph.new ids.items
        (actions.items_of program.now b g.now.writes.items (spec.call_scene me h ws))) }
    ensures later { Later graph.old graph.new }
{
    let words = own_scene(graph, heap, args)?;
    let items = items_of(alloc, graph, program, &g.writes, &words)?;
    Ok(items)
}

/// The function's requires clauses where it is called, one by one.
pub fn requires_at(
    alloc: Global,
    graph: &mut Graph,
    program: &Program,
    g: &FunctionInfo,
    heap: u32,
    args: &[Symbolic],
) -> Result<Vec<u32>, AllocError>
    ensures stands { (b : spec.Spot) (h : Formula) (ws : List symbolic.Symbolic) →
        StandsAs graph.old heap h → AreSymbolic graph.old args.now ws →
        IfOk result (λ ids. StandAll graph.new ids.items
        (actions.clauses program.now b g.now.requires_.items (spec.call_scene me h ws))) }
    ensures later { Later graph.old graph.new }
{
    let words = own_scene(graph, heap, args)?;
    let all = clauses(alloc, graph, program, &g.requires_, &words)?;
    Ok(all)
}

/// The function's ensures clauses where it returns, one by one.
pub fn ensures_at(
    alloc: Global,
    graph: &mut Graph,
    program: &Program,
    g: &FunctionInfo,
    entry: u32,
    args: &[Symbolic],
    heap: u32,
    value: Symbolic,
) -> Result<Vec<u32>, AllocError>
    ensures stands { (b : spec.Spot) (e h : Formula) (ws : List symbolic.Symbolic) (w : symbolic.Symbolic) →
        StandsAs graph.old entry e → AreSymbolic graph.old args.now ws →
        StandsAs graph.old heap h → IsSymbolic graph.old value w →
        IfOk result (λ ids. StandAll graph.new ids.items
        (actions.clauses program.now b g.now.ensures_.items (spec.return_scene e ws h w))) }
    ensures later { Later graph.old graph.new }
{
    let words = return_scene(graph, entry, args, heap, value)?;
    let all = clauses(alloc, graph, program, &g.ensures_, &words)?;
    Ok(all)
}

/// That each of these may be written, one by one.
pub fn all_writable(
    alloc: Global,
    graph: &mut Graph,
    a: &Spot<'_>,
    items: &[u32],
) -> Result<Vec<u32>, AllocError>
    ensures stands { (b : spec.Spot) (fs : List Formula) →
        IsSpot graph.old a.now b → StandAll graph.old items.now fs →
        IfOk result (λ ids. StandAll graph.new ids.items (map (spec.writable a.now.program.now b) fs)) }
    ensures later { Later graph.old graph.new }
{
    let mut all = Vec::new(alloc);
    for item in items {
        let allowed = writable(alloc, graph, a, *item)?;
        all.push(allowed)?;
    }
    Ok(all)
}
