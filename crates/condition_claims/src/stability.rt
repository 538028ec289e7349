//! The conditions of claim sites.

ghost use Rattle.std.specs.Prelude.{◌≡◌, IfOk, IfSome, IfNone, List, Some, None, map, slice_get};
ghost use Rattle.terms.specs.Formula.{Formula};
ghost use Rattle.method.specs.declared.program.Program.{Program};
ghost use Rattle.conditions.specs.Admissible as admissible;
ghost use Rattle.conditions.specs.Annotations as annotation;
ghost use Rattle.conditions.specs.Code as spec;
ghost use Rattle.conditions.specs.Paths as paths;
ghost use Rattle.conditions.specs.Symbolic as symbolic;
ghost use Rattle.condition_formulas.specs.Standing.{StandsAs, StandAll, Later};
ghost use Rattle.condition_formulas.specs.Symbolics.{AreSymbolic};
ghost use Rattle.annotation_scenes.specs.Scenes.{IsScene};
ghost use Rattle.condition_claims.specs.Drafts.{Adds};
ghost use Rattle.condition_claims.specs.Pieces.{site_facts};
ghost use Rattle.condition_claims.specs.Settings.{IsSetting};

use crate::admissible::{Setting, untouched};
use crate::sites::site_state;
use annotation_scenes::scene::Scene;
use condition_branches::facts::facts_since;
use condition_code::walk::Walk;
use condition_formulas::formulas::{heap, imp, me, nat, null};
use condition_formulas::lists::all_of;
use condition_formulas::symbolic::{Symbolic, unlike};
use condition_scenes::conjuncts::{entry_formula, entry_of};
use method::program::{ClaimSite, Conjunct, FunctionInfo, Program};
use std::alloc::{AllocError, Global};
use term_graph::graph::Graph;

/// The words of a claim's conjuncts at its site, where the variables have these values.
fn site_scene<'a>(graph: &mut Graph, locals: &'a [Symbolic]) -> Result<Scene<'a>, AllocError>
    ensures stands { (p : Program) (ws : List symbolic.Symbolic) → AreSymbolic graph.old locals.now ws →
        IfOk result (λ c. IsScene graph.new c (admissible.site_scene p ws)) }
    ensures later { Later graph.old graph.new }
{
    let earlier = heap(graph, 0)?;
    let thread = me(graph)?;
    let nothing = null(graph)?;
    let zero = nat(graph, 0)?;
    Ok(Scene {
        before: earlier,
        after: earlier,
        past: false,
        me: thread,
        this: nothing,
        locals,
        entry: &[],
        result: Symbolic::Number(zero),
        bound: &[],
        subject: nothing,
    })
}

/// The formula of a conjunct in the scene, on a heap.
fn conjunct_formula(
    alloc: Global,
    graph: &mut Graph,
    program: &Program,
    heap: u32,
    scene: &Scene<'_>,
    conjunct: &Conjunct,
) -> Result<u32, AllocError>
    ensures stands { (h : Formula) (s : annotation.Scene) → StandsAs graph.old heap h → IsScene graph.old scene.now s →
        IfOk result (λ id. StandsAs graph.new id
        (annotation.entry_formula program.now h (annotation.entry_of s conjunct.now))) }
    ensures later { Later graph.old graph.new }
{
    let entry = entry_of(alloc, graph, scene, conjunct)?;
    let id = entry_formula(alloc, graph, program, heap, &entry)?;
    Ok(id)
}

/// The formulas of conjuncts in the scene, on a heap.
fn conjunct_formulas(
    alloc: Global,
    graph: &mut Graph,
    program: &Program,
    heap: u32,
    scene: &Scene<'_>,
    conjuncts: &[Conjunct],
) -> Result<Vec<u32>, AllocError>
    ensures stands { (h : Formula) (s : annotation.Scene) → StandsAs graph.old heap h → IsScene graph.old scene.now s →
        IfOk result (λ ids. StandAll graph.new ids.items
        (map (λ c. annotation.entry_formula program.now h (annotation.entry_of s c)) conjuncts.now)) }
    ensures later { Later graph.old graph.new }
{
    let mut all = Vec::new(alloc);
    for conjunct in conjuncts {
        let id = conjunct_formula(alloc, graph, program, heap, scene, conjunct)?;
        all.push(id)?;
    }
    Ok(all)
}

/// The conjuncts of a claim site, on a heap.
fn conjuncts_in(
    alloc: Global,
    graph: &mut Graph,
    program: &Program,
    heap: u32,
    site: &ClaimSite,
    locals: &[Symbolic],
) -> Result<Vec<u32>, AllocError>
    ensures stands { (h : Formula) (ws : List symbolic.Symbolic) →
        StandsAs graph.old heap h → AreSymbolic graph.old locals.now ws →
        IfOk result (λ ids. StandAll graph.new ids.items (admissible.conjuncts_in program.now h site.now ws)) }
    ensures later { Later graph.old graph.new }
{
    let words = site_scene(graph, locals)?;
    conjunct_formulas(alloc, graph, program, heap, &words, &site.conjuncts)
}

/// What is known of a step before which the site's claim is made, and which doesn't touch it, with these facts.
fn site_facts(
    alloc: Global,
    graph: &mut Graph,
    program: &Program,
    site: &ClaimSite,
    on: Setting,
    locals: &[Symbolic],
    facts: &[u32],
) -> Result<Vec<u32>, AllocError>
    ensures stands { (ws : List symbolic.Symbolic) (fs : List Formula) → IsSetting graph.old on →
        AreSymbolic graph.old locals.now ws → StandAll graph.old facts.now fs →
        IfOk result (λ ids. StandAll graph.new ids.items (site_facts program.now site.now ws fs)) }
    ensures later { Later graph.old graph.new }
{
    let mut all = untouched(alloc, graph, on, 2)?;
    let conjuncts = conjuncts_in(alloc, graph, program, on.before, site, locals)?;
    all.extend_from_slice(facts)?;
    all.extend_from_slice(&conjuncts)?;
    Ok(all)
}

/// The condition of a claim site whose variables have these values, where these are the facts.
fn stable_claim(
    alloc: Global,
    graph: &mut Graph,
    program: &Program,
    site: &ClaimSite,
    locals: &[Symbolic],
    facts: &[u32],
) -> Result<u32, AllocError>
    ensures stands { (t : paths.Execution spec.State) →
        AreSymbolic graph.old locals.now t.gives.locals → StandAll graph.old facts.now (paths.facts t.path) →
        IfOk result (λ id. StandsAs graph.new id (admissible.stable_claim program.now site.now t)) }
    ensures later { Later graph.old graph.new }
{
    let on = Setting::new(graph)?;
    let known = site_facts(alloc, graph, program, site, on, locals, facts)?;
    let first = all_of(graph, &known)?;
    let conjuncts = conjuncts_in(alloc, graph, program, on.after, site, locals)?;
    let last = all_of(graph, &conjuncts)?;
    imp(graph, first, last)
}

/// The function with the number.
fn function_at(program: &Program, number: u32) -> Option<&FunctionInfo>
    ensures some { IfSome result (λ f. slice_get program.now.functions.items number ≡ Some f.now) }
    ensures none { IfNone result (slice_get program.now.functions.items number ≡ None) }
{
    program.functions.get(number as usize)
}

/// The condition of a claim site of the function. The facts stand behind the path for as long as it takes to collect
/// them.
fn claim_stable_in(
    walk: &mut Walk,
    program: &Program,
    site: &ClaimSite,
    f: &FunctionInfo,
) -> Result<u32, AllocError>
    ensures { IfOk result (λ id. Adds walk.old walk.new id
        (admissible.claim_stable program.now site.now (Some f.now))) }
{
    let from = walk.place();
    let st = site_state(walk, f, site)?;
    let facts = facts_since(walk.alloc, &walk.path, from)?;
    walk.path.truncate(from);
    let id = stable_claim(
        walk.alloc,
        &mut walk.graph,
        program,
        site,
        &st.locals,
        &facts,
    )?;
    Ok(id)
}

/// The formula that never holds, of a claim site without function.
fn never(walk: &mut Walk, program: &Program, site: &ClaimSite) -> Result<u32, AllocError>
    ensures { IfOk result (λ id. Adds walk.old walk.new id (admissible.claim_stable program.now site.now None)) }
{
    let nothing = null(&mut walk.graph)?;
    let id = unlike(&mut walk.graph, nothing, nothing)?;
    Ok(id)
}

/// That no legal step breaks the property of a claim that the site makes and the step doesn't touch.
pub fn claim_stable(walk: &mut Walk, program: &Program, site: &ClaimSite) -> Result<u32, AllocError>
    ensures { IfOk result (λ id. Adds walk.old walk.new id
        (admissible.claim_stable program.now site.now (slice_get program.now.functions.items site.now.function))) }
{
    match function_at(program, site.function) {
        Some(f) => claim_stable_in(walk, program, site, f),
        None => never(walk, program, site),
    }
}
