//! The loading of a block.

ghost use Rattle.std.specs.Prelude.{◌≡◌, ℕ, ◌≤◌, ◌<◌, ◌↔◌, List, IsTrue, [], length, take, slice_get, IfOk, OnOk, Option, Some, option_and_then, option_map, true, false, All};
ghost use Rattle.terms.specs.Formula.{Formula};
ghost use Rattle.term_meaning.specs.Meaning.{Language as Meant};
ghost use Rattle.condition_formulas.specs.Standing.{StandsAs, StandAll};
ghost use Rattle.block_layout.specs.Space.{Keeps, Sorts, StaysSorted, IsSorted, KnowsSorts, IsTheory};
ghost use Rattle.block_layout.specs.Trees.{tree_over};
ghost use Rattle.block_layout.specs.Layout.{IsNode, NamesTerms, instance_in, node_of as named_by, truth_value as truths};
ghost use Rattle.block_layout.specs.Loading.{IsLoaded, IsWithinLimit, LoadsSteps, PutsOwn, PutsAdded, PutsBehind};
ghost use Rattle.block_layout.specs.Loading.{PutsTerms, PutsSteps, IfNone, has_steps};

use crate::loaded::{Loaded, LoadedStep, Stop};
use crate::names::{are_below, clause_over, names_terms, node_of, nodes_of, numbers_over};
use crate::space::{Space, Theory};
use cert_format::certificate::{Refutation, RuleName, Step};
use std::alloc::{AllocError, Global};
use term_graph::graph::Graph;
use term_language::language::Language;
use terms::term::{Clause, Term};
use vcc_rules::rule::Clauses;

/// The node of a term of the block, whose numbers name these nodes.
fn put(
    alloc: Global,
    language: &Language,
    names: &[u32],
    term: &Term,
    space: &mut Space,
) -> Result<u32, AllocError>
    ensures stands { (trees : List Formula) (f : Formula) → StandAll space.old.graph names.now trees → tree_over trees term.now ≡ Some f → IfOk result (λ id. StandsAs space.new.graph id f) }
    ensures kept { Keeps language.now space.old space.new }
    ensures sorted { OnOk result (Sorts language.now space.old space.new) }
{
    let args = nodes_of(alloc, names, term.args.numbers())?;
    let id = space.add(alloc, language, term.kind, term.index, &args)?;
    Ok(id)
}

fn term_at(terms: &[Term], k: usize) -> &Term
    requires { k < length terms.now }
    ensures { slice_get terms.now k ≡ Some result.now }
{
    &terms[k]
}

fn step_at(steps: &[Step], i: usize) -> &Step
    requires { i < length steps.now }
    ensures { slice_get steps.now i ≡ Some result.now }
{
    &steps[i]
}

/// Whether the term names only terms that have a name.
fn names_lower(term: &Term, names: &[u32]) -> bool
    ensures yes { IsTrue result → All (λ a. a < length names.now) term.now.args }
    ensures no { result ≡ false → All (λ a. a < length names.now) term.now.args → ⊥ }
{
    are_below(term.args.numbers(), names.len())
}

/// Whether the step's clause names only terms that have a name.
fn is_named(step: &Step, names: &[u32]) -> bool
    ensures yes { IsTrue result → NamesTerms (length names.now) step.now.clause }
    ensures no { result ≡ false → NamesTerms (length names.now) step.now.clause → ⊥ }
{
    names_terms(step.clause.literals(), names.len())
}

/// Puts the condition's own terms into the graph, up to the limit. Whether all are there.
fn put_own(
    alloc: Global,
    language: &Language,
    own: &Graph,
    space: &mut Space,
    names: &mut Vec<u32>,
) -> Result<bool, AllocError>
    requires none { names.old.items ≡ [] }
    requires limit { IsWithinLimit space.old }
    ensures put { IfOk result (PutsOwn own.now space.new names.new.items) }
    ensures few { IfOk result (λ fits. IsTrue fits → IsWithinLimit space.new) }
    ensures kept { Keeps language.now space.old space.new }
    ensures sorted { OnOk result (StaysSorted language.now space.old space.new) }
{
    own.known();
    for i in 0..own.len() {
        let id = put(alloc, language, names, own.node(i as u32), space)?;
        names.push(id)?;
        if space.is_past_limit() {
            return Ok(false);
        }
    }
    Ok(true)
}

/// Puts the added terms into the graph, up to the first bad one or the limit.
fn put_added(
    alloc: Global,
    language: &Language,
    added: &[Term],
    space: &mut Space,
    names: &mut Vec<u32>,
) -> Result<Option<Stop>, AllocError>
    requires limit { IsWithinLimit space.old }
    ensures put { IfOk result (PutsAdded language.now added.now space.old names.old.items space.new names.new.items) }
    ensures few { IfOk result (IfNone (IsWithinLimit space.new)) }
    ensures kept { Keeps language.now space.old space.new }
    ensures sorted { OnOk result (StaysSorted language.now space.old space.new) }
{
    for k in 0..added.len() {
        let term = term_at(added, k);
        if !names_lower(term, names) {
            return Ok(Some(Stop::BadTerm(k)));
        }
        let id = put(alloc, language, names, term, space)?;
        if !space.has_sort(id) {
            return Ok(Some(Stop::BadTerm(k)));
        }
        names.push(id)?;
        if space.is_past_limit() {
            return Ok(Some(Stop::Limit));
        }
    }
    Ok(None)
}

/// Puts the terms of a block into the graph, up to the first bad one or the limit.
fn put_terms(
    alloc: Global,
    language: &Language,
    own: &Graph,
    added: &[Term],
    space: &mut Space,
    names: &mut Vec<u32>,
) -> Result<Option<Stop>, AllocError>
    requires none { names.old.items ≡ [] }
    ensures put { IfOk result (PutsTerms language.now own.now added.now space.old space.new names.new.items) }
    ensures few { IfOk result (IfNone (IsWithinLimit space.new)) }
    ensures kept { Keeps language.now space.old space.new }
    ensures sorted { OnOk result (StaysSorted language.now space.old space.new) }
{
    if space.is_past_limit() {
        return Ok(Some(Stop::Limit));
    }
    let fits = put_own(alloc, language, own, space, names)?;
    if !fits {
        return Ok(Some(Stop::Limit));
    }
    let stop = put_added(alloc, language, added, space, names)?;
    Ok(stop)
}

/// The node of the instance that the step speaks of; none where there is none, or where it is no truth value.
fn put_instance(
    alloc: Global,
    theory: Theory<'_>,
    names: &[u32],
    step: &Step,
    space: &mut Space,
) -> Result<Option<u32>, AllocError>
    ensures exact { (l : Meant) (trees : List Formula) → IsTheory theory.entry l → IsSorted l space.old → StandAll space.old.graph names.now trees → IfOk result (IsNode space.new.graph (instance_in l trees step.now)) }
    ensures kept { Keeps theory.entry.language.now space.old space.new }
    ensures sorted { OnOk result (StaysSorted theory.entry.language.now space.old space.new) }
{
    if step.rule != RuleName::Axiom {
        return Ok(None);
    }
    let [number, part, rest @ ..] = step.numbers.as_slice() else {
        return Ok(None);
    };
    let Some((_, args)) = rest.split_last() else {
        return Ok(None);
    };
    let id = space.add_instance(alloc, theory, names, *number, *part, args)?;
    Ok(truth_value(space, id))
}

/// The node, where it is a truth value.
fn truth_value(space: &Space, id: Option<u32>) -> Option<u32>
    ensures { (l : Meant) (f : Option Formula) → IsSorted l space.now → IsNode space.now.graph f id → IsNode space.now.graph (option_and_then (truths l) f) result }
{
    let Some(id) = id else {
        return None;
    };
    if space.is_truth(id) { Some(id) } else { None }
}

/// Lays out the steps over the names, up to the limit or the first whose clause names no term.
fn put_steps(
    alloc: Global,
    theory: Theory<'_>,
    names: &[u32],
    steps: &[Step],
    space: &mut Space,
    loaded: &mut Vec<LoadedStep>,
    clauses: &mut Vec<Clause>,
) -> Result<Option<Stop>, AllocError>
    requires none { loaded.old.items ≡ [] }
    requires no_clauses { clauses.old.items ≡ [] }
    requires limit { IsWithinLimit space.old }
    ensures put { IfOk result (PutsSteps theory.entry names.now steps.now space.old space.new loaded.new.items clauses.new.items) }
    ensures began { IfOk result (λ stop. has_steps stop ≡ true) }
    ensures kept { Keeps theory.entry.language.now space.old space.new }
    ensures sorted { OnOk result (StaysSorted theory.entry.language.now space.old space.new) }
{
    for i in 0..steps.len() {
        let step = step_at(steps, i);
        let instance = put_instance(alloc, theory, names, step, space)?;
        if space.is_past_limit() {
            return Ok(Some(Stop::LimitAt(i)));
        }
        if !is_named(step, names) {
            return Ok(Some(Stop::UnnamedAt(i)));
        }
        let numbers = numbers_over(alloc, names, step.rule, step.numbers.as_slice())?;
        let clause = clause_over(alloc, names, step.clause.literals())?;
        loaded.push(LoadedStep {
            rule: step.rule,
            numbers,
            instance,
        })?;
        clauses.push(clause)?;
    }
    Ok(None)
}

/// Puts more terms into the graph, behind those that have these names, and names them, up to the first bad one or the
/// limit.
///
/// # Errors
/// Where memory is refused.
pub fn load_terms(
    alloc: Global,
    language: &Language,
    added: &[Term],
    space: &mut Space,
    names: &mut Vec<u32>,
) -> Result<Option<Stop>, AllocError>
    ensures put { IfOk result (PutsBehind language.now added.now space.old names.old.items space.new names.new.items) }
    ensures few { IfOk result (IfNone (IsWithinLimit space.new)) }
    ensures kept { Keeps language.now space.old space.new }
    ensures sorted { OnOk result (Sorts language.now space.old space.new) }
{
    space.sort_all(alloc, language)?;
    if space.is_past_limit() {
        return Ok(Some(Stop::Limit));
    }
    let stop = put_added(alloc, language, added, space, names)?;
    Ok(stop)
}

/// The node of the block's root, where it has one.
fn root_node(names: &[u32], root: Option<u32>) -> Option<u32>
    ensures { result ≡ option_map (named_by names.now) root }
{
    match root {
        Some(root) => Some(node_of(names, root)),
        None => None,
    }
}

/// Lays out steps over the names of a block's terms: puts the instances of its `axiom` steps into the graph, up to the
/// limit, or a clause that names no term.
///
/// # Errors
/// Where memory is refused.
pub fn load_steps(
    alloc: Global,
    theory: Theory<'_>,
    names: &[u32],
    root: Option<u32>,
    steps: &[Step],
    space: &mut Space,
) -> Result<Loaded, AllocError>
    requires limit { IsWithinLimit space.old }
    ensures loaded { IfOk result (LoadsSteps theory.entry names.now root steps.now space.old space.new) }
    ensures began { IfOk result (λ loaded. has_steps loaded.stop ≡ true) }
    ensures kept { Keeps theory.entry.language.now space.old space.new }
    ensures sorted { OnOk result (StaysSorted theory.entry.language.now space.old space.new) }
{
    let mut laid = Vec::new(alloc);
    let mut list = Vec::new(alloc);
    let stop = put_steps(alloc, theory, names, steps, space, &mut laid, &mut list)?;
    space.known();
    let root = root_node(names, root);
    Ok(Loaded {
        stop,
        clauses: Clauses { root, list },
        steps: laid,
    })
}

/// A block whose terms were not all loaded.
fn without_steps(alloc: Global, stop: Stop) -> Loaded
    ensures { result.stop ≡ Some stop }
{
    Loaded {
        stop: Some(stop),
        clauses: Clauses {
            root: None,
            list: Vec::new(alloc),
        },
        steps: Vec::new(alloc),
    }
}

/// Loads a block of the condition with these own terms and this root: puts its terms into the graph, the condition's
/// own and then the added ones, and the instances of its `axiom` steps, and lays out its steps, up to the first bad
/// term, the limit, or a clause that names no term.
///
/// # Errors
/// Where memory is refused.
pub fn load(
    alloc: Global,
    theory: Theory<'_>,
    own: &Graph,
    root: u32,
    block: &Refutation,
    space: &mut Space,
) -> Result<Loaded, AllocError>
    ensures loaded { (l : Meant) → IsTheory theory.entry l → KnowsSorts l space.old → IfOk result (IsLoaded l own.now (Some root) block.now space.new) }
    ensures kept { Keeps theory.entry.language.now space.old space.new }
    ensures sorted { OnOk result (Sorts theory.entry.language.now space.old space.new) }
{
    space.sort_all(alloc, theory.language)?;
    let mut names = Vec::new(alloc);
    let stop = put_terms(
        alloc,
        theory.language,
        own,
        block.terms(),
        space,
        &mut names,
    )?;
    if let Some(stop) = stop {
        return Ok(without_steps(alloc, stop));
    }
    let loaded = load_steps(alloc, theory, &names, Some(root), block.steps(), space)?;
    Ok(loaded)
}
