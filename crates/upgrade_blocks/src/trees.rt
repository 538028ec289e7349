//! The terms of a block in a space of their own.

ghost use Rattle.std.specs.Prelude.{◌≡◌, ◌<◌, [], List, Option, Some, None, length, slice_get, option_and_then, if◌then◌else◌, IfOk, OnOk};
ghost use Rattle.terms.specs.Formula.{Formula};
ghost use Rattle.term_meaning.specs.Meaning.{Language as Meant};
ghost use Rattle.conditions.specs.Numbering as numbering;
ghost use Rattle.condition_formulas.specs.Standing.{StandsAs, StandAll};
ghost use Rattle.term_language.specs.Languages.{IsLanguage};
ghost use Rattle.block_layout.specs.Space.{IsSorted, Keeps, StaysSorted};
ghost use Rattle.block_layout.specs.Trees.{has_sort, sorted_tree, tree_over};
ghost use Rattle.block_layout.specs.Layout.{IsNode};
ghost use Rattle.certificate_upgrade.specs.Conclusions.{or_empty, trees_from};
ghost use Rattle.upgrade_blocks.specs.Trees.{PutsAll, own_then};

use block_layout::names::{are_below, nodes_of};
use block_layout::space::Space;
use graph_numbering::numbering::number;
use graph_numbering::places::Places;
use std::alloc::{AllocError, Global};
use term_graph::graph::Graph;
use term_language::language::Language;
use terms::term::Term;

/// The terms of the condition that the node of the graph stands for.
pub fn own_terms(
    alloc: Global,
    graph: &Graph,
    condition: u32,
    places: &mut Places,
) -> Result<Graph, AllocError>
    ensures { (f : Formula) → StandsAs graph.now condition f →
        IfOk result (λ own. own ≡ (numbering.number f []).terms) }
{
    let mut own = Graph::new(alloc);
    number(graph, condition, &mut own, places)?;
    own.known();
    Ok(own)
}

/// The node of a term, whose numbers name these nodes; none where one of them names none.
fn put_term(
    alloc: Global,
    language: &Language,
    names: &[u32],
    term: &Term,
    space: &mut Space,
) -> Result<Option<u32>, AllocError>
    ensures exact { (trees : List Formula) → StandAll space.old.graph names.now trees →
        IfOk result (IsNode space.new.graph (tree_over trees term.now)) }
    ensures kept { Keeps language.now space.old space.new }
    ensures sorted { OnOk result (StaysSorted language.now space.old space.new) }
{
    let numbers = term.args.numbers();
    if !are_below(numbers, names.len()) {
        return Ok(None);
    }
    let args = nodes_of(alloc, names, numbers)?;
    let id = space.add(alloc, language, term.kind, term.index, &args)?;
    Ok(Some(id))
}

/// The node, where it has a sort.
fn if_sorted(space: &Space, id: Option<u32>) -> Option<u32>
    ensures { (l : Meant) (f : Option Formula) → IsSorted l space.now → IsNode space.now.graph f id →
        IsNode space.now.graph (option_and_then (λ g. if has_sort l g then Some g else None) f) result }
{
    let Some(id) = id else {
        return None;
    };
    if space.has_sort(id) { Some(id) } else { None }
}

/// The same, where the term has a sort.
fn put_sorted(
    alloc: Global,
    language: &Language,
    names: &[u32],
    term: &Term,
    space: &mut Space,
) -> Result<Option<u32>, AllocError>
    ensures exact { (l : Meant) (trees : List Formula) → IsLanguage language.now l → IsSorted l space.old →
        StandAll space.old.graph names.now trees → IfOk result (IsNode space.new.graph (sorted_tree l trees term.now)) }
    ensures kept { Keeps language.now space.old space.new }
    ensures sorted { OnOk result (StaysSorted language.now space.old space.new) }
{
    let id = put_term(alloc, language, names, term, space)?;
    Ok(if_sorted(space, id))
}

/// Puts the condition's own terms into the space, and names them. Whether each has a tree.
fn put_own(
    alloc: Global,
    language: &Language,
    own: &Graph,
    space: &mut Space,
    names: &mut Vec<u32>,
) -> Result<bool, AllocError>
    ensures put { (first : List Formula) → StandAll space.old.graph names.old.items first →
        IfOk result (PutsAll space.new.graph names.new.items (trees_from tree_over first own.now)) }
    ensures kept { Keeps language.now space.old space.new }
    ensures sorted { OnOk result (StaysSorted language.now space.old space.new) }
{
    for i in 0..own.len() {
        let node = put_term(alloc, language, names, own.node(i as u32), space)?;
        let Some(id) = node else {
            return Ok(false);
        };
        names.push(id)?;
    }
    Ok(true)
}

fn term_at(terms: &[Term], i: usize) -> &Term
    requires { i < length terms.now }
    ensures { slice_get terms.now i ≡ Some result.now }
{
    &terms[i]
}

/// Puts the added terms into the space, and names them. Whether each has a tree with a sort.
fn put_added(
    alloc: Global,
    language: &Language,
    added: &[Term],
    space: &mut Space,
    names: &mut Vec<u32>,
) -> Result<bool, AllocError>
    ensures put { (l : Meant) (first : List Formula) → IsLanguage language.now l → IsSorted l space.old →
        StandAll space.old.graph names.old.items first →
        IfOk result (PutsAll space.new.graph names.new.items (trees_from (sorted_tree l) first added.now)) }
    ensures kept { Keeps language.now space.old space.new }
    ensures sorted { OnOk result (StaysSorted language.now space.old space.new) }
{
    for i in 0..added.len() {
        let node = put_sorted(alloc, language, names, term_at(added, i), space)?;
        let Some(id) = node else {
            return Ok(false);
        };
        names.push(id)?;
    }
    Ok(true)
}

/// Puts the terms of a block into the space, the condition's own and then the added ones, and names them. Whether each
/// has a tree, and each added one a tree with a sort.
fn put_terms(
    alloc: Global,
    language: &Language,
    own: &Graph,
    added: &[Term],
    space: &mut Space,
    names: &mut Vec<u32>,
) -> Result<bool, AllocError>
    requires { names.old.items ≡ [] }
    ensures put { (l : Meant) → IsLanguage language.now l → IsSorted l space.old →
        IfOk result (PutsAll space.new.graph names.new.items (own_then l own.now added.now)) }
    ensures sorted { OnOk result (StaysSorted language.now space.old space.new) }
{
    let whole = put_own(alloc, language, own, space, names)?;
    if !whole {
        return Ok(false);
    }
    let good = put_added(alloc, language, added, space, names)?;
    Ok(good)
}

/// The nodes of a block's terms, which are put into the space, the condition's own and then the added ones; none where
/// one of them is bad.
pub fn put_block(
    alloc: Global,
    language: &Language,
    own: &Graph,
    added: &[Term],
    space: &mut Space,
) -> Result<Vec<u32>, AllocError>
    ensures put { (l : Meant) → IsLanguage language.now l → IsSorted l space.old →
        IfOk result (λ names. StandAll space.new.graph names.items (or_empty (own_then l own.now added.now))) }
    ensures sorted { OnOk result (StaysSorted language.now space.old space.new) }
{
    let mut names = Vec::new(alloc);
    let whole = put_terms(alloc, language, own, added, space, &mut names)?;
    if !whole {
        return Ok(Vec::new(alloc));
    }
    Ok(names)
}
