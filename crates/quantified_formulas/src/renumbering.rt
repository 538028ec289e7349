//! Bodies whose constants have the numbers of arguments.

ghost use Rattle.std.specs.Prelude.{◌≡◌, if◌then◌else◌, IfOk, OnOk, FitsSigned, Some, None, slice_index_or, slice_set};
ghost use Rattle.std.specs.Int.{w128};
ghost use Rattle.terms.specs.Formula.{Formula};
ghost use Rattle.conditions.specs.Formulas as formulas;
ghost use Rattle.conditions.specs.Quantified as spec;
ghost use Rattle.condition_formulas.specs.Standing.{StandsAs, Later};
ghost use Rattle.quantified_formulas.specs.Renumbering.{AreRenumbered, index_by_place};

use condition_formulas::formulas::node;
use condition_formulas::lists::listed;
use std::alloc::{AllocError, Global};
use term_graph::graph::Graph;
use terms::term::{Kind, Term};

/// The place of the number among these; how many they are, where it isn't among them.
fn place_of(number: u128, places: &[u128]) -> usize
    ensures { result ≡ spec.place_from 0 number places.now }
{
    for (i, place) in places.iter().enumerate() {
        if number == *place {
            return i;
        }
    }
    places.len()
}

/// Whether a node of the kind is a constant: integer, reference or heap.
fn is_constant(kind: Kind) -> bool
    ensures { result ≡ formulas.is_constant kind }
{
    match kind {
        Kind::Ci | Kind::Cr | Kind::Ch => true,
        _ => false,
    }
}

/// The node's index; of a constant the place of its number.
fn index_by_place(node: &Term, places: &[u128]) -> i128
    ensures value { result ≡ index_by_place places.now node.now.kind node.now.index }
    ensures fits { FitsSigned w128 result }
{
    let index = node.index;
    if index < 0 || !is_constant(node.kind) {
        return index;
    }
    place_of(index as u128, places) as i128
}

/// What the node has become, where that is known.
fn known_at(known: &[Option<u32>], id: u32) -> Option<u32>
    ensures { result ≡ slice_index_or known.now id None }
{
    match known.get(id as usize) {
        Some(new) => *new,
        None => None,
    }
}

/// Notes what the node has become.
fn note(known: &mut Vec<Option<u32>>, id: u32, new: u32)
    ensures { known.new.items ≡ slice_set known.old.items id (Some new) }
{
    let at = id as usize;
    if at < known.len() {
        known[at] = Some(new);
    }
}

/// The node's formula with the numbers of its constants as their places; `known` is what its parts have become so far.
fn renumber(
    alloc: Global,
    graph: &mut Graph,
    known: &mut Vec<Option<u32>>,
    places: &[u128],
    id: u32,
) -> Result<u32, AllocError>
    ensures stands { (f : Formula) → StandsAs graph.old id f → AreRenumbered graph.old places.now known.old.items →
        IfOk result (λ new. StandsAs graph.new new (spec.renumber places.now f)) }
    ensures known { (f : Formula) → StandsAs graph.old id f → AreRenumbered graph.old places.now known.old.items →
        OnOk result (AreRenumbered graph.new places.now known.new.items) }
    ensures later { Later graph.old graph.new }
{
    if let Some(new) = known_at(known, id) {
        return Ok(new);
    }
    if id as usize >= graph.len() {
        return Ok(id);
    }
    let old = graph.node(id);
    let kind = old.kind;
    let index = index_by_place(old, places);
    let args = listed(alloc, old.args.numbers())?;
    let mut renumbered = Vec::new(alloc);
    for i in 0..args.len() {
        let arg = renumber(alloc, graph, known, places, args[i])?;
        renumbered.push(arg)?;
    }
    let new = node(graph, kind, index, &renumbered)?;
    note(known, id, new);
    Ok(new)
}

/// The formula with the numbers of its constants as their places among these.
pub fn renumbered(
    alloc: Global,
    graph: &mut Graph,
    places: &[u128],
    id: u32,
) -> Result<u32, AllocError>
    ensures stands { (f : Formula) → StandsAs graph.old id f →
        IfOk result (λ new. StandsAs graph.new new (spec.renumber places.now f)) }
    ensures later { Later graph.old graph.new }
{
    let mut known = Vec::new(alloc);
    known.resize(graph.len(), None)?;
    renumber(alloc, graph, &mut known, places, id)
}
