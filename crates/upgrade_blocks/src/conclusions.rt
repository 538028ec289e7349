//! What a step concludes.

ghost use Rattle.std.specs.Prelude.{◌≡◌, ◌<◌, List, Option, Some, length, slice_get, option_map, option_and_then, IfOk, OnOk};
ghost use Rattle.terms.specs.declared.term.Term.{Term};
ghost use Rattle.terms.specs.Formula.{Formula};
ghost use Rattle.term_graph.specs.Graph.{IsGraph};
ghost use Rattle.term_meaning.specs.Meaning.{Language as Meant};
ghost use Rattle.condition_formulas.specs.Standing.{StandAll};
ghost use Rattle.block_layout.specs.Space.{IsSorted, IsTheory, Keeps, StaysSorted};
ghost use Rattle.block_layout.specs.Layout.{IsNode, instance_in, truth_value as truths};
ghost use Rattle.certificate_upgrade.specs.Conclusions as spec;
ghost use Rattle.upgrade_blocks.specs.Nodes.{at_literal, at_number};

use crate::arguments::name_at;
use block_layout::space::{Space, Theory};
use cert_format::certificate::{RuleName, Step};
use std::alloc::{AllocError, Global};
use terms::numbers::index_below;
use terms::term::Literal;

/// The node, where it is a truth value.
fn truth_value(space: &Space, id: Option<u32>) -> Option<u32>
    ensures { (l : Meant) (f : Option Formula) → IsSorted l space.now → IsNode space.now.graph f id →
        IsNode space.now.graph (option_and_then (truths l) f) result }
{
    let Some(id) = id else {
        return None;
    };
    if space.is_truth(id) { Some(id) } else { None }
}

/// The node of the instance that the step speaks of; none where there is none, or where it is no truth value.
fn put_instance(
    alloc: Global,
    theory: Theory<'_>,
    names: &[u32],
    step: &Step,
    space: &mut Space,
) -> Result<Option<u32>, AllocError>
    ensures exact { (l : Meant) (trees : List Formula) → IsTheory theory.entry l → IsSorted l space.old →
        StandAll space.old.graph names.now trees →
        IfOk result (IsNode space.new.graph (instance_in l trees step.now)) }
    ensures kept { Keeps theory.entry.language.now space.old space.new }
    ensures sorted { OnOk result (StaysSorted theory.entry.language.now space.old space.new) }
{
    if step.rule != RuleName::Axiom {
        return Ok(None);
    }
    let [number, part, rest @ ..] = step.numbers.as_slice() else {
        return Ok(None);
    };
    let Some((_, args)) = rest.split_last() else {
        return Ok(None);
    };
    let id = space.add_instance(alloc, theory, names, *number, *part, args)?;
    Ok(truth_value(space, id))
}

/// What a number of a step names.
fn name_of(names: &[u32], number: i128) -> Option<u32>
    ensures { result ≡ at_number names.now number }
{
    match index_below(number, names.len()) {
        Some(place) => Some(names[place]),
        None => None,
    }
}

/// What the number at this place names.
fn name_in(names: &[u32], numbers: &[i128], i: usize) -> Option<u32>
    requires { i < length numbers.now }
    ensures { Some result ≡ option_map (at_number names.now) (slice_get numbers.now i) }
{
    name_of(names, numbers[i])
}

/// The node that the last of the numbers names.
fn last_node(names: &[u32], numbers: &[i128]) -> Option<u32>
    ensures { (ts : List Term) (trees : List Formula) → StandAll ts names.now trees →
        IsNode ts (spec.last_tree trees numbers.now) result }
{
    if numbers.is_empty() {
        return None;
    }
    name_in(names, numbers, numbers.len() - 1)
}

/// The node that a literal says is true.
fn literal_node(names: &[u32], literal: Literal) -> Option<u32>
    ensures { result ≡ at_literal names.now literal }
{
    if !literal.positive {
        return None;
    }
    name_at(names, literal.term as u128)
}

fn first_of(clause: &[Literal]) -> Literal
    requires { 0 < length clause.now }
    ensures { slice_get clause.now 0 ≡ Some result }
{
    clause[0]
}

/// The node that a clause says is true, where it has one literal.
#[tactic(auto, using(crate::proofs::Nodes::no_clause))]
fn clause_node(names: &[u32], clause: &[Literal]) -> Option<u32>
    ensures { (ts : List Term) (trees : List Formula) → StandAll ts names.now trees →
        IsNode ts (spec.clause_tree trees clause.now) result }
{
    let count = clause.len();
    if count != 1 {
        return None;
    }
    literal_node(names, first_of(clause))
}

/// The node that both are.
fn both_are(left: Option<u32>, right: Option<u32>) -> Option<u32>
    ensures { (ts : List Term) (f g : Option Formula) → IsGraph ts → IsNode ts f left → IsNode ts g right →
        IsNode ts (spec.both_are f g) result }
{
    let Some(first) = left else {
        return None;
    };
    let Some(second) = right else {
        return None;
    };
    if first != second {
        return None;
    }
    Some(first)
}

/// The node of the space that the step concludes.
pub fn conclusion(
    alloc: Global,
    theory: Theory<'_>,
    names: &[u32],
    step: &Step,
    space: &mut Space,
) -> Result<Option<u32>, AllocError>
    ensures exact { (l : Meant) (trees : List Formula) → IsTheory theory.entry l → IsSorted l space.old →
        StandAll space.old.graph names.now trees →
        IfOk result (IsNode space.new.graph (spec.conclusion l trees step.now)) }
    ensures kept { Keeps theory.entry.language.now space.old space.new }
    ensures sorted { OnOk result (StaysSorted theory.entry.language.now space.old space.new) }
{
    let instance = put_instance(alloc, theory, names, step, space)?;
    space.known();
    let last = last_node(names, step.numbers.as_slice());
    let clause = clause_node(names, step.clause.literals());
    let named = both_are(last, clause);
    let node = both_are(instance, named);
    Ok(node)
}
