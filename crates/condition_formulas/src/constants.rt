//! The constants of a formula.

ghost use Rattle.std.specs.Prelude.{◌≡◌, ◌≤◌, ◌<◌, [], IfOk, OnOk, length};
ghost use Rattle.terms.specs.Formula.{Formula};
ghost use Rattle.conditions.specs.Formulas as spec;
ghost use Rattle.condition_formulas.specs.Standing.{StandsAs};
ghost use Rattle.condition_formulas.specs.Walks.{AreSeen};

use std::alloc::{AllocError, Global};
use term_graph::graph::Graph;
use terms::term::{Kind, Term};

/// Whether a node of the kind is a constant: integer, reference or heap.
fn is_constant(kind: Kind) -> bool
    ensures { result ≡ spec.is_constant kind }
{
    match kind {
        Kind::Ci | Kind::Cr | Kind::Ch => true,
        _ => false,
    }
}

/// Whether the number is in the list.
fn is_number(n: u128, numbers: &[u128]) -> bool
    ensures { result ≡ spec.is_number n numbers.now }
{
    for number in numbers {
        if n == *number {
            return true;
        }
    }
    false
}

/// Puts a constant's number behind the others, where it isn't there.
fn add_number(constant: &Term, found: &mut Vec<u128>) -> Result<(), AllocError>
    ensures { OnOk result (found.new.items ≡ spec.with_number constant.now.index found.old.items) }
{
    let index = constant.index;
    if index < 0 {
        return Ok(());
    }
    let n = index as u128;
    if is_number(n, found) {
        return Ok(());
    }
    found.push(n)?;
    Ok(())
}

/// Adds the numbers of the constants of a node's formula, each once, and marks the nodes that it was at.
fn visit(
    graph: &Graph,
    id: u32,
    seen: &mut Vec<bool>,
    found: &mut Vec<u128>,
) -> Result<(), AllocError>
    requires { length seen.old.items ≤ length graph.now }
    ensures len { length seen.new.items ≡ length seen.old.items }
    ensures found { (f : Formula) → id < length seen.old.items → StandsAs graph.now id f → AreSeen graph.now seen.old.items found.old.items → OnOk result (found.new.items ≡ spec.constants f found.old.items) }
    ensures seen { (f : Formula) → id < length seen.old.items → StandsAs graph.now id f → AreSeen graph.now seen.old.items found.old.items → OnOk result (AreSeen graph.now seen.new.items found.new.items) }
{
    let at = id as usize;
    if at >= seen.len() || seen[at] {
        return Ok(());
    }
    let node = graph.node(id);
    if is_constant(node.kind) {
        add_number(node, found)?;
        seen[at] = true;
        return Ok(());
    }
    for arg in node.args.numbers() {
        visit(graph, *arg, seen, found)?;
    }
    seen[at] = true;
    Ok(())
}

/// The numbers of the constants of a formula, each once, in the order in which they first stand.
pub fn constants(alloc: Global, graph: &Graph, id: u32) -> Result<Vec<u128>, AllocError>
    ensures { (f : Formula) → StandsAs graph.now id f → IfOk result (λ ns. ns.items ≡ spec.constants f []) }
{
    let mut seen = Vec::new(alloc);
    seen.resize(graph.len(), false)?;
    let mut found = Vec::new(alloc);
    visit(graph, id, &mut seen, &mut found)?;
    Ok(found)
}
