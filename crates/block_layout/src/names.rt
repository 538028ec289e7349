//! What a block's numbers name.

ghost use Rattle.std.specs.Prelude.{◌≡◌, ℕ, ◌≤◌, ◌<◌, ◌↔◌, IsTrue, All, map, take, drop, length, IfOk, nat_lt};
ghost use Rattle.terms.specs.declared.term.Literal.{Literal};
ghost use Rattle.block_layout.specs.Layout as spec;

use cert_format::certificate::RuleName;
use std::alloc::{AllocError, Global};
use terms::numbers::{Numbers, index_below};
use terms::term::{Clause, Literal};

/// A number that no node has.
pub const NO_NODE: u32 = 4_294_967_295;

/// The node that a number of the block names; `NO_NODE` where it names none.
pub fn node_of(names: &[u32], number: u32) -> u32
    ensures { result ≡ spec.node_of names.now number }
{
    if number as usize >= names.len() {
        return NO_NODE;
    }
    names[number as usize]
}

/// The same of a number of a step.
fn node_at(names: &[u32], number: i128) -> i128
    ensures { result ≡ spec.node_at names.now number }
{
    match index_below(number, names.len()) {
        Some(place) => i128::from(names[place]),
        None => i128::from(NO_NODE),
    }
}

/// The nodes that these numbers of a step name.
fn nodes_at(alloc: Global, names: &[u32], numbers: &[i128]) -> Result<Vec<i128>, AllocError>
    ensures { IfOk result (λ nodes. nodes.items ≡ map (spec.node_at names.now) numbers.now) }
{
    let mut nodes = Vec::new(alloc);
    for number in numbers {
        nodes.push(node_at(names, *number))?;
    }
    Ok(nodes)
}

/// The nodes that the numbers of a term's arguments name.
pub fn nodes_of(alloc: Global, names: &[u32], numbers: &[u32]) -> Result<Vec<u32>, AllocError>
    ensures { IfOk result (λ ids. ids.items ≡ map (spec.node_of names.now) numbers.now) }
{
    let mut nodes = Vec::new(alloc);
    for number in numbers {
        nodes.push(node_of(names, *number))?;
    }
    Ok(nodes)
}

/// Whether each number is one of so many terms.
pub fn are_below(numbers: &[u32], count: usize) -> bool
    ensures { IsTrue result ↔ All (λ a. a < count) numbers.now }
{
    numbers.iter().all(|a| (*a as usize) < count)
}

/// Whether each literal names one of so many terms.
pub fn names_terms(clause: &[Literal], count: usize) -> bool
    ensures { IsTrue result ↔ spec.NamesTerms count clause.now }
{
    clause.iter().all(|l| (l.term as usize) < count)
}

/// The clause over the nodes.
pub fn clause_over(alloc: Global, names: &[u32], clause: &[Literal]) -> Result<Clause, AllocError>
    ensures { IfOk result (λ c. c ≡ spec.clause_over names.now clause.now) }
{
    let mut literals = Vec::new(alloc);
    for literal in clause {
        literals.push(Literal {
            term: node_of(names, literal.term),
            positive: literal.positive,
        })?;
    }
    Ok(Clause::new(literals))
}

fn names_key(numbers: &[i128]) -> bool
    ensures { result ≡ spec.names_key numbers.now }
{
    match numbers.first() {
        Some(number) => *number == 2,
        None => false,
    }
}

/// How many of a step's numbers stand before those that name terms.
fn leading(rule: RuleName, numbers: &[i128]) -> usize
    ensures { result ≡ spec.leading rule numbers.now }
{
    match rule {
        RuleName::Conn => 1,
        RuleName::Map => { if names_key(numbers) { 2 } else { 1 } }
        RuleName::Refl | RuleName::Sym | RuleName::Trans | RuleName::Cong | RuleName::Split => 0,
        RuleName::Axiom => numbers.len().saturating_sub(1),
        RuleName::Root | RuleName::Chain | RuleName::Linear | RuleName::Cut | RuleName::Lemma => {
            numbers.len()
        }
    }
}

/// The first numbers, so many, and the others.
#[tactic(auto, using(crate::proofs::Lists::take_all, crate::proofs::Lists::drop_all))]
fn split(numbers: &[i128], first: usize) -> (&[i128], &[i128])
    ensures front { result.0.now ≡ take first numbers.now }
    ensures rest { result.1.now ≡ drop first numbers.now }
{
    if first >= numbers.len() {
        return (numbers, &[]);
    }
    numbers.split_at(first)
}

/// A step's numbers over the nodes.
pub fn numbers_over(
    alloc: Global,
    names: &[u32],
    rule: RuleName,
    numbers: &[i128],
) -> Result<Numbers, AllocError>
    ensures { IfOk result (λ ns. ns ≡ spec.numbers_over names.now rule numbers.now) }
{
    let (front, rest) = split(numbers, leading(rule, numbers));
    let mut laid = Vec::from_slice(alloc, front)?;
    let nodes = nodes_at(alloc, names, rest)?;
    laid.extend_from_slice(&nodes)?;
    Ok(Numbers::new(laid))
}
