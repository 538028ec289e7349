//! Quantified formulas by their numbers.

ghost use Rattle.std.specs.Prelude.{◌≡◌, suc, nat_le, if◌then◌else◌, IfOk, List};
ghost use Rattle.conditions.specs.Quantified.{QuantifiedFormula, find_quantifier};
ghost use Rattle.condition_meaning.specs.Languages.{formula_of, formulas_from};
ghost use Rattle.condition_formulas.specs.Standing.{Later};
ghost use Rattle.program_quantifiers.specs.Quantifiers.{AreQuantified};
ghost use Rattle.program_language.specs.Numbered.{bound_of, IsBody, AreBodies};

use condition_formulas::formulas::truth;
use quantified_formulas::quantified::Quantified;
use std::alloc::{AllocError, Global};
use term_graph::graph::Graph;
use terms::sort::Sorts;

/// A quantified formula without its number: the sorts of its holes, and the node of its body.
#[derive(Drop)]
pub struct Body {
    pub holes: Sorts,
    pub body: u32,
}

/// Quantified formulas by their numbers.
#[derive(Drop)]
pub struct Bodies {
    pub holes: Vec<Sorts>,
    pub bodies: Vec<u32>,
}

/// The bound, or one more than the number, where that is greater.
fn above(bound: usize, number: u32) -> usize
    ensures { result ≡ (if nat_le (suc number) bound then bound else suc number) }
{
    let next = number as usize + 1;
    if next <= bound {
        return bound;
    }
    next
}

/// One more than the greatest number of these formulas.
#[tactic(auto, using(crate::proofs::Finding::bound_first))]
pub fn number_bound(formulas: &[Quantified]) -> usize
    ensures { result ≡ bound_of formulas.now }
{
    let mut bound = 0;
    let mut i = formulas.len();
    while i > 0 {
        i -= 1;
        bound = above(bound, formulas[i].number);
    }
    bound
}

/// The formula without its number.
fn body_of(alloc: Global, formula: &Quantified) -> Result<Body, AllocError>
    ensures holes { IfOk result (λ b. b.holes ≡ formula.now.arguments.items) }
    ensures body { IfOk result (λ b. b.body ≡ formula.now.body) }
{
    let sorts = Vec::from_slice(alloc, &formula.arguments)?;
    Ok(Body {
        holes: Sorts::new(sorts),
        body: formula.body,
    })
}

/// The first formula with this number; truth where none has it.
fn body_at(
    alloc: Global,
    graph: &mut Graph,
    formulas: &[Quantified],
    number: usize,
) -> Result<Body, AllocError>
    ensures stands { (qs : List QuantifiedFormula) → AreQuantified graph.old formulas.now qs →
        IfOk result (λ b. IsBody graph.new b (formula_of (find_quantifier number qs))) }
    ensures later { Later graph.old graph.new }
{
    for formula in formulas {
        let own = formula.number as usize;
        if own == number {
            return body_of(alloc, formula);
        }
    }
    let body = truth(graph)?;
    let sorts = Vec::new(alloc);
    let holes = Sorts::new(sorts);
    Ok(Body { holes, body })
}

/// The formulas with the numbers below `count`, by their numbers.
pub fn bodies_below(
    alloc: Global,
    graph: &mut Graph,
    formulas: &[Quantified],
    count: usize,
) -> Result<Bodies, AllocError>
    ensures stands { (qs : List QuantifiedFormula) → AreQuantified graph.old formulas.now qs →
        IfOk result (λ b. AreBodies graph.new b.holes.items b.bodies.items (formulas_from qs 0 count)) }
    ensures later { Later graph.old graph.new }
{
    let mut holes = Vec::new(alloc);
    let mut bodies = Vec::new(alloc);
    for number in 0..count {
        let one = body_at(alloc, graph, formulas, number)?;
        holes.push(one.holes)?;
        bodies.push(one.body)?;
    }
    Ok(Bodies { holes, bodies })
}
