//! The search for a condition's block.

ghost use Rattle.std.specs.Prelude.{IfOk};
ghost use Rattle.terms.specs.Formula.{Formula};
ghost use Rattle.condition_formulas.specs.Standing.{StandsAs};
ghost use Rattle.condition_meaning.specs.Languages.{language_of};
ghost use Rattle.block_layout.specs.Space.{IsTheory};
ghost use Rattle.ground_prover.specs.Proving.{IsSmall};
ghost use Rattle.vcc_search.specs.Searches.{Finds, HasFewLiterals, IsWritable};

use crate::blocks::is_block;
use block_layout::space::Theory;
use cert_format::certificate::Refutation;
use graph_numbering::places::Places;
use ground_prover::proof::{Budget, Proof, ProveFault};
use ground_prover::prove::prove;
use std::alloc::Global;
use term_graph::graph::Graph;

/// The block, where it can stand in a certificate.
fn block_to_write(block: Refutation) -> Option<Refutation>
    requires { IsSmall block }
    ensures { IsWritable block result }
{
    if is_block(&block) {
        return Some(block);
    }
    None
}

/// A block by which the condition, a formula of the graph, follows; none where the budget doesn't lead to one.
///
/// # Errors
/// Where memory is refused.
pub fn search(
    alloc: Global,
    theory: Theory<'_>,
    graph: &Graph,
    condition: u32,
    budget: Budget,
    places: &mut Places,
) -> Result<Option<Refutation>, ProveFault>
    requires theory { IsTheory theory (language_of theory.program.now) }
    ensures finds { (f : Formula) → StandsAs graph.now condition f →
        IfOk result (λ o. Finds (language_of theory.entry.program.now) f o) }
    ensures few { IfOk result HasFewLiterals }
{
    let proof = prove(alloc, theory, graph, condition, budget, places)?;
    match proof {
        Proof::Refuted(block) => Ok(block_to_write(block)),
        Proof::Open => Ok(None),
        Proof::Spent => Ok(None),
    }
}
