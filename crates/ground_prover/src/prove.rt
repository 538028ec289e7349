//! Proofs of conditions, each checked before it is answered.

ghost use Rattle.std.specs.Prelude.{◌≡◌, ◌↔◌, [], IsTrue, IfOk};
ghost use Rattle.terms.specs.Formula.{Formula, Numbers};
ghost use Rattle.term_meaning.specs.Meaning.{Language};
ghost use Rattle.condition_formulas.specs.Standing.{StandsAs};
ghost use Rattle.block_layout.specs.Space.{IsTheory};
ghost use Rattle.refutation_check.specs.Follows.{Follows};
ghost use Rattle.ground_prover.specs.Proving.{IsOfLanguage, Proves, ProvesValid, AnswersSmall};

use crate::find::{Finding, find};
use crate::proof::{Budget, Proof, ProveFault};
use crate::small::is_small;
use block_layout::space::{Space, Theory};
use cert_format::certificate::Refutation;
use graph_numbering::numbering::number;
use graph_numbering::places::Places;
use refutation_check::answer::{Answer, CheckFault};
use refutation_check::check::check_one;
use refutation_check::held::Lemmas;
use std::alloc::{AllocError, Global};
use term_graph::graph::Graph;

/// Whether the answer is that the condition follows.
fn is_follows(answer: Answer) -> bool
    ensures { IsTrue result ↔ (answer ≡ Answer.Follows) }
{
    match answer {
        Answer::Follows => true,
        Answer::BadTerm(_) => false,
        Answer::FailsAt(_) => false,
    }
}

/// What a fault of the checker comes to: no proof, unless memory was refused.
fn no_proof(fault: CheckFault) -> Result<bool, AllocError>
    ensures { IfOk result (λ yes. IsTrue yes → ⊥) }
{
    match fault {
        CheckFault::OutOfMemory => Err(AllocError),
        CheckFault::Limit => Ok(false),
        CheckFault::Wide(_) => Ok(false),
    }
}

/// Whether the checker says that the condition follows by the block.
fn follows(
    alloc: Global,
    theory: Theory<'_>,
    own: &Graph,
    root: u32,
    block: &Refutation,
) -> Result<bool, AllocError>
    requires { IsOfLanguage theory }
    ensures { (l : Language) (f : Formula) → IsTheory theory.entry l → Numbers f [] own.now root
        → IfOk result (λ yes. IsTrue yes → Follows l [] f block.now) }
{
    let mut space = Space::new(alloc);
    let lemmas = Lemmas::none(alloc);
    let answer = check_one(alloc, theory, &lemmas, own, root, block, &mut space);
    match answer {
        Ok(answer) => Ok(is_follows(answer)),
        Err(fault) => no_proof(fault),
    }
}

/// The proof by a block, where it is small and the checker says so.
fn check_block(
    alloc: Global,
    theory: Theory<'_>,
    own: &Graph,
    root: u32,
    block: Refutation,
) -> Result<Proof, ProveFault>
    requires { IsOfLanguage theory }
    ensures follows { (l : Language) (f : Formula) → IsTheory theory.entry l → Numbers f [] own.now root
        → Proves l f result }
    ensures counts { AnswersSmall result }
{
    if !is_small(&block) {
        return Ok(Proof::Spent);
    }
    let holds = follows(alloc, theory, own, root, &block)?;
    if !holds {
        return Ok(Proof::Spent);
    }
    Ok(Proof::Refuted(block))
}

/// What the search finds, as a proof: a block is checked first.
fn proof_of(
    alloc: Global,
    theory: Theory<'_>,
    own: &Graph,
    root: u32,
    finding: Finding,
) -> Result<Proof, ProveFault>
    requires { IsOfLanguage theory }
    ensures follows { (l : Language) (f : Formula) → IsTheory theory.entry l → Numbers f [] own.now root
        → Proves l f result }
    ensures counts { AnswersSmall result }
{
    match finding {
        Finding::Open => Ok(Proof::Open),
        Finding::Spent => Ok(Proof::Spent),
        Finding::Block(block) => check_block(alloc, theory, own, root, block),
    }
}

/// A proof of the condition that the root of the graph stands for: a block by which it follows, within the budget. The
/// places are room for its numbering.
///
/// # Errors
/// Where memory is refused.
pub fn prove(
    alloc: Global,
    theory: Theory<'_>,
    graph: &Graph,
    root: u32,
    budget: Budget,
    places: &mut Places,
) -> Result<Proof, ProveFault>
    requires { IsOfLanguage theory }
    ensures follows { (l : Language) (f : Formula) → IsTheory theory.entry l → StandsAs graph.now root f
        → Proves l f result }
    ensures valid { (l : Language) (f : Formula) → IsTheory theory.entry l → StandsAs graph.now root f
        → ProvesValid l f result }
    ensures counts { AnswersSmall result }
{
    let mut own = Graph::new(alloc);
    let place = number(graph, root, &mut own, places)?;
    let finding = find(alloc, theory, &own, place, budget)?;
    proof_of(alloc, theory, &own, place, finding)
}
