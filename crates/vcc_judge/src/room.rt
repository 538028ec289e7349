//! One condition, judged by its block.

ghost use Rattle.std.specs.Prelude.{◌≡◌, List};
ghost use Rattle.cert_format.specs.Derivations.{Derivation};
ghost use Rattle.terms.specs.Formula.{Formula};
ghost use Rattle.condition_formulas.specs.Standing.{StandsAs};
ghost use Rattle.condition_meaning.specs.Languages.{language_of};
ghost use Rattle.block_layout.specs.Space.{IsTheory};
ghost use Rattle.block_layout.specs.declared.space.Theory.{Theory};
ghost use Rattle.vcc_judge.specs.Faults.{fault_of, is_follows as is_follows_of};
ghost use Rattle.vcc_judge.specs.Shows.{IsReady, IsSomeReady, MakesReady, Shows};

use crate::verdict::JudgeFault;
use block_layout::space::{Space, Theory};
use cert_format::certificate::Refutation;
use graph_numbering::numbering::number;
use graph_numbering::places::Places;
use refutation_check::answer::{Answer, CheckFault};
use refutation_check::check::check_one;
use refutation_check::held::Lemmas;
use refutation_check::lemmas::check_lemmas;
use std::alloc::Global;
use term_graph::graph::Graph;

fn is_follows(answer: Answer) -> bool
    ensures { result ≡ is_follows_of answer }
{
    match answer {
        Answer::Follows => true,
        Answer::BadTerm(_) => false,
        Answer::FailsAt(_) => false,
    }
}

fn judge_fault(fault: CheckFault) -> JudgeFault
    ensures { result ≡ fault_of fault }
{
    match fault {
        CheckFault::Limit => JudgeFault::Terms,
        CheckFault::Wide(wide) => JudgeFault::Wide(wide),
        CheckFault::OutOfMemory => JudgeFault::OutOfMemory,
    }
}

/// What conditions are judged in, one after the other: the space that their blocks are laid out in, behind the terms of
/// the lemmas, what is held of these, and room for the conditions' numbering.
#[derive(Drop)]
pub struct Room {
    pub alloc: Global,
    pub space: Space,
    pub lemmas: Lemmas,
    pub places: Places,
}

impl Room {
    /// With a certificate's lemmas, which are judged.
    ///
    /// # Errors
    /// `Terms`, where they need more than 1,048,576 terms; `Wide`, where a number leaves 128 bits; `OutOfMemory`, where
    /// memory is refused.
    pub fn new(alloc: Global, theory: Theory<'_>, lemmas: &[Refutation]) -> Result<Room, JudgeFault>
        requires { IsTheory theory (language_of theory.program.now) }
        ensures { MakesReady theory.entry lemmas.now result }
    {
        let mut space = Space::new(alloc);
        match check_lemmas(alloc, theory, lemmas, &mut space) {
            Ok(lemmas) => Ok(Room {
                alloc,
                space,
                lemmas,
                places: Places::new(alloc),
            }),
            Err(fault) => Err(judge_fault(fault)),
        }
    }

    /// Whether the condition, a formula of the graph, follows by the block and the lemmas. Nothing is kept of it.
    ///
    /// # Errors
    /// `Terms`, where it needs more than 1,048,576 terms; `Wide`, where a number leaves 128 bits; `OutOfMemory`, where
    /// memory is refused.
    #[tactic(auto, using(crate::proofs::Shown::refused_shows))]
    pub fn follows(
        &mut self,
        theory: Theory<'_>,
        graph: &Graph,
        condition: u32,
        block: &Refutation,
    ) -> Result<bool, JudgeFault>
        requires { IsSomeReady theory self.old }
        ensures shows { (lemmas : List Derivation) (f : Formula) → IsReady theory.entry lemmas self.old →
            StandsAs graph.now condition f → Shows (language_of theory.entry.program.now) lemmas f block.now result }
        ensures ready { (lemmas : List Derivation) → IsReady theory.entry lemmas self.old →
            IsReady theory.entry lemmas self.new }
    {
        let mut own = Graph::new(self.alloc);
        let root = number(graph, condition, &mut own, &mut self.places)?;
        let answer = check_one(
            self.alloc,
            theory,
            &self.lemmas,
            &own,
            root,
            block,
            &mut self.space,
        );
        match answer {
            Ok(answer) => Ok(is_follows(answer)),
            Err(fault) => Err(judge_fault(fault)),
        }
    }
}
