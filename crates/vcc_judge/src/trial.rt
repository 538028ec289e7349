//! A trial of a program's conditions, by blocks that come one after the other.

ghost use Rattle.std.specs.Prelude.{◌≡◌, ◌<◌, List, [], ◌∷◌, ◌++◌, length, slice_get, IfOk, MatchBool, Ok, Some};
ghost use Rattle.terms.specs.Formula.{Formula};
ghost use Rattle.term_meaning.specs.Meaning.{Language};
ghost use Rattle.method.specs.Labels as spec;
ghost use Rattle.cert_format.specs.Derivations.{Derivation};
ghost use Rattle.block_layout.specs.Space.{IsTheory};
ghost use Rattle.condition_meaning.specs.Languages.{language_of};
ghost use Rattle.check_labels.specs.Labels.{label_of, labels_of};
ghost use Rattle.vcc_judge.specs.Remaining.{Remains};
ghost use Rattle.vcc_judge.specs.Shows.{IsReady, IsSomeReady, Shows};
ghost use Rattle.vcc_judge.specs.Trials.{IsTried, Judges, MakesTrial};
ghost use Rattle.vcc_judge.specs.Verdicts.{IsOutcome};

use crate::room::Room;
use crate::sequence::Conditions;
use crate::verdict::{JudgeFault, Verdict};
use block_layout::space::Theory;
use cert_format::certificate::Refutation;
use check_labels::labels::ProgramLabel;
use std::alloc::{AllocError, Global};

fn label_at(labels: &[ProgramLabel], place: usize) -> ProgramLabel
    requires { place < length labels.now }
    ensures { slice_get labels.now place ≡ Some result }
{
    labels[place]
}

fn is_yes(outcome: &Result<Verdict, JudgeFault>) -> bool
    ensures { MatchBool result (outcome.now ≡ Ok Verdict.Yes) (outcome.now ≡ Ok Verdict.Yes → ⊥) }
{
    match outcome {
        Ok(Verdict::Yes) => true,
        Ok(Verdict::No(_)) => false,
        Err(_) => false,
    }
}

/// The outcome of a condition with this label, by whether it follows.
fn outcome_of(
    label: ProgramLabel,
    follows: Result<bool, JudgeFault>,
) -> Result<Result<Verdict, JudgeFault>, AllocError>
    ensures { (l : Language) (lemmas : List Derivation) (f : Formula) (block : Derivation) →
        Shows l lemmas f block follows →
        IfOk result (IsOutcome l lemmas (record { label = label_of label; formula = f }) block) }
{
    match follows {
        Ok(true) => Ok(Ok(Verdict::Yes)),
        Ok(false) => Ok(Ok(Verdict::No(label))),
        Err(JudgeFault::Terms) => Ok(Err(JudgeFault::Terms)),
        Err(JudgeFault::Wide(wide)) => Ok(Err(JudgeFault::Wide(wide))),
        Err(JudgeFault::OutOfMemory) => Err(AllocError),
    }
}

/// The conditions of a program that are still to be judged, and the room for that; how many blocks came, and their
/// outcome: yes while each condition follows by its block. Behind another outcome nothing more is judged.
#[derive(Drop)]
pub struct Trial {
    pub conditions: Conditions,
    pub room: Room,
    pub blocks: usize,
    pub outcome: Result<Verdict, JudgeFault>,
}

impl Trial {
    /// Before the first block, with a certificate's lemmas, which are judged.
    ///
    /// # Errors
    /// `Terms`, where they need more than 1,048,576 terms; `Wide`, where a number leaves 128 bits; `OutOfMemory`, where
    /// memory is refused.
    pub fn new(
        alloc: Global,
        theory: Theory<'_>,
        lemmas: &[Refutation],
    ) -> Result<Trial, JudgeFault>
        requires { IsTheory theory (language_of theory.program.now) }
        ensures { MakesTrial theory.entry lemmas.now result }
    {
        let room = Room::new(alloc, theory, lemmas)?;
        let conditions = Conditions::new(alloc);
        Ok(Trial {
            conditions,
            room,
            blocks: 0,
            outcome: Ok(Verdict::Yes),
        })
    }

    /// Judges the next condition, which has this label, by its block.
    fn judge_next(
        &mut self,
        theory: Theory<'_>,
        label: ProgramLabel,
        block: &Refutation,
    ) -> Result<(), AllocError>
        requires ready { IsSomeReady theory self.old.room }
        ensures judges { (lemmas : List Derivation) (f : Formula) (rest : List Formula) →
            IsReady theory.entry lemmas self.old.room →
            Remains theory.entry.program.now self.old.conditions (f ∷ rest) →
            IfOk result (λ u. Judges theory.entry.program.now lemmas label f rest block.now self.new) }
        ensures ready { (lemmas : List Derivation) → IsReady theory.entry lemmas self.old.room →
            IsReady theory.entry lemmas self.new.room }
        ensures blocks { self.new.blocks ≡ self.old.blocks }
    {
        let given = self.conditions.give(theory.program)?;
        let Some(condition) = given else {
            return Ok(());
        };
        let graph = self.conditions.graph();
        let follows = self.room.follows(theory, graph, condition, block);
        let outcome = outcome_of(label, follows)?;
        self.outcome = outcome;
        Ok(())
    }

    /// Takes the block of the next condition. It is judged while the outcome is yes, and nothing is kept of it.
    pub fn take_block(
        &mut self,
        theory: Theory<'_>,
        labels: &[ProgramLabel],
        block: &Refutation,
    ) -> Result<(), AllocError>
        requires ready { IsSomeReady theory self.old.room }
        requires labels { labels_of labels.now ≡ spec.program_labels theory.program.now }
        ensures tried { (lemmas blocks : List Derivation) → IsReady theory.entry lemmas self.old.room →
            IsTried theory.entry.program.now lemmas self.old blocks →
            IfOk result (λ u. IsTried theory.entry.program.now lemmas self.new (blocks ++ block.now ∷ [])) }
        ensures ready { (lemmas : List Derivation) → IsReady theory.entry lemmas self.old.room →
            IsReady theory.entry lemmas self.new.room }
    {
        let place = self.blocks;
        let Some(next) = place.checked_add(1) else {
            return Err(AllocError);
        };
        self.blocks = next;
        if place >= labels.len() {
            return Ok(());
        }
        if !is_yes(&self.outcome) {
            return Ok(());
        }
        let label = label_at(labels, place);
        self.judge_next(theory, label, block)
    }

    /// The outcome of the blocks.
    pub fn into_outcome(self) -> Result<Verdict, JudgeFault>
        ensures { result ≡ self.outcome }
    {
        let Trial { outcome, .. } = self;
        outcome
    }
}
