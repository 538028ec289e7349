//! Judging a program by the blocks of a certificate.

ghost use Rattle.std.specs.Prelude.{◌≡◌, length, Ok};
ghost use Rattle.method.specs.Labels as spec;
ghost use Rattle.term_meaning.specs.Meaning.{IsFaithful};
ghost use Rattle.term_meaning.specs.Filling.{IsLayered};
ghost use Rattle.block_layout.specs.Space.{IsTheory};
ghost use Rattle.condition_meaning.specs.Languages.{language_of};
ghost use Rattle.condition_meaning.specs.Promises.{ConditionsAreValid};
ghost use Rattle.check_labels.specs.Labels.{labels_of};
ghost use Rattle.vcc_judge.specs.Verdicts.{IsJudged};

use crate::trial::Trial;
use crate::verdict::{JudgeFault, Verdict};
use block_layout::space::Theory;
use cert_format::certificate::Refutation;
use check_labels::labels::ProgramLabel;
use method::program::Program;
use program_language::language::program_language;
use std::alloc::Global;

/// The same by the program's theory. The lemmas are judged first.
#[tactic(auto, using(crate::proofs::Trials::refused_judged))]
fn judge_by(
    alloc: Global,
    theory: Theory<'_>,
    labels: &[ProgramLabel],
    lemmas: &[Refutation],
    blocks: &[Refutation],
) -> Result<Verdict, JudgeFault>
    requires theory { IsTheory theory (language_of theory.program.now) }
    requires labels { labels_of labels.now ≡ spec.program_labels theory.program.now }
    requires count { length labels.now ≡ length blocks.now }
    ensures { IsJudged theory.entry.program.now lemmas.now blocks.now result }
{
    let mut trial = Trial::new(alloc, theory, lemmas)?;
    for block in blocks {
        trial.take_block(theory, labels, block)?;
    }
    trial.into_outcome()
}

/// What a certificate's lemmas and blocks show of the program, whose labels these are: one block for each condition, in
/// order. One condition is judged at a time.
///
/// # Errors
/// `Terms`, where the lemmas or a condition need more than 1,048,576 terms; `Wide`, where a number leaves 128 bits;
/// `OutOfMemory`, where memory is refused.
pub fn judge(
    alloc: Global,
    program: &Program,
    labels: &[ProgramLabel],
    lemmas: &[Refutation],
    blocks: &[Refutation],
) -> Result<Verdict, JudgeFault>
    requires labels { labels_of labels.now ≡ spec.program_labels program.now }
    requires count { length labels.now ≡ length blocks.now }
    ensures judged { IsJudged program.now lemmas.now blocks.now result }
    ensures valid { IsLayered (language_of program.now) → IsFaithful (language_of program.now) →
        result ≡ Ok Verdict.Yes → ConditionsAreValid program.now }
{
    let language = program_language(alloc, program)?;
    let theory = Theory {
        program,
        language: &language,
    };
    judge_by(alloc, theory, labels, lemmas, blocks)
}
