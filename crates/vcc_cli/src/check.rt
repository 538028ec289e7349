//! The command `check`.

ghost use Rattle.std.specs.Prelude.{◌≡◌, ◌<◌, ◌≤◌, ℕ, List, IfOk, IfErr, MatchResult, Ok, Err, Some};
ghost use Rattle.cert_format.specs.Derivations.{Derivation};
ghost use Rattle.term_meaning.specs.Meaning.{IsFaithful};
ghost use Rattle.term_meaning.specs.Filling.{IsLayered};
ghost use Rattle.condition_meaning.specs.Languages.{language_of};
ghost use Rattle.condition_meaning.specs.Promises.{ConditionsAreValid};
ghost use Rattle.vcc_base.specs.Maps.{Map};
ghost use Rattle.vcc_judge.specs.Verdicts.{IsJudged};
ghost use Rattle.vcc_io.specs.Faults.{IsReadFault, read_counts};
ghost use Rattle.vcc_io.specs.Lines.{wrote};
ghost use Rattle.vcc_cli.specs.Accepts.{HoldsSafe};
ghost use Rattle.vcc_cli.specs.Checks.{AreJudged, IsChecked, IsProgramAnswer};

use block_layout::space::Theory;
use check_labels::names::item_name;
use method::program::Program;
use program_language::language::program_language;
use std::alloc::Global;
use typed_conditions::laws::{sources_are_annotated, sources_are_safe};
use vcc_base::limit::Limit;
use vcc_base::sink::Sink;
use vcc_base::store::Store;
use vcc_io::certificate::{Outcome, try_certificate};
use vcc_io::labels::few_labels;
use vcc_io::program::read_program;
use vcc_io::refusal::{BlockCount, Refusal};
use vcc_io::report::report;
use vcc_io::verdict::{Failing, Verdict};
use vcc_judge::verdict::{JudgeFault, Verdict as Judgment};

/// The verdict of an outcome, or why there is none.
fn verdict_of<'a, 'p>(
    program: &'p Program,
    outcome: Result<Judgment, JudgeFault>,
) -> Result<Verdict<'p>, Refusal<'a>>
    ensures judged { (lemmas blocks : List Derivation) → IsJudged program.entry.now lemmas blocks outcome →
        AreJudged program.entry.now lemmas blocks result }
    ensures yes { result ≡ Ok Verdict.Yes → outcome ≡ Ok Judgment.Yes }
    ensures no_read { IsReadFault result → ⊥ }
{
    match outcome {
        Ok(Judgment::Yes) => Ok(Verdict::Yes),
        Ok(Judgment::No(label)) => {
            let name = item_name(program, label.item);
            Ok(Verdict::No(Failing { name, label }))
        }
        Err(JudgeFault::Terms) => Err(Refusal::Limit(Limit::Terms)),
        Err(JudgeFault::Wide(wide)) => Err(Refusal::Wide(wide)),
        Err(JudgeFault::OutOfMemory) => Err(Refusal::OutOfMemory),
    }
}

/// The verdict of the certificate with this name over a program.
pub fn judge_name<'a, 'p, S: Store>(
    alloc: Global,
    store: &mut S,
    program: &'p Program,
    name: &'a str,
) -> Result<Verdict<'p>, Refusal<'a>>
    ensures answer { (m : Map) → S.contents store.old ≡ Some m →
        IsProgramAnswer m name.entry.now program.entry.now result }
    ensures valid { IsLayered (language_of program.entry.now) → IsFaithful (language_of program.entry.now) →
        result ≡ Ok Verdict.Yes → ConditionsAreValid program.entry.now }
    ensures fault { IsReadFault result → S.read_faults store.old < S.read_faults store.new }
    ensures never_falls { S.read_faults store.old ≤ S.read_faults store.new }
    ensures kept { S.contents store.new ≡ S.contents store.old }
{
    let labels = match few_labels(alloc, program) {
        Ok(labels) => labels,
        Err(refusal) => return Err(refusal),
    };
    let Ok(language) = program_language(alloc, program) else {
        return Err(Refusal::OutOfMemory);
    };
    let theory = Theory {
        program,
        language: &language,
    };
    let Outcome { blocks, verdict } = match try_certificate(alloc, store, name, theory, &labels) {
        Ok(outcome) => outcome,
        Err(refusal) => return Err(refusal),
    };
    let conditions = labels.len();
    let Some(outcome) = verdict else {
        return Err(Refusal::Count(BlockCount { blocks, conditions }));
    };
    verdict_of(program, outcome)
}

/// Checks the source with this name by the certificate with that name: prints the verdict, or why there is none, and gives
/// the status.
pub fn check<S: Store, O: Sink>(
    alloc: Global,
    store: &mut S,
    source: &str,
    cert: &str,
    out: &mut O,
) -> u8
    ensures checked { (m : Map) → S.contents store.old ≡ Some m → IsChecked m source.now cert.now
        (read_counts (S.read_faults store.old) (S.read_faults store.new))
        (wrote (O.faults out.old) (O.faults out.new) (O.written out.old) (O.written out.new)) result }
    ensures safe { (m : Map) → S.contents store.old ≡ Some m → result ≡ 0 → HoldsSafe m source.now }
    ensures kept { S.contents store.new ≡ S.contents store.old }
{
    sources_are_annotated();
    sources_are_safe();
    let program = match read_program(alloc, store, source) {
        Ok(program) => program,
        Err(refusal) => return report(out, Err(refusal)),
    };
    let answer = judge_name(alloc, store, &program, cert);
    let status = report(out, answer);
    status
}
