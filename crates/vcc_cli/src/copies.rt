//! The command `gen`.

ghost use Rattle.std.specs.Prelude.{◌≡◌, IfErr, IfOk, Ok};
ghost use Rattle.generated_source.specs.Sources.{generated};
ghost use Rattle.term_meaning.specs.Meaning.{IsFaithful};
ghost use Rattle.term_meaning.specs.Filling.{IsLayered};
ghost use Rattle.condition_meaning.specs.Languages.{language_of};
ghost use Rattle.condition_meaning.specs.Promises.{ConditionsAreValid};
ghost use Rattle.c_types.specs.Typed.{IsProgramOf};
ghost use Rattle.vcc_base.specs.Memory.{look_up};
ghost use Rattle.vcc_io.specs.Lines.{wrote};
ghost use Rattle.vcc_cli.specs.Generated.{IsCopiesStop, IsGenOfNumber, IsReportedGen, IsSearchAnswer, IsSearchStop};
ghost use Rattle.vcc_cli.specs.Generated.{LeavesCertificate, ShowsCopies};

use crate::check::judge_name;
use generated_source::source::generate;
use ground_prover::proof::Budget;
use method::program::Program;
use std::alloc::Global;
use typed_conditions::laws::{sources_are_annotated, sources_are_safe};
use vcc_base::limit::Limit;
use vcc_base::memory::{MemSink, MemStore};
use vcc_base::sink::Sink;
use vcc_io::labels::few_labels;
use vcc_io::program::typed_program;
use vcc_io::refusal::Refusal;
use vcc_io::report::{report, report_copies};
use vcc_io::verdict::Verdict;
use vcc_verify::fault::VerifyFault;
use vcc_verify::verify::verify;

/// The name of the certificate in the command's own store.
const CERT: &str = "cert";

/// As much as a `verify` without options may search.
const USUAL: Budget = Budget {
    leaves: 100_000,
    rounds: 64,
};

/// The typed program of the source of so many copies, or why it has none.
fn copies_program<'a>(alloc: Global, copies: u32) -> Result<Program, Refusal<'a>>
    ensures program { IfOk result (IsProgramOf (generated copies)) }
    ensures refused { IfErr result (IsCopiesStop (generated copies)) }
{
    let Ok(source) = generate(alloc, copies) else {
        return Err(Refusal::OutOfMemory);
    };
    if source.len() as u64 > Limit::SourceBytes.number() {
        return Err(Refusal::Limit(Limit::SourceBytes));
    }
    match typed_program(alloc, &source) {
        Ok(program) => Ok(program),
        Err(refusal) => Err(refusal),
    }
}

/// Searches a certificate of the program, in a store of its own, and gives that store, or why it holds none.
fn search<'a>(alloc: Global, program: &Program) -> Result<MemStore, Refusal<'a>>
    ensures leaves { IfOk result (λ store. LeavesCertificate program.now (look_up store.held)) }
    ensures stops { IfErr result (IsSearchStop program.now) }
{
    let labels = match few_labels(alloc, program) {
        Ok(labels) => labels,
        Err(refusal) => return Err(refusal),
    };
    let mut store = MemStore::new(alloc, Vec::new(alloc));
    let mut out = MemSink::new(alloc, Vec::new(alloc));
    match verify(alloc, program, &labels, USUAL, CERT, &mut store, &mut out) {
        Ok(_) => Ok(store),
        Err(VerifyFault::CertBytes) => Err(Refusal::Limit(Limit::CertBytes)),
        Err(_) => Err(Refusal::OutOfMemory),
    }
}

/// The verdict of the certificate that a search leaves over the program.
fn verdict<'a, 'p>(alloc: Global, program: &'p Program) -> Result<Verdict<'p>, Refusal<'a>>
    ensures answer { IsSearchAnswer program.entry.now result }
    ensures valid { IsLayered (language_of program.entry.now) → IsFaithful (language_of program.entry.now) →
        result ≡ Ok Verdict.Yes → ConditionsAreValid program.entry.now }
{
    match search(alloc, program) {
        Ok(mut store) => judge_name(alloc, &mut store, program, CERT),
        Err(refusal) => Err(refusal),
    }
}

/// Reports the answer of so many copies, and gives its status.
fn report_answer<O: Sink>(out: &mut O, copies: u32, answer: Result<Verdict<'_>, Refusal<'_>>) -> u8
    ensures { IsReportedGen copies answer.entry
        (wrote (O.faults out.old) (O.faults out.new) (O.written out.old) (O.written out.new)) result }
{
    match answer {
        Ok(Verdict::Yes) => report_copies(out, copies, b"verified, yes", 0),
        Ok(Verdict::No(_)) => report_copies(out, copies, b"not verified, no", 1),
        Err(refusal) => report(out, Err(refusal)),
    }
}

/// Makes the source of so many copies, searches its certificate and judges it, in a store of its own: prints a line for
/// all, or why there is none, and gives the status.
pub fn verify_copies<O: Sink>(alloc: Global, copies: u32, out: &mut O) -> u8
    ensures answered { IsGenOfNumber copies
        (wrote (O.faults out.old) (O.faults out.new) (O.written out.old) (O.written out.new)) result }
    ensures shows { ShowsCopies copies
        (wrote (O.faults out.old) (O.faults out.new) (O.written out.old) (O.written out.new)) result }
{
    sources_are_annotated();
    sources_are_safe();
    let program = match copies_program(alloc, copies) {
        Ok(program) => program,
        Err(refusal) => return report(out, Err(refusal)),
    };
    let answer = verdict(alloc, &program);
    let status = report_answer(out, copies, answer);
    status
}
