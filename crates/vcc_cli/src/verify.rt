//! The command `verify`.

ghost use Rattle.std.specs.Prelude.{◌≡◌, ◌≤◌, Some, Err};
ghost use Rattle.vcc_base.specs.Maps.{Map};
ghost use Rattle.vcc_io.specs.Faults.{read_counts};
ghost use Rattle.vcc_io.specs.Lines.{wrote};
ghost use Rattle.vcc_cli.specs.Accepts.{LeavesAccepted};
ghost use Rattle.vcc_cli.specs.Searches.{IsEnding, IsVerifyOfNames, stored};

use ground_prover::proof::Budget;
use std::alloc::Global;
use typed_conditions::laws::{sources_are_annotated, sources_are_safe};
use vcc_base::limit::Limit;
use vcc_base::sink::{Sink, SinkFault};
use vcc_base::store::{Store, StoreFault};
use vcc_io::labels::few_labels;
use vcc_io::program::read_program;
use vcc_io::refusal::Refusal;
use vcc_io::report::{report, report_write_fault};
use vcc_verify::fault::VerifyFault;
use vcc_verify::verify::verify as verify_program;
use vcc_words::command::Search;

/// Reports why a search came to no end, and gives the status; a sink that took no more gets nothing.
fn report_fault<O: Sink>(out: &mut O, cert: &str, fault: VerifyFault) -> u8
    ensures ending { IsEnding cert.now (Err fault)
        (wrote (O.faults out.old) (O.faults out.new) (O.written out.old) (O.written out.new)) result }
    ensures never_falls { O.faults out.old ≤ O.faults out.new }
{
    match fault {
        VerifyFault::CertBytes => report(out, Err(Refusal::Limit(Limit::CertBytes))),
        VerifyFault::Store(StoreFault::OutOfMemory) => report(out, Err(Refusal::OutOfMemory)),
        VerifyFault::Store(StoreFault::Failed) => report_write_fault(out, cert),
        VerifyFault::Store(StoreFault::Missing) => report_write_fault(out, cert),
        VerifyFault::Sink(SinkFault::Failed) => 7,
        VerifyFault::Sink(SinkFault::OutOfMemory) => 8,
        VerifyFault::OutOfMemory => report(out, Err(Refusal::OutOfMemory)),
    }
}

/// Reports how a search ended, and gives the status.
fn end<O: Sink>(out: &mut O, cert: &str, answer: Result<bool, VerifyFault>) -> u8
    ensures ending { IsEnding cert.now answer
        (wrote (O.faults out.old) (O.faults out.new) (O.written out.old) (O.written out.new)) result }
    ensures never_falls { O.faults out.old ≤ O.faults out.new }
{
    match answer {
        Ok(true) => 0,
        Ok(false) => 1,
        Err(fault) => report_fault(out, cert, fault),
    }
}

/// Searches a certificate of the source with this name: writes it block by block under the other name, prints a line
/// for each type and function and one for all, or why there is no certificate, and gives the status.
pub fn verify<S: Store, O: Sink>(
    alloc: Global,
    store: &mut S,
    search: Search<'_>,
    out: &mut O,
) -> u8
    ensures verifies { (m : Map) → S.contents store.old ≡ Some m →
        IsVerifyOfNames m search.entry.source.now search.entry.cert.now
        (read_counts (S.read_faults store.old) (S.read_faults store.new))
        (stored (S.write_faults store.old) (S.write_faults store.new) (S.contents store.old) (S.contents store.new))
        (wrote (O.faults out.old) (O.faults out.new) (O.written out.old) (O.written out.new)) result }
    ensures accepted { (m : Map) → S.contents store.old ≡ Some m →
        (search.entry.source.now ≡ search.entry.cert.now → ⊥) → result ≡ 0 →
        LeavesAccepted (S.contents store.new) search.entry.source.now search.entry.cert.now }
{
    sources_are_annotated();
    sources_are_safe();
    let program = match read_program(alloc, store, search.source) {
        Ok(program) => program,
        Err(refusal) => return report(out, Err(refusal)),
    };
    let labels = match few_labels(alloc, &program) {
        Ok(labels) => labels,
        Err(refusal) => return report(out, Err(refusal)),
    };
    let budget = Budget {
        leaves: search.leaves,
        rounds: search.rounds,
    };
    let answer = verify_program(alloc, &program, &labels, budget, search.cert, store, out);
    let status = end(out, search.cert, answer);
    status
}
