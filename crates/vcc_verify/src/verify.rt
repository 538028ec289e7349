//! The command that searches.

ghost use Rattle.std.specs.Prelude.{◌≡◌, ◌<◌, ◌≤◌, IsErrOf, Ok, length, true};
ghost use Rattle.method.specs.Labels as spec;
ghost use Rattle.term_meaning.specs.Meaning.{IsFaithful};
ghost use Rattle.term_meaning.specs.Filling.{IsLayered};
ghost use Rattle.condition_meaning.specs.Languages.{language_of};
ghost use Rattle.condition_meaning.specs.Promises.{ConditionsAreValid};
ghost use Rattle.block_layout.specs.Space.{IsTheory};
ghost use Rattle.check_labels.specs.Labels.{labels_of};
ghost use Rattle.vcc_verify.specs.Outcomes.{Verifies};

use crate::certificate::{LAST_LINE, begin};
use crate::fault::VerifyFault;
use crate::items::write_items;
use block_layout::space::Theory;
use check_labels::labels::ProgramLabel;
use ground_prover::proof::Budget;
use method::program::Program;
use program_language::language::program_language;
use std::alloc::Global;
use vcc_base::sink::{Sink, SinkFault};
use vcc_base::store::{Store, StoreFault};
use vcc_base::whole::append_all;
use vcc_search::lines::put_closing;

/// The same by the program's theory.
fn verify_by<S: Store, O: Sink>(
    alloc: Global,
    theory: Theory<'_>,
    labels: &[ProgramLabel],
    budget: Budget,
    cert: &str,
    store: &mut S,
    out: &mut O,
) -> Result<bool, VerifyFault>
    requires theory { IsTheory theory (language_of theory.program.now) }
    requires labels { labels_of labels.now ≡ spec.program_labels theory.program.now }
    requires few { length labels.now ≤ 20000 }
    ensures run { Verifies theory.entry.program.now cert.now (S.contents store.old) (S.contents store.new)
        (O.written out.old) (O.written out.new) result }
    ensures store_failed { IsErrOf result (VerifyFault.Store StoreFault.Failed) →
        S.write_faults store.old < S.write_faults store.new }
    ensures sink_failed { IsErrOf result (VerifyFault.Sink SinkFault.Failed) → O.faults out.old < O.faults out.new }
    ensures store_never_falls { S.write_faults store.old ≤ S.write_faults store.new }
    ensures sink_never_falls { O.faults out.old ≤ O.faults out.new }
    ensures reads_stay { S.read_faults store.new ≡ S.read_faults store.old }
{
    let written = begin(alloc, cert, labels.len(), store)?;
    let all = write_items(alloc, theory, labels, budget, cert, written, store, out)?;
    append_all(store, cert, LAST_LINE)?;
    put_closing(out, all)?;
    Ok(all)
}

/// Searches a block for each condition of the program, whose labels these are, and writes each into the certificate as
/// soon as its condition is decided; a condition that the budget leads to no block of has an empty one. Prints the
/// line of a type or function after its last block, and a line for all in the end. True where each condition has a block:
/// each follows by its block then, and is valid where the program's language is layered and faithful.
///
/// # Errors
/// `CertBytes`, where with the block just decided and the last line the certificate would be longer than 67,108,864
/// bytes; `Store` and `Sink`, where these took no more; `OutOfMemory`, where memory is refused. What is written then
/// is a front of the certificate and of the report.
pub fn verify<S: Store, O: Sink>(
    alloc: Global,
    program: &Program,
    labels: &[ProgramLabel],
    budget: Budget,
    cert: &str,
    store: &mut S,
    out: &mut O,
) -> Result<bool, VerifyFault>
    requires labels { labels_of labels.now ≡ spec.program_labels program.now }
    requires few { length labels.now ≤ 20000 }
    ensures valid { IsLayered (language_of program.now) → IsFaithful (language_of program.now) →
        result ≡ Ok true → ConditionsAreValid program.now }
    ensures run { Verifies program.now cert.now (S.contents store.old) (S.contents store.new)
        (O.written out.old) (O.written out.new) result }
    ensures store_failed { IsErrOf result (VerifyFault.Store StoreFault.Failed) →
        S.write_faults store.old < S.write_faults store.new }
    ensures sink_failed { IsErrOf result (VerifyFault.Sink SinkFault.Failed) → O.faults out.old < O.faults out.new }
    ensures store_never_falls { S.write_faults store.old ≤ S.write_faults store.new }
    ensures sink_never_falls { O.faults out.old ≤ O.faults out.new }
    ensures reads_stay { S.read_faults store.new ≡ S.read_faults store.old }
{
    let language = program_language(alloc, program)?;
    let theory = Theory {
        program,
        language: &language,
    };
    verify_by(alloc, theory, labels, budget, cert, store, out)
}
