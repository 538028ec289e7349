//! The command `upgrade`.

ghost use Rattle.std.specs.Prelude.{◌≡◌, ◌<◌, ◌≤◌, IfErr, IfOk, MatchResult, Some, length};
ghost use Rattle.cert_format.specs.Text.{seen};
ghost use Rattle.conditions.specs.Conditions.{conditions as conditions_of};
ghost use Rattle.vcc_base.specs.Maps.{Map};
ghost use Rattle.vcc_io.specs.Faults.{IsReadFault, read_counts};
ghost use Rattle.vcc_io.specs.FirstVersions.{IsFirst};
ghost use Rattle.vcc_io.specs.Lines.{wrote};
ghost use Rattle.vcc_cli.specs.Searches.{stored};
ghost use Rattle.vcc_cli.specs.SecondVersions.{HoldsAnew, IsAnew};
ghost use Rattle.vcc_cli.specs.Upgrades.{IsUnmade, IsUpgradeOfNames, IsUpgradeStopOf, IsWriteEnding, LeavesText, LeavesUpgrade};

use cert_format::certificate::Certificate;
use method::program::Program;
use std::alloc::Global;
use upgrade_laws::laws::{upgrade_is_certificate, upgrade_keeps};
use vcc_base::limit::Limit;
use vcc_base::sink::Sink;
use vcc_base::store::{Store, StoreFault};
use vcc_base::whole::append_all;
use vcc_io::certificate_text::{certificate_text, fit_indices};
use vcc_io::first_version::read_first;
use vcc_io::labels::few_labels;
use vcc_io::program::read_program;
use vcc_io::refusal::{BlockCount, Refusal};
use vcc_io::report::{report, report_lemmas, report_write_fault};
use vcc_upgrade::upgrade::{UpgradeFault, upgrade as upgrade_certificate};
use vcc_words::command::Rewriting;

/// What a certificate becomes: the text of the one that is written anew, and how many lemmas that has.
#[derive(Drop)]
pub struct Anew {
    pub text: Vec<u8>,
    pub lemmas: usize,
}

/// What the certificate of version 1 becomes for the program, or why it can't be written anew.
fn make_anew<'a>(
    alloc: Global,
    program: &Program,
    certificate: &Certificate,
) -> Result<Anew, Refusal<'a>>
    requires { IsFirst (seen certificate.now) }
    ensures made { IfOk result (IsAnew program.now (seen certificate.now)) }
    ensures refused { IfErr result (IsUnmade program.now (seen certificate.now)) }
{
    upgrade_is_certificate();
    let new = match upgrade_certificate(alloc, program, certificate) {
        Ok(new) => new,
        Err(UpgradeFault::Terms) => return Err(Refusal::Limit(Limit::Terms)),
        Err(UpgradeFault::OutOfMemory) => return Err(Refusal::OutOfMemory),
    };
    fit_indices(&new.lemmas);
    let text = match certificate_text(alloc, &new) {
        Ok(text) => text,
        Err(_) => return Err(Refusal::OutOfMemory),
    };
    if text.len() as u64 > Limit::CertBytes.number() {
        return Err(Refusal::Limit(Limit::CertBytes));
    }
    let lemmas = new.lemmas.len();
    Ok(Anew { text, lemmas })
}

/// What the certificate with this name becomes for the program, which has so many conditions.
fn read_anew<'a, S: Store>(
    alloc: Global,
    store: &mut S,
    program: &Program,
    conditions: usize,
    cert: &'a str,
) -> Result<Anew, Refusal<'a>>
    requires { conditions ≡ length (conditions_of program.now) }
    ensures answer { (m : Map) → S.contents store.old ≡ Some m → MatchResult result
        (HoldsAnew m cert.entry.now program.now) (IsUpgradeStopOf m cert.entry.now program.now) }
    ensures fault { IsReadFault result → S.read_faults store.old < S.read_faults store.new }
    ensures never_falls { S.read_faults store.old ≤ S.read_faults store.new }
    ensures writes_stay { S.write_faults store.new ≡ S.write_faults store.old }
    ensures kept { S.contents store.new ≡ S.contents store.old }
{
    let certificate = match read_first(alloc, store, cert) {
        Ok(certificate) => certificate,
        Err(refusal) => return Err(refusal),
    };
    let blocks = certificate.blocks.len();
    if blocks != conditions {
        return Err(Refusal::Count(BlockCount { blocks, conditions }));
    }
    make_anew(alloc, program, &certificate)
}

/// Makes the name hold the text.
fn write_text<S: Store>(store: &mut S, name: &str, text: &[u8]) -> Result<(), StoreFault>
    ensures { LeavesText result
        (stored (S.write_faults store.old) (S.write_faults store.new) (S.contents store.old) (S.contents store.new))
        name.now text.now }
{
    match store.create(name) {
        Ok(()) => append_all(store, name, text),
        Err(fault) => Err(fault),
    }
}

/// Reports how the writing under this name ended, and gives the status.
fn end<O: Sink>(out: &mut O, name: &str, lemmas: usize, written: Result<(), StoreFault>) -> u8
    ensures { IsWriteEnding written name.now lemmas
        (wrote (O.faults out.old) (O.faults out.new) (O.written out.old) (O.written out.new)) result }
{
    match written {
        Ok(()) => report_lemmas(out, lemmas),
        Err(StoreFault::Missing) => report_write_fault(out, name),
        Err(StoreFault::Failed) => report_write_fault(out, name),
        Err(StoreFault::OutOfMemory) => report(out, Err(Refusal::OutOfMemory)),
    }
}

/// Writes the certificate of the source anew under the new name, in version 2: what at least two of its `axiom` steps
/// conclude stands once there, as a lemma. Prints how many lemmas there are, or why nothing is written, and gives the
/// status.
pub fn upgrade<S: Store, O: Sink>(
    alloc: Global,
    store: &mut S,
    names: Rewriting<'_>,
    out: &mut O,
) -> u8
    ensures upgrades { (m : Map) → S.contents store.old ≡ Some m →
        IsUpgradeOfNames m names.entry.source.now names.entry.cert.now names.entry.new.now
        (read_counts (S.read_faults store.old) (S.read_faults store.new))
        (stored (S.write_faults store.old) (S.write_faults store.new) (S.contents store.old) (S.contents store.new))
        (wrote (O.faults out.old) (O.faults out.new) (O.written out.old) (O.written out.new)) result }
    ensures shows { (m : Map) → S.contents store.old ≡ Some m → result ≡ 0 → LeavesUpgrade m (S.contents store.new)
        names.entry.source.now names.entry.cert.now names.entry.new.now }
{
    upgrade_keeps();
    let program = match read_program(alloc, store, names.source) {
        Ok(program) => program,
        Err(refusal) => return report(out, Err(refusal)),
    };
    let labels = match few_labels(alloc, &program) {
        Ok(labels) => labels,
        Err(refusal) => return report(out, Err(refusal)),
    };
    let anew = match read_anew(alloc, store, &program, labels.len(), names.cert) {
        Ok(anew) => anew,
        Err(refusal) => return report(out, Err(refusal)),
    };
    let written = write_text(store, names.new, &anew.text);
    let status = end(out, names.new, anew.lemmas, written);
    status
}
