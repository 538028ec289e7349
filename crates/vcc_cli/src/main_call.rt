//! The top call.

ghost use Rattle.std.specs.Prelude.{◌≡◌, ◌≤◌, List, ℕ, Some};
ghost use Rattle.vcc_base.specs.Maps.{Map};
ghost use Rattle.vcc_words.specs.Words.{IsCheck, IsGen, IsUpgrade, IsVerify, texts};
ghost use Rattle.vcc_io.specs.Faults.{read_counts};
ghost use Rattle.vcc_io.specs.Lines.{wrote};
ghost use Rattle.vcc_cli.specs.Accepts.{IsAcceptable, IsAccepted, IsCheckOf, LeavesAccepted, SourceIsSafe};
ghost use Rattle.vcc_cli.specs.Generated.{ShowsCopies};
ghost use Rattle.vcc_cli.specs.Searches.{stored};
ghost use Rattle.vcc_cli.specs.Upgrades.{LeavesUpgrade};
ghost use Rattle.vcc_cli.specs.Ends.{Ends, EndsWith, Generates, GetsYes, Keeps, Shows};

use crate::check::check;
use crate::copies::verify_copies;
use crate::upgrade::upgrade;
use crate::verify::verify;
use std::alloc::Global;
use vcc_base::sink::Sink;
use vcc_base::store::Store;
use vcc_io::refusal::Refusal;
use vcc_io::report::report;
use vcc_io::run::run;
use vcc_words::command::Command;
use vcc_words::read_command;

/// Runs the command, and gives the status.
fn run_command<S: Store, O: Sink>(
    alloc: Global,
    command: Command<'_>,
    store: &mut S,
    out: &mut O,
) -> u8
    ensures ends { (m : Map) → S.contents store.old ≡ Some m → Ends m command.entry
        (read_counts (S.read_faults store.old) (S.read_faults store.new))
        (stored (S.write_faults store.old) (S.write_faults store.new) (S.contents store.old) (S.contents store.new))
        (wrote (O.faults out.old) (O.faults out.new) (O.written out.old) (O.written out.new)) result }
    ensures shows { (m : Map) → S.contents store.old ≡ Some m → result ≡ 0 →
        Shows m command.entry (S.contents store.new) }
    ensures generates { Generates command.entry
        (wrote (O.faults out.old) (O.faults out.new) (O.written out.old) (O.written out.new)) result }
    ensures keeps { Keeps command.entry (S.contents store.old) (S.contents store.new) }
{
    match command {
        Command::Check(pair) => check(alloc, store, pair.source, pair.other, out),
        Command::Verify(search) => verify(alloc, store, search, out),
        Command::Upgrade(names) => upgrade(alloc, store, names, out),
        Command::Run(pair) => run(alloc, store, pair.source, pair.other, out),
        Command::Gen(copies) => verify_copies(alloc, copies, out),
    }
}

/// Runs the command that the words are, and gives the status: 0 yes, all verified, a clean replay or a certificate that
/// is written anew, 1 no, not all verified or a replay that stops, 2 no command, 3 source or schedule refused,
/// 4 certificate refused, 5 a limit, 6 a name is missing or a read fault, 7 a write fault, 8 want of memory.
pub fn vcc_main<S: Store, O: Sink>(
    alloc: Global,
    words: &[String],
    store: &mut S,
    out: &mut O,
) -> u8
    // A yes of a check is sound: the source that the words name reads as a program that is safe in every interleaving,
    // of whole statements and of single reads.
    ensures safe { (m : Map) → S.contents store.old ≡ Some m →
        (source cert : List ℕ) → IsCheck (texts words.now) source cert → result ≡ 0 → SourceIsSafe m (texts words.now) }
    // A check's yes only on acceptance.
    ensures accepted { (m : Map) → S.contents store.old ≡ Some m →
        (source cert : List ℕ) → IsCheck (texts words.now) source cert → result ≡ 0 → IsAccepted m (texts words.now) }
    // Acceptance gets yes, or out of memory, or a condition needs too many terms: where no read or write failed.
    ensures complete { (m : Map) → S.contents store.old ≡ Some m →
        (source cert : List ℕ) → IsAcceptable source cert → IsCheckOf m (texts words.now) source cert →
        S.read_faults store.new ≤ S.read_faults store.old → O.faults out.new ≤ O.faults out.old →
        GetsYes (wrote (O.faults out.old) (O.faults out.new) (O.written out.old) (O.written out.new)) result }
    // Where a verify ends with yes, the store holds a certificate by which the source is accepted, and the source is
    // safe.
    ensures verified { (m : Map) → S.contents store.old ≡ Some m → (source cert : List ℕ) (leaves rounds : ℕ) →
        IsVerify (texts words.now) source cert leaves rounds → result ≡ 0 →
        LeavesAccepted (S.contents store.new) source cert }
    // Where a gen ends with yes, its line says so, there is a certificate by which the source of so many copies is
    // accepted, and the source is safe; where it ends with no, its line says so.
    ensures generated { (copies : ℕ) → IsGen (texts words.now) copies → ShowsCopies copies
        (wrote (O.faults out.old) (O.faults out.new) (O.written out.old) (O.written out.new)) result }
    // Where an upgrade ends with status 0, its new name holds the certificate of the other name written anew, and each
    // condition follows by the one exactly where it follows by the other.
    ensures upgraded { (m : Map) → S.contents store.old ≡ Some m → (source cert new : List ℕ) →
        IsUpgrade (texts words.now) source cert new → result ≡ 0 →
        LeavesUpgrade m (S.contents store.new) source cert new }
    // Each answer, its line and its status are those of the words; a read or a write fault only where one happened.
    ensures exact { (m : Map) → S.contents store.old ≡ Some m → EndsWith m (texts words.now)
        (read_counts (S.read_faults store.old) (S.read_faults store.new))
        (stored (S.write_faults store.old) (S.write_faults store.new) (S.contents store.old) (S.contents store.new))
        (wrote (O.faults out.old) (O.faults out.new) (O.written out.old) (O.written out.new)) result }
    // Only a verify and an upgrade change what the store holds.
    ensures kept { ((source cert : List ℕ) (leaves rounds : ℕ) → IsVerify (texts words.now) source cert leaves rounds → ⊥) →
        ((source cert new : List ℕ) → IsUpgrade (texts words.now) source cert new → ⊥) →
        S.contents store.new ≡ S.contents store.old }
{
    match read_command(alloc, words) {
        Ok(Some(command)) => {
            let status = run_command(alloc, command, store, out);
            status
        }
        Ok(None) => {
            let status = report(out, Err(Refusal::Usage));
            status
        }
        Err(_) => {
            let status = report(out, Err(Refusal::OutOfMemory));
            status
        }
    }
}
