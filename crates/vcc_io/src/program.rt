//! The program of a source.

ghost use Rattle.std.specs.Prelude.{◌≡◌, ◌<◌, ◌≤◌, ℕ, List, length, IfOk, IfErr, MatchResult, Some};
ghost use Rattle.c_syntax.specs.Views.{items_of};
ghost use Rattle.c_source.specs.Sources.{IsFaultOrMemory, IsText, IsWithinLimits};
ghost use Rattle.c_types.specs.Typed.{IsProgramOf};
ghost use Rattle.vcc_base.specs.Limits.{number_of};
ghost use Rattle.vcc_base.specs.Maps.{Map};
ghost use Rattle.vcc_io.specs.Faults.{IsReadFault};
ghost use Rattle.vcc_io.specs.Held.{HoldsProgram, HoldsWithin, IsSourceStop, IsUnread};
ghost use Rattle.vcc_io.specs.Source.{IsSourceRefusalOrMemory};

use crate::refusal::Refusal;
use c_reader::read_source;
use c_source::fault::SourceFault;
use c_syntax::items::Tree;
use c_types::typing::{TypeFault, type_program};
use method::program::Program;
use std::alloc::Global;
use vcc_base::limit::Limit;
use vcc_base::store::Store;
use vcc_base::whole::{ReadFault, read_whole};

/// All bytes of the name.
pub fn read<'a, S: Store>(
    alloc: Global,
    store: &mut S,
    name: &'a str,
    limit: Limit,
) -> Result<Vec<u8>, Refusal<'a>>
    ensures bytes { (m : Map) → S.contents store.old ≡ Some m →
        MatchResult result (λ v. HoldsWithin m name.entry.now limit v.items) (IsUnread m name.entry.now limit) }
    ensures within { IfOk result (λ v. length v.items ≤ number_of limit) }
    ensures fault { IsReadFault result → S.read_faults store.old < S.read_faults store.new }
    ensures never_falls { S.read_faults store.old ≤ S.read_faults store.new }
    ensures writes_stay { S.write_faults store.new ≡ S.write_faults store.old }
    ensures kept { S.contents store.new ≡ S.contents store.old }
{
    match read_whole(alloc, store, name, limit) {
        Ok(bytes) => Ok(bytes),
        Err(ReadFault::Missing) => Err(Refusal::Missing(name)),
        Err(ReadFault::Failed) => Err(Refusal::ReadFault(name)),
        Err(ReadFault::TooLong) => Err(Refusal::Limit(limit)),
        Err(ReadFault::OutOfMemory) => Err(Refusal::OutOfMemory),
    }
}

/// The refusal of a source with this fault.
fn refusal_of<'a>(fault: SourceFault) -> Refusal<'a>
    ensures { (bytes : List ℕ) → IsFaultOrMemory bytes fault → IsSourceRefusalOrMemory bytes result }
{
    match fault {
        SourceFault::BadByte(place) => Refusal::BadByte(place),
        SourceFault::BadNumber(place) => Refusal::BadNumber(place),
        SourceFault::OpenComment(place) => Refusal::OpenComment(place),
        SourceFault::TooManyTokens(_) => Refusal::Limit(Limit::Tokens),
        SourceFault::Unexpected(place) => Refusal::Unexpected(place),
        SourceFault::UnknownForm(place) => Refusal::UnknownForm(place),
        SourceFault::TooDeep(_) => Refusal::Limit(Limit::Depth),
        SourceFault::OutOfMemory => Refusal::OutOfMemory,
    }
}

/// The typed program of a tree, or the refusal by the first typing rule that it breaks.
fn program_of_tree<'a>(alloc: Global, tree: &Tree) -> Result<Program, Refusal<'a>>
    ensures program { (bytes : List ℕ) → IsText bytes (items_of tree.now) tree.now.end →
        IfOk result (IsProgramOf bytes) }
    ensures refused { (bytes : List ℕ) (text : IsText bytes (items_of tree.now) tree.now.end) → IsWithinLimits text →
        IfErr result (IsSourceRefusalOrMemory bytes) }
{
    match type_program(alloc, tree) {
        Ok(program) => Ok(program),
        Err(TypeFault::Rule(broken)) => Err(Refusal::BreaksRule(broken)),
        Err(TypeFault::OutOfMemory) => Err(Refusal::OutOfMemory),
    }
}

/// The typed program of the bytes, or why they have none.
pub fn typed_program<'a>(alloc: Global, bytes: &[u8]) -> Result<Program, Refusal<'a>>
    requires { length bytes.now ≤ 1048576 }
    ensures typed { IfOk result (IsProgramOf bytes.now) }
    ensures refused { IfErr result (IsSourceRefusalOrMemory bytes.now) }
{
    let tree = match read_source(alloc, bytes) {
        Ok(tree) => tree,
        Err(fault) => return Err(refusal_of(fault)),
    };
    match program_of_tree(alloc, &tree) {
        Ok(program) => Ok(program),
        Err(refusal) => Err(refusal),
    }
}

/// The typed program of the source with this name.
pub fn read_program<'a, S: Store>(
    alloc: Global,
    store: &mut S,
    name: &'a str,
) -> Result<Program, Refusal<'a>>
    ensures answer { (m : Map) → S.contents store.old ≡ Some m →
        MatchResult result (HoldsProgram m name.entry.now) (IsSourceStop m name.entry.now) }
    ensures fault { IsReadFault result → S.read_faults store.old < S.read_faults store.new }
    ensures never_falls { S.read_faults store.old ≤ S.read_faults store.new }
    ensures writes_stay { S.write_faults store.new ≡ S.write_faults store.old }
    ensures kept { S.contents store.new ≡ S.contents store.old }
{
    match read(alloc, store, name, Limit::SourceBytes) {
        Ok(bytes) => typed_program(alloc, &bytes),
        Err(refusal) => Err(refusal),
    }
}
