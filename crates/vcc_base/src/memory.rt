//!
//! Stores and sinks in memory, whose calls can be made to fail.

ghost use Rattle.std.specs.Prelude.{◌≡◌, ◌⊎◌, ◌+◌, ◌-◌, ◌≤◌, ◌++◌, [], length, take, min, position, Some, IsNone, IsErrOf, IfOk, OnOk, OnErr, MatchOption, Contains};
ghost use Rattle.vcc_base.specs.Entries.{pairs, is_named};
ghost use Rattle.vcc_base.specs.Maps.{IfHeld, IsPieceOf, Holds};
ghost use Rattle.vcc_base.specs.Memory.{look_up, called, read_failed, write_failed, put_done, put_failed};

use crate::sink::{Sink, SinkFault};
use crate::store::{Store, StoreFault};
use std::alloc::{AllocError, Global};
use std::marker::Model;

#[derive(Drop)]
struct Entry {
    name: String,
    bytes: Vec<u8>,
}

// The place of the first entry of this name.
fn find(entries: &[Entry], name: &str) -> Option<usize>
    ensures { result ≡ position (is_named name.now) entries.now }
{
    entries.iter().position(|entry| entry.name.as_str() == name)
}

// The bytes of the first entry of this name.
fn bytes_of<'a>(entries: &'a [Entry], name: &str) -> Option<&'a [u8]>
    ensures { MatchOption result (IsNone (look_up (pairs entries.now) name.now)) (λ bytes. look_up (pairs entries.now) name.now ≡ Some bytes.now) }
{
    match find(entries, name) {
        Some(i) => Some(entries[i].bytes.as_slice()),
        None => None,
    }
}

// Copies what there is of the bytes from the offset on, as far as it fits, and says how much.
fn copy_piece(bytes: &[u8], offset: u64, piece: &mut [u8]) -> usize
    ensures count { result ≡ min (length bytes.now - offset) (length piece.old) }
    ensures piece { IsPieceOf bytes.now offset result (length piece.old) piece.new }
{
    let start = bytes.len().min(offset as usize);
    let count = piece.len().min(bytes.len() - start);
    piece[..count].copy_from_slice(&bytes[start..start + count]);
    count
}

// Makes the name hold these bytes.
fn hold_entry(
    alloc: Global,
    entries: &mut Vec<Entry>,
    name: &str,
    bytes: Vec<u8>,
) -> Result<(), AllocError>
    ensures ok { OnOk result (Holds (look_up (pairs entries.old.items)) (look_up (pairs entries.new.items)) name.now bytes.items) }
    ensures err { OnErr result (pairs entries.new.items ≡ pairs entries.old.items) }
{
    match find(entries.as_slice(), name) {
        Some(i) => {
            let entry = &mut entries[i];
            entry.bytes = bytes;
        }
        None => {
            let name = String::from_str(alloc, name)?;
            entries.push(Entry { name, bytes })?;
        }
    }
    Ok(())
}

// Puts the piece behind the bytes of an entry.
fn append_entry(
    entries: &mut Vec<Entry>,
    name: &str,
    i: usize,
    piece: &[u8],
) -> Result<(), AllocError>
    requires { position (is_named name.now) entries.old.items ≡ Some i }
    ensures ok { IfHeld (look_up (pairs entries.old.items)) name.now (λ bytes. OnOk result (Holds (look_up (pairs entries.old.items)) (look_up (pairs entries.new.items)) name.now (bytes ++ piece.now))) }
    ensures err { OnErr result (pairs entries.new.items ≡ pairs entries.old.items) }
{
    let entry = &mut entries[i];
    entry.bytes.extend_from_slice(piece)?;
    Ok(())
}

/// Names in memory. The trait's calls on it are numbered from 1 on, and those whose number is in a
/// list fail; but a read or an append of a name that isn't held answers `Missing` all the same. A
/// call that answers `OutOfMemory` takes no number and changes nothing.
#[derive(Drop)]
pub struct MemStore {
    alloc: Global,
    entries: Vec<Entry>,
    fails: Vec<u64>,
    calls: u64,
    read_faults: u64,
    write_faults: u64,
}

impl Model for MemStore {
    ghost use Rattle.std.specs.Prelude.{◌≤◌};
    ghost use Rattle.vcc_base.specs.Memory.{StoreState};

    ghost Value = { StoreState };

    ghost use Rattle.vcc_base.specs.Entries.{pairs};

    ghost view = { λ s. record { held = pairs s.entries.items; fails = s.fails.items; calls = s.calls; read_faults = s.read_faults; write_faults = s.write_faults } };

    ghost invariant = { λ s. (s.read_faults ≤ s.calls) × (s.write_faults ≤ s.calls) };
}

impl MemStore {
    /// A store that holds no name, with the numbers of the calls that are to fail.
    pub fn new(alloc: Global, fails: Vec<u64>) -> MemStore
        ensures { result ≡ record { held = []; fails = fails.items; calls = 0; read_faults = 0; write_faults = 0 } }
    {
        MemStore {
            alloc,
            entries: Vec::new(alloc),
            fails,
            calls: 0,
            read_faults: 0,
            write_faults: 0,
        }
    }

    /// Makes the name hold these bytes. This is no call of the trait and has no number.
    pub fn hold(&mut self, name: &str, bytes: &[u8]) -> Result<(), AllocError>
        ensures ok { OnOk result (Holds (look_up self.old.held) (look_up self.new.held) name.now bytes.now) }
        ensures others { self.new ≡ record self.old { held = self.new.held } }
        ensures err { OnErr result (self.new ≡ self.old) }
    {
        let bytes = Vec::from_slice(self.alloc, bytes)?;
        hold_entry(self.alloc, &mut self.entries, name, bytes)
    }

    /// The bytes that the name holds, or `None` where it isn't held.
    pub fn bytes(&self, name: &str) -> Option<&[u8]>
        ensures { MatchOption result (IsNone (look_up self.now.held name.now)) (λ bytes. look_up self.now.held name.now ≡ Some bytes.now) }
    {
        bytes_of(self.entries.as_slice(), name)
    }
}

impl Store for MemStore {
    ghost contents = { λ s. Some (look_up s.held) };

    ghost read_faults = { λ s. s.read_faults };

    ghost write_faults = { λ s. s.write_faults };

    fn read_at(&mut self, name: &str, offset: u64, piece: &mut [u8]) -> Result<usize, StoreFault>
        ensures bytes { IfOk result (λ n. IfHeld (look_up self.old.held) name.now (λ bytes. (n ≡ min (length bytes - offset) (length piece.old)) × IsPieceOf bytes offset n (length piece.old) piece.new)) }
        ensures within { IfOk result (λ n. n ≤ length piece.old) }
        ensures ok { OnOk result (self.new ≡ called self.old self.old.held) }
        ensures missing { IsErrOf result StoreFault.Missing → IsNone (look_up self.old.held name.now) × (self.new ≡ called self.old self.old.held) }
        ensures absent { IsNone (look_up self.old.held name.now) → (result ≡ Err StoreFault.Missing) ⊎ (result ≡ Err StoreFault.OutOfMemory) }
        ensures failed { IsErrOf result StoreFault.Failed → Contains self.old.fails (self.old.calls + 1) × (self.new ≡ read_failed self.old) }
        ensures fails { Contains self.old.fails (self.old.calls + 1) → IfOk result (λ n. ⊥) }
        ensures out_of_memory { IsErrOf result StoreFault.OutOfMemory → (self.new ≡ self.old) × (self.old.calls ≡ u64.MAX) }
    {
        if self.calls == u64::MAX {
            return Err(StoreFault::OutOfMemory);
        }
        self.calls += 1;
        let Some(bytes) = bytes_of(self.entries.as_slice(), name) else {
            return Err(StoreFault::Missing);
        };
        if self.fails.contains(&self.calls) {
            self.read_faults += 1;
            return Err(StoreFault::Failed);
        }
        Ok(copy_piece(bytes, offset, piece))
    }

    fn create(&mut self, name: &str) -> Result<(), StoreFault>
        ensures ok { OnOk result (Holds (look_up self.old.held) (look_up self.new.held) name.now [] × (self.new ≡ called self.old self.new.held)) }
        ensures never_missing { IsErrOf result StoreFault.Missing → ⊥ }
        ensures failed { IsErrOf result StoreFault.Failed → Contains self.old.fails (self.old.calls + 1) × (self.new ≡ write_failed self.old) }
        ensures fails { Contains self.old.fails (self.old.calls + 1) → OnOk result ⊥ }
        ensures out_of_memory { IsErrOf result StoreFault.OutOfMemory → self.new ≡ self.old }
    {
        if self.calls == u64::MAX {
            return Err(StoreFault::OutOfMemory);
        }
        if self.fails.contains(&(self.calls + 1)) {
            self.calls += 1;
            self.write_faults += 1;
            return Err(StoreFault::Failed);
        }
        match hold_entry(self.alloc, &mut self.entries, name, Vec::new(self.alloc)) {
            Ok(()) => {
                self.calls += 1;
                Ok(())
            }
            Err(_) => Err(StoreFault::OutOfMemory),
        }
    }

    fn append(&mut self, name: &str, piece: &[u8]) -> Result<usize, StoreFault>
        ensures taken { IfOk result (λ n. n ≡ length piece.now) }
        ensures ok { IfOk result (λ n. IfHeld (look_up self.old.held) name.now (λ bytes. Holds (look_up self.old.held) (look_up self.new.held) name.now (bytes ++ take n piece.now))) }
        ensures counted { OnOk result (self.new ≡ called self.old self.new.held) }
        ensures missing { IsErrOf result StoreFault.Missing → IsNone (look_up self.old.held name.now) × (self.new ≡ called self.old self.old.held) }
        ensures absent { IsNone (look_up self.old.held name.now) → (result ≡ Err StoreFault.Missing) ⊎ (result ≡ Err StoreFault.OutOfMemory) }
        ensures failed { IsErrOf result StoreFault.Failed → Contains self.old.fails (self.old.calls + 1) × (self.new ≡ write_failed self.old) }
        ensures fails { Contains self.old.fails (self.old.calls + 1) → IfOk result (λ n. ⊥) }
        ensures out_of_memory { IsErrOf result StoreFault.OutOfMemory → self.new ≡ self.old }
    {
        if self.calls == u64::MAX {
            return Err(StoreFault::OutOfMemory);
        }
        let Some(i) = find(self.entries.as_slice(), name) else {
            self.calls += 1;
            return Err(StoreFault::Missing);
        };
        if self.fails.contains(&(self.calls + 1)) {
            self.calls += 1;
            self.write_faults += 1;
            return Err(StoreFault::Failed);
        }
        match append_entry(&mut self.entries, name, i, piece) {
            Ok(()) => {
                self.calls += 1;
                Ok(piece.len())
            }
            Err(_) => Err(StoreFault::OutOfMemory),
        }
    }
}

/// Output in memory. The `put`s on it are numbered from 1 on, and those whose number is in a list
/// fail. A call that answers `OutOfMemory` takes no number and changes nothing.
#[derive(Drop)]
pub struct MemSink {
    written: Vec<u8>,
    fails: Vec<u64>,
    calls: u64,
    faults: u64,
}

impl Model for MemSink {
    ghost use Rattle.std.specs.Prelude.{◌≤◌};
    ghost use Rattle.vcc_base.specs.Memory.{SinkState};

    ghost Value = { SinkState };

    ghost view = { λ s. record { written = s.written.items; fails = s.fails.items; calls = s.calls; faults = s.faults } };

    ghost invariant = { λ s. s.faults ≤ s.calls };
}

impl MemSink {
    /// A sink with nothing written, with the numbers of the calls that are to fail.
    pub fn new(alloc: Global, fails: Vec<u64>) -> MemSink
        ensures { result ≡ record { written = []; fails = fails.items; calls = 0; faults = 0 } }
    {
        MemSink {
            written: Vec::new(alloc),
            fails,
            calls: 0,
            faults: 0,
        }
    }

    /// The bytes written.
    pub fn bytes(&self) -> &[u8]
        ensures { result.now ≡ self.now.written }
    {
        self.written.as_slice()
    }
}

impl Sink for MemSink {
    ghost written = { λ s. Some s.written };

    ghost faults = { λ s. s.faults };

    fn put(&mut self, piece: &[u8]) -> Result<usize, SinkFault>
        ensures taken { IfOk result (λ n. n ≡ length piece.now) }
        ensures ok { OnOk result (self.new ≡ put_done self.old (self.old.written ++ piece.now)) }
        ensures failed { IsErrOf result SinkFault.Failed → Contains self.old.fails (self.old.calls + 1) × (self.new ≡ put_failed self.old) }
        ensures fails { Contains self.old.fails (self.old.calls + 1) → IfOk result (λ n. ⊥) }
        ensures out_of_memory { IsErrOf result SinkFault.OutOfMemory → self.new ≡ self.old }
    {
        if self.calls == u64::MAX {
            return Err(SinkFault::OutOfMemory);
        }
        if self.fails.contains(&(self.calls + 1)) {
            self.calls += 1;
            self.faults += 1;
            return Err(SinkFault::Failed);
        }
        match self.written.extend_from_slice(piece) {
            Ok(()) => {
                self.calls += 1;
                Ok(piece.len())
            }
            Err(_) => Err(SinkFault::OutOfMemory),
        }
    }
}
