//!
//! Files as a store and standard output as a sink. They tell no bytes.

ghost use Rattle.std.specs.Prelude.{◌≡◌, ◌+◌, ◌<◌, ◌≤◌, length, None, IsErrOf, IfOk, OnOk};

use crate::sink::{Sink, SinkFault};
use crate::store::{Store, StoreFault};
use std::fs::File;
use std::io::{Read, Seek, SeekFrom, Write};
use std::marker::Model;
use std::rt::Files;
use std::{fs, io};

/// The files that the runtime reaches; a name is a path.
#[derive(Drop)]
pub struct FileStore<'a, R: Files> {
    rt: &'a R,
    read_faults: u64,
    write_faults: u64,
}

impl<'a, R: Files> Model for FileStore<'a, R> {
    ghost use Rattle.vcc_base.specs.Faults.{FaultCounts};

    ghost Value = { FaultCounts };

    ghost view = { λ s. record { reads = s.read_faults; writes = s.write_faults } };
}

impl<'a, R: Files> FileStore<'a, R> {
    /// The runtime's files, of which no read and no write failed yet.
    pub fn new(rt: &'a R) -> FileStore<'a, R>
        ensures { result ≡ record { reads = 0; writes = 0 } }
    {
        FileStore {
            rt,
            read_faults: 0,
            write_faults: 0,
        }
    }
}

// Reads once from the offset on.
fn read_file<R: Files>(rt: &R, name: &str, offset: u64, piece: &mut [u8]) -> io::Result<usize>
    ensures { IfOk result (λ n. n ≤ length piece.old) }
{
    let mut file = fs::open(rt, name)?;
    file.seek(SeekFrom::Start(offset))?;
    file.read(piece)
}

// Writes once at the end.
fn append_file<R: Files>(rt: &R, name: &str, piece: &[u8]) -> io::Result<usize>
    ensures { IfOk result (λ n. n ≤ length piece.now) }
{
    let mut file = File::options().append(true).open(rt, name)?;
    file.write(piece)
}

impl<'a, R: Files> Store for FileStore<'a, R> {
    ghost contents = { λ _. None };

    ghost read_faults = { λ s. s.reads };

    ghost write_faults = { λ s. s.writes };

    fn read_at(&mut self, name: &str, offset: u64, piece: &mut [u8]) -> Result<usize, StoreFault>
        ensures within { IfOk result (λ n. n ≤ length piece.old) }
        ensures ok { OnOk result (self.new ≡ self.old) }
        ensures missing { IsErrOf result StoreFault.Missing → self.new ≡ self.old }
        ensures counted { IsErrOf result StoreFault.Failed → self.new ≡ record self.old { reads = self.old.reads + 1 } }
        ensures failed { IsErrOf result StoreFault.Failed → self.old.reads < self.new.reads }
        ensures never_falls { self.old.reads ≤ self.new.reads }
        ensures writes_stay { self.new.writes ≡ self.old.writes }
        ensures out_of_memory { IsErrOf result StoreFault.OutOfMemory → (self.new ≡ self.old) × (self.old.reads ≡ u64.MAX) }
    {
        if self.read_faults == u64::MAX {
            return Err(StoreFault::OutOfMemory);
        }
        match read_file(self.rt, name, offset, piece) {
            Ok(count) => Ok(count),
            Err(error) => {
                if error.kind() == io::ErrorKind::NotFound {
                    return Err(StoreFault::Missing);
                }
                self.read_faults += 1;
                Err(StoreFault::Failed)
            }
        }
    }

    fn create(&mut self, name: &str) -> Result<(), StoreFault>
        ensures ok { OnOk result (self.new ≡ self.old) }
        ensures never_missing { IsErrOf result StoreFault.Missing → ⊥ }
        ensures counted { IsErrOf result StoreFault.Failed → self.new ≡ record self.old { writes = self.old.writes + 1 } }
        ensures failed { IsErrOf result StoreFault.Failed → self.old.writes < self.new.writes }
        ensures never_falls { self.old.writes ≤ self.new.writes }
        ensures reads_stay { self.new.reads ≡ self.old.reads }
        ensures out_of_memory { IsErrOf result StoreFault.OutOfMemory → (self.new ≡ self.old) × (self.old.writes ≡ u64.MAX) }
    {
        if self.write_faults == u64::MAX {
            return Err(StoreFault::OutOfMemory);
        }
        match fs::create(self.rt, name) {
            Ok(_) => Ok(()),
            Err(_) => {
                self.write_faults += 1;
                Err(StoreFault::Failed)
            }
        }
    }

    fn append(&mut self, name: &str, piece: &[u8]) -> Result<usize, StoreFault>
        ensures within { IfOk result (λ n. n ≤ length piece.now) }
        ensures some { 0 < length piece.now → IfOk result (λ n. 0 < n) }
        ensures ok { OnOk result (self.new ≡ self.old) }
        ensures never_missing { IsErrOf result StoreFault.Missing → ⊥ }
        ensures counted { IsErrOf result StoreFault.Failed → self.new ≡ record self.old { writes = self.old.writes + 1 } }
        ensures failed { IsErrOf result StoreFault.Failed → self.old.writes < self.new.writes }
        ensures never_falls { self.old.writes ≤ self.new.writes }
        ensures reads_stay { self.new.reads ≡ self.old.reads }
        ensures out_of_memory { IsErrOf result StoreFault.OutOfMemory → (self.new ≡ self.old) × (self.old.writes ≡ u64.MAX) }
    {
        if self.write_faults == u64::MAX {
            return Err(StoreFault::OutOfMemory);
        }
        match append_file(self.rt, name, piece) {
            Ok(count) if count > 0 || piece.is_empty() => Ok(count),
            _ => {
                self.write_faults += 1;
                Err(StoreFault::Failed)
            }
        }
    }
}

/// The runtime's standard output.
#[derive(Drop)]
pub struct OutSink<'a, R: Print> {
    rt: &'a R,
    faults: u64,
}

impl<'a, R: Print> Model for OutSink<'a, R> {
    ghost use Rattle.std.specs.Prelude.{ℕ};

    ghost Value = { ℕ };

    ghost view = { λ s. s.faults };
}

impl<'a, R: Print> OutSink<'a, R> {
    /// The runtime's standard output, to which no write failed yet.
    pub fn new(rt: &'a R) -> OutSink<'a, R>
        ensures { result ≡ 0 }
    {
        OutSink { rt, faults: 0 }
    }
}

impl<'a, R: Print> Sink for OutSink<'a, R> {
    ghost written = { λ _. None };

    ghost faults = { λ s. s };

    fn put(&mut self, piece: &[u8]) -> Result<usize, SinkFault>
        ensures within { IfOk result (λ n. n ≤ length piece.now) }
        ensures some { 0 < length piece.now → IfOk result (λ n. 0 < n) }
        ensures ok { OnOk result (self.new ≡ self.old) }
        ensures counted { IsErrOf result SinkFault.Failed → self.new ≡ self.old + 1 }
        ensures failed { IsErrOf result SinkFault.Failed → self.old < self.new }
        ensures never_falls { self.old ≤ self.new }
        ensures out_of_memory { IsErrOf result SinkFault.OutOfMemory → (self.new ≡ self.old) × (self.old ≡ u64.MAX) }
    {
        if self.faults == u64::MAX {
            return Err(SinkFault::OutOfMemory);
        }
        match self.rt.write_some(piece) {
            Ok(count) if count > 0 || piece.is_empty() => Ok(count),
            _ => {
                self.faults += 1;
                Err(SinkFault::Failed)
            }
        }
    }
}
