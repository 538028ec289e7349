//! What no clause says: that calls succeed, printed numbers, and files.

ghost use Rattle.std.specs.Prelude.{None};

use crate::rows::is;
use std::alloc::Global;
use std::process::Abort;
use std::{env, fs};
use vcc_base::file::{FileStore, OutSink};
use vcc_base::limit::Limit;
use vcc_base::memory::{MemSink, MemStore};
use vcc_base::sink::{Sink, SinkFault};
use vcc_base::store::{Store, StoreFault};
use vcc_base::whole::{ReadFault, append_all, put_all, put_number, read_whole};

/// The name that is read, the number of bytes that `name` holds, the numbers of the calls that fail, the limit, and whether these
/// bytes are read, or why nothing is.
type Read = (
    &'static str,
    usize,
    &'static [u64],
    Limit,
    Result<bool, ReadFault>,
);

/// Whole files, a missing one, reads that fail in each place, and files around the limit.
const READS: &[Read] = &[
    ("name", 0, &[], Limit::SourceBytes, Ok(true)),
    ("name", 1, &[], Limit::SourceBytes, Ok(true)),
    ("name", 65_535, &[], Limit::SourceBytes, Ok(true)),
    ("name", 65_536, &[], Limit::SourceBytes, Ok(true)),
    ("name", 65_537, &[], Limit::SourceBytes, Ok(true)),
    ("name", 131_073, &[], Limit::SourceBytes, Ok(true)),
    (
        "other",
        131_073,
        &[],
        Limit::SourceBytes,
        Err(ReadFault::Missing),
    ),
    (
        "name",
        65_537,
        &[1],
        Limit::SourceBytes,
        Err(ReadFault::Failed),
    ),
    (
        "name",
        65_537,
        &[2],
        Limit::SourceBytes,
        Err(ReadFault::Failed),
    ),
    (
        "name",
        65_537,
        &[3],
        Limit::SourceBytes,
        Err(ReadFault::Failed),
    ),
    ("name", 65_537, &[4], Limit::SourceBytes, Ok(true)),
    ("name", 199, &[], Limit::Depth, Ok(true)),
    ("name", 200, &[], Limit::Depth, Ok(true)),
    ("name", 201, &[], Limit::Depth, Err(ReadFault::TooLong)),
];

/// A name, the bytes that are appended to it, or none where it is created, and what that gives.
type Step = (&'static str, Option<&'static [u8]>, Result<(), StoreFault>);

/// Steps on a store whose fourth call fails.
const STEPS: &[Step] = &[
    ("a", Some(b"x"), Err(StoreFault::Missing)),
    ("a", None, Ok(())),
    ("a", Some(b"one"), Ok(())),
    ("a", Some(b"lost"), Err(StoreFault::Failed)),
    ("a", Some(b" two"), Ok(())),
];

/// What it holds then, and `b` besides.
const HELD: &[(&str, Option<&[u8]>)] = &[
    ("a", Some(b"one two")),
    ("b", Some(b"other")),
    ("c", None),
];

/// Pieces for a sink whose third call fails.
const PIECES: &[(&[u8], Result<(), SinkFault>)] = &[
    (b"one", Ok(())),
    (b" two", Ok(())),
    (b" lost", Err(SinkFault::Failed)),
    (b"!", Ok(())),
];

/// Numbers, and how they are printed.
const NUMBERS: &[(i128, &str)] = &[
    (0, "0"),
    (-1, "-1"),
    (i128::MAX, "170141183460469231731687303715884105727"),
    (i128::MIN, "-170141183460469231731687303715884105728"),
];

// Takes two bytes a call, and fails at its second call.
#[derive(Drop)]
struct ShortSink {
    taken: Vec<u8>,
    calls: u64,
    faults: u64,
}

impl Sink for ShortSink {
    ghost written = { λ _. None };

    ghost faults = { λ s. s.faults };

    fn put(&mut self, piece: &[u8]) -> Result<usize, SinkFault> {
        if self.calls == 1 && self.faults < 9 {
            self.faults += 1;
            return Err(SinkFault::Failed);
        }
        self.calls = 1;
        let count = piece.len().min(2);
        match self.taken.extend_from_slice(&piece[..count]) {
            Ok(()) => Ok(count),
            Err(_) => Err(SinkFault::OutOfMemory),
        }
    }
}

/// Reads from a store in which `name` holds these bytes, and whose calls with these numbers fail.
fn read(
    alloc: Global,
    name: &str,
    bytes: &[u8],
    fails: &[u64],
    limit: Limit,
) -> Result<bool, ReadFault> {
    let Ok(fails) = Vec::from_slice(alloc, fails) else {
        return Err(ReadFault::OutOfMemory);
    };
    let mut store = MemStore::new(alloc, fails);
    if store.hold("name", bytes).is_err() {
        return Err(ReadFault::OutOfMemory);
    }
    match read_whole(alloc, &mut store, name, limit) {
        Ok(found) => Ok(found.as_slice() == bytes),
        Err(fault) => Err(fault),
    }
}

/// The row's step.
fn stepped<S: Store>(
    store: &mut S,
    name: &str,
    piece: Option<&'static [u8]>,
) -> Result<(), StoreFault> {
    match piece {
        Some(bytes) => append_all(store, name, bytes),
        None => store.create(name),
    }
}

/// The pieces are taken as their rows say.
fn all_put<O: Sink>(
    rt: &impl Abort,
    sink: &mut O,
    rows: &[(&'static [u8], Result<(), SinkFault>)],
) {
    for row in rows {
        let (piece, _) = *row;
        is(rt, &(piece, put_all(sink, piece)), row);
    }
}

#[test]
fn reads_whole(rt: HostRuntime) {
    let alloc = rt.alloc();
    for row in READS {
        let (name, count, fails, limit, _) = *row;
        let bytes = vec![in alloc; 7; count].expect(&rt, "memory for a file");
        let got = read(alloc, name, &bytes, fails, limit);
        is(&rt, &(name, count, fails, limit, got), row);
    }
}

#[test]
fn appends_all(rt: HostRuntime) {
    let alloc = rt.alloc();
    let fails = vec![in alloc; 4].expect(&rt, "memory for a number");
    let mut store = MemStore::new(alloc, fails);
    for row in STEPS {
        let (name, piece, _) = *row;
        is(&rt, &(name, piece, stepped(&mut store, name, piece)), row);
    }
    is(&rt, &store.hold("b", b"other"), &Ok(()));
    for row in HELD {
        is(&rt, &(row.0, store.bytes(row.0)), row);
    }
    is(&rt, &store.create("a"), &Ok(()));
    is(&rt, &store.bytes("a"), &Some(b""));
}

#[test]
fn puts_all(rt: HostRuntime) {
    let alloc = rt.alloc();
    let fails = vec![in alloc; 3].expect(&rt, "memory for a number");
    let mut sink = MemSink::new(alloc, fails);
    all_put(&rt, &mut sink, PIECES);
    is(&rt, &sink.bytes(), &b"one two!".as_slice());
}

#[test]
fn puts_until_a_call_fails(rt: HostRuntime) {
    let mut short = ShortSink {
        taken: Vec::new(rt.alloc()),
        calls: 0,
        faults: 0,
    };
    all_put(&rt, &mut short, &[(b"12345", Err(SinkFault::Failed))]);
    is(&rt, &short.taken.as_slice(), &b"12".as_slice());
}

#[test]
fn puts_numbers(rt: HostRuntime) {
    let alloc = rt.alloc();
    for (n, text) in NUMBERS {
        let mut sink = MemSink::new(alloc, Vec::new(alloc));
        is(&rt, &put_number(&mut sink, *n), &Ok(()));
        is(&rt, &sink.bytes(), &text.as_bytes());
    }
}

#[test]
fn keeps_files(rt: HostRuntime) {
    let alloc = rt.alloc();
    let mut path = env::temp_dir(&rt).expect(&rt, "a folder");
    path.push("vcc_base_test_file").expect(&rt, "a path");
    let name = path.as_str();
    let mut store = FileStore::new(&rt);
    for piece in [None, Some(b"one".as_slice()), Some(b" two")] {
        is(&rt, &stepped(&mut store, name, piece), &Ok(()));
    }
    let read = read_whole(alloc, &mut store, name, Limit::Depth).expect(&rt, "a file");
    is(&rt, &read.as_slice(), &b"one two".as_slice());
    fs::remove_file(&rt, name).expect(&rt, "no file");
    let missing = read_whole(alloc, &mut store, name, Limit::Depth);
    is(&rt, &missing.err(), &Some(ReadFault::Missing));
    is(
        &rt,
        &append_all(&mut store, name, b"x"),
        &Err(StoreFault::Failed),
    );
}

#[test]
fn writes_to_standard_output(rt: HostRuntime) {
    let mut sink = OutSink::new(&rt);
    is(&rt, &put_all(&mut sink, b"some bytes\n"), &Ok(()));
    is(&rt, &put_number(&mut sink, 5), &Ok(()));
}
