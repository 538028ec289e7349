//! Whole reads and writes.

ghost use Rattle.std.specs.Prelude.{◌≡◌, ◌⊎◌, ◌<◌, ◌≤◌, ◌++◌, [], length, take, Some, IsNone, IsErrOf, IfOk, OnOk, OnErr, decimal, vec_len};
ghost use Rattle.std.specs.Fmt.{signed_decimal};
ghost use Rattle.vcc_base.specs.Limits.{number_of};
ghost use Rattle.vcc_base.specs.Maps.{Map, IfTold, IfHeld, NowHolds, FrontHeld, NowWritten, FrontWritten};

use crate::limit::Limit;
use crate::sink::{Sink, SinkFault};
use crate::store::{Store, StoreFault};
use itoa::Buffer;
use std::alloc::{AllocError, Global};
use thiserror::Error;

/// Why bytes could not be read whole.
#[derive(Clone, Copy, Debug, PartialEq, Eq, Error)]
pub enum ReadFault {
    #[error("missing")]
    Missing,
    #[error("failed")]
    Failed,
    #[error("too long")]
    TooLong,
    #[error("out of memory")]
    OutOfMemory,
}

/// Reads are made in pieces of this many bytes.
pub const PIECE: usize = 65_536;

/// All bytes of the name, read in pieces of `PIECE` bytes. More bytes than the limit's number are
/// `TooLong`, found as soon as one more was read; a fault of the store is passed on by its name.
pub fn read_whole<S: Store>(
    alloc: Global,
    store: &mut S,
    name: &str,
    limit: Limit,
) -> Result<Vec<u8>, ReadFault>
    ensures bytes { IfTold (S.contents store.old) (λ m. IfOk result (λ v. m name.now ≡ Some v.items)) }
    ensures within { IfOk result (λ v. length v.items ≤ number_of limit) }
    ensures missing { IfTold (S.contents store.old) (λ m. IsErrOf result ReadFault.Missing → IsNone (m name.now)) }
    ensures absent { IfTold (S.contents store.old) (λ m. IsNone (m name.now) → (result ≡ Err ReadFault.Missing) ⊎ (result ≡ Err ReadFault.OutOfMemory)) }
    ensures too_long { IfTold (S.contents store.old) (λ m. IsErrOf result ReadFault.TooLong → IfHeld m name.now (λ bytes. number_of limit < length bytes)) }
    ensures failed { IsErrOf result ReadFault.Failed → S.read_faults store.old < S.read_faults store.new }
    ensures never_falls { S.read_faults store.old ≤ S.read_faults store.new }
    ensures writes_stay { S.write_faults store.new ≡ S.write_faults store.old }
    ensures kept { S.contents store.new ≡ S.contents store.old }
{
    let mut bytes = Vec::new(alloc);
    let mut piece = empty_piece(alloc).map_err(|_| ReadFault::OutOfMemory)?;
    read_pieces(store, name, limit, piece.as_mut_slice(), &mut bytes)?;
    Ok(bytes)
}

// Room for one piece.
fn empty_piece(alloc: Global) -> Result<Vec<u8>, AllocError>
    ensures { IfOk result (λ piece. vec_len piece ≡ PIECE) }
{
    vec![in alloc; 0; PIECE]
}

// Reads all bytes of the name behind none, a piece at a time.
fn read_pieces<S: Store>(
    store: &mut S,
    name: &str,
    limit: Limit,
    piece: &mut [u8],
    bytes: &mut Vec<u8>,
) -> Result<(), ReadFault>
    requires room { 0 < length piece.old }
    requires empty { bytes.old.items ≡ [] }
    ensures bytes { IfTold (S.contents store.old) (λ m. OnOk result (m name.now ≡ Some bytes.new.items)) }
    ensures within { OnOk result (length bytes.new.items ≤ number_of limit) }
    ensures missing { IfTold (S.contents store.old) (λ m. IsErrOf result ReadFault.Missing → IsNone (m name.now)) }
    ensures absent { IfTold (S.contents store.old) (λ m. IsNone (m name.now) → (result ≡ Err ReadFault.Missing) ⊎ (result ≡ Err ReadFault.OutOfMemory)) }
    ensures too_long { IfTold (S.contents store.old) (λ m. IsErrOf result ReadFault.TooLong → IfHeld m name.now (λ whole. number_of limit < length whole)) }
    ensures failed { IsErrOf result ReadFault.Failed → S.read_faults store.old < S.read_faults store.new }
    ensures never_falls { S.read_faults store.old ≤ S.read_faults store.new }
    ensures writes_stay { S.write_faults store.new ≡ S.write_faults store.old }
    ensures kept { S.contents store.new ≡ S.contents store.old }
{
    'pieces: loop {
        let count = match store.read_at(name, bytes.len() as u64, piece) {
            Ok(count) => count,
            Err(StoreFault::Missing) => return Err(ReadFault::Missing),
            Err(StoreFault::Failed) => return Err(ReadFault::Failed),
            Err(StoreFault::OutOfMemory) => return Err(ReadFault::OutOfMemory),
        };
        if count == 0 {
            return Ok(());
        }
        if bytes.extend_from_slice(&piece[..count]).is_err() {
            return Err(ReadFault::OutOfMemory);
        }
        if bytes.len() as u64 > limit.number() {
            return Err(ReadFault::TooLong);
        }
    }
}

/// Writes the piece; after a fault a front of it is written, and nothing more.
pub fn put_all<O: Sink>(out: &mut O, piece: &[u8]) -> Result<(), SinkFault>
    ensures ok { OnOk result (NowWritten (O.written out.old) (O.written out.new) piece.now) }
    ensures err { OnErr result (FrontWritten (O.written out.old) (O.written out.new) piece.now) }
    ensures failed { IsErrOf result SinkFault.Failed → O.faults out.old < O.faults out.new }
    ensures never_falls { O.faults out.old ≤ O.faults out.new }
{
    let mut done = 0;
    while done < piece.len() {
        let count = out.put(&piece[done..])?;
        done += count;
    }
    Ok(())
}

/// Writes the decimal text of the number, as `put_all` does.
pub fn put_number<O: Sink>(out: &mut O, n: i128) -> Result<(), SinkFault>
    ensures ok { OnOk result (NowWritten (O.written out.old) (O.written out.new) (signed_decimal n)) }
    ensures err { OnErr result (FrontWritten (O.written out.old) (O.written out.new) (signed_decimal n)) }
    ensures failed { IsErrOf result SinkFault.Failed → O.faults out.old < O.faults out.new }
    ensures never_falls { O.faults out.old ≤ O.faults out.new }
{
    let mut buffer = Buffer::new();
    put_all(out, buffer.format(n).as_bytes())
}

/// A natural number in decimal, written as `put_all` does.
pub fn put_natural<O: Sink>(out: &mut O, number: u64) -> Result<(), SinkFault>
    ensures ok { OnOk result (NowWritten (O.written out.old) (O.written out.new) (decimal number)) }
    ensures err { OnErr result (FrontWritten (O.written out.old) (O.written out.new) (decimal number)) }
    ensures failed { IsErrOf result SinkFault.Failed → O.faults out.old < O.faults out.new }
    ensures never_falls { O.faults out.old ≤ O.faults out.new }
{
    put_number(out, i128::from(number))
}

/// Puts the piece behind the bytes of the name; after a fault a front of it is there, and no more.
/// A name that isn't held is refused, even where the piece is empty.
pub fn append_all<S: Store>(store: &mut S, name: &str, piece: &[u8]) -> Result<(), StoreFault>
    ensures ok { IfTold (S.contents store.old) (λ m. IfHeld m name.now (λ bytes. OnOk result (NowHolds (S.contents store.old) (S.contents store.new) name.now (bytes ++ piece.now)))) }
    ensures err { IfTold (S.contents store.old) (λ m. IfHeld m name.now (λ bytes. OnErr result (FrontHeld (S.contents store.old) (S.contents store.new) name.now bytes piece.now))) }
    ensures absent { IfTold (S.contents store.old) (λ m. IsNone (m name.now) → OnOk result ⊥) }
    ensures unchanged { IfTold (S.contents store.old) (λ m. IsNone (m name.now) → S.contents store.new ≡ S.contents store.old) }
    ensures missing { IfTold (S.contents store.old) (λ m. IsErrOf result StoreFault.Missing → IsNone (m name.now)) }
    ensures missing_told { IsErrOf result StoreFault.Missing → (m : Map) × (S.contents store.new ≡ Some m) × IsNone (m name.now) }
    ensures failed { IsErrOf result StoreFault.Failed → S.write_faults store.old < S.write_faults store.new }
    ensures never_falls { S.write_faults store.old ≤ S.write_faults store.new }
    ensures reads_stay { S.read_faults store.new ≡ S.read_faults store.old }
{
    let mut done = 0;
    'pieces: loop {
        let count = store.append(name, &piece[done..])?;
        done += count;
        if done >= piece.len() {
            return Ok(());
        }
    }
}
