//! Reading a name's bytes in pieces.

ghost use Rattle.std.specs.Prelude.{◌≡◌, ◌+◌, ◌<◌, ◌≤◌, length, IfOk, MatchResult, Some, vec_len};
ghost use Rattle.vcc_base.specs.Limits.{number_of};
ghost use Rattle.vcc_base.specs.Maps.{Map};
ghost use Rattle.vcc_io.specs.Faults.{IsReadFault};
ghost use Rattle.vcc_io.specs.Held.{IsUnread};
ghost use Rattle.vcc_io.specs.Pieces.{HoldsPiece};

use crate::refusal::Refusal;
use std::alloc::{AllocError, Global};
use vcc_base::limit::Limit;
use vcc_base::store::{Store, StoreFault};
use vcc_base::whole::PIECE;

/// Room for one piece.
pub fn empty_piece(alloc: Global) -> Result<Vec<u8>, AllocError>
    ensures { IfOk result (λ piece. vec_len piece ≡ PIECE) }
{
    vec![in alloc; 0; PIECE]
}

/// Reads the bytes of the name from the offset on into the front of the piece, as many as come at once, and says how
/// many; none at the end.
pub fn read_piece<'a, S: Store>(
    store: &mut S,
    name: &'a str,
    limit: Limit,
    offset: u64,
    piece: &mut [u8],
) -> Result<usize, Refusal<'a>>
    requires { offset ≤ number_of limit }
    ensures piece { (m : Map) → S.contents store.old ≡ Some m → MatchResult result
        (λ n. HoldsPiece m name.entry.now offset n (length piece.old) piece.new) (IsUnread m name.entry.now limit) }
    ensures within { IfOk result (λ n. n ≤ length piece.old) }
    ensures few { IfOk result (λ n. offset + n ≤ number_of limit) }
    ensures fault { IsReadFault result → S.read_faults store.old < S.read_faults store.new }
    ensures never_falls { S.read_faults store.old ≤ S.read_faults store.new }
    ensures kept { S.contents store.new ≡ S.contents store.old }
{
    let count = match store.read_at(name, offset, piece) {
        Ok(count) => count,
        Err(StoreFault::Missing) => return Err(Refusal::Missing(name)),
        Err(StoreFault::Failed) => return Err(Refusal::ReadFault(name)),
        Err(StoreFault::OutOfMemory) => return Err(Refusal::OutOfMemory),
    };
    if count as u64 > limit.number() - offset {
        return Err(Refusal::Limit(limit));
    }
    Ok(count)
}
