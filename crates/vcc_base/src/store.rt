//! Where named bytes are kept.

use thiserror::Error;

/// Why a store's call didn't do what was asked.
#[derive(Clone, Copy, Debug, PartialEq, Eq, Error)]
pub enum StoreFault {
    #[error("missing")]
    Missing,
    #[error("failed")]
    Failed,
    #[error("out of memory")]
    OutOfMemory,
}

/// Names that hold bytes.
pub trait Store {
    ghost use Rattle.std.specs.Prelude.{◌≡◌, ◌⊎◌, ℕ, ◌<◌, ◌≤◌, ◌++◌, [], length, take, Option, Some, None, IsNone, IsErrOf, IfOk, OnOk, OnErr};
    ghost use Rattle.vcc_base.specs.Maps.{Map, IfTold, IfHeld, IsPieceOf, NowHolds};

    /// Which names hold which bytes, or `None` where the store doesn't tell.
    ghost contents: { Self → Option Map };

    /// How many reads failed so far.
    ghost read_faults: { Self → ℕ };

    /// How many writes failed so far.
    ghost write_faults: { Self → ℕ };

    /// Reads bytes of the name, from the offset on, into the front of the piece, and says how many.
    fn read_at(&mut self, name: &str, offset: u64, piece: &mut [u8]) -> Result<usize, StoreFault>
        ensures within { IfOk result (λ n. n ≤ length piece.old) }
        ensures bytes { IfTold (contents self.old) (λ m. IfOk result (λ n. IfHeld m name.now (λ bytes. IsPieceOf bytes offset n (length piece.old) piece.new))) }
        ensures missing { IfTold (contents self.old) (λ m. IsErrOf result StoreFault.Missing → IsNone (m name.now)) }
        ensures absent { IfTold (contents self.old) (λ m. IsNone (m name.now) → (result ≡ Err StoreFault.Missing) ⊎ (result ≡ Err StoreFault.OutOfMemory)) }
        ensures failed { IsErrOf result StoreFault.Failed → read_faults self.old < read_faults self.new }
        ensures never_falls { read_faults self.old ≤ read_faults self.new }
        ensures writes_stay { write_faults self.new ≡ write_faults self.old }
        ensures kept { contents self.new ≡ contents self.old };

    /// Makes the name hold no bytes.
    fn create(&mut self, name: &str) -> Result<(), StoreFault>
        ensures ok { OnOk result (NowHolds (contents self.old) (contents self.new) name.now []) }
        ensures never_missing { IsErrOf result StoreFault.Missing → ⊥ }
        ensures failed { IsErrOf result StoreFault.Failed → write_faults self.old < write_faults self.new }
        ensures never_falls { write_faults self.old ≤ write_faults self.new }
        ensures reads_stay { read_faults self.new ≡ read_faults self.old }
        ensures err { OnErr result (contents self.new ≡ contents self.old) };

    /// Puts some of the piece's first bytes behind those of the name, and says how many.
    fn append(&mut self, name: &str, piece: &[u8]) -> Result<usize, StoreFault>
        ensures within { IfOk result (λ n. n ≤ length piece.now) }
        ensures some { 0 < length piece.now → IfOk result (λ n. 0 < n) }
        ensures ok { IfTold (contents self.old) (λ m. IfOk result (λ n. IfHeld m name.now (λ bytes. NowHolds (contents self.old) (contents self.new) name.now (bytes ++ take n piece.now)))) }
        ensures absent { IfTold (contents self.old) (λ m. IsNone (m name.now) → IfOk result (λ n. ⊥)) }
        ensures missing { IsErrOf result StoreFault.Missing → (m : Map) × (contents self.old ≡ Some m) × IsNone (m name.now) }
        ensures failed { IsErrOf result StoreFault.Failed → write_faults self.old < write_faults self.new }
        ensures never_falls { write_faults self.old ≤ write_faults self.new }
        ensures reads_stay { read_faults self.new ≡ read_faults self.old }
        ensures err { OnErr result (contents self.new ≡ contents self.old) };
}
