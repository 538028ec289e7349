//! Where output goes.

use thiserror::Error;

/// Why a sink's call didn't do what was asked.
#[derive(Clone, Copy, Debug, PartialEq, Eq, Error)]
pub enum SinkFault {
    #[error("failed")]
    Failed,
    #[error("out of memory")]
    OutOfMemory,
}

/// What takes output.
pub trait Sink {
    ghost use Rattle.std.specs.Prelude.{◌≡◌, ℕ, ◌<◌, ◌≤◌, List, length, take, Option, IsErrOf, IfOk, OnErr};
    ghost use Rattle.vcc_base.specs.Maps.{NowWritten};

    /// The bytes written so far, or `None` where the sink doesn't tell.
    ghost written: { Self → Option (List ℕ) };

    /// How many writes failed so far.
    ghost faults: { Self → ℕ };

    /// Writes some of the piece's first bytes, and says how many.
    fn put(&mut self, piece: &[u8]) -> Result<usize, SinkFault>
        ensures within { IfOk result (λ n. n ≤ length piece.now) }
        ensures some { 0 < length piece.now → IfOk result (λ n. 0 < n) }
        ensures ok { IfOk result (λ n. NowWritten (written self.old) (written self.new) (take n piece.now)) }
        ensures failed { IsErrOf result SinkFault.Failed → faults self.old < faults self.new }
        ensures never_falls { faults self.old ≤ faults self.new }
        ensures err { OnErr result (written self.new ≡ written self.old) };
}
