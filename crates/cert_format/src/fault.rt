//! What is wrong with a text.

ghost use Rattle.std.specs.Prelude.{◌≡◌};
ghost use Rattle.cert_format.specs.declared.fault.LineFault.TheVariants.{OutOfMemory};

use std::alloc::AllocFailed;
use thiserror::Error;

/// What is wrong with a line.
#[derive(Clone, Copy, Debug, PartialEq, Eq)]
pub enum LineFault {
    /// It isn't the line that must come, or a word of it doesn't fit.
    BadLine,
    /// In a number's or literal's place stands a word that isn't one.
    BadNumber,
    /// A count is past its limit.
    CountOver,
    /// It stands behind the line `end`.
    Trailing,
    OutOfMemory,
}

impl<T: Drop> From<AllocFailed<T>> for LineFault {
    ghost from_gives = { λ _ e. e ≡ OutOfMemory };

    fn from(_e: AllocFailed<T>) -> LineFault {
        LineFault::OutOfMemory
    }
}

/// Why bytes are no certificate, with the number of the line, from 1.
#[derive(Clone, Copy, Debug, PartialEq, Eq, Error)]
pub enum CertFault {
    #[error("line {0}: BadLine")]
    BadLine(u32),
    #[error("line {0}: BadNumber")]
    BadNumber(u32),
    /// The text ends where a line must come, or within a line.
    #[error("line {0}: CutShort")]
    CutShort(u32),
    #[error("line {0}: Trailing")]
    Trailing(u32),
    #[error("line {0}: CountOver")]
    CountOver(u32),
    #[error("out of memory")]
    OutOfMemory,
}
