//! Why bytes are no schedule.

ghost use Rattle.std.specs.Prelude.{◌≡◌};
ghost use Rattle.schedule_format.specs.declared.fault.ScheduleFault.TheVariants.{OutOfMemory};

use std::alloc::AllocFailed;
use thiserror::Error;

/// What is wrong with a text first, and the line where it stands.
#[derive(Clone, Copy, Debug, PartialEq, Eq, Error)]
pub enum ScheduleFault {
    /// a line that isn't what has to stand there
    #[error("line {0}: BadLine")]
    BadLine(u32),
    /// a word that is none of the numbers or values that may stand there
    #[error("line {0}: BadNumber")]
    BadNumber(u32),
    /// no whole line where one has to stand
    #[error("line {0}: CutShort")]
    CutShort(u32),
    /// something behind the last line
    #[error("line {0}: Trailing")]
    Trailing(u32),
    /// more events than 100,000
    #[error("line {0}: CountOver")]
    CountOver(u32),
    #[error("out of memory")]
    OutOfMemory,
}

impl<T: Drop> From<AllocFailed<T>> for ScheduleFault {
    ghost from_gives = { λ _ e. e ≡ OutOfMemory };

    fn from(_e: AllocFailed<T>) -> ScheduleFault {
        ScheduleFault::OutOfMemory
    }
}
