//! What a certificate shows of a program.

ghost use Rattle.std.specs.Prelude.{◌≡◌};
ghost use Rattle.vcc_judge.specs.declared.verdict.JudgeFault.TheVariants.{OutOfMemory};

use check_labels::labels::ProgramLabel;
use int_ranges::exact::Wide;
use std::alloc::AllocError;
use thiserror::Error;

/// What a certificate's blocks show of a program.
#[derive(Clone, Copy, Debug, PartialEq, Eq)]
pub enum Verdict {
    /// Every condition follows.
    Yes,
    /// The condition of this check is the first that doesn't follow.
    No(ProgramLabel),
}

/// Why the blocks give no verdict.
#[derive(Debug, Error, Drop)]
pub enum JudgeFault {
    /// A condition needs more than 1,048,576 terms.
    #[error("a condition needs more than 1048576 terms")]
    Terms,
    /// A number leaves 128 bits: that of these operands.
    #[error("a step works out a number that leaves 128 bits")]
    Wide(Wide),
    /// Memory was refused.
    #[error("out of memory")]
    OutOfMemory,
}

impl From<AllocError> for JudgeFault {
    ghost from_gives = { λ _ e. e ≡ OutOfMemory };

    fn from(_e: AllocError) -> JudgeFault {
        JudgeFault::OutOfMemory
    }
}
