//! What the checker answers.

ghost use Rattle.std.specs.Prelude.{◌≡◌};
ghost use Rattle.refutation_check.specs.declared.answer.CheckFault.TheVariants.{OutOfMemory};

use int_ranges::exact::Wide;
use std::alloc::AllocError;
use thiserror::Error;

/// What a block shows of its condition.
#[derive(Clone, Copy, Debug, PartialEq, Eq)]
pub enum Answer {
    /// The condition follows: it is true in every environment.
    Follows,
    /// The added term with this number is the first that names a number that isn't below its own, or has no sort.
    BadTerm(usize),
    /// The step with this number is the first that no row gives; the number of steps, where all are given and there is
    /// none or the last clause isn't empty.
    FailsAt(usize),
}

/// Why the checker gives no answer.
#[derive(Debug, Error, Drop)]
pub enum CheckFault {
    /// More than 1,048,576 terms are needed.
    #[error("a condition needs more than 1048576 terms")]
    Limit,
    /// A number leaves 128 bits: that of these operands.
    #[error("a step works out a number that leaves 128 bits")]
    Wide(Wide),
    /// Memory was refused.
    #[error("out of memory")]
    OutOfMemory,
}

impl From<AllocError> for CheckFault {
    ghost from_gives = { λ _ e. e ≡ OutOfMemory };

    fn from(_e: AllocError) -> CheckFault {
        CheckFault::OutOfMemory
    }
}
