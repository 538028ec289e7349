//! Why an item of code comes to nothing.

use int_ranges::exact::Wide;
use method::program::CheckKind;
use spec_eval::env::EvalFault;
use std::alloc::{AllocError, AllocFailed};
use thiserror::Error;

/// Why an item of code comes to nothing.
#[derive(Clone, Copy, Debug, PartialEq, Eq, Error)]
pub enum Stop {
    /// The event's choices are none that the item has.
    #[error("not enabled")]
    Misfit,
    /// A check fails: its kind and line.
    #[error("fault")]
    Fault(CheckKind, u32),
    /// A value of an annotation leaves 128 bits.
    #[error("{0}")]
    Wide(Wide),
    /// A serial, a thread's number or a claim count would be past the greatest that a heap holds.
    #[error("numbers are exhausted")]
    Exhausted,
    #[error("out of memory")]
    OutOfMemory,
}

impl From<AllocError> for Stop {
    ghost use Rattle.machine_values.specs.declared.stop.Stop.TheVariants.{OutOfMemory};
    ghost use Rattle.std.specs.Prelude.{◌≡◌};

    ghost from_gives = { λ _ stop. stop ≡ OutOfMemory };

    fn from(_fault: AllocError) -> Stop {
        Stop::OutOfMemory
    }
}

impl<T: Drop> From<AllocFailed<T>> for Stop {
    ghost use Rattle.machine_values.specs.declared.stop.Stop.TheVariants.{OutOfMemory};
    ghost use Rattle.std.specs.Prelude.{◌≡◌};

    ghost from_gives = { λ _ stop. stop ≡ OutOfMemory };

    fn from(_fault: AllocFailed<T>) -> Stop {
        Stop::OutOfMemory
    }
}

impl From<EvalFault> for Stop {
    ghost use Rattle.machine_values.specs.Answers.{stop_of};
    ghost use Rattle.std.specs.Prelude.{◌≡◌};

    ghost from_gives = { λ fault stop. stop ≡ stop_of fault };

    fn from(fault: EvalFault) -> Stop {
        match fault {
            EvalFault::Wide(wide) => Stop::Wide(wide),
            EvalFault::OutOfMemory => Stop::OutOfMemory,
        }
    }
}
