//! Why a replay gives no answer.

ghost use Rattle.std.specs.Prelude.{◌≡◌};
ghost use Rattle.schedule_replay.specs.Answers.{stop_of};
ghost use Rattle.schedule_replay.specs.declared.fault.ReplayFault.TheVariants as fault;

use int_ranges::exact::Wide;
use ref_machine::step::StepFault;
use thiserror::Error;
use vcc_base::sink::SinkFault;

/// Why a replay gives no answer.
#[derive(Clone, Copy, Debug, PartialEq, Eq, Error)]
pub enum ReplayFault {
    /// The arguments don't fit main.
    #[error("the arguments don't fit main")]
    BadArgs,
    /// An annotation's value leaves 128 bits.
    #[error("{0}")]
    Wide(Wide),
    /// The sink took no more; it gets nothing behind that.
    #[error("{0}")]
    Sink(SinkFault),
    /// A serial, a thread's number or a claim count would be past the greatest that a heap holds.
    #[error("numbers are exhausted")]
    Exhausted,
    /// The machine wants memory.
    #[error("out of memory")]
    OutOfMemory,
}

impl From<SinkFault> for ReplayFault {
    ghost from_gives = { λ e f. f ≡ fault.Sink e };

    fn from(e: SinkFault) -> ReplayFault {
        ReplayFault::Sink(e)
    }
}

impl From<StepFault> for ReplayFault {
    ghost from_gives = { λ e f. f ≡ stop_of e };

    fn from(e: StepFault) -> ReplayFault {
        match e {
            StepFault::Exhausted => ReplayFault::Exhausted,
            StepFault::OutOfMemory => ReplayFault::OutOfMemory,
        }
    }
}
