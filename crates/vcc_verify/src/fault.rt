//! Why a run ends without an answer.

ghost use Rattle.std.specs.Prelude.{◌≡◌};
ghost use Rattle.vcc_verify.specs.declared.fault.VerifyFault.TheVariants as fault;

use ground_prover::proof::ProveFault;
use std::alloc::AllocError;
use thiserror::Error;
use vcc_base::sink::SinkFault;
use vcc_base::store::StoreFault;

/// Why a run ends without an answer.
#[derive(Clone, Copy, Debug, PartialEq, Eq, Error)]
pub enum VerifyFault {
    /// With the block of the condition just decided the certificate would be longer than 67,108,864 bytes.
    #[error("the certificate is longer than 67108864 bytes")]
    CertBytes,
    /// The store took no more, and gets nothing after that.
    #[error("{0}")]
    Store(StoreFault),
    /// The sink took no more, and gets nothing after that.
    #[error("{0}")]
    Sink(SinkFault),
    /// Memory was refused.
    #[error("out of memory")]
    OutOfMemory,
}

impl From<AllocError> for VerifyFault {
    ghost from_gives = { λ _ f. f ≡ fault.OutOfMemory };

    fn from(_e: AllocError) -> VerifyFault {
        VerifyFault::OutOfMemory
    }
}

impl From<ProveFault> for VerifyFault {
    ghost from_gives = { λ _ f. f ≡ fault.OutOfMemory };

    fn from(_e: ProveFault) -> VerifyFault {
        VerifyFault::OutOfMemory
    }
}

impl From<StoreFault> for VerifyFault {
    ghost from_gives = { λ e f. f ≡ fault.Store e };

    fn from(e: StoreFault) -> VerifyFault {
        VerifyFault::Store(e)
    }
}

impl From<SinkFault> for VerifyFault {
    ghost from_gives = { λ e f. f ≡ fault.Sink e };

    fn from(e: SinkFault) -> VerifyFault {
        VerifyFault::Sink(e)
    }
}
