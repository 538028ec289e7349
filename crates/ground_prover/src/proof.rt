//! What the prover answers, and what it may spend.

ghost use Rattle.std.specs.Prelude.{◌≡◌};
ghost use Rattle.ground_prover.specs.declared.proof.ProveFault.TheVariants.{OutOfMemory};

use cert_format::certificate::Refutation;
use std::alloc::AllocError;
use thiserror::Error;

/// How many leaves the search may look at, and how many rounds may be added to the ground set.
#[derive(Clone, Copy)]
pub struct Budget {
    pub leaves: u32,
    pub rounds: u32,
}

/// What the prover answers.
#[derive(Drop)]
pub enum Proof {
    /// The condition follows by this block.
    Refuted(Refutation),
    /// The ground set, as far as the rounds went, doesn't refute that the condition is false.
    Open,
    /// The leaves are spent, or nothing that was found holds.
    Spent,
}

/// Why the prover gives no answer.
#[derive(Debug, Error, Drop)]
pub enum ProveFault {
    /// Memory was refused.
    #[error("out of memory")]
    OutOfMemory,
}

impl From<AllocError> for ProveFault {
    ghost from_gives = { λ _ e. e ≡ OutOfMemory };

    fn from(_e: AllocError) -> ProveFault {
        ProveFault::OutOfMemory
    }
}
