//! Why work on bounds is given up.

use std::alloc::{AllocError, AllocFailed};

/// Why work on bounds is given up.
#[derive(Debug, Drop)]
pub enum Stop {
    /// A growth was refused.
    Memory,
    /// A number left 128 bits.
    Wide,
}

impl From<AllocError> for Stop {
    fn from(_error: AllocError) -> Stop {
        Stop::Memory
    }
}

impl<T: Drop> From<AllocFailed<T>> for Stop {
    fn from(_error: AllocFailed<T>) -> Stop {
        Stop::Memory
    }
}
