//! What an expression is worked out for.

use int_ranges::exact::Wide;
use object_types::references::Ref;
use object_types::values::Value;
use thiserror::Error;

/// What the words of an expression refer to, beside the heaps.
#[derive(Drop)]
pub struct Env {
    /// `\me`
    pub thread: Ref,
    /// `\this`
    pub this: Ref,
    /// the variables of the function now
    pub locals: Vec<Value>,
    /// its parameters at its entry
    pub entry: Vec<Value>,
    /// `\result`
    pub result: Value,
}

/// Why there is no value.
#[derive(Clone, Copy, Debug, PartialEq, Eq, Error)]
pub enum EvalFault {
    /// An exact result leaves 128 bits.
    #[error("{0}")]
    Wide(Wide),
    /// For the calls that stand on these and take memory; none of these does.
    #[error("out of memory")]
    OutOfMemory,
}
