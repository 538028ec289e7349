//! What a statement changes, on its way.

use machine_values::spot::Context;
use object_types::heap::Heap;
use object_types::references::Ref;
use object_types::values::Value;

/// What a statement changes, on its way. After a stop it is of no more use.
#[derive(Drop)]
pub struct Progress {
    pub heap: Heap,
    pub locals: Vec<Value>,
    /// the number from which on a new thread's is sought
    pub next_thread: u32,
    /// the objects whose claim count an atomic block changed so far, as often as it did
    pub changed: Vec<Ref>,
    /// the claims that it made
    pub made: Vec<Ref>,
    /// the new threads' first functions
    pub started: Vec<Context>,
}

/// Where a value goes, once the left side is worked out.
#[derive(Clone, Copy, Debug, PartialEq, Eq)]
pub enum Place {
    InLocal(u32),
    InField(Ref, u32),
}
