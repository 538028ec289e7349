//! The machine's state.

ghost use Rattle.std.specs.Prelude.{◌≡◌};

use machine_turns::activation::Activation;
use object_types::heap::Heap;

/// A thread: its number, and its functions that are being run, the last called last; none once it has ended.
#[derive(Drop)]
pub struct Thread<'p> {
    pub number: u32,
    pub frames: Vec<Activation<'p>>,
}

/// A state: a heap, and threads.
#[derive(Drop)]
pub struct State<'p> {
    pub(crate) heap: Heap,
    pub(crate) threads: Vec<Thread<'p>>,
}

impl<'p> State<'p> {
    /// The state's heap.
    pub fn heap(&self) -> &Heap
        ensures { result.now ≡ self.now.heap }
    {
        &self.heap
    }
}
