//! Where a check is made.

ghost use Rattle.std.specs.Prelude.{◌≡◌, List};
ghost use Rattle.object_types.specs.declared.references.Ref.{Ref as Reference};
ghost use Rattle.machine_values.specs.Spots.{spot_at};
ghost use Rattle.method.specs.Expressions.{is_listed, may_write};

use crate::stop::Stop;
use crate::values::contains;
use method::program::{CheckKind, Program};
use object_types::heap::Heap;
use object_types::references::Ref;
use object_types::values::Value;
use ownership::status::writable;

/// What stays the same while a function runs: its number, its thread, the heap at its entry, its writes list and its
/// arguments.
#[derive(Drop)]
pub struct Context {
    pub function: u32,
    pub me: Ref,
    pub entry: Heap,
    pub writes: Vec<Ref>,
    pub args: Vec<Value>,
}

/// Where a check is made: in a function's run, for a statement of this line, inside an atomic block or not; the objects
/// that the block lists; the choices that the event carries.
#[derive(Clone, Copy)]
pub struct Spot<'a> {
    pub program: &'a Program,
    pub choices: &'a [Value],
    pub context: &'a Context,
    pub line: u32,
    pub inside: bool,
    pub listed: &'a [Ref],
}

impl<'a> Spot<'a> {
    /// The fault of a check that is made here.
    pub fn fault(&self, kind: CheckKind) -> Stop
        ensures { result ≡ Stop.Fault kind self.now.line }
    {
        Stop::Fault(kind, self.line)
    }

    /// The same place, at a statement of this line.
    pub fn on_line(&self, line: u32) -> Spot<'a>
        ensures spot { (x : List Reference) → spot_at x result ≡ record (spot_at x self.now) { line = line } }
        ensures program { result.program ≡ self.now.program }
    {
        Spot { line, ..*self }
    }

    /// Whether an atomic block around lists the object.
    pub fn is_listed(&self, o: Ref) -> bool
        ensures { (x : List Reference) → result ≡ is_listed (spot_at x self.now) o }
    {
        self.inside && contains(self.listed, o)
    }

    /// Whether the function may change the object.
    pub fn may_write(&self, o: Ref) -> bool
        ensures { (x : List Reference) → result ≡ may_write (spot_at x self.now) o }
    {
        writable(
            &self.context.entry,
            &self.context.writes,
            self.context.me,
            o,
        )
    }
}
