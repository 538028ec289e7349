//! The laws, as contracts of functions that do nothing.

ghost use Rattle.erasure_law.specs.Laws.{GhostTurnsAreSilent, CodeStaysApart, ConcreteTurnsLead, ConcreteStepsAreSafe, LockIsApart, CounterIsApart};

/// A turn on ghost code leaves heap and functions as they were, without annotations, and starts no thread.
pub fn ghost_turns_are_silent()
    ensures { GhostTurnsAreSilent }
{}

/// Ghost and concrete code of every state that a run reaches are apart.
pub fn code_stays_apart()
    ensures { CodeStaysApart }
{}

/// A turn that goes on, on an item that the plain machine has, is the plain machine's turn.
pub fn concrete_turns_lead()
    ensures { ConcreteTurnsLead }
{}

/// In a safe program no step on such an item is a fault without annotations.
pub fn concrete_steps_are_safe()
    ensures { ConcreteStepsAreSafe }
{}

/// Ghost and concrete code of the lock's program are apart.
pub fn lock_is_apart()
    ensures { LockIsApart }
{}

/// So are those of the counter's program.
pub fn counter_is_apart()
    ensures { CounterIsApart }
{}
