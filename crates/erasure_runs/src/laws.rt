//! The laws, as contracts of functions that do nothing.

ghost use Rattle.erasure_runs.specs.Laws.{SafeIsSafePlain, RunsAreErased, CounterIsSafePlain};

/// Of a safe program no event of the plain machine is a fault.
pub fn safe_is_safe_plain()
    ensures { SafeIsSafePlain }
{}

/// What plain events reach is what the machine reaches, without annotations, and the other way round.
pub fn runs_are_erased()
    ensures { RunsAreErased }
{}

/// The counter's program is safe without its annotations.
pub fn counter_is_safe_plain()
    ensures { CounterIsSafePlain }
{}
