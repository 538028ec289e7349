//! The laws, as contracts of functions that do nothing.

ghost use Rattle.race_law.specs.Laws.{SafeIsRaceFree, CounterIsRaceFree};

/// A safe program has no data race.
pub fn safe_is_race_free()
    ensures race_free { SafeIsRaceFree }
{}

/// The counter's program has no data race.
pub fn counter_is_race_free()
    ensures { CounterIsRaceFree }
{}
