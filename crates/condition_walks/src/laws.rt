//! A law on the number of conditions, the contract of a function that does nothing.

ghost use Rattle.condition_walks.specs.Laws.{OneConditionPerLabel};

/// A program has as many conditions as labels.
pub fn one_condition_per_label()
    ensures { OneConditionPerLabel }
{}
