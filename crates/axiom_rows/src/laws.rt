//! Instances of axioms, as the contract of a function that does nothing.

ghost use Rattle.axiom_rows.specs.Laws.{NoneIsMade, NumbersApart, LockInstances, BagInstances};

/// Instances of axioms are the formulas that were written down by hand, and numbers that don't fit make none.
pub fn instances_are_these()
    ensures none { NoneIsMade }
    ensures apart { NumbersApart }
    ensures lock { LockInstances }
    ensures bag { BagInstances }
{}
