//! The conditions of the lock program, as the contract of a function that does nothing.

ghost use Rattle.lock_conditions.specs.Laws.{TextIsLock, LabelsAreThese, DataConditions, LockConditions, InitializeLockConditions, AcquireConditions, ReleaseConditions, WorkerConditions, MainConditions};

/// The text of the lock is typed as the program that is spoken of here. It has 71 conditions, with these labels in this
/// order, and those of each type and function are the formulas that were written down by hand.
pub fn conditions_are_these()
    ensures text { TextIsLock }
    ensures labels { LabelsAreThese }
    ensures data_type { DataConditions }
    ensures lock_type { LockConditions }
    ensures initialize_lock { InitializeLockConditions }
    ensures acquire { AcquireConditions }
    ensures release { ReleaseConditions }
    ensures worker { WorkerConditions }
    ensures main { MainConditions }
{}
