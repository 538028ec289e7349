//! The laws, as contracts of functions that do nothing.

ghost use Rattle.conditions_law.specs.Laws.{LocalOkByCondition, ConditionsMeanLocalSafety, ConditionsMeanSafe, ConditionsMeanSafeAnyReferences};
ghost use Rattle.conditions_law.specs.Samples.{SharedIsVerifiable, StoreIsVerifiable};

/// Check by check: where its condition is valid, no local run fails the check.
pub fn conditions_mean_checks()
    ensures { LocalOkByCondition }
{}

/// A program whose conditions are all valid is admissible, and no local run of its functions fails a check.
pub fn conditions_mean_local_safety()
    ensures { ConditionsMeanLocalSafety }
{}

/// So it is safe in every interleaving.
pub fn conditions_mean_safe()
    ensures { ConditionsMeanSafe }
{}

/// The same where each malloc and each claim takes any absent reference of its type.
pub fn conditions_mean_safe_any_references()
    ensures { ConditionsMeanSafeAnyReferences }
{}

/// The premises are met by real programs.
pub fn premises_are_met()
    ensures shared { SharedIsVerifiable }
    ensures store { StoreIsVerifiable }
{}
