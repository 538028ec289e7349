//! The laws, as contracts of functions that do nothing.

ghost use Rattle.converse_law.specs.Laws.{OtherConditionsAreExact, StableSitesSuffice, ConditionsMeanExactly};
ghost use Rattle.converse_law.specs.Samples.{StoreIsLocallySafe, ReleaseIsLocallySafe, StartIsLocallySafe, SharedConditionsAreValid};

/// A condition is valid exactly where no local run fails its check, but for that of a claim site, that what it claims is stable.
pub fn other_conditions_are_exact()
    ensures { OtherConditionsAreExact }
{}

/// And for that too, where what each claim site claims is stable.
pub fn stable_sites_suffice()
    ensures { StableSitesSuffice }
{}

/// The conditions of a program are true in every environment exactly where it is admissible and no local run of its functions fails a check.
pub fn conditions_mean_exactly()
    ensures { ConditionsMeanExactly }
{}

/// The premises are met by a program that stores into an object.
pub fn premises_are_met()
    ensures { StoreIsLocallySafe }
{}

/// And by a program that ends a claim.
pub fn premises_are_met_by_a_claims_end()
    ensures { ReleaseIsLocallySafe }
{}

/// And by one that passes an object to a new thread.
pub fn premises_are_met_by_a_start()
    ensures { StartIsLocallySafe }
{}

/// All conditions are valid of a program in which one function makes a claim, and two threads write one object.
pub fn shared_conditions_are_valid()
    ensures { SharedConditionsAreValid }
{}
