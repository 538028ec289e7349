//! What the language of a program says, as contracts of a function that does nothing.

ghost use Rattle.condition_meaning.specs.Promises.{FormulasMeanAnnotations, InstancesAreTrue, ReflexiveByCondition, StableByCondition, ClaimStableByCondition, ConditionByClaimStable, AdmissibleByConditions, TypesByConditions, SitesByConditions, AdmissibleWhereValid};

/// The formulas of a program's annotations say what the annotations say; so the axioms' instances are true, and a
/// type's and a claim site's conditions are true in every environment exactly where they are admissible.
pub fn annotations_say()
    ensures say { FormulasMeanAnnotations }
    ensures instances { InstancesAreTrue }
    ensures reflexive { ReflexiveByCondition }
    ensures stable { StableByCondition }
    ensures claims { ClaimStableByCondition }
    ensures claims_back { ConditionByClaimStable }
    ensures admissible { AdmissibleByConditions }
    ensures types { TypesByConditions }
    ensures sites { SitesByConditions }
    ensures admissible_where_valid { AdmissibleWhereValid }
{}
