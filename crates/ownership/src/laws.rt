//! The effects are those of the actions, as the contract of a function that does nothing.

ghost use Rattle.ownership.specs.ActionEffects.{WrapCloses, UnwrapOpens, JoinGives, LeaveTakes};

/// What the actions leave where they pass their checks.
pub fn effect_laws()
    ensures wrap { WrapCloses }
    ensures unwrap { UnwrapOpens }
    ensures join { JoinGives }
    ensures leave { LeaveTakes }
{}
