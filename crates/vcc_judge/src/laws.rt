//! Laws on verdicts, each the contract of a function that does nothing.

ghost use Rattle.vcc_judge.specs.Laws.{VerifiedGetsYes, YesIsVerified};

/// Where every condition follows by its block, the answer is yes, unless too many terms are needed or memory is refused.
pub fn verified_gets_yes()
    ensures { VerifiedGetsYes }
{}

/// Yes is answered only where every condition follows by its block.
pub fn yes_is_verified()
    ensures { YesIsVerified }
{}
