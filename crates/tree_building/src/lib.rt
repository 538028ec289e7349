//! Trees whose parts are made one after the other.
#![tactic(auto)]

ghost use Rattle.std.specs.Prelude.{◌≡◌, Ok, Err, IfOk, IfErr};

/// A value, and what was made after it. The first goes into this call, so a caller holds no tree where the second failed.
pub fn pair_with<A: Drop, B, E>(first: A, second: Result<B, E>) -> Result<(A, B), E>
    ensures first { IfOk result (λ p. p.0 ≡ first) }
    ensures second { IfOk result (λ p. second ≡ Ok p.1) }
    ensures err { IfErr result (λ e. second ≡ Err e) }
{
    match second {
        Ok(second) => Ok((first, second)),
        Err(fault) => Err(fault),
    }
}
