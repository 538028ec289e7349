//! How many of what is numbered stand before a place.

ghost use Rattle.std.specs.Prelude.{◌≡◌, ◌+◌, IfOk};
ghost use Rattle.typed_program.specs.Statements as spec;
ghost use Rattle.elab_assignments.specs.Views.{before as seen};

use std::alloc::AllocError;

/// How many quantified formulas, `\destroy_claim` and `\make_claim` stand before a place.
#[derive(Clone, Copy, Debug, PartialEq, Eq)]
pub struct Counters {
    pub formulas: u32,
    pub ended: u32,
    pub sites: u32,
}

/// The sum of two counts.
fn sum(left: u32, right: u32) -> Result<u32, AllocError>
    ensures { IfOk result (λ n. n ≡ left + right) }
{
    match left.checked_add(right) {
        Some(n) => Ok(n),
        None => Err(AllocError),
    }
}

impl Counters {
    /// Nothing stands before.
    pub fn none() -> Counters
        ensures { seen result ≡ spec.none }
    {
        Counters {
            formulas: 0,
            ended: 0,
            sites: 0,
        }
    }

    /// Both together.
    pub fn plus(self, other: Counters) -> Result<Counters, AllocError>
        ensures { IfOk result (λ n. seen n ≡ spec.plus (seen self) (seen other)) }
    {
        let formulas = sum(self.formulas, other.formulas)?;
        let ended = sum(self.ended, other.ended)?;
        let sites = sum(self.sites, other.sites)?;
        Ok(Counters {
            formulas,
            ended,
            sites,
        })
    }

    /// With so many formulas more.
    pub fn with_formulas(self, n: u32) -> Result<Counters, AllocError>
        ensures { IfOk result (λ m. seen m ≡ spec.plus_formulas (seen self) n) }
    {
        let formulas = sum(self.formulas, n)?;
        Ok(Counters { formulas, ..self })
    }
}
