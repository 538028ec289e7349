//! Whether a refutation fits into a certificate.

ghost use Rattle.std.specs.Prelude.{◌≤◌, IsTrue};
ghost use Rattle.cert_format.specs.Text.{literals_of};
ghost use Rattle.ground_prover.specs.Proving.{IsSmall};

use cert_format::certificate::{Refutation, Step};

/// The most terms, and the most steps, of a block.
const MOST_PARTS: usize = 1_048_576;

/// The most literals of a block's steps.
const MOST_LITERALS: usize = 4_194_304;

/// Whether the steps have no more literals than a block may.
fn have_few_literals(steps: &[Step]) -> bool
    ensures { IsTrue result → literals_of steps.now ≤ 4194304 }
{
    let mut left = MOST_LITERALS;
    for step in steps {
        let Some(rest) = left.checked_sub(step.clause.literals().len()) else {
            return false;
        };
        left = rest;
    }
    true
}

/// Whether the block is small enough for a certificate.
#[tactic(auto, using(crate::proofs::Proving::small))]
pub fn is_small(block: &Refutation) -> bool
    ensures { IsTrue result → IsSmall block.now }
{
    if block.terms().len() > MOST_PARTS || block.steps().len() > MOST_PARTS {
        return false;
    }
    have_few_literals(block.steps())
}
