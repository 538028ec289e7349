//! A program's certificate written anew.

ghost use Rattle.std.specs.Prelude.{◌≡◌, false, IsTrue, IfOk, Err};
ghost use Rattle.condition_meaning.specs.Languages.{language_of};
ghost use Rattle.cert_format.specs.Text.{seen};
ghost use Rattle.block_layout.specs.Space.{IsTheory};
ghost use Rattle.certificate_upgrade.specs.Lemmas.{AreFew};
ghost use Rattle.certificate_upgrade.specs.Upgrade.{upgraded};

use crate::blocks::new_blocks;
use crate::survey::survey_blocks;
use block_layout::space::{MOST_NODES, Theory};
use cert_format::certificate::{Certificate, Refutation};
use method::program::Program;
use program_language::language::program_language;
use std::alloc::{AllocError, Global};
use thiserror::Error;
use upgrade_lemmas::lemmas::{Lemmas, make_lemmas};

/// Why a certificate isn't written anew.
#[derive(Debug, Error, Drop)]
pub enum UpgradeFault {
    /// The lemmas would have more than 1,048,576 terms.
    #[error("the lemmas would have more than 1048576 terms")]
    Terms,
    /// Memory was refused.
    #[error("out of memory")]
    OutOfMemory,
}

impl From<AllocError> for UpgradeFault {
    ghost use Rattle.std.specs.Prelude.{◌≡◌};
    ghost use Rattle.vcc_upgrade.specs.declared.upgrade.UpgradeFault.TheVariants.{OutOfMemory};

    ghost from_gives = { λ _ fault. fault ≡ OutOfMemory };

    fn from(_want: AllocError) -> UpgradeFault {
        UpgradeFault::OutOfMemory
    }
}

/// Whether the lemmas have no more terms than a condition may need.
fn are_few(lemmas: &[Refutation]) -> bool
    ensures few { IsTrue result → AreFew lemmas.now }
    ensures many { result ≡ false → AreFew lemmas.now → ⊥ }
{
    let mut left = MOST_NODES;
    for lemma in lemmas {
        let count = lemma.terms().len();
        if count > left {
            return false;
        }
        left -= count;
    }
    true
}

/// The same by the program's theory.
fn upgrade_by(
    alloc: Global,
    theory: Theory<'_>,
    certificate: &Certificate,
) -> Result<Certificate, UpgradeFault>
    requires { IsTheory theory (language_of theory.program.now) }
    ensures is { IfOk result (λ new. seen new ≡ upgraded theory.entry.program.now (seen certificate.now)) }
    ensures few { IfOk result (λ new. AreFew new.lemmas.items) }
    ensures limit { result ≡ Err UpgradeFault.Terms →
        AreFew (upgraded theory.entry.program.now (seen certificate.now)).lemmas → ⊥ }
{
    let survey = survey_blocks(alloc, theory, &certificate.blocks)?;
    let lemmas = make_lemmas(alloc, &survey.conclusions)?;
    if !are_few(&lemmas.list) {
        return Err(UpgradeFault::Terms);
    }
    let blocks = new_blocks(alloc, &certificate.blocks, &survey.blocks, &lemmas)?;
    let Lemmas { list, .. } = lemmas;
    Ok(Certificate {
        version: 2,
        lemmas: list,
        blocks,
    })
}

/// The certificate of the program written anew, in version 2: what at least two of its steps conclude by axioms stands
/// once, as a lemma.
///
/// # Errors
/// `Terms`, where the lemmas would have more than 1,048,576 terms; `OutOfMemory`, where memory is refused.
pub fn upgrade(
    alloc: Global,
    program: &Program,
    certificate: &Certificate,
) -> Result<Certificate, UpgradeFault>
    ensures is { IfOk result (λ new. seen new ≡ upgraded program.now (seen certificate.now)) }
    ensures few { IfOk result (λ new. AreFew new.lemmas.items) }
    ensures limit { result ≡ Err UpgradeFault.Terms →
        AreFew (upgraded program.now (seen certificate.now)).lemmas → ⊥ }
{
    let language = program_language(alloc, program)?;
    let theory = Theory {
        program,
        language: &language,
    };
    upgrade_by(alloc, theory, certificate)
}
