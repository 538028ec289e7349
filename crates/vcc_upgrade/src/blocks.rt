//! The blocks of a certificate written anew.

ghost use Rattle.std.specs.Prelude.{◌≡◌, List, None, Some, slice_get, IfOk, IfNone, IfSome};
ghost use Rattle.terms.specs.declared.term.Term.{Term};
ghost use Rattle.terms.specs.Formula.{Formula};
ghost use Rattle.term_meaning.specs.Meaning.{Language as Meant};
ghost use Rattle.certificate_upgrade.specs.Conclusions.{Conclusion as Concluded};
ghost use Rattle.certificate_upgrade.specs.Lemmas.{lemma_conclusions, trees_of};
ghost use Rattle.certificate_upgrade.specs.Upgrade as spec;
ghost use Rattle.upgrade_lemmas.specs.Made.{AreMade};
ghost use Rattle.vcc_upgrade.specs.Surveys.{FirstHas, HaveTrees, first_new};

use crate::survey::StepTrees;
use cert_format::certificate::Refutation;
use std::alloc::{AllocError, Global};
use upgrade_lemmas::lemmas::Lemmas;
use upgrade_lemmas::rewriting::rewrite;

/// The trees of the block at the place, where it has a condition.
fn trees_at(all: &[StepTrees], place: usize) -> Option<&StepTrees>
    ensures some { IfSome result (λ trees. slice_get all.now place ≡ Some trees.now) }
    ensures none { IfNone result (slice_get all.now place ≡ None) }
{
    all.get(place)
}

/// The same block: none of its steps cites a lemma.
fn keep_block(alloc: Global, block: &Refutation, lemmas: &Lemmas) -> Result<Refutation, AllocError>
    ensures { (l : Meant) (ts : List Term) (cs : List Concluded) → AreMade l ts cs lemmas.now →
        IfOk result (λ new. new ≡ block.now) }
{
    let nodes = vec![in alloc; None; block.steps().len()]?;
    rewrite(alloc, block, &nodes, lemmas)
}

/// The block written anew, where it has a condition, by the trees of its steps; any other stays.
fn new_block(
    alloc: Global,
    block: &Refutation,
    trees: Option<&StepTrees>,
    lemmas: &Lemmas,
) -> Result<Refutation, AllocError>
    ensures { (l : Meant) (ts : List Term) (cs : List Concluded) (fs : List Formula) → AreMade l ts cs lemmas.now →
        FirstHas l ts trees.entry fs block.now →
        IfOk result (λ new. new ≡ first_new l (trees_of (lemma_conclusions cs)) fs block.now) }
{
    match trees {
        Some(trees) => rewrite(alloc, block, &trees.nodes, lemmas),
        None => keep_block(alloc, block, lemmas),
    }
}

/// The blocks written anew, by the trees of those that have a condition.
///
/// # Errors
/// Where memory is refused.
pub fn new_blocks(
    alloc: Global,
    blocks: &[Refutation],
    trees: &[StepTrees],
    lemmas: &Lemmas,
) -> Result<Vec<Refutation>, AllocError>
    ensures { (l : Meant) (ts : List Term) (cs : List Concluded) (fs : List Formula) → AreMade l ts cs lemmas.now →
        HaveTrees l ts trees.now fs blocks.now →
        IfOk result (λ new. new.items ≡ spec.new_blocks l (trees_of (lemma_conclusions cs)) fs blocks.now) }
{
    let mut new = Vec::new(alloc);
    for (place, block) in blocks.iter().enumerate() {
        let one = new_block(alloc, block, trees_at(trees, place), lemmas)?;
        new.push(one)?;
    }
    Ok(new)
}
