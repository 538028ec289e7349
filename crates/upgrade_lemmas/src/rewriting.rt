//! A block whose steps cite lemmas.

ghost use Rattle.std.specs.Prelude.{◌≡◌, List, map, Some, IfOk};
ghost use Rattle.terms.specs.declared.term.Term.{Term};
ghost use Rattle.terms.specs.Formula.{Formula};
ghost use Rattle.term_meaning.specs.Meaning.{Language as Meant};
ghost use Rattle.certificate_upgrade.specs.Conclusions.{Conclusion as Concluded};
ghost use Rattle.certificate_upgrade.specs.Held.{AreMarks, step_trees};
ghost use Rattle.certificate_upgrade.specs.Lemmas.{lemma_conclusions, trees_of};
ghost use Rattle.certificate_upgrade.specs.Upgrade.{citation, new_step};
ghost use Rattle.upgrade_lemmas.specs.Cited as spec;
ghost use Rattle.upgrade_lemmas.specs.Made.{AreMade};

use crate::copies::{copy_clause, copy_step, copy_terms};
use crate::lemmas::Lemmas;
use crate::places::place_at;
use cert_format::certificate::{Refutation, RuleName, Step};
use std::alloc::{AllocError, Global};
use terms::numbers::Numbers;

/// The place of the lemma of the node with this number in the list, if there is one.
fn lemma_at(places: &[Option<u32>], marks: &[Option<u32>], i: usize) -> Option<u32>
    ensures { result ≡ spec.lemma_at places.now marks.now i }
{
    if i >= marks.len() {
        return None;
    }
    match marks[i] {
        Some(node) => place_at(places, node),
        None => None,
    }
}

/// The step that cites the lemma at this place in place of this one.
fn cite(alloc: Global, step: &Step, lemma: u32) -> Result<Step, AllocError>
    ensures { IfOk result (λ new. new ≡ citation step.now (Some lemma)) }
{
    let mut numbers = Vec::new(alloc);
    numbers.push(i128::from(lemma))?;
    let clause = copy_clause(alloc, &step.clause)?;
    Ok(Step {
        rule: RuleName::Lemma,
        numbers: Numbers::new(numbers),
        clause,
    })
}

/// The step, or the one that cites a lemma in its place, if there is one.
fn step_with(alloc: Global, step: &Step, lemma: Option<u32>) -> Result<Step, AllocError>
    ensures { IfOk result (λ new. new ≡ citation step.now lemma) }
{
    match lemma {
        Some(lemma) => cite(alloc, step, lemma),
        None => copy_step(alloc, step),
    }
}

/// The steps with citations in place of those whose node has a lemma.
fn cite_all(
    alloc: Global,
    steps: &[Step],
    marks: &[Option<u32>],
    places: &[Option<u32>],
) -> Result<Vec<Step>, AllocError>
    ensures { IfOk result (λ new. new.items ≡ spec.citations places.now marks.now steps.now) }
{
    let mut new = Vec::new(alloc);
    for (i, step) in steps.iter().enumerate() {
        let other = step_with(alloc, step, lemma_at(places, marks, i))?;
        new.push(other)?;
    }
    Ok(new)
}

/// The block with a citation in place of each step that concludes the tree of a lemma. The marks are the nodes of what
/// its steps conclude.
///
/// # Errors
/// Where memory is refused.
pub fn rewrite(
    alloc: Global,
    block: &Refutation,
    marks: &[Option<u32>],
    lemmas: &Lemmas,
) -> Result<Refutation, AllocError>
    ensures { (l : Meant) (ts : List Term) (cs : List Concluded) (trees : List Formula) → AreMade l ts cs lemmas.now →
        AreMarks ts marks.now (step_trees l trees block.now.steps) → IfOk result (λ new. new ≡
        record block.now { steps = map (new_step l (trees_of (lemma_conclusions cs)) trees) block.now.steps }) }
{
    let terms = copy_terms(alloc, block.terms())?;
    let steps = cite_all(alloc, block.steps(), marks, lemmas.places.as_slice())?;
    Ok(Refutation::new(terms, steps))
}
