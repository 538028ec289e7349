//! The step of a lemma.

ghost use Rattle.std.specs.Prelude.{◌≡◌, ◌<◌, ◌↔◌, ◌≤ℤ◌, ◌∷◌, ◌++◌, [], IsTrue, All, IfOk, OnOk};
ghost use Rattle.std.specs.Prelude.{length, map, pos, slice_index_or, take};
ghost use Rattle.vcc_rules.specs.Rows as rows;
ghost use Rattle.certificate_upgrade.specs.Conclusions as conclusion;
ghost use Rattle.upgrade_lemmas.specs.Making as spec;

use cert_format::certificate::{RuleName, Step};
use certificate_upgrade::conclusion::Conclusion;
use std::alloc::{AllocError, Global};
use terms::numbers::Numbers;
use terms::term::{Clause, Literal};

/// The two numbers in front, which name a row and its part.
#[tactic(auto, using(block_layout::proofs::Lists::take_all))]
fn first_two(numbers: &[i128]) -> &[i128]
    ensures { result.now ≡ take 2 numbers.now }
{
    if numbers.len() < 2 {
        return numbers;
    }
    &numbers[..2]
}

/// The arguments among the numbers of an `axiom` step; none where one of them is negative.
fn args_of(numbers: &[i128]) -> &[i128]
    ensures { result.now ≡ map pos (conclusion.args_of numbers.now) }
{
    let [_, _, rest @ ..] = numbers else {
        return &[];
    };
    let Some((_, args)) = rest.split_last() else {
        return &[];
    };
    naturals(args)
}

/// Whether none is negative.
fn are_naturals(numbers: &[i128]) -> bool
    ensures { IsTrue result ↔ All (λ z. pos 0 ≤ℤ z) numbers.now }
{
    numbers.iter().all(|z| *z >= 0)
}

/// The numbers, if none is negative.
fn naturals(numbers: &[i128]) -> &[i128]
    ensures { result.now ≡ map pos (spec.naturals_of numbers.now) }
{
    if !are_naturals(numbers) {
        return &[];
    }
    numbers
}

/// The number at the place `next`, where the argument at this place names a term.
fn id_at(marks: &[bool], place: usize, ids: &[u32], next: usize) -> Option<u32>
    ensures { result ≡ spec.id_at marks.now place ids.now next }
{
    if place >= marks.len() || !marks[place] {
        return None;
    }
    ids.get(next).copied()
}

/// Adds this number, or where there is none the one at the place.
fn put_id(
    made: &mut Vec<i128>,
    numbers: &[i128],
    place: usize,
    id: Option<u32>,
) -> Result<(), AllocError>
    requires { place < length numbers.now }
    ensures { OnOk result (made.new.items ≡
        made.old.items ++ spec.number_or id (slice_index_or numbers.now place (pos 0)) ∷ []) }
{
    match id {
        Some(id) => {
            made.push(i128::from(id))?;
            Ok(())
        }
        None => {
            made.push(numbers[place])?;
            Ok(())
        }
    }
}

/// How many numbers of terms that takes.
fn count_of(id: Option<u32>) -> usize
    ensures { result ≡ spec.count_of id }
{
    match id {
        Some(_) => 1,
        None => 0,
    }
}

/// Adds the numbers, with these for those that name terms, one after the other.
fn put_ids(
    made: &mut Vec<i128>,
    marks: &[bool],
    numbers: &[i128],
    ids: &[u32],
) -> Result<(), AllocError>
    ensures { OnOk result (made.new.items ≡ made.old.items ++ spec.put_ids marks.now numbers.now ids.now) }
{
    let mut next = 0usize;
    for place in 0..numbers.len() {
        let id = id_at(marks, place, ids, next);
        put_id(made, numbers, place, id)?;
        next += count_of(id);
    }
    Ok(())
}

/// The numbers of an `axiom` step with others for its terms.
#[tactic(auto, using(crate::proofs::StepNumbers::ids_put))]
fn numbers_by(
    alloc: Global,
    conclusion: &Conclusion,
    ids: &[u32],
    tree: u32,
) -> Result<Numbers, AllocError>
    ensures { IfOk result (λ numbers. numbers ≡
        spec.numbers_by conclusion.now.marks.items conclusion.now.numbers ids.now tree) }
{
    let numbers = conclusion.numbers.as_slice();
    let mut made = Vec::from_slice(alloc, first_two(numbers))?;
    put_ids(
        &mut made,
        conclusion.marks.as_slice(),
        args_of(numbers),
        ids,
    )?;
    made.push(i128::from(tree))?;
    Ok(Numbers::new(made))
}

/// The clause that a term is true.
fn truth_of(alloc: Global, tree: u32) -> Result<Clause, AllocError>
    ensures { IfOk result (λ clause. clause ≡ rows.yes tree ∷ []) }
{
    let mut literals = Vec::new(alloc);
    literals.push(Literal {
        term: tree,
        positive: true,
    })?;
    Ok(Clause::new(literals))
}

/// The step of a lemma: it concludes the term `tree`, its arguments being these terms.
pub fn step_by(
    alloc: Global,
    conclusion: &Conclusion,
    ids: &[u32],
    tree: u32,
) -> Result<Step, AllocError>
    ensures { IfOk result (λ step. step ≡ spec.step_by conclusion.now ids.now tree) }
{
    let numbers = numbers_by(alloc, conclusion, ids, tree)?;
    let clause = truth_of(alloc, tree)?;
    Ok(Step {
        rule: RuleName::Axiom,
        numbers,
        clause,
    })
}
