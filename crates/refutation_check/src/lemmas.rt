//! The lemmas of a certificate, checked one after the other.

ghost use Rattle.std.specs.Prelude.{◌≡◌, ◌-◌, ◌<◌, ◌++◌, length, replicate, slice_get, Some, None, IsTrue, IfOk, OnOk};
ghost use Rattle.term_meaning.specs.Meaning.{Language as Meant};
ghost use Rattle.block_layout.specs.Loading.{IsWithinLimit};
ghost use Rattle.block_layout.specs.Space.{IsTheory, IsSomeTheory, KnowsSorts, Keeps, Sorts};
ghost use Rattle.refutation_check.specs.Follows.{IsLemmasAnswer};
ghost use Rattle.refutation_check.specs.Judging.{Concludes, IsConcluded, IsLastOf, IsLemmaEnding};
ghost use Rattle.refutation_check.specs.Judging.{IsSomeLemma, IsTaken, TakesTerms};

use crate::answer::CheckFault;
use crate::held::Lemmas;
use crate::steps::first_failure;
use block_layout::load::{load_steps, load_terms};
use block_layout::loaded::{Loaded, Stop};
use block_layout::space::{Space, Theory};
use cert_format::certificate::{Refutation, Step};
use int_ranges::exact::Wide;
use std::alloc::{AllocError, Global};
use term_language::language::Language;
use terms::term::Clause;
use vcc_rules::rule::Scratch;

fn lemma_at(lemmas: &[Refutation], i: usize) -> &Refutation
    requires { i < length lemmas.now }
    ensures { slice_get lemmas.now i ≡ Some result.now }
{
    &lemmas[i]
}

/// Whether all terms were taken, by where that stopped.
///
/// # Errors
/// `Limit`, where it stopped since the space has more nodes than it may.
fn taken(stop: Option<Stop>) -> Result<bool, CheckFault>
    ensures { IsTaken stop result }
{
    let Some(stop) = stop else {
        return Ok(true);
    };
    match stop {
        Stop::BadTerm(_) => Ok(false),
        Stop::Limit => Err(CheckFault::Limit),
        Stop::LimitAt(_) => Err(CheckFault::Limit),
        Stop::UnnamedAt(_) => Err(CheckFault::Limit),
    }
}

/// Puts a lemma's terms behind those of the lemmas before it, which have these names. Whether all are good.
#[tactic(auto, using(crate::proofs::LemmaAnswers::takes_memory))]
fn take_terms(
    alloc: Global,
    language: &Language,
    lemma: &Refutation,
    space: &mut Space,
    names: &mut Vec<u32>,
) -> Result<bool, CheckFault>
    ensures takes { TakesTerms language.now lemma.now.terms space.old names.old.items space.new names.new.items result }
    ensures few { IfOk result (λ good. IsTrue good → IsWithinLimit space.new) }
    ensures kept { Keeps language.now space.old space.new }
    ensures sorted { OnOk result (Sorts language.now space.old space.new) }
{
    let stop = load_terms(alloc, language, lemma.terms(), space, names)?;
    let good = taken(stop);
    good
}

/// The last clause, where there is one.
fn last_clause(loaded: &mut Loaded) -> Option<Clause>
    ensures { IsLastOf loaded.old.clauses.list.items result }
{
    loaded.clauses.list.pop()
}

/// What a lemma comes to where all its steps that were loaded are given.
fn ending(loaded: &mut Loaded) -> Result<Option<Clause>, CheckFault>
    ensures { IsLemmaEnding loaded.old.clauses.list.items loaded.old.stop result }
{
    let Some(stop) = loaded.stop else {
        return Ok(last_clause(loaded));
    };
    match stop {
        Stop::LimitAt(_) => Err(CheckFault::Limit),
        Stop::UnnamedAt(_) => Ok(None),
        Stop::BadTerm(_) => Ok(last_clause(loaded)),
        Stop::Limit => Ok(last_clause(loaded)),
    }
}

/// What a lemma comes to, by the first of its steps that isn't given.
fn conclusion(
    loaded: &mut Loaded,
    failure: Result<Option<usize>, Wide>,
) -> Result<Option<Clause>, CheckFault>
    ensures { IsConcluded loaded.old.clauses.list.items loaded.old.stop failure result }
{
    match failure {
        Err(wide) => Err(CheckFault::Wide(wide)),
        Ok(Some(_)) => Ok(None),
        Ok(None) => ending(loaded),
    }
}

/// The clause that the steps derive behind terms that have these names; none where the lemma doesn't follow.
#[tactic(auto, using(crate::proofs::LemmaAnswers::concludes_memory))]
fn conclude(
    alloc: Global,
    theory: Theory<'_>,
    lemmas: &Lemmas,
    names: &[u32],
    steps: &[Step],
    space: &mut Space,
) -> Result<Option<Clause>, CheckFault>
    requires lemma { IsSomeLemma theory names.now space.old }
    requires limit { IsWithinLimit space.old }
    ensures concludes { Concludes theory.entry lemmas.now.clauses.items names.now steps.now space.old result }
    ensures kept { Keeps theory.entry.language.now space.old space.new }
{
    let mut loaded = load_steps(alloc, theory, names, None, steps, space)?;
    let mut scratch = Scratch::new(alloc);
    scratch.reserve(space.graph.len())?;
    let failure = first_failure(space, lemmas, &loaded, &mut scratch);
    let clause = conclusion(&mut loaded, failure);
    clause
}

/// The same, of a lemma's steps. The space is as before at every exit, but for its sorts, which may be those of fewer
/// nodes.
fn judge_lemma(
    alloc: Global,
    theory: Theory<'_>,
    lemmas: &Lemmas,
    names: &[u32],
    lemma: &Refutation,
    space: &mut Space,
) -> Result<Option<Clause>, CheckFault>
    requires lemma { IsSomeLemma theory names.now space.old }
    requires limit { IsWithinLimit space.old }
    ensures concludes { Concludes theory.entry lemmas.now.clauses.items names.now lemma.now.steps space.old result }
    ensures released { space.new.graph ≡ space.old.graph }
    ensures kept { Keeps theory.entry.language.now space.old space.new }
{
    space.known();
    let mark = space.mark();
    let clause = conclude(alloc, theory, lemmas, names, lemma.steps(), space);
    space.known();
    space.release(mark);
    clause
}

/// What is held of the first lemmas, and nothing of those behind them.
fn none_behind(mut held: Lemmas, lemmas: &[Refutation]) -> Result<Lemmas, AllocError>
    ensures { IfOk result (λ all. all.clauses.items ≡
        held.clauses.items ++ replicate (length lemmas.now - length held.clauses.items) None) }
{
    while held.clauses.len() < lemmas.len() {
        held.add(None)?;
    }
    Ok(held)
}

/// Checks the lemmas of a certificate, one after the other: each is judged by its terms, behind those of the lemmas before
/// it, and its steps, which may use those before it that follow. Where a term is bad, its lemma and those behind it don't
/// follow. The terms stay in the space, those up to the first bad one.
///
/// # Errors
/// `Limit`, where more than 1,048,576 nodes stand in the space; `Wide`, where a number leaves 128 bits; `OutOfMemory`,
/// where memory is refused.
#[tactic(auto, using(crate::proofs::LemmaAnswers::lemmas_memory))]
pub fn check_lemmas(
    alloc: Global,
    theory: Theory<'_>,
    lemmas: &[Refutation],
    space: &mut Space,
) -> Result<Lemmas, CheckFault>
    requires theory { IsSomeTheory theory space.old }
    ensures answer { (l : Meant) → IsTheory theory.entry l → KnowsSorts l space.old → IsLemmasAnswer l lemmas.now space.new result }
    ensures kept { Keeps theory.entry.language.now space.old space.new }
{
    let mut held = Lemmas::none(alloc);
    let mut names = Vec::new(alloc);
    for i in 0..lemmas.len() {
        let lemma = lemma_at(lemmas, i);
        let good = take_terms(alloc, theory.language, lemma, space, &mut names)?;
        if !good {
            let all = none_behind(held, lemmas)?;
            return Ok(all);
        }
        let clause = judge_lemma(alloc, theory, &held, &names, lemma, space)?;
        held.add(clause)?;
    }
    Ok(held)
}
