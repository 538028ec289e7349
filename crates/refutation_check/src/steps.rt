//! The steps of a loaded block, judged by their rows.

ghost use Rattle.std.specs.Prelude.{◌≡◌, ◌↔◌, ◌<◌, ◌≤◌, length, IsTrue, List, ℤ, pos, [], ◌∷◌, ◌++◌, slice_get, Some};
ghost use Rattle.vcc_rules.specs.Law.{IsWithin, AreWithin};
ghost use Rattle.refutation_check.specs.Rows.{DecidesRow, DecidesWide, DecidesWithin, IsAxiom};
ghost use Rattle.refutation_check.specs.Theorems.{Theorems, AreHeld, IsLemma};
ghost use Rattle.refutation_check.specs.Follows.{EndsEmpty};
ghost use Rattle.refutation_check.specs.Judging.{IsFirstFailure};

use crate::held::Lemmas;
use block_layout::loaded::{Loaded, LoadedStep};
use block_layout::space::Space;
use cert_format::certificate::RuleName;
use int_ranges::exact::Wide;
use rule_equality::congruence::Congruence;
use rule_equality::equivalence::{Reflexivity, Symmetry, Transitivity};
use rule_linear::cut::Cut;
use rule_linear::linear::Linear;
use rule_linear::split::Split;
use rule_maps::maps::Maps;
use term_graph::graph::Graph;
use terms::sort::Sort;
use terms::term::{Clause, Literal};
use vcc_rules::propositional::{Chain, Connective, Root, is_one, yes};
use vcc_rules::rule::{Clauses, Rule, Scratch};

/// Whether the step's row is that of the instance that it names.
fn is_axiom(step: &LoadedStep, clause: &[Literal]) -> bool
    ensures { IsTrue result ↔ IsAxiom step.now.instance step.now.numbers clause.now }
{
    let Some(instance) = step.instance else {
        return false;
    };
    names_last(step.numbers.as_slice(), instance) && is_one(clause, yes(instance))
}

/// Whether the last number is that of the node.
fn names_last(numbers: &[i128], node: u32) -> bool
    ensures { IsTrue result ↔ ((before : List ℤ) × (numbers.now ≡ before ++ pos node ∷ [])) }
{
    match numbers.split_last() {
        Some((last, _)) => *last == i128::from(node),
        None => false,
    }
}

/// Whether the step's clause is that of the lemma that it names.
fn is_lemma(space: &Space, lemmas: &Lemmas, step: &LoadedStep, clause: &[Literal]) -> bool
    ensures { (theorems : Theorems) → AreHeld space.now.graph lemmas.now.clauses.items theorems →
        IsTrue result ↔ IsLemma theorems space.now.graph step.now.numbers clause.now }
{
    space.known();
    lemmas.gives(step.numbers.as_slice(), clause)
}

/// Whether the row that the step names gives its clause from those of the first steps, so many, and the lemmas.
///
/// # Errors
/// The operands of the first number on the way that leaves 128 bits.
fn is_given(
    space: &Space,
    lemmas: &Lemmas,
    clauses: &Clauses,
    below: usize,
    step: &LoadedStep,
    clause: &[Literal],
    scratch: &mut Scratch,
) -> Result<bool, Wide>
    requires below { below ≤ length clauses.now.list.items }
    requires within { AreWithin (length space.now.graph) clauses.now.list.items }
    requires clause_within { IsWithin (length space.now.graph) clause.now }
    requires room { scratch.old ≡ length space.now.graph }
    ensures rows { DecidesRow space.now lemmas.now.clauses.items clauses.now below step.now clause.now result }
    ensures exact { DecidesWithin space.now clauses.now below step.now clause.now result }
    ensures wide { DecidesWide space.now clauses.now below step.now clause.now result }
    ensures room { scratch.new ≡ scratch.old }
{
    let terms = &space.graph;
    let sorts = space.sorts.as_slice();
    let numbers = &step.numbers;
    match step.rule {
        RuleName::Root => Root.concludes(terms, clauses, below, numbers, clause, scratch),
        RuleName::Conn => Connective.concludes(terms, clauses, below, numbers, clause, scratch),
        RuleName::Chain => Chain.concludes(terms, clauses, below, numbers, clause, scratch),
        RuleName::Refl => Reflexivity.concludes(terms, clauses, below, numbers, clause, scratch),
        RuleName::Sym => Symmetry.concludes(terms, clauses, below, numbers, clause, scratch),
        RuleName::Trans => Transitivity.concludes(terms, clauses, below, numbers, clause, scratch),
        RuleName::Cong => {
            let rule = Congruence { sorts };
            rule.concludes(terms, clauses, below, numbers, clause, scratch)
        }
        RuleName::Linear => {
            let rule = Linear { sorts };
            rule.concludes(terms, clauses, below, numbers, clause, scratch)
        }
        RuleName::Cut => {
            let rule = Cut { sorts };
            rule.concludes(terms, clauses, below, numbers, clause, scratch)
        }
        RuleName::Split => {
            let rule = Split { sorts };
            rule.concludes(terms, clauses, below, numbers, clause, scratch)
        }
        RuleName::Map => {
            let rule = Maps { sorts };
            rule.concludes(terms, clauses, below, numbers, clause, scratch)
        }
        RuleName::Axiom => Ok(is_axiom(step, clause)),
        RuleName::Lemma => Ok(is_lemma(space, lemmas, step, clause)),
    }
}

fn step_at(loaded: &Loaded, i: usize) -> &LoadedStep
    requires { i < length loaded.now.steps.items }
    ensures { slice_get loaded.now.steps.items i ≡ Some result.now }
{
    &loaded.steps[i]
}

fn clause_at(loaded: &Loaded, i: usize) -> &[Literal]
    requires { i < length loaded.now.clauses.list.items }
    ensures { slice_get loaded.now.clauses.list.items i ≡ Some result.now }
{
    let clauses = &loaded.clauses;
    clauses.list[i].literals()
}

/// The first step that isn't given from those before it and the lemmas.
///
/// # Errors
/// The operands of the first number that leaves 128 bits, where it comes before.
pub(crate) fn first_failure(
    space: &Space,
    lemmas: &Lemmas,
    loaded: &Loaded,
    scratch: &mut Scratch,
) -> Result<Option<usize>, Wide>
    requires within { AreWithin (length space.now.graph) loaded.now.clauses.list.items }
    requires count { length loaded.now.steps.items ≡ length loaded.now.clauses.list.items }
    requires room { scratch.old ≡ length space.now.graph }
    ensures { IsFirstFailure space.now lemmas.now.clauses.items loaded.now result }
{
    let clauses = &loaded.clauses;
    for i in 0..clauses.list.len() {
        let step = step_at(loaded, i);
        let clause = clause_at(loaded, i);
        let given = is_given(space, lemmas, clauses, i, step, clause, scratch)?;
        if !given {
            return Ok(Some(i));
        }
    }
    Ok(None)
}

/// Whether there is a clause, and the last one is empty.
pub(crate) fn ends_empty(clauses: &[Clause]) -> bool
    ensures { IsTrue result ↔ EndsEmpty clauses.now }
{
    match clauses.last() {
        Some(clause) => clause.literals().is_empty(),
        None => false,
    }
}
