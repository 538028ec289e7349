//! Which blocks can stand in a certificate of version 1.

ghost use Rattle.std.specs.Prelude.{◌≡◌, ◌^◌, ◌<◌, FitsSigned, IsTrue, All};
ghost use Rattle.std.specs.Int.{w128};
ghost use Rattle.terms.specs.declared.term.Literal.{Literal as Meant};
ghost use Rattle.cert_format.specs.Text.{IsDerivation, IsStep, IsTerm, has_index as has_index_of};
ghost use Rattle.cert_format.specs.declared.certificate.Owner.{Owner};
ghost use Rattle.ground_prover.specs.Proving.{IsSmall};

use cert_format::certificate::{Refutation, RuleName, Step};
use terms::term::{Kind, Literal, Term};

/// Whether an index stands after the kind's name.
fn has_index(kind: Kind) -> bool
    ensures { result ≡ has_index_of kind }
{
    match kind {
        Kind::Int
        | Kind::Ci
        | Kind::Cr
        | Kind::Ch
        | Kind::Get
        | Kind::Set
        | Kind::All
        | Kind::Cex => true,
        _ => false,
    }
}

/// Numbers of terms are below 2^32.
fn are_arguments(args: &[u32])
    ensures { All (λ a. a < 2 ^ 32) args.now }
{
    for arg in args {
        let _number = *arg;
    }
}

/// A number fits 128 bits.
fn is_number(number: &i128)
    ensures { FitsSigned w128 number.now }
{
    let _number = *number;
}

/// A literal's term has a number below 2^32.
fn is_literal(literal: &Literal)
    ensures { literal.now.term < 2 ^ 32 }
{
    let _number = literal.term;
}

/// Numbers of a step fit 128 bits.
fn are_numbers(numbers: &[i128])
    ensures { All (λ n. FitsSigned w128 n) numbers.now }
{
    for number in numbers {
        is_number(number);
    }
}

/// Numbers of terms that literals name are below 2^32.
fn are_literals(literals: &[Literal])
    ensures { All (λ (l : Meant). l.term < 2 ^ 32) literals.now }
{
    for literal in literals {
        is_literal(literal);
    }
}

/// Whether a term's index is 0 where none is written.
fn is_term(term: &Term) -> bool
    ensures { IsTrue result → IsTerm term.now }
{
    are_arguments(term.args.numbers());
    let index = term.index;
    has_index(term.kind) || index == 0
}

/// Whether it is a step of a condition in version 1, which has no lemmas.
fn is_step(step: &Step) -> bool
    ensures { IsTrue result → IsStep (Owner.OfCondition 1) step.now }
{
    are_numbers(step.numbers.as_slice());
    are_literals(step.clause.literals());
    step.rule != RuleName::Lemma
}

fn are_terms(terms: &[Term]) -> bool
    ensures { IsTrue result → All IsTerm terms.now }
{
    for term in terms {
        if !is_term(term) {
            return false;
        }
    }
    true
}

fn are_steps(steps: &[Step]) -> bool
    ensures { IsTrue result → All (IsStep (Owner.OfCondition 1)) steps.now }
{
    for step in steps {
        if !is_step(step) {
            return false;
        }
    }
    true
}

/// Whether the block, which is small enough, can stand in a certificate of version 1.
#[tactic(auto, using(crate::proofs::Parts::is_derivation))]
pub fn is_block(block: &Refutation) -> bool
    requires { IsSmall block.now }
    ensures { IsTrue result → IsDerivation (Owner.OfCondition 1) block.now }
{
    are_terms(block.terms()) && are_steps(block.steps())
}
