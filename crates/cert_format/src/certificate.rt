//! Certificates.

ghost use Rattle.std.specs.Prelude.{◌≡◌};

use std::marker::Model;
use terms::numbers::Numbers;
use terms::term::{Clause, Term};

/// A rule, by the name that it has in a certificate.
#[derive(Clone, Copy, Debug, PartialEq, Eq)]
pub enum RuleName {
    Root,
    Conn,
    Chain,
    Refl,
    Sym,
    Trans,
    Cong,
    Linear,
    Cut,
    Split,
    Map,
    Axiom,
    Lemma,
}

/// A step: the rule, the numbers that it takes, and the clause that it gives.
#[derive(Debug, Drop)]
pub struct Step {
    pub rule: RuleName,
    pub numbers: Numbers,
    pub clause: Clause,
}

/// What steps are for.
#[derive(Clone, Copy, Debug, PartialEq, Eq)]
pub enum Owner {
    /// the lemma with this number
    OfLemma(u32),
    /// a condition, in a certificate of this version
    OfCondition(u32),
}

/// The terms that a lemma or the block of a condition adds, and its steps.
#[derive(Debug, Drop)]
pub struct Refutation {
    terms: Vec<Term>,
    steps: Vec<Step>,
}

impl Model for Refutation {
    ghost use Rattle.cert_format.specs.Derivations.{Derivation};

    ghost Value = { Derivation };

    ghost view = { λ r. record { terms = r.terms.items; steps = r.steps.items } };
}

impl Refutation {
    pub fn new(terms: Vec<Term>, steps: Vec<Step>) -> Refutation
        ensures terms { result.terms ≡ terms.items }
        ensures steps { result.steps ≡ steps.items }
    {
        Refutation { terms, steps }
    }

    pub fn terms(&self) -> &[Term]
        ensures { result.now ≡ self.now.terms }
    {
        self.terms.as_slice()
    }

    pub fn steps(&self) -> &[Step]
        ensures { result.now ≡ self.now.steps }
    {
        self.steps.as_slice()
    }
}

/// Its version, lemmas, and one block for each condition, in the order of the conditions.
#[derive(Debug, Drop)]
pub struct Certificate {
    pub version: u32,
    pub lemmas: Vec<Refutation>,
    pub blocks: Vec<Refutation>,
}
