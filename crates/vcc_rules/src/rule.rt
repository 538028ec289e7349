//! The law that every rule keeps, and the room that rules work in.

ghost use Rattle.std.specs.Prelude.{◌≡◌, ℕ, ◌↔◌, ◌<◌, ◌≤◌, length, IsTrue, IfOk, IfErr};
ghost use Rattle.int_ranges.specs.declared.exact.Wide.{Wide};
ghost use Rattle.term_meaning.specs.Meaning.{Language};
ghost use Rattle.vcc_rules.specs.Law.{AreWithin, IsConsequence, IsWithin};

use crate::chain::{clear, closes};
use int_ranges::exact::Wide;
use std::alloc::{AllocError, Global};
use std::marker::Model;
use term_graph::graph::Graph;
use terms::term::{Clause, Literal};

/// The root of the condition, which is taken as false, and the clauses of the steps so far.
#[derive(Debug, Drop)]
pub struct Clauses {
    pub root: Option<u32>,
    pub list: Vec<Clause>,
}

/// The numbers by which a literal was last marked, for each sign.
#[derive(Clone, Copy, Debug)]
pub struct Marks {
    pub positive: u64,
    pub negative: u64,
}

/// What a rule that sums keeps at a number: a coefficient of the term with this number, and a term that stands at this
/// place of an order.
#[derive(Clone, Copy, Debug)]
pub struct Summand {
    pub coefficient: i128,
    pub unit: u32,
}

/// Room for the rules to work in. Contracts see only for how many terms.
#[derive(Debug, Drop)]
pub struct Scratch {
    marks: Vec<Marks>,
    now: u64,
    summands: Vec<Summand>,
}

impl Model for Scratch {
    ghost use Rattle.std.specs.Prelude.{◌≡◌, ℕ, length};
    ghost use Rattle.vcc_rules.specs.Rows.{AreUpTo};

    ghost Value = { ℕ };

    ghost view = { λ s. length s.marks.items };

    ghost invariant = { λ s. AreUpTo s.now s.marks.items × (length s.summands.items ≡ length s.marks.items) };
}

impl Scratch {
    ghost use Rattle.std.specs.Prelude.{◌≡◌, ℕ, ◌↔◌, ◌<◌, ◌≤◌, List, length, IsTrue, OnOk, slice_get, Some};
    ghost use Rattle.vcc_rules.specs.Rows.{Closes};
    ghost use Rattle.vcc_rules.specs.Law.{IsWithin};
    ghost use Rattle.terms.specs.declared.term.Literal.{Literal};
    ghost use Rattle.std.specs.Borrow.{sem};
    ghost use Rattle.vcc_rules.specs.Room.{LendsSummands};

    /// No room.
    pub fn new(alloc: Global) -> Scratch
        ensures { result ≡ 0 }
    {
        Scratch {
            marks: Vec::new(alloc),
            now: 0,
            summands: Vec::new(alloc),
        }
    }

    /// Makes room for so many terms.
    ///
    /// # Errors
    /// Where memory is refused.
    pub fn reserve(&mut self, terms: usize) -> Result<(), AllocError>
        requires { self.old ≤ terms }
        ensures { OnOk result (self.new ≡ terms) }
    {
        while self.marks.len() < terms {
            self.summands.reserve(1)?;
            self.marks.push(Marks {
                positive: 0,
                negative: 0,
            })?;
            self.summands.push_reserved(Summand {
                coefficient: 0,
                unit: 0,
            });
        }
        Ok(())
    }

    /// Whether the steps close where the literals of the clause are false.
    #[tactic(auto, using(crate::proofs::Chains::up_to_next, crate::proofs::Chains::fresh_next))]
    pub fn closes(
        &mut self,
        earlier: &[Clause],
        below: usize,
        steps: &[i128],
        clause: &[Literal],
    ) -> bool
        requires below { below ≤ length earlier.now }
        requires within { (s : ℕ) (c : List Literal) → slice_get earlier.now s ≡ Some c → IsWithin self.old c }
        requires clause_within { IsWithin self.old clause.now }
        ensures row { IsTrue result ↔ Closes earlier.now below clause.now steps.now }
        ensures room { self.new ≡ self.old }
    {
        if self.now == u64::MAX {
            clear(&mut self.marks);
            self.now = 0;
        }
        self.now += 1;
        closes(&mut self.marks, self.now, earlier, below, steps, clause)
    }

    /// A summand for each term. Nobody promises what stands in them.
    pub fn summands(&mut self) -> &mut [Summand]
        ensures* lends { sem 𝓛 (LendsSummands self.entry result) }
        ensures room { length result.now ≡ self.old }
    {
        self.summands.as_mut_slice()
    }
}

/// A rule by which clauses follow from others.
pub trait Rule {
    ghost use Rattle.std.specs.Prelude.{◌≡◌, ℕ, ◌↔◌, ◌<◌, ◌≤◌, List, length, IsTrue, IfOk, IfErr};
    ghost use Rattle.int_ranges.specs.declared.exact.Wide.{Wide};
    ghost use Rattle.terms.specs.declared.term.Term.{Term};
    ghost use Rattle.terms.specs.declared.term.Literal.{Literal};
    ghost use Rattle.term_meaning.specs.Meaning.{Language};
    ghost use Rattle.vcc_rules.specs.Law.{IsConsequence, IsWithin, AreWithin};
    ghost use Rattle.vcc_rules.specs.declared.rule.Clauses.{Clauses};

    /// What a step gives beside the rule's name.
    type Data;

    /// That what the rule holds beside the terms fits the language, as the sorts of the terms.
    ghost suits: { Self → Language → List Term → Type 0 };

    /// The rows of the rule.
    ghost gives: { Self → List Term → Clauses → ℕ → Self.Data → List Literal → Type 0 };

    /// The first exact number on the way that leaves 128 bits, by its operands.
    ghost leaves: { Self → List Term → Self.Data → List Literal → Wide → Type 0 };

    /// Whether a row of the rule gives the clause from the first `below` of the earlier ones.
    ///
    /// # Errors
    /// The operands of the first number on the way that leaves 128 bits.
    fn concludes(
        &self,
        terms: &Graph,
        earlier: &Clauses,
        below: usize,
        detail: &Self::Data,
        clause: &[Literal],
        scratch: &mut Scratch,
    ) -> Result<bool, Wide>
        requires below { below ≤ length earlier.now.list.items }
        requires within { AreWithin (length terms.now) earlier.now.list.items }
        requires clause_within { IsWithin (length terms.now) clause.now }
        requires room { scratch.old ≡ length terms.now }
        ensures rows { IfOk result (λ yes. IsTrue yes ↔ gives self.now terms.now earlier.now below detail.now clause.now) }
        ensures exact { IfOk result (λ yes. (w : Wide) → leaves self.now terms.now detail.now clause.now w → ⊥) }
        ensures wide { IfErr result (leaves self.now terms.now detail.now clause.now) }
        ensures room { scratch.new ≡ scratch.old };

    /// A clause that a row gives is true wherever the earlier ones are, in every environment of the language.
    ghost sound: { (rule : Self) (language : Language) (terms : List Term) (earlier : Clauses) (below : ℕ) (detail : Self.Data) (clause : List Literal) → suits rule language terms → gives rule terms earlier below detail clause → IsConsequence language terms earlier.root earlier.list.items below clause };
}

/// Whether a row of the rule gives the clause; where one does, the clause follows.
///
/// # Errors
/// The operands of the first number on the way that leaves 128 bits.
pub fn conclude<R: Rule>(
    rule: &R,
    terms: &Graph,
    earlier: &Clauses,
    below: usize,
    detail: &R::Data,
    clause: &[Literal],
    scratch: &mut Scratch,
) -> Result<bool, Wide>
    requires below { below ≤ length earlier.now.list.items }
    requires within { AreWithin (length terms.now) earlier.now.list.items }
    requires clause_within { IsWithin (length terms.now) clause.now }
    requires room { scratch.old ≡ length terms.now }
    ensures rows { IfOk result (λ yes. IsTrue yes ↔ R.gives rule.now terms.now earlier.now below detail.now clause.now) }
    ensures exact { IfOk result (λ yes. (w : Wide) → R.leaves rule.now terms.now detail.now clause.now w → ⊥) }
    ensures wide { IfErr result (R.leaves rule.now terms.now detail.now clause.now) }
    ensures follows { (language : Language) → R.suits rule.now language terms.now → IfOk result (λ yes. IsTrue yes → IsConsequence language terms.now earlier.now.root earlier.now.list.items below clause.now) }
    ensures room { scratch.new ≡ scratch.old }
{
    rule.concludes(terms, earlier, below, detail, clause, scratch)
}
