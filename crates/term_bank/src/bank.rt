ghost use Rattle.std.specs.Prelude.{◌≡◌, ℕ, ◌+◌, ◌<◌, ◌≤◌, ◌++◌, ◌∷◌, ◌↔◌, [], length, take, IfOk, IfErr, OnOk, OnErr, IsOk, All, Contains, slice_get, slice_index_or, MatchOption, Some, Ok, Err};
ghost use Rattle.std.specs.Prelude.{if◌then◌else◌, ◌⊎◌};

use std::alloc::{AllocError, AllocFailed, Global};
use std::marker::Model;
use term_graph::nodes::Nodes;
use term_pool::Mark;
use terms::term::Term;

/// The greatest number of terms that a bank holds.
pub const TERMS: usize = 1_048_576;

/// Terms, each above its arguments, in which no term stands twice: a graph of so many nodes at most.
#[derive(Debug, Drop)]
pub struct Bank {
    nodes: Nodes,
}

impl Model for Bank {
    ghost use Rattle.std.specs.Prelude.{◌≤◌, length};
    ghost use Rattle.term_bank.specs.Bank.{HeldTerms};

    ghost Value = { HeldTerms };

    ghost view = { λ b. record { terms = b.nodes.terms; spare = b.nodes.spare } };

    ghost invariant = { λ b. length b.nodes.terms ≤ 1_048_576 };
}

/// Why a bank gives a node no number.
#[derive(Clone, Copy, Debug, PartialEq, Eq)]
pub enum BankFault {
    /// The node is new, and as many terms are held as a bank may hold.
    BankFull,
    OutOfMemory,
}

impl From<AllocError> for BankFault {
    ghost use Rattle.std.specs.Prelude.{◌≡◌};
    ghost use Rattle.term_bank.specs.declared.bank.BankFault.TheVariants.{OutOfMemory};

    ghost from_gives = { λ _ fault. fault ≡ OutOfMemory };

    fn from(_want: AllocError) -> BankFault {
        BankFault::OutOfMemory
    }
}

impl<T: Drop> From<AllocFailed<T>> for BankFault {
    ghost use Rattle.std.specs.Prelude.{◌≡◌};
    ghost use Rattle.term_bank.specs.declared.bank.BankFault.TheVariants.{OutOfMemory};

    ghost from_gives = { λ _ fault. fault ≡ OutOfMemory };

    fn from(_want: AllocFailed<T>) -> BankFault {
        BankFault::OutOfMemory
    }
}

impl Bank {
    ghost use Rattle.std.specs.Prelude.{◌≡◌, ℕ, ◌+◌, ◌<◌, ◌≤◌, ◌++◌, ◌∷◌, ◌↔◌, [], length, take, IfOk, IfErr, OnOk, OnErr, IsOk, All, Contains, slice_get, slice_index_or, MatchOption, Some, Ok, Err};
    ghost use Rattle.term_bank.specs.Bank.{IsBank};
    ghost use Rattle.terms.specs.Formula.{Interns};

    /// No terms.
    pub fn new(alloc: Global) -> Bank
        ensures { result.terms ≡ [] }
    {
        Bank {
            nodes: Nodes::new(alloc),
        }
    }

    pub fn len(&self) -> usize
        ensures len { result ≡ length self.now.terms }
        ensures bound { length self.now.terms ≤ 1_048_576 }
    {
        self.nodes.len()
    }

    /// What each bank keeps, for proofs.
    #[tactic(auto, using(crate::proofs::Banks::bank_of))]
    pub fn known(&self)
        ensures { IsBank self.now.terms }
    {
        self.nodes.known();
    }

    /// Makes room for so many more terms.
    pub fn reserve(&mut self, terms: usize) -> Result<(), AllocError>
        ensures terms { self.new.terms ≡ self.old.terms }
        ensures spare { OnOk result (terms ≤ self.new.spare) }
        ensures err { OnErr result (self.new ≡ self.old) }
        ensures room { terms ≤ self.old.spare → IsOk result × (self.new ≡ self.old) }
    {
        self.nodes.reserve(terms)
    }

    pub fn node(&self, id: u32) -> &Term
        requires { id < length self.now.terms }
        ensures node { slice_get self.now.terms id ≡ Some result.now }
        ensures below { All (λ a. a < id) result.now.args }
    {
        self.nodes.node(id)
    }

    /// The number of the equal term, old or new.
    #[tactic(auto, using(term_graph::proofs::Graphs::contained_at, std::proofs::lemmas::Option::slice_get_within))]
    pub fn intern(&mut self, node: &Term) -> Result<u32, BankFault>
        requires { All (λ a. a < length self.old.terms) node.now.args }
        ensures interned { IfOk result (λ id. Interns self.old.terms node.now self.new.terms id) }
        ensures within { IfOk result (λ id. id < length self.new.terms) }
        ensures grows { length self.old.terms ≤ length self.new.terms }
        ensures full { (result ≡ Err BankFault.BankFull) ↔ ((¬ Contains self.old.terms node.now) × (length self.old.terms ≡ 1_048_576)) }
        ensures memory { 0 < self.old.spare → length node.now.args ≤ 4 → ¬ (result ≡ Err BankFault.OutOfMemory) }
        ensures held { Contains self.old.terms node.now → IsOk result × (self.new ≡ self.old) }
        ensures spare { OnOk result ((¬ Contains self.old.terms node.now) → 0 < self.old.spare → self.new.spare + 1 ≡ self.old.spare) }
        ensures err { OnErr result (self.new ≡ self.old) }
    {
        if let Some(id) = self.nodes.find(node) {
            return Ok(id);
        }
        if self.nodes.len() >= TERMS {
            return Err(BankFault::BankFull);
        }
        match self.place(node) {
            Ok(id) => Ok(id),
            Err(AllocError) => Err(BankFault::OutOfMemory),
        }
    }

    /// Places a new term behind the others.
    fn place(&mut self, node: &Term) -> Result<u32, AllocError>
        requires below { All (λ a. a < length self.old.terms) node.now.args }
        requires new { ¬ Contains self.old.terms node.now }
        requires room { length self.old.terms < 1_048_576 }
        ensures terms { IfOk result (λ id. (self.new.terms ≡ self.old.terms ++ node.now ∷ []) × (id ≡ length self.old.terms)) }
        ensures memory { 0 < self.old.spare → length node.now.args ≤ 4 → IsOk result }
        ensures spare { OnOk result (0 < self.old.spare → self.new.spare + 1 ≡ self.old.spare) }
        ensures err { OnErr result (self.new ≡ self.old) }
    {
        let term = node.copy()?;
        self.nodes.place(term)
    }

    /// How many terms there are, to come back to.
    pub fn mark(&self) -> Mark
        ensures { result.length ≡ length self.now.terms }
    {
        self.nodes.mark()
    }

    /// Gives up the terms that are new since the mark.
    #[tactic(auto, using(term_graph::proofs::Graphs::taken_few))]
    pub fn release(&mut self, mark: Mark)
        requires { mark.length ≤ length self.old.terms }
        ensures terms { self.new.terms ≡ take mark.length self.old.terms }
        ensures spare { self.new.spare + mark.length ≡ self.old.spare + length self.old.terms }
    {
        self.nodes.release(mark);
    }
}
