//! What is held of a certificate's lemmas.

ghost use Rattle.std.specs.Prelude.{◌≡◌, ◌↔◌, ◌<◌, [], ◌∷◌, ◌++◌, length, slice_get, Some, IsTrue, OnOk};
ghost use Rattle.refutation_check.specs.Rows.{IsCited};

use std::alloc::{AllocError, Global};
use terms::numbers::index_below;
use terms::term::{Clause, Literal};

/// Of each lemma its last clause, over the nodes of a space, where it follows.
#[derive(Drop)]
pub struct Lemmas {
    pub clauses: Vec<Option<Clause>>,
}

fn is_same(one: &[Literal], other: &[Literal]) -> bool
    ensures { IsTrue result ↔ (one.now ≡ other.now) }
{
    one == other
}

/// Whether this is the clause.
fn is_clause(held: &Option<Clause>, clause: &[Literal]) -> bool
    ensures { IsTrue result ↔ (held.now ≡ Some clause.now) }
{
    match held {
        Some(known) => is_same(known.literals(), clause),
        None => false,
    }
}

impl Lemmas {
    /// Those of a certificate that has none.
    pub fn none(alloc: Global) -> Lemmas
        ensures { result.clauses.items ≡ [] }
    {
        Lemmas {
            clauses: Vec::new(alloc),
        }
    }

    /// Holds this of the next lemma.
    pub fn add(&mut self, clause: Option<Clause>) -> Result<(), AllocError>
        ensures { OnOk result (self.new.clauses.items ≡ self.old.clauses.items ++ clause ∷ []) }
    {
        self.clauses.push(clause)?;
        Ok(())
    }

    fn held_at(&self, lemma: usize) -> &Option<Clause>
        requires { lemma < length self.now.clauses.items }
        ensures { slice_get self.now.clauses.items lemma ≡ Some result.now }
    {
        &self.clauses[lemma]
    }

    /// Whether this is the clause of the one lemma that the numbers name.
    pub fn gives(&self, numbers: &[i128], clause: &[Literal]) -> bool
        ensures { IsTrue result ↔ IsCited self.now.clauses.items numbers.now clause.now }
    {
        let [number] = numbers else {
            return false;
        };
        match index_below(*number, self.clauses.len()) {
            Some(lemma) => is_clause(self.held_at(lemma), clause),
            None => false,
        }
    }
}
