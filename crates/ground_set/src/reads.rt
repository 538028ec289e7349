//! The reads of each heap, and the types of each reference.

use search_clauses::ledger::Ledger;
use std::alloc::{AllocError, Global};
use terms::sort::Sort;
use terms::term::Kind;

/// A read, and the next of its heap.
#[derive(Clone, Copy)]
pub struct Read {
    pub term: u32,
    pub next: Option<usize>,
}

/// A type, and the next of its reference.
#[derive(Clone, Copy)]
pub struct TypeEntry {
    pub number: i128,
    pub next: Option<usize>,
}

/// The reads of each heap whose references may stand, and the types of each reference.
#[derive(Drop)]
pub struct Reads {
    reads: Vec<Read>,
    first_read: Vec<Option<usize>>,
    types: Vec<TypeEntry>,
    first_type: Vec<Option<usize>>,
}

impl Reads {
    /// None.
    pub fn new(alloc: Global) -> Reads {
        Reads {
            reads: Vec::new(alloc),
            first_read: Vec::new(alloc),
            types: Vec::new(alloc),
            first_type: Vec::new(alloc),
        }
    }

    /// Makes room for so many terms.
    pub fn grow(&mut self, terms: usize) -> Result<(), AllocError> {
        if terms > self.first_read.len() {
            self.first_read.resize(terms, None)?;
            self.first_type.resize(terms, None)?;
        }
        Ok(())
    }

    /// How many reads and types there are, at most.
    pub fn len(&self) -> usize {
        self.reads.len().max(self.types.len())
    }

    /// The first read of a heap.
    pub fn first_read(&self, heap: u32) -> Option<usize> {
        self.first_read.get(heap as usize).copied().unwrap_or(None)
    }

    /// The read at a place.
    pub fn read(&self, place: Option<usize>) -> Option<Read> {
        match place {
            Some(place) => self.reads.get(place).copied(),
            None => None,
        }
    }

    /// The first type of a reference.
    pub fn first_type(&self, reference: u32) -> Option<usize> {
        self.first_type
            .get(reference as usize)
            .copied()
            .unwrap_or(None)
    }

    /// The type at a place.
    pub fn type_at(&self, place: Option<usize>) -> Option<TypeEntry> {
        match place {
            Some(place) => self.types.get(place).copied(),
            None => None,
        }
    }

    /// Takes a term into account, which is one of the first so many terms where it is the condition's own.
    pub fn add(&mut self, ledger: &Ledger<'_>, own: usize, term: u32) -> Result<(), AllocError> {
        match ledger.kind(term) {
            Kind::Get if keys_may_stand(ledger, own, term) => {
                self.add_read(ledger.arg(term, 0), term)
            }
            Kind::Eq => {
                let left = ledger.arg(term, 0);
                let right = ledger.arg(term, 1);
                self.add_type(ledger, left, right)?;
                self.add_type(ledger, right, left)
            }
            _ => Ok(()),
        }
    }

    /// Takes a read of a heap into account.
    fn add_read(&mut self, heap: u32, term: u32) -> Result<(), AllocError> {
        let place = self.reads.len();
        let next = self.first_read(heap);
        self.reads.push(Read { term, next })?;
        if let Some(first) = self.first_read.get_mut(heap as usize) {
            *first = Some(place);
        }
        Ok(())
    }

    /// Takes into account that a term is equal to another.
    fn add_type(&mut self, ledger: &Ledger<'_>, term: u32, other: u32) -> Result<(), AllocError> {
        if ledger.kind(term) != Kind::Typ || ledger.kind(other) != Kind::Int {
            return Ok(());
        }
        let reference = ledger.arg(term, 0);
        let place = self.types.len();
        let next = self.first_type(reference);
        self.types.push(TypeEntry {
            number: ledger.index(other),
            next,
        })?;
        if let Some(first) = self.first_type.get_mut(reference as usize) {
            *first = Some(place);
        }
        Ok(())
    }
}

/// Whether a reference may stand in an instance: it is one of the condition's own terms, or its references are, or it is
/// a read at witnesses of quantified formulas over such.
pub fn may_stand(ledger: &Ledger<'_>, own: usize, reference: u32) -> bool {
    if (reference as usize) < own {
        return true;
    }
    if has_own_references(ledger, own, reference) {
        return true;
    }
    ledger.kind(reference) == Kind::Get && has_witness_keys(ledger, own, reference)
}

/// Whether the references of a term are the condition's own.
fn has_own_references(ledger: &Ledger<'_>, own: usize, term: u32) -> bool {
    for arg in ledger.args(term) {
        if (*arg as usize) >= own && ledger.sort(*arg) == Some(Sort::Ref) {
            return false;
        }
    }
    true
}

/// Whether each reference of a term is the condition's own, or a witness over such.
fn has_witness_keys(ledger: &Ledger<'_>, own: usize, term: u32) -> bool {
    for arg in ledger.args(term) {
        if (*arg as usize) >= own && ledger.sort(*arg) == Some(Sort::Ref) {
            if ledger.kind(*arg) != Kind::Cex || !has_own_references(ledger, own, *arg) {
                return false;
            }
        }
    }
    true
}

/// Whether all references of a read may stand in an instance.
fn keys_may_stand(ledger: &Ledger<'_>, own: usize, read: u32) -> bool {
    for arg in ledger.args(read) {
        if ledger.sort(*arg) == Some(Sort::Ref) && !may_stand(ledger, own, *arg) {
            return false;
        }
    }
    true
}
