//! The ground set.

use crate::maps::read_at;
use crate::reads::Reads;
use crate::wants::{Want, Wants};
use cert_format::certificate::RuleName;
use search_clauses::ledger::Ledger;
use search_clauses::literals::yes;
use search_clauses::steps::{Inference, Number};
use std::alloc::AllocError;
use terms::term::Kind;

/// The column of the first field.
const FIRST_FIELD: i128 = 5;

/// That a term's column and keys are to be read at a heap.
#[derive(Clone, Copy)]
struct Twin {
    term: u32,
    heap: u32,
}

/// The ground set of a condition, whose own terms are the first so many nodes: terms, and clauses with the steps that
/// give them.
#[derive(Drop)]
pub struct Ground {
    pub inferences: Vec<Inference>,
    pub(crate) own: usize,
    pub(crate) fields: i128,
    pub(crate) reads: Reads,
    pub(crate) wants: Wants,
    terms: Vec<u32>,
    there: Vec<bool>,
    cursor: usize,
    maps: Vec<u32>,
    is_mapped: Vec<bool>,
    twins: Vec<Twin>,
}

impl Ground {
    /// The condition's own terms, of a program with so many fields.
    pub fn new(ledger: &mut Ledger<'_>, own: usize, fields: usize) -> Result<Ground, AllocError> {
        let alloc = ledger.alloc;
        let mut ground = Ground {
            inferences: Vec::new(alloc),
            own,
            fields: (fields as i128).saturating_add(FIRST_FIELD),
            reads: Reads::new(alloc),
            wants: Wants::new(alloc),
            terms: Vec::new(alloc),
            there: Vec::new(alloc),
            cursor: 0,
            maps: Vec::new(alloc),
            is_mapped: Vec::new(alloc),
            twins: Vec::new(alloc),
        };
        for id in 0..own {
            if let Ok(term) = u32::try_from(id) {
                ground.see(ledger, term)?;
            }
        }
        Ok(ground)
    }

    /// The terms, in the order in which they came.
    pub fn terms(&self) -> &[u32] {
        self.terms.as_slice()
    }

    /// Whether a term is in the set.
    fn is_there(&self, term: u32) -> bool {
        self.there.get(term as usize).copied() == Some(true)
    }

    /// Makes room for the terms that are new.
    fn grow(&mut self, ledger: &Ledger<'_>) -> Result<(), AllocError> {
        let terms = ledger.graph.len();
        if terms > self.there.len() {
            self.there.resize(terms, false)?;
            self.is_mapped.resize(terms, false)?;
        }
        self.reads.grow(terms)
    }

    /// Adds a term, with all that is part of it.
    pub(crate) fn see(&mut self, ledger: &mut Ledger<'_>, term: u32) -> Result<(), AllocError> {
        let mut open = Vec::new(ledger.alloc);
        open.push(term)?;
        for _ in 0..u64::MAX {
            let Some(next) = open.pop() else {
                return Ok(());
            };
            self.grow(ledger)?;
            if !self.is_there(next) {
                self.add(ledger, next, &mut open)?;
            }
        }
        Ok(())
    }

    /// Adds a term, and leaves its parts to be added.
    fn add(
        &mut self,
        ledger: &mut Ledger<'_>,
        term: u32,
        open: &mut Vec<u32>,
    ) -> Result<(), AllocError> {
        if let Some(there) = self.there.get_mut(term as usize) {
            *there = true;
        }
        self.terms.push(term)?;
        self.reads.add(ledger, self.own, term)?;
        for arg in ledger.args(term) {
            open.push(*arg)?;
        }
        if ledger.kind(term) == Kind::Ite {
            let left = ledger.arg(term, 1);
            let right = ledger.arg(term, 2);
            let first = ledger.equation(term, left)?;
            let second = ledger.equation(term, right)?;
            open.push(first)?;
            open.push(second)?;
        }
        Ok(())
    }

    /// Notes that the rules on maps are to be used on a read.
    pub(crate) fn note_map(&mut self, read: u32) -> Result<(), AllocError> {
        let Some(is_mapped) = self.is_mapped.get_mut(read as usize) else {
            return Ok(());
        };
        if !*is_mapped {
            *is_mapped = true;
            self.maps.push(read)?;
        }
        Ok(())
    }

    /// Notes that a term's column and keys are to be read at a heap.
    pub(crate) fn note_twin(&mut self, term: u32, heap: u32) -> Result<(), AllocError> {
        self.twins.push(Twin { term, heap })?;
        Ok(())
    }

    /// How many terms and inferences there are.
    pub fn size(&self) -> usize {
        self.terms.len().saturating_add(self.inferences.len())
    }

    /// Notes what each term brings: instances that are wanted, and reads.
    pub fn visit_terms(&mut self, ledger: &Ledger<'_>) -> Result<(), AllocError> {
        for place in 0..self.terms.len() {
            if let Some(term) = self.terms.get(place).copied() {
                self.visit(ledger, term)?;
            }
        }
        Ok(())
    }

    /// The next instance that is wanted.
    pub fn next_want(&mut self) -> Option<Want> {
        let want = self.wants.get(self.cursor);
        if want.is_some() {
            self.cursor = self.cursor.saturating_add(1);
        }
        want
    }

    /// The numbers that an instance takes.
    pub fn numbers(&self, want: Want) -> &[Number] {
        self.wants.numbers(want)
    }

    /// Adds an instance, with the step that gives it.
    pub fn add_instance(
        &mut self,
        ledger: &mut Ledger<'_>,
        want: Want,
        id: u32,
    ) -> Result<(), AllocError> {
        self.see(ledger, id)?;
        let mut numbers = Vec::new(ledger.alloc);
        numbers.push(Number::Plain(want.axiom()))?;
        numbers.push(Number::Plain(want.part()))?;
        numbers.extend_from_slice(self.wants.numbers(want))?;
        numbers.push(Number::Node(id))?;
        let literals = Vec::from_slice(ledger.alloc, &[yes(id)])?;
        self.inferences.push(Inference {
            rule: RuleName::Axiom,
            numbers,
            literals,
        })?;
        Ok(())
    }

    /// Adds the reads that were noted at other heaps, and what the rules on maps say of those at changed heaps.
    pub fn add_reads(&mut self, ledger: &mut Ledger<'_>) -> Result<(), AllocError> {
        self.add_maps(ledger)?;
        self.add_twins(ledger)
    }

    /// Adds what the rules on maps say of the reads that were noted.
    fn add_maps(&mut self, ledger: &mut Ledger<'_>) -> Result<(), AllocError> {
        for _ in 0..self.maps.len() {
            if let Some(read) = self.maps.pop() {
                self.map(ledger, read)?;
            }
        }
        Ok(())
    }

    /// Adds the reads that were noted at other heaps.
    fn add_twins(&mut self, ledger: &mut Ledger<'_>) -> Result<(), AllocError> {
        for _ in 0..self.twins.len() {
            if let Some(twin) = self.twins.pop() {
                let read = read_at(ledger, twin.term, twin.heap)?;
                self.see(ledger, read)?;
            }
        }
        Ok(())
    }
}
