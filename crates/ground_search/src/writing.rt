//! The writing of a refutation.

use crate::chains::{Chains, is_chain};
use cert_format::certificate::{Refutation, Step};
use search_clauses::ledger::Ledger;
use search_clauses::steps::Number;
use std::alloc::{AllocError, Global};
use terms::numbers::Numbers;
use terms::term::{Args, Clause, Literal, Term};

/// The steps that a refutation needs, and the number that each step and each term has in it.
#[derive(Drop)]
struct Writer {
    chains: Chains,
    names: Vec<u32>,
    entries: Vec<Entry>,
    places: Vec<Option<u32>>,
    uses: Vec<bool>,
    numbers: Vec<Option<u32>>,
    own: usize,
    alloc: Global,
}

/// A step that is needed, and where the steps that it names stand, if it is a chain.
#[derive(Clone, Copy)]
struct Entry {
    step: u32,
    start: usize,
    end: usize,
}

/// The refutation whose last step is the one with this number, over the condition's own terms, which are the first so
/// many nodes. None where a chain doesn't hold.
///
/// # Errors
/// Where memory is refused.
pub fn write(ledger: &Ledger<'_>, last: u32, own: usize) -> Result<Option<Refutation>, AllocError> {
    let mut writer = Writer::new(ledger.alloc, own);
    writer.places.resize(ledger.steps.len(), None)?;
    writer.uses.resize(ledger.graph.len(), false)?;
    writer.numbers.resize(ledger.graph.len(), None)?;
    if !writer.keep_all(ledger, last)? {
        return Ok(None);
    }
    let terms = writer.write_terms(ledger)?;
    let steps = writer.write_steps(ledger)?;
    Ok(Some(Refutation::new(terms, steps)))
}

impl Writer {
    /// Nothing is needed.
    fn new(alloc: Global, own: usize) -> Writer {
        Writer {
            chains: Chains::new(alloc),
            names: Vec::new(alloc),
            entries: Vec::new(alloc),
            places: Vec::new(alloc),
            uses: Vec::new(alloc),
            numbers: Vec::new(alloc),
            own,
            alloc,
        }
    }

    /// Keeps the steps that the last one needs, from it backwards. Whether all chains hold.
    fn keep_all(&mut self, ledger: &Ledger<'_>, last: u32) -> Result<bool, AllocError> {
        self.need(last);
        for step in (0..=last).rev() {
            if self.is_needed(step) && !self.keep(ledger, step)? {
                return Ok(false);
            }
        }
        self.number_steps();
        Ok(true)
    }

    /// Notes that a step is needed.
    fn need(&mut self, step: u32) {
        if let Some(place) = self.places.get_mut(step as usize) {
            *place = Some(0);
        }
    }

    /// Whether a step is needed.
    fn is_needed(&self, step: u32) -> bool {
        match self.places.get(step as usize) {
            Some(place) => place.is_some(),
            None => false,
        }
    }

    /// Keeps a step, with what it needs.
    fn keep(&mut self, ledger: &Ledger<'_>, step: u32) -> Result<bool, AllocError> {
        let start = self.names.len();
        if is_chain(ledger, step) && !self.keep_chain(ledger, step)? {
            return Ok(false);
        }
        self.entries.push(Entry {
            step,
            start,
            end: self.names.len(),
        })?;
        for literal in ledger.steps.literals(step) {
            self.use_term(literal.term);
        }
        for number in ledger.steps.numbers(step) {
            if let Number::Node(id) = number {
                self.use_term(*id);
            }
        }
        Ok(true)
    }

    /// Notes that a term is used.
    fn use_term(&mut self, id: u32) {
        if let Some(place) = self.uses.get_mut(id as usize) {
            *place = true;
        }
    }

    /// Notes the steps that a chain needs. Whether it holds.
    fn keep_chain(&mut self, ledger: &Ledger<'_>, step: u32) -> Result<bool, AllocError> {
        let mut names = Vec::new(self.alloc);
        if !self.chains.run(ledger, step, &mut names)? {
            return Ok(false);
        }
        for name in names.as_slice() {
            self.need(*name);
        }
        self.names.append(&mut names)?;
        Ok(true)
    }

    /// Numbers the steps that are kept, the last one of them first.
    fn number_steps(&mut self) {
        let mut number = 0u32;
        for place in (0..self.entries.len()).rev() {
            if let Some(entry) = self.entries.get(place).copied() {
                if let Some(place) = self.places.get_mut(entry.step as usize) {
                    *place = Some(number);
                }
            }
            number = number.saturating_add(1);
        }
    }

    /// The terms that are added: those that are used and aren't the condition's own, with the parts of each.
    fn write_terms(&mut self, ledger: &Ledger<'_>) -> Result<Vec<Term>, AllocError> {
        self.use_parts(ledger);
        let mut terms = Vec::new(self.alloc);
        for id in self.own..ledger.graph.len() {
            let id = id as u32;
            if self.is_used(id) {
                let term = self.term_over(ledger, id)?;
                let number = self.own.saturating_add(terms.len());
                terms.push(term)?;
                self.name(id, number);
            }
        }
        Ok(terms)
    }

    /// Notes that the parts of each term that is used are used.
    fn use_parts(&mut self, ledger: &Ledger<'_>) {
        let mut id = ledger.graph.len() as u32;
        for _ in 0..ledger.graph.len() {
            id = id.saturating_sub(1);
            if self.is_used(id) {
                for arg in ledger.args(id) {
                    self.use_term(*arg);
                }
            }
        }
    }

    /// Whether a term is used.
    fn is_used(&self, id: u32) -> bool {
        self.uses.get(id as usize).copied() == Some(true)
    }

    /// Gives a node its number in the refutation.
    fn name(&mut self, id: u32, number: usize) {
        let Ok(number) = u32::try_from(number) else {
            return;
        };
        if let Some(place) = self.numbers.get_mut(id as usize) {
            *place = Some(number);
        }
    }

    /// The number that a term has in the refutation.
    fn number_of(&self, id: u32) -> u32 {
        match self.numbers.get(id as usize) {
            Some(Some(number)) => *number,
            _ => id,
        }
    }

    /// A term over the numbers of its parts.
    fn term_over(&self, ledger: &Ledger<'_>, id: u32) -> Result<Term, AllocError> {
        let mut args = Vec::new(self.alloc);
        for arg in ledger.args(id) {
            args.push(self.number_of(*arg))?;
        }
        let args = Args::new(self.alloc, args.as_slice())?;
        Ok(Term {
            kind: ledger.kind(id),
            index: ledger.index(id),
            args,
        })
    }

    /// The steps that are kept, in order.
    fn write_steps(&mut self, ledger: &Ledger<'_>) -> Result<Vec<Step>, AllocError> {
        let mut steps = Vec::new(self.alloc);
        for place in (0..self.entries.len()).rev() {
            if let Some(entry) = self.entries.get(place).copied() {
                if let Some(rule) = ledger.steps.rule(entry.step) {
                    let numbers = self.write_numbers(ledger, entry)?;
                    let clause = self.write_clause(ledger.steps.literals(entry.step))?;
                    steps.push(Step {
                        rule,
                        numbers,
                        clause,
                    })?;
                }
            }
        }
        Ok(steps)
    }

    /// The numbers of a step: of a chain the steps that it needs, of others its own.
    fn write_numbers(&self, ledger: &Ledger<'_>, entry: Entry) -> Result<Numbers, AllocError> {
        let mut numbers = Vec::new(self.alloc);
        if is_chain(ledger, entry.step) {
            for place in (entry.start..entry.end).rev() {
                if let Some(name) = self.names.get(place).copied() {
                    numbers.push(self.place_of(name))?;
                }
            }
            return Ok(Numbers::new(numbers));
        }
        for number in ledger.steps.numbers(entry.step) {
            numbers.push(self.plain_number(*number))?;
        }
        Ok(Numbers::new(numbers))
    }

    /// A number of a step, as it stands in the refutation.
    fn plain_number(&self, number: Number) -> i128 {
        match number {
            Number::Plain(number) => number,
            Number::Node(id) => i128::from(self.number_of(id)),
            Number::Step(step) => self.place_of(step),
        }
    }

    /// The number of a step in the refutation.
    fn place_of(&self, step: u32) -> i128 {
        match self.places.get(step as usize) {
            Some(Some(place)) => i128::from(*place),
            _ => -1,
        }
    }

    /// A clause over the numbers of its terms.
    fn write_clause(&self, literals: &[Literal]) -> Result<Clause, AllocError> {
        let mut clause = Vec::new(self.alloc);
        for literal in literals {
            clause.push(Literal {
                term: self.number_of(literal.term),
                positive: literal.positive,
            })?;
        }
        Ok(Clause::new(clause))
    }
}
