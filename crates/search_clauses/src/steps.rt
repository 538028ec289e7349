//! Steps over the terms of a ledger.

use cert_format::certificate::RuleName;
use std::alloc::{AllocError, Global};
use terms::term::Literal;

/// A number of a step.
#[derive(Clone, Copy, Debug)]
pub enum Number {
    /// itself
    Plain(i128),
    /// a node of the ledger
    Node(u32),
    /// an earlier step
    Step(u32),
}

/// A clause, with the rule and the numbers that give it.
#[derive(Debug, Drop)]
pub struct Inference {
    pub rule: RuleName,
    pub numbers: Vec<Number>,
    pub literals: Vec<Literal>,
}

/// Where the numbers and literals of a step stand.
#[derive(Clone, Copy, Debug)]
struct Entry {
    rule: RuleName,
    first_number: usize,
    end_number: usize,
    first_literal: usize,
    end_literal: usize,
}

/// Steps, each behind those that it names.
#[derive(Debug, Drop)]
pub struct Steps {
    entries: Vec<Entry>,
    numbers: Vec<Number>,
    literals: Vec<Literal>,
}

impl Steps {
    /// No steps.
    pub fn new(alloc: Global) -> Steps {
        Steps {
            entries: Vec::new(alloc),
            numbers: Vec::new(alloc),
            literals: Vec::new(alloc),
        }
    }

    /// How many there are.
    pub fn len(&self) -> usize {
        self.entries.len()
    }

    /// Adds a step, and gives its number.
    pub fn push(
        &mut self,
        rule: RuleName,
        numbers: &[Number],
        literals: &[Literal],
    ) -> Result<u32, AllocError> {
        let Ok(step) = u32::try_from(self.entries.len()) else {
            return Err(AllocError);
        };
        let first_number = self.numbers.len();
        self.numbers.extend_from_slice(numbers)?;
        let first_literal = self.literals.len();
        self.literals.extend_from_slice(literals)?;
        self.entries.push(Entry {
            rule,
            first_number,
            end_number: self.numbers.len(),
            first_literal,
            end_literal: self.literals.len(),
        })?;
        Ok(step)
    }

    /// The rule of a step, where there is one.
    pub fn rule(&self, step: u32) -> Option<RuleName> {
        match self.entries.get(step as usize) {
            Some(entry) => Some(entry.rule),
            None => None,
        }
    }

    /// The numbers of a step.
    pub fn numbers(&self, step: u32) -> &[Number] {
        match self.entries.get(step as usize) {
            Some(entry) => self
                .numbers
                .get(entry.first_number..entry.end_number)
                .unwrap_or(&[]),
            None => &[],
        }
    }

    /// The clause of a step.
    pub fn literals(&self, step: u32) -> &[Literal] {
        match self.entries.get(step as usize) {
            Some(entry) => self
                .literals
                .get(entry.first_literal..entry.end_literal)
                .unwrap_or(&[]),
            None => &[],
        }
    }

    /// The literal at a place of a step's clause.
    pub fn literal(&self, step: u32, place: usize) -> Option<Literal> {
        self.literals(step).get(place).copied()
    }
}
