//! The literals that are taken to be true, in the order in which they came.

use std::alloc::{AllocError, Global};
use terms::term::Literal;

/// Why a literal is true.
#[derive(Clone, Copy, Debug)]
pub enum Reason {
    /// it was chosen
    Choice,
    /// all others of the step's clause are false
    Step(u32),
    /// the sides of the equation are in one class
    OneClass,
    /// the numbers in the classes of the two sides decide it
    Numbers,
    /// its term is in one class with this one, which has the value
    Member(u32),
}

/// What is known of a term.
#[derive(Clone, Copy, Debug)]
struct Mark {
    value: Option<bool>,
    level: usize,
    place: usize,
    reason: Reason,
    activity: u64,
}

/// What there was when a choice was made: literals, the row that was looked at, and changes of classes.
#[derive(Clone, Copy, Debug)]
pub struct Level {
    pub start: usize,
    pub row: usize,
    pub changes: usize,
}

/// The literals that are true, the choices among them, and what is known of each term.
#[derive(Debug, Drop)]
pub struct Trail {
    marks: Vec<Mark>,
    literals: Vec<Literal>,
    levels: Vec<Level>,
    weight: u64,
}

/// A weight above which all are made smaller.
const HEAVY: u64 = 1 << 48;
/// By how much they are made smaller.
const LIGHTER: u64 = 1 << 32;

impl Mark {
    const UNKNOWN: Mark = Mark {
        value: None,
        level: 0,
        place: 0,
        reason: Reason::Choice,
        activity: 0,
    };
}

impl Trail {
    /// No literals.
    pub fn new(alloc: Global) -> Trail {
        Trail {
            marks: Vec::new(alloc),
            literals: Vec::new(alloc),
            levels: Vec::new(alloc),
            weight: 1 << 16,
        }
    }

    /// Makes room for so many terms.
    pub fn grow(&mut self, terms: usize) -> Result<(), AllocError> {
        if terms > self.marks.len() {
            self.marks.resize(terms, Mark::UNKNOWN)?;
        }
        Ok(())
    }

    /// What is known of a term.
    fn mark(&self, term: u32) -> Mark {
        self.marks
            .get(term as usize)
            .copied()
            .unwrap_or(Mark::UNKNOWN)
    }

    /// The value of a term, where it has one.
    pub fn value(&self, term: u32) -> Option<bool> {
        self.mark(term).value
    }

    /// Whether the literal is true.
    pub fn is_true(&self, literal: Literal) -> bool {
        self.value(literal.term) == Some(literal.positive)
    }

    /// Whether the literal is false.
    pub fn is_false(&self, literal: Literal) -> bool {
        self.value(literal.term) == Some(!literal.positive)
    }

    /// At which choice a term got its value.
    pub fn level_of(&self, term: u32) -> usize {
        self.mark(term).level
    }

    /// Where a term's literal stands.
    pub fn place(&self, term: u32) -> usize {
        self.mark(term).place
    }

    /// Why a term has its value.
    pub fn reason(&self, term: u32) -> Reason {
        self.mark(term).reason
    }

    /// How much a term was part of conflicts of late.
    pub fn activity(&self, term: u32) -> u64 {
        self.mark(term).activity
    }

    /// How many choices there are.
    pub fn level(&self) -> usize {
        self.levels.len()
    }

    /// How many literals there are.
    pub fn len(&self) -> usize {
        self.literals.len()
    }

    /// The literal at a place.
    pub fn literal(&self, place: usize) -> Option<Literal> {
        self.literals.get(place).copied()
    }

    /// Takes the literal to be true.
    pub fn assign(&mut self, literal: Literal, reason: Reason) -> Result<(), AllocError> {
        let level = self.levels.len();
        let place = self.literals.len();
        self.literals.push(literal)?;
        if let Some(mark) = self.marks.get_mut(literal.term as usize) {
            mark.value = Some(literal.positive);
            mark.level = level;
            mark.place = place;
            mark.reason = reason;
        }
        Ok(())
    }

    /// Puts the step that gives a term's value in the place of its reason.
    pub fn settle(&mut self, term: u32, step: u32) {
        if let Some(mark) = self.marks.get_mut(term as usize) {
            mark.reason = Reason::Step(step);
        }
    }

    /// Begins another choice.
    pub fn open(&mut self, row: usize, changes: usize) -> Result<(), AllocError> {
        let start = self.literals.len();
        self.levels.push(Level {
            start,
            row,
            changes,
        })?;
        Ok(())
    }

    /// Takes back all choices but the first so many, and gives what there was before; none where there are no more.
    pub fn undo_to(&mut self, level: usize) -> Option<Level> {
        let first = self.levels.get(level).copied();
        if let Some(before) = first {
            for place in before.start..self.literals.len() {
                self.forget(place);
            }
            self.literals.truncate(before.start);
            self.levels.truncate(level);
        }
        first
    }

    /// Takes the value of the literal at a place.
    fn forget(&mut self, place: usize) {
        let Some(literal) = self.literal(place) else {
            return;
        };
        if let Some(mark) = self.marks.get_mut(literal.term as usize) {
            mark.value = None;
        }
    }

    /// That a term was part of a conflict.
    pub fn count(&mut self, term: u32) {
        let weight = self.weight;
        if let Some(mark) = self.marks.get_mut(term as usize) {
            mark.activity = mark.activity.saturating_add(weight);
        }
    }

    /// Lets what was counted weigh less than what will be.
    pub fn fade(&mut self) {
        self.weight = self.weight.saturating_add(self.weight / 20);
        if self.weight > HEAVY {
            self.lighten();
        }
    }

    /// Makes all weights smaller alike.
    fn lighten(&mut self) {
        self.weight /= LIGHTER;
        for term in 0..self.marks.len() {
            if let Some(mark) = self.marks.get_mut(term) {
                mark.activity /= LIGHTER;
            }
        }
    }
}
