//! Clauses that are watched at two literals.

use crate::ledger::Ledger;
use crate::literals::{negated, slot};
use crate::trail::{Reason, Trail};
use std::alloc::{AllocError, Global};
use terms::term::Literal;

/// A clause: where its literals stand, the step that gives it, and whether it is one from which choices are made.
#[derive(Clone, Copy, Debug)]
struct Row {
    start: usize,
    end: usize,
    step: u32,
    is_given: bool,
}

/// What becomes of a watch whose literal is false.
#[derive(Clone, Copy, Debug)]
enum Fate {
    /// it stays where it is
    Stays,
    /// it went to another literal
    Moves,
    /// all literals are false
    Conflict(u32),
}

/// Clauses of two literals or more. Each is watched at the first two of its literals, which are exchanged with others
/// so that they are false only where the clause says nothing more. Watch number 2k stands at the first literal of row k,
/// 2k + 1 at its second, and the watches of a literal are linked. The cursor stands behind the true literals that were
/// looked at.
#[derive(Debug, Drop)]
pub struct Clauses {
    rows: Vec<Row>,
    literals: Vec<Literal>,
    next: Vec<Option<usize>>,
    first: Vec<Option<usize>>,
    cursor: usize,
}

impl Clauses {
    /// No clauses.
    pub fn new(alloc: Global) -> Clauses {
        Clauses {
            rows: Vec::new(alloc),
            literals: Vec::new(alloc),
            next: Vec::new(alloc),
            first: Vec::new(alloc),
            cursor: 0,
        }
    }

    /// Makes room for so many terms.
    pub fn grow(&mut self, terms: usize) -> Result<(), AllocError> {
        let slots = terms.saturating_mul(2);
        if slots > self.first.len() {
            self.first.resize(slots, None)?;
        }
        Ok(())
    }

    /// The literal at a place of the rows.
    fn literal(&self, place: usize) -> Option<Literal> {
        self.literals.get(place).copied()
    }

    /// Exchanges the literals at two places.
    fn exchange(&mut self, place: usize, other: usize) {
        let (Some(left), Some(right)) = (self.literal(place), self.literal(other)) else {
            return;
        };
        if let Some(here) = self.literals.get_mut(place) {
            *here = right;
        }
        if let Some(there) = self.literals.get_mut(other) {
            *there = left;
        }
    }

    /// Adds the clause of a step, which is seen to from then on. The step is answered where all literals are false.
    pub fn attach(
        &mut self,
        ledger: &Ledger<'_>,
        trail: &mut Trail,
        step: u32,
        is_given: bool,
    ) -> Result<Option<u32>, AllocError> {
        let start = self.literals.len();
        let is_open = self.copy_literals(ledger.steps.literals(step), start)?;
        let end = self.literals.len();
        if !is_open {
            self.literals.truncate(start);
            return Ok(None);
        }
        self.lead(trail, start, end);
        self.lead(trail, start.saturating_add(1), end);
        let row = Row {
            start,
            end,
            step,
            is_given,
        };
        self.enter(trail, row)
    }

    /// Copies each literal once, behind the others. False where two deny one another.
    fn copy_literals(&mut self, literals: &[Literal], start: usize) -> Result<bool, AllocError> {
        let mut is_open = true;
        for literal in literals {
            let copies = self.literals.get(start..).unwrap_or(&[]);
            is_open &= !copies.contains(&negated(*literal));
            if !copies.contains(literal) {
                self.literals.push(*literal)?;
            }
        }
        Ok(is_open)
    }

    /// Puts the literal that is best to watch first.
    fn lead(&mut self, trail: &Trail, start: usize, end: usize) {
        let mut best = start;
        for place in start..end {
            if self.rank(trail, place) > self.rank(trail, best) {
                best = place;
            }
        }
        self.exchange(start, best);
    }

    /// A literal that isn't false is best to watch, then one that was false late.
    fn rank(&self, trail: &Trail, place: usize) -> usize {
        let Some(literal) = self.literal(place) else {
            return 0;
        };
        if trail.is_false(literal) {
            trail.level_of(literal.term)
        } else {
            usize::MAX
        }
    }

    /// Enters a row whose first two literals are the best to watch.
    fn enter(&mut self, trail: &mut Trail, row: Row) -> Result<Option<u32>, AllocError> {
        if row.end.saturating_sub(row.start) >= 2 {
            self.watch(row)?;
        }
        let Some(first) = self.literal(row.start) else {
            return Ok(Some(row.step));
        };
        if trail.is_false(first) {
            return Ok(Some(row.step));
        }
        if !trail.is_true(first) && self.is_last(trail, row) {
            trail.assign(first, Reason::Step(row.step))?;
        }
        Ok(None)
    }

    /// Whether all literals but the first are false, of a row that has the best ones in front.
    fn is_last(&self, trail: &Trail, row: Row) -> bool {
        let second = row.start.saturating_add(1);
        if second >= row.end {
            return true;
        }
        match self.literal(second) {
            Some(literal) => trail.is_false(literal),
            None => true,
        }
    }

    /// Watches a row at its first two literals.
    fn watch(&mut self, row: Row) -> Result<(), AllocError> {
        let number = self.next.len();
        self.rows.push(row)?;
        self.next.push(None)?;
        self.next.push(None)?;
        self.link(number, row.start);
        self.link(number.saturating_add(1), row.start.saturating_add(1));
        Ok(())
    }

    /// Links a watch to those of the literal at a place.
    fn link(&mut self, watch: usize, place: usize) {
        let Some(literal) = self.literal(place) else {
            return;
        };
        let Some(first) = self.first.get_mut(slot(literal)) else {
            return;
        };
        let before = *first;
        *first = Some(watch);
        if let Some(next) = self.next.get_mut(watch) {
            *next = before;
        }
    }

    /// Takes the watches of a literal, and gives the first of them.
    fn take(&mut self, literal: Literal) -> Option<usize> {
        match self.first.get_mut(slot(literal)) {
            Some(first) => {
                let watch = *first;
                *first = None;
                watch
            }
            None => None,
        }
    }

    /// Makes true what the clauses give, until a step is found whose clause is false, or nothing is left.
    pub fn propagate(&mut self, trail: &mut Trail) -> Result<Option<u32>, AllocError> {
        for _ in 0..u64::MAX {
            let Some(literal) = trail.literal(self.cursor) else {
                return Ok(None);
            };
            self.cursor = self.cursor.saturating_add(1);
            let conflict = self.visit(trail, negated(literal))?;
            if conflict.is_some() {
                return Ok(conflict);
            }
        }
        Ok(None)
    }

    /// Whether all true literals were looked at.
    pub fn is_settled(&self, trail: &Trail) -> bool {
        self.cursor >= trail.len()
    }

    /// That only so many literals are left that are true.
    pub fn undo_to(&mut self, literals: usize) {
        if self.cursor > literals {
            self.cursor = literals;
        }
    }

    /// Goes through the watches of a literal that is false.
    fn visit(&mut self, trail: &mut Trail, literal: Literal) -> Result<Option<u32>, AllocError> {
        let mut next = self.take(literal);
        let mut conflict = None;
        for _ in 0..self.next.len() {
            let Some(watch) = next else {
                return Ok(conflict);
            };
            next = self.next.get(watch).copied().unwrap_or(None);
            let outcome = self.visit_one(trail, watch, conflict)?;
            conflict = outcome;
        }
        Ok(conflict)
    }

    /// Sees to a watch whose literal is false. Where a conflict was found it stays.
    fn visit_one(
        &mut self,
        trail: &mut Trail,
        watch: usize,
        conflict: Option<u32>,
    ) -> Result<Option<u32>, AllocError> {
        let Some(row) = self.rows.get(watch / 2).copied() else {
            return Ok(conflict);
        };
        let own = row.start.saturating_add(watch % 2);
        if conflict.is_some() {
            self.link(watch, own);
            return Ok(conflict);
        }
        match self.look(trail, row, watch)? {
            Fate::Moves => Ok(None),
            Fate::Stays => {
                self.link(watch, own);
                Ok(None)
            }
            Fate::Conflict(step) => {
                self.link(watch, own);
                Ok(Some(step))
            }
        }
    }

    /// What becomes of a watch whose literal is false.
    fn look(&mut self, trail: &mut Trail, row: Row, watch: usize) -> Result<Fate, AllocError> {
        let own = row.start.saturating_add(watch % 2);
        let other = row.start.saturating_add(1).saturating_sub(watch % 2);
        let Some(literal) = self.literal(other) else {
            return Ok(Fate::Stays);
        };
        if trail.is_true(literal) {
            return Ok(Fate::Stays);
        }
        if let Some(place) = self.replacement(trail, row) {
            self.exchange(own, place);
            self.link(watch, own);
            return Ok(Fate::Moves);
        }
        if trail.is_false(literal) {
            return Ok(Fate::Conflict(row.step));
        }
        trail.assign(literal, Reason::Step(row.step))?;
        Ok(Fate::Stays)
    }

    /// A literal behind the first two that isn't false.
    fn replacement(&self, trail: &Trail, row: Row) -> Option<usize> {
        for place in row.start.saturating_add(2)..row.end {
            if let Some(literal) = self.literal(place) {
                if !trail.is_false(literal) {
                    return Some(place);
                }
            }
        }
        None
    }

    /// The first row from there on of which no literal is true, among those from which choices are made.
    pub fn open_row(&self, trail: &Trail, from: usize) -> Option<usize> {
        for number in from..self.rows.len() {
            if self.is_open(trail, number) {
                return Some(number);
            }
        }
        None
    }

    /// Whether choices are made from a row, and no literal of it is true.
    fn is_open(&self, trail: &Trail, number: usize) -> bool {
        let Some(row) = self.rows.get(number) else {
            return false;
        };
        row.is_given && !self.has_true(trail, row.start, row.end)
    }

    /// Whether a literal between two places is true.
    fn has_true(&self, trail: &Trail, start: usize, end: usize) -> bool {
        for place in start..end {
            if let Some(literal) = self.literal(place) {
                if trail.is_true(literal) {
                    return true;
                }
            }
        }
        false
    }

    /// The literal of a row that has no value and was most part of conflicts; a negative one before others.
    pub fn choice(&self, trail: &Trail, number: usize) -> Option<Literal> {
        let row = self.rows.get(number).copied();
        let mut best = None;
        if let Some(row) = row {
            for place in row.start..row.end {
                best = self.better(trail, best, place);
            }
        }
        best
    }

    /// The literal at a place, where it has no value and is a better choice than the best so far.
    fn better(&self, trail: &Trail, best: Option<Literal>, place: usize) -> Option<Literal> {
        let Some(literal) = self.literal(place) else {
            return best;
        };
        if trail.value(literal.term).is_some() {
            return best;
        }
        let Some(other) = best else {
            return Some(literal);
        };
        let activity = trail.activity(literal.term);
        let most = trail.activity(other.term);
        let is_negative = !literal.positive && other.positive;
        if activity > most || (activity == most && is_negative) {
            Some(literal)
        } else {
            best
        }
    }
}
