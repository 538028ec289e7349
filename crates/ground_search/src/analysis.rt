//! What is learned of a clause that is false.

use crate::solver::Solver;
use cert_format::certificate::RuleName;
use search_clauses::literals::negated;
use search_clauses::steps::Number;
use std::alloc::{AllocError, Global};
use terms::term::Literal;

/// The literals of the last choice that a conflict rests on are resolved until one is left. The steps that were
/// resolved stand from the conflict backwards; the literals of earlier choices and those that are false without any
/// stand by themselves.
#[derive(Drop)]
pub(crate) struct Analysis {
    top: usize,
    open: usize,
    antecedents: Vec<u32>,
    earlier: Vec<Literal>,
    certain: Vec<Literal>,
    omissions: Vec<Omission>,
}

/// The step by which a literal of an earlier choice is superfluous, and where that literal stands.
#[derive(Clone, Copy)]
struct Omission {
    place: usize,
    step: u32,
}

/// A term that is certain, and where its literal stands.
#[derive(Clone, Copy)]
struct Fact {
    place: usize,
    term: u32,
}

impl Analysis {
    /// Nothing was looked at.
    fn new(alloc: Global, top: usize) -> Analysis {
        Analysis {
            top,
            open: 0,
            antecedents: Vec::new(alloc),
            earlier: Vec::new(alloc),
            certain: Vec::new(alloc),
            omissions: Vec::new(alloc),
        }
    }
}

impl<'a> Solver<'a> {
    /// Learns from a clause that is false, and goes back to where what was learned says something. Where no choice is
    /// behind it, it gives the step whose clause is empty.
    pub(crate) fn resolve(&mut self, step: u32) -> Result<Option<u32>, AllocError> {
        let top = self.level_of(self.ledger.steps.literals(step));
        self.back_to(top);
        if top == 0 {
            let empty = self.refute(step)?;
            return Ok(Some(empty));
        }
        let mut analysis = Analysis::new(self.ledger.alloc, top);
        self.marks.clear();
        let uip = self.resolve_top(&mut analysis, step)?;
        self.learn(&mut analysis, step, uip)?;
        Ok(None)
    }

    /// The last choice that the literals rest on.
    fn level_of(&self, literals: &[Literal]) -> usize {
        let mut top = 0;
        for literal in literals {
            top = self.trail.level_of(literal.term).max(top);
        }
        top
    }

    /// Resolves the literals of the last choice, until one is left, which is given.
    fn resolve_top(
        &mut self,
        analysis: &mut Analysis,
        step: u32,
    ) -> Result<Option<Literal>, AllocError> {
        self.take_step(analysis, step)?;
        for place in (0..self.trail.len()).rev() {
            if let Some(literal) = self.top_literal(analysis, place) {
                analysis.open = analysis.open.saturating_sub(1);
                if analysis.open == 0 {
                    return Ok(Some(literal));
                }
                let reason = self.reason_of(literal.term)?;
                self.take_step(analysis, reason)?;
            }
        }
        Ok(None)
    }

    /// The literal at a place, where it is of the last choice and part of the conflict.
    fn top_literal(&self, analysis: &Analysis, place: usize) -> Option<Literal> {
        match self.trail.literal(place) {
            Some(literal)
                if self.marks.has(literal.term)
                    && self.trail.level_of(literal.term) == analysis.top => { Some(literal) }
            _ => None,
        }
    }

    /// Takes the literals of a step's clause that weren't taken before.
    fn take_step(&mut self, analysis: &mut Analysis, step: u32) -> Result<(), AllocError> {
        analysis.antecedents.push(step)?;
        for place in 0..self.ledger.steps.literals(step).len() {
            if let Some(literal) = self.ledger.steps.literal(step, place) {
                self.take_literal(analysis, literal)?;
            }
        }
        Ok(())
    }

    /// Takes a literal of the conflict, by the choice that it rests on.
    fn take_literal(
        &mut self,
        analysis: &mut Analysis,
        literal: Literal,
    ) -> Result<(), AllocError> {
        if self.marks.has(literal.term) {
            return Ok(());
        }
        self.marks.mark(literal.term)?;
        self.trail.count(literal.term);
        let level = self.trail.level_of(literal.term);
        if level == 0 {
            analysis.certain.push(literal)?;
            return Ok(());
        }
        if level == analysis.top {
            analysis.open = analysis.open.saturating_add(1);
            return Ok(());
        }
        analysis.earlier.push(literal)?;
        Ok(())
    }

    /// Adds the clause that is learned, and goes back.
    fn learn(
        &mut self,
        analysis: &mut Analysis,
        conflict: u32,
        uip: Option<Literal>,
    ) -> Result<(), AllocError> {
        let mut clause = Vec::new(self.ledger.alloc);
        if let Some(literal) = uip {
            clause.push(negated(literal))?;
        }
        let mut rest = Vec::new(self.ledger.alloc);
        for place in 0..analysis.earlier.len() {
            if let Some(literal) = analysis.earlier.get(place).copied() {
                if !self.is_superfluous(analysis, literal)? {
                    clause.push(literal)?;
                    rest.push(literal)?;
                }
            }
        }
        let level = self.level_of(rest.as_slice());
        let names = self.names_of(analysis)?;
        let is_old = names.len() == 1 && self.ledger.steps.literals(conflict).len() == clause.len();
        let step = if is_old {
            conflict
        } else {
            self.ledger
                .steps
                .push(RuleName::Chain, names.as_slice(), clause.as_slice())?
        };
        self.trail.fade();
        self.back_to(level);
        self.attach(step, false)
    }

    /// Whether a literal is false since others are that the conflict rests on, too.
    fn is_superfluous(
        &mut self,
        analysis: &mut Analysis,
        literal: Literal,
    ) -> Result<bool, AllocError> {
        if self.is_choice(literal.term) {
            return Ok(false);
        }
        let step = self.reason_of(literal.term)?;
        if !self.rests_on_marked(step) {
            return Ok(false);
        }
        for place in 0..self.ledger.steps.literals(step).len() {
            if let Some(other) = self.ledger.steps.literal(step, place) {
                self.take_literal(analysis, other)?;
            }
        }
        analysis.omissions.push(Omission {
            place: self.trail.place(literal.term),
            step,
        })?;
        Ok(true)
    }

    /// Whether all literals of a step's clause are certain or part of the conflict.
    fn rests_on_marked(&self, step: u32) -> bool {
        for literal in self.ledger.steps.literals(step) {
            if self.trail.level_of(literal.term) > 0 && !self.marks.has(literal.term) {
                return false;
            }
        }
        true
    }

    /// The steps of the chain that gives what is learned: those of what is certain, of what is superfluous, and of
    /// what was resolved, the conflict last.
    fn names_of(&mut self, analysis: &mut Analysis) -> Result<Vec<Number>, AllocError> {
        let mut names = Vec::new(self.ledger.alloc);
        self.add_units(analysis.certain.as_slice(), &mut names)?;
        analysis.omissions.sort_by_key(|omission| omission.place)?;
        for omission in analysis.omissions.as_slice() {
            names.push(Number::Step(omission.step))?;
        }
        for _ in 0..analysis.antecedents.len() {
            if let Some(step) = analysis.antecedents.pop() {
                names.push(Number::Step(step))?;
            }
        }
        Ok(names)
    }

    /// Adds the steps that deny these literals, which are false without any choice.
    fn add_units(
        &mut self,
        literals: &[Literal],
        names: &mut Vec<Number>,
    ) -> Result<(), AllocError> {
        self.make_units(literals)?;
        for literal in literals {
            if let Some(unit) = self.unit(literal.term) {
                names.push(Number::Step(unit))?;
            }
        }
        Ok(())
    }

    /// The step whose clause is the literal of a term alone.
    fn unit(&self, term: u32) -> Option<u32> {
        self.units.get(term as usize).copied().unwrap_or(None)
    }

    /// Makes steps whose clauses are single literals, for terms whose values are certain.
    fn make_units(&mut self, literals: &[Literal]) -> Result<(), AllocError> {
        self.unit_marks.clear();
        let mut open = Vec::new(self.ledger.alloc);
        for literal in literals {
            open.push(literal.term)?;
        }
        let mut facts = Vec::new(self.ledger.alloc);
        for _ in 0..u64::MAX {
            let Some(term) = open.pop() else {
                break;
            };
            self.want_unit(term, &mut open, &mut facts)?;
        }
        facts.sort_by_key(|fact| fact.place)?;
        for fact in facts.as_slice() {
            self.make_unit(fact.term)?;
        }
        Ok(())
    }

    /// Notes that a term needs such a step, and those that it rests on.
    fn want_unit(
        &mut self,
        term: u32,
        open: &mut Vec<u32>,
        facts: &mut Vec<Fact>,
    ) -> Result<(), AllocError> {
        if self.unit(term).is_some() || self.unit_marks.has(term) {
            return Ok(());
        }
        self.unit_marks.mark(term)?;
        facts.push(Fact {
            place: self.trail.place(term),
            term,
        })?;
        let step = self.reason_of(term)?;
        for literal in self.ledger.steps.literals(step) {
            open.push(literal.term)?;
        }
        Ok(())
    }

    /// Makes the step of a term, behind those that it rests on.
    fn make_unit(&mut self, term: u32) -> Result<(), AllocError> {
        let reason = self.reason_of(term)?;
        let mut names = Vec::new(self.ledger.alloc);
        for literal in self.ledger.steps.literals(reason) {
            if let Some(unit) = self.unit(literal.term) {
                names.push(Number::Step(unit))?;
            }
        }
        let mut step = reason;
        if self.ledger.steps.literals(reason).len() > 1 {
            names.push(Number::Step(reason))?;
            let literal = Literal {
                term,
                positive: self.trail.value(term) == Some(true),
            };
            step = self
                .ledger
                .steps
                .push(RuleName::Chain, names.as_slice(), &[literal])?;
        }
        if let Some(unit) = self.units.get_mut(term as usize) {
            *unit = Some(step);
        }
        Ok(())
    }

    /// The step of the empty clause, from one that is false without any choice.
    fn refute(&mut self, step: u32) -> Result<u32, AllocError> {
        let mut literals = Vec::new(self.ledger.alloc);
        for literal in self.ledger.steps.literals(step) {
            literals.push(*literal)?;
        }
        let mut names = Vec::new(self.ledger.alloc);
        self.add_units(literals.as_slice(), &mut names)?;
        names.push(Number::Step(step))?;
        self.ledger
            .steps
            .push(RuleName::Chain, names.as_slice(), &[])
    }
}
