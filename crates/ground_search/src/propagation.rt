//! What follows from what is true.

use crate::solver::Solver;
use search_clauses::trail::Reason;
use std::alloc::AllocError;
use terms::term::Literal;

impl<'a> Solver<'a> {
    /// Makes true what the clauses and the classes give, until a step is found whose clause is false, or nothing is
    /// left.
    pub(crate) fn propagate(&mut self) -> Result<Option<u32>, AllocError> {
        for _ in 0..u64::MAX {
            let conflict = self.propagate_once()?;
            if conflict.is_some() || self.is_settled() {
                return Ok(conflict);
            }
        }
        Ok(None)
    }

    /// Whether clauses and classes have nothing left to give.
    fn is_settled(&self) -> bool {
        self.clauses.is_settled(&self.trail) && self.classes.is_settled(&self.trail)
    }

    /// Clauses first, then what classes gained, then the classes themselves.
    fn propagate_once(&mut self) -> Result<Option<u32>, AllocError> {
        if let Some(step) = self.take_pending() {
            return Ok(Some(step));
        }
        let conflict = self.clauses.propagate(&mut self.trail)?;
        if conflict.is_some() {
            return Ok(conflict);
        }
        let conflict = self.take_gains()?;
        if conflict.is_some() || !self.clauses.is_settled(&self.trail) {
            return Ok(conflict);
        }
        self.propagate_classes()
    }

    /// A step that was added while its clause was false, where it still is.
    fn take_pending(&mut self) -> Option<u32> {
        let pending = self.pending;
        self.pending = None;
        match pending {
            Some(step) if self.is_false(step) => Some(step),
            _ => None,
        }
    }

    /// Whether the clause of a step is false.
    fn is_false(&self, step: u32) -> bool {
        for literal in self.ledger.steps.literals(step) {
            if !self.trail.is_false(*literal) {
                return false;
            }
        }
        true
    }

    /// Makes true what the classes give.
    fn take_gains(&mut self) -> Result<Option<u32>, AllocError> {
        for _ in 0..u64::MAX {
            let Some(gain) = self.classes.next_gain() else {
                return Ok(None);
            };
            if self.trail.is_false(gain.literal) {
                let step = self.explain(gain.literal, gain.reason)?;
                return Ok(Some(step));
            }
            if !self.trail.is_true(gain.literal) {
                self.trail.assign(gain.literal, gain.reason)?;
            }
        }
        Ok(None)
    }

    /// The step of a clause by which the literal is true for this reason.
    fn explain(&mut self, literal: Literal, reason: Reason) -> Result<u32, AllocError> {
        self.explanations.explain(
            &mut self.ledger,
            &self.classes,
            &self.trail,
            literal,
            reason,
        )
    }

    /// Lets the classes see what is true; two numbers in one class are a conflict.
    fn propagate_classes(&mut self) -> Result<Option<u32>, AllocError> {
        let clash = self.classes.propagate(&self.ledger, &self.trail)?;
        let Some(clash) = clash else {
            return Ok(None);
        };
        let step = self
            .explanations
            .clash(&mut self.ledger, &self.classes, clash)?;
        self.classes.part();
        Ok(Some(step))
    }

    /// The step whose clause made a term's literal true.
    pub(crate) fn reason_of(&mut self, term: u32) -> Result<u32, AllocError> {
        let reason = self.trail.reason(term);
        if let Reason::Step(step) = reason {
            return Ok(step);
        }
        let literal = Literal {
            term,
            positive: self.trail.value(term) == Some(true),
        };
        let step = self.explain(literal, reason)?;
        self.trail.settle(term, step);
        Ok(step)
    }

    /// Whether a term's value was chosen.
    pub(crate) fn is_choice(&self, term: u32) -> bool {
        matches!(self.trail.reason(term), Reason::Choice)
    }
}
