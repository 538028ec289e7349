//! Chains with nothing in them that does nothing.

use cert_format::certificate::RuleName;
use search_classes::marks::Marks;
use search_clauses::ledger::Ledger;
use search_clauses::steps::Number;
use std::alloc::{AllocError, Global};
use terms::term::Literal;

/// A step that a chain names, and the term that it gives a value; none for the last one.
#[derive(Clone, Copy)]
struct Turn {
    step: u32,
    gives: Option<u32>,
}

/// A chain as it runs: the terms that are true and false so far, the steps that did something, and the terms that later
/// steps rest on.
#[derive(Drop)]
pub(crate) struct Chains {
    truths: Marks,
    falsehoods: Marks,
    needed: Marks,
    turns: Vec<Turn>,
}

/// What a step does in a chain.
#[derive(Clone, Copy)]
enum Effect {
    /// nothing, since one of its literals is true
    Nothing,
    /// it makes the literal true
    Gives(Literal),
    /// all its literals are false
    Ends,
    /// more than one of its literals is open
    Stuck,
}

impl Chains {
    /// No chain.
    pub(crate) fn new(alloc: Global) -> Chains {
        Chains {
            truths: Marks::new(alloc),
            falsehoods: Marks::new(alloc),
            needed: Marks::new(alloc),
            turns: Vec::new(alloc),
        }
    }

    /// Whether a literal is true so far.
    fn is_true(&self, literal: Literal) -> bool {
        if literal.positive {
            self.truths.has(literal.term)
        } else {
            self.falsehoods.has(literal.term)
        }
    }

    /// Whether a literal is false so far.
    fn is_false(&self, literal: Literal) -> bool {
        if literal.positive {
            self.falsehoods.has(literal.term)
        } else {
            self.truths.has(literal.term)
        }
    }

    /// Gives a term its value.
    fn set(&mut self, term: u32, value: bool) -> Result<(), AllocError> {
        if value {
            self.truths.mark(term)
        } else {
            self.falsehoods.mark(term)
        }
    }

    /// The steps that a chain needs of those that it names, the last one first; none where it doesn't end.
    pub(crate) fn run(
        &mut self,
        ledger: &Ledger<'_>,
        chain: u32,
        names: &mut Vec<u32>,
    ) -> Result<bool, AllocError> {
        names.clear();
        self.truths.clear();
        self.falsehoods.clear();
        self.needed.clear();
        self.turns.clear();
        for literal in ledger.steps.literals(chain) {
            self.set(literal.term, !literal.positive)?;
        }
        if !self.go(ledger, chain)? {
            return Ok(false);
        }
        self.collect(ledger, names)?;
        Ok(true)
    }

    /// Goes through the chain. Whether it ends.
    fn go(&mut self, ledger: &Ledger<'_>, chain: u32) -> Result<bool, AllocError> {
        for number in ledger.steps.numbers(chain) {
            if let Number::Step(step) = number {
                match self.effect_of(ledger.steps.literals(*step)) {
                    Effect::Nothing => {}
                    Effect::Stuck => return Ok(false),
                    Effect::Gives(literal) => {
                        self.set(literal.term, literal.positive)?;
                        self.turns.push(Turn {
                            step: *step,
                            gives: Some(literal.term),
                        })?;
                    }
                    Effect::Ends => {
                        self.turns.push(Turn {
                            step: *step,
                            gives: None,
                        })?;
                        return Ok(true);
                    }
                }
            }
        }
        Ok(false)
    }

    /// What a step with this clause does.
    fn effect_of(&self, literals: &[Literal]) -> Effect {
        let mut open = None;
        let mut is_stuck = false;
        for literal in literals {
            if self.is_true(*literal) {
                return Effect::Nothing;
            }
            if !self.is_false(*literal) {
                is_stuck |= open.is_some();
                open = Some(*literal);
            }
        }
        match open {
            None => Effect::Ends,
            Some(_) if is_stuck => Effect::Stuck,
            Some(literal) => Effect::Gives(literal),
        }
    }

    /// Collects the steps that the end rests on, backwards.
    fn collect(&mut self, ledger: &Ledger<'_>, names: &mut Vec<u32>) -> Result<(), AllocError> {
        for _ in 0..self.turns.len() {
            if let Some(turn) = self.turns.pop() {
                if self.is_needed(turn) {
                    names.push(turn.step)?;
                    for literal in ledger.steps.literals(turn.step) {
                        self.needed.mark(literal.term)?;
                    }
                }
            }
        }
        Ok(())
    }

    /// Whether the end, or a later step that it rests on, needs what a step gave.
    fn is_needed(&self, turn: Turn) -> bool {
        match turn.gives {
            Some(term) => self.needed.has(term),
            None => true,
        }
    }
}

/// Whether the step is a chain.
pub(crate) fn is_chain(ledger: &Ledger<'_>, step: u32) -> bool {
    ledger.steps.rule(step) == Some(RuleName::Chain)
}
