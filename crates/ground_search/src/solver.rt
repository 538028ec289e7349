//! The search.

use cert_format::certificate::RuleName;
use search_classes::classes::Classes;
use search_classes::explain::Explanations;
use search_classes::marks::Marks;
use search_classes::sums::{Sums, add_up};
use search_clauses::clauses::Clauses;
use search_clauses::ledger::Ledger;
use search_clauses::literals::{no, yes};
use search_clauses::steps::{Inference, Number};
use search_clauses::trail::{Reason, Trail};
use std::alloc::{AllocError, Global};
use terms::sort::Columns;
use terms::term::Literal;

/// What the search comes to.
#[derive(Clone, Copy)]
pub enum Outcome {
    /// this step's clause is empty
    Refuted(u32),
    /// all clauses may hold together
    Open,
    /// so many leaves were looked at as were granted
    Spent,
}

/// What is still to be done about a term.
#[derive(Clone, Copy)]
pub(crate) enum Task {
    /// to enter it into the classes
    Enter(u32),
    /// to add the clauses of its connective, where the literal may be true
    Connect(Literal),
}

/// A search: the terms and steps, what is true, the clauses, the classes, and what is being worked on.
#[derive(Drop)]
pub struct Solver<'a> {
    pub ledger: Ledger<'a>,
    pub(crate) trail: Trail,
    pub(crate) clauses: Clauses,
    pub(crate) classes: Classes,
    pub(crate) explanations: Explanations,
    pub(crate) tasks: Vec<Task>,
    pub(crate) positive: Marks,
    pub(crate) negative: Marks,
    splits: Marks,
    pub(crate) marks: Marks,
    pub(crate) unit_marks: Marks,
    pub(crate) units: Vec<Option<u32>>,
    pub(crate) pending: Option<u32>,
    row: usize,
    leaves: u32,
    since: u32,
    gaps: u32,
}

/// How many leaves are looked at before the search begins anew.
const PATIENCE: u32 = 300;

/// How many splits there are at most of values that aren't whole.
const MOST_GAPS: u32 = 64;

impl<'a> Solver<'a> {
    /// No terms and no clauses.
    pub fn new(alloc: Global, columns: &'a Columns) -> Solver<'a> {
        Solver {
            ledger: Ledger::new(alloc, columns),
            trail: Trail::new(alloc),
            clauses: Clauses::new(alloc),
            classes: Classes::new(alloc),
            explanations: Explanations::new(alloc),
            tasks: Vec::new(alloc),
            positive: Marks::new(alloc),
            negative: Marks::new(alloc),
            splits: Marks::new(alloc),
            marks: Marks::new(alloc),
            unit_marks: Marks::new(alloc),
            units: Vec::new(alloc),
            pending: None,
            row: 0,
            leaves: 0,
            since: 0,
            gaps: 0,
        }
    }

    /// Makes room for the terms that are new.
    pub(crate) fn grow(&mut self) -> Result<(), AllocError> {
        let terms = self.ledger.graph.len();
        self.trail.grow(terms)?;
        self.clauses.grow(terms)?;
        self.classes.members.grow(&self.ledger.graph)?;
        if terms > self.units.len() {
            self.units.resize(terms, None)?;
        }
        Ok(())
    }

    /// Supposes that the term is false.
    pub fn suppose_false(&mut self, root: u32) -> Result<(), AllocError> {
        self.connect(no(root))?;
        self.add(RuleName::Root, &[], &[no(root)])
    }

    /// Enters a term.
    pub fn enter(&mut self, term: u32) -> Result<(), AllocError> {
        self.grow()?;
        self.tasks.push(Task::Enter(term))?;
        self.work()
    }

    /// Adds a clause, and those of the connectives in it.
    pub fn add_inference(&mut self, inference: &Inference) -> Result<(), AllocError> {
        for literal in inference.literals.as_slice() {
            self.connect(*literal)?;
        }
        self.add(
            inference.rule,
            inference.numbers.as_slice(),
            inference.literals.as_slice(),
        )
    }

    /// Adds the clause that a rule gives.
    pub(crate) fn add(
        &mut self,
        rule: RuleName,
        numbers: &[Number],
        literals: &[Literal],
    ) -> Result<(), AllocError> {
        let step = self.ledger.steps.push(rule, numbers, literals)?;
        let step = self.without_copies(step, literals)?;
        self.attach(step, true)
    }

    /// The step whose clause has each of a step's literals once, since a chain can't take one that stands twice.
    fn without_copies(&mut self, step: u32, literals: &[Literal]) -> Result<u32, AllocError> {
        let mut clause = Vec::new(self.ledger.alloc);
        for literal in literals {
            if !clause.contains(literal) {
                clause.push(*literal)?;
            }
        }
        if clause.len() == literals.len() {
            return Ok(step);
        }
        self.ledger
            .steps
            .push(RuleName::Chain, &[Number::Step(step)], clause.as_slice())
    }

    /// Sees to the clause of a step from now on.
    pub(crate) fn attach(&mut self, step: u32, is_given: bool) -> Result<(), AllocError> {
        let conflict = self
            .clauses
            .attach(&self.ledger, &mut self.trail, step, is_given)?;
        if conflict.is_some() {
            self.pending = conflict;
        }
        Ok(())
    }

    /// Goes back to where there were so many choices.
    pub(crate) fn back_to(&mut self, level: usize) {
        let Some(before) = self.trail.undo_to(level) else {
            return;
        };
        self.clauses.undo_to(before.start);
        self.classes.undo_to(before.changes, before.start);
        self.row = before.row;
    }

    /// Searches until a refutation is found, all clauses may hold, or so many leaves were looked at in all.
    pub fn search(&mut self, leaves: u32) -> Result<Outcome, AllocError> {
        for _ in 0..u64::MAX {
            let outcome = self.turn(leaves)?;
            if let Some(outcome) = outcome {
                self.back_to(0);
                return Ok(outcome);
            }
        }
        Ok(Outcome::Spent)
    }

    /// One turn of the search: what follows, then a choice, then the sums. It gives the outcome that ends the search.
    fn turn(&mut self, leaves: u32) -> Result<Option<Outcome>, AllocError> {
        if let Some(step) = self.propagate()? {
            return self.meet(step, leaves);
        }
        if self.choose()? {
            return Ok(None);
        }
        self.look_at_sums(leaves)
    }

    /// Meets a clause that is false.
    fn meet(&mut self, step: u32, leaves: u32) -> Result<Option<Outcome>, AllocError> {
        self.leaves = self.leaves.saturating_add(1);
        self.since = self.since.saturating_add(1);
        if let Some(empty) = self.resolve(step)? {
            return Ok(Some(Outcome::Refuted(empty)));
        }
        if self.leaves >= leaves {
            return Ok(Some(Outcome::Spent));
        }
        if self.since > PATIENCE {
            self.since = 0;
            self.back_to(0);
        }
        Ok(None)
    }

    /// Chooses a literal of the first clause that isn't true yet. False where all are.
    fn choose(&mut self) -> Result<bool, AllocError> {
        let Some(number) = self.clauses.open_row(&self.trail, self.row) else {
            return Ok(false);
        };
        let Some(literal) = self.clauses.choice(&self.trail, number) else {
            return Ok(false);
        };
        self.row = number;
        let changes = self.classes.changes();
        self.trail.open(number, changes)?;
        self.trail.assign(literal, Reason::Choice)?;
        Ok(true)
    }

    /// All clauses are true: what do the sums come to?
    fn look_at_sums(&mut self, leaves: u32) -> Result<Option<Outcome>, AllocError> {
        let answer = add_up(
            &mut self.ledger,
            &self.classes,
            &self.trail,
            &mut self.explanations,
        )?;
        match answer {
            Sums::Conflict(step) => self.meet(step, leaves),
            Sums::Meet(equations) => {
                if self.split_all(equations.as_slice())? {
                    return Ok(None);
                }
                Ok(Some(Outcome::Open))
            }
            Sums::Gap(equation) => self.close_gap(equation),
            Sums::Settled | Sums::GaveUp => Ok(Some(Outcome::Open)),
        }
    }

    /// Splits at the number below a value that isn't whole, unless that was done before or too often.
    fn close_gap(&mut self, equation: u32) -> Result<Option<Outcome>, AllocError> {
        if self.gaps >= MOST_GAPS {
            return Ok(Some(Outcome::Open));
        }
        self.gaps = self.gaps.saturating_add(1);
        if self.split_all(&[equation])? {
            return Ok(None);
        }
        Ok(Some(Outcome::Open))
    }

    /// Splits the equations that weren't split before. Whether there are any.
    fn split_all(&mut self, equations: &[u32]) -> Result<bool, AllocError> {
        let mut is_any = false;
        for equation in equations {
            if !self.splits.has(*equation) {
                is_any = true;
                self.splits.mark(*equation)?;
                self.back_to(0);
                self.split(*equation)?;
            }
        }
        Ok(is_any)
    }

    /// Two integers are equal, or one isn't at most the other.
    fn split(&mut self, equation: u32) -> Result<(), AllocError> {
        let left = self.ledger.arg(equation, 0);
        let right = self.ledger.arg(equation, 1);
        let below = self.ledger.at_most(left, right)?;
        let above = self.ledger.at_most(right, left)?;
        self.enter(equation)?;
        self.enter(below)?;
        self.enter(above)?;
        self.add(
            RuleName::Split,
            &[
                Number::Node(equation),
                Number::Node(below),
                Number::Node(above),
            ],
            &[yes(equation), no(below), no(above)],
        )
    }
}
