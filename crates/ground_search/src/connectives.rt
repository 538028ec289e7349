//! Terms that are entered, and the clauses of their connectives.

use crate::solver::{Solver, Task};
use cert_format::certificate::RuleName;
use search_clauses::ledger::Ledger;
use search_clauses::literals::{negated, no, yes};
use search_clauses::steps::Number;
use std::alloc::AllocError;
use terms::term::{Kind, Literal};

/// When a term is true.
#[derive(Clone, Copy)]
enum Meaning {
    /// where both literals are
    Both(Literal, Literal),
    /// where one of the literals is
    Either(Literal, Literal),
    /// where the literal is
    One(Literal),
    /// always
    Always,
    /// no connective tells
    Atom,
}

/// When a term is true, by its connective.
fn meaning_of(ledger: &Ledger<'_>, term: u32) -> Meaning {
    let first = ledger.arg(term, 0);
    let second = ledger.arg(term, 1);
    match ledger.kind(term) {
        Kind::And => Meaning::Both(yes(first), yes(second)),
        Kind::Or => Meaning::Either(yes(first), yes(second)),
        Kind::Imp => Meaning::Either(no(first), yes(second)),
        Kind::Not => Meaning::One(no(first)),
        Kind::True => Meaning::Always,
        _ => Meaning::Atom,
    }
}

/// The literal, or what it denies.
fn with_sign(literal: Literal, positive: bool) -> Literal {
    if positive { literal } else { negated(literal) }
}

impl<'a> Solver<'a> {
    /// Adds the clauses of the connectives in a literal that may be true.
    pub(crate) fn connect(&mut self, literal: Literal) -> Result<(), AllocError> {
        self.grow()?;
        self.tasks.push(Task::Connect(literal))?;
        self.work()
    }

    /// Does what is to be done.
    pub(crate) fn work(&mut self) -> Result<(), AllocError> {
        for _ in 0..u64::MAX {
            let Some(task) = self.tasks.pop() else {
                return Ok(());
            };
            match task {
                Task::Enter(term) => self.enter_term(term)?,
                Task::Connect(literal) => self.connect_one(literal)?,
            }
        }
        Ok(())
    }

    /// Enters a term, behind its arguments.
    fn enter_term(&mut self, term: u32) -> Result<(), AllocError> {
        if self.classes.is_entered(term) {
            return Ok(());
        }
        let bottom = self.tasks.len();
        self.tasks.push(Task::Enter(term))?;
        for place in 0..self.ledger.args(term).len() {
            let arg = self.ledger.arg(term, place);
            if !self.classes.is_entered(arg) {
                self.tasks.push(Task::Enter(arg))?;
            }
        }
        if self.tasks.len() > bottom.saturating_add(1) {
            return Ok(());
        }
        self.tasks.truncate(bottom);
        self.classes.enter(&self.ledger, &self.trail, term)?;
        if self.ledger.kind(term) == Kind::Ite {
            self.enter_choice(term)?;
        }
        Ok(())
    }

    /// A choice is its second argument where the first is true, else the third.
    fn enter_choice(&mut self, term: u32) -> Result<(), AllocError> {
        let condition = self.ledger.arg(term, 0);
        let left = self.ledger.arg(term, 1);
        let right = self.ledger.arg(term, 2);
        let first = self.ledger.equation(term, left)?;
        let second = self.ledger.equation(term, right)?;
        self.grow()?;
        self.tasks.push(Task::Enter(first))?;
        self.tasks.push(Task::Enter(second))?;
        self.tasks.push(Task::Connect(yes(condition)))?;
        self.tasks.push(Task::Connect(no(condition)))?;
        self.choice_row(1, term, first, no(condition))?;
        self.choice_row(2, term, second, yes(condition))
    }

    /// Adds a row of a choice: that it equals one of the two, unless the condition says otherwise.
    fn choice_row(
        &mut self,
        number: i128,
        term: u32,
        equation: u32,
        literal: Literal,
    ) -> Result<(), AllocError> {
        self.add(
            RuleName::Conn,
            &[
                Number::Plain(number),
                Number::Node(term),
                Number::Node(equation),
            ],
            &[literal, yes(equation)],
        )
    }

    /// Whether the clauses of a literal's connective were added.
    fn is_connected(&self, literal: Literal) -> bool {
        if literal.positive {
            self.positive.has(literal.term)
        } else {
            self.negative.has(literal.term)
        }
    }

    /// Notes that the clauses of a literal's connective were added.
    fn mark_connected(&mut self, literal: Literal) -> Result<(), AllocError> {
        if literal.positive {
            self.positive.mark(literal.term)
        } else {
            self.negative.mark(literal.term)
        }
    }

    /// Adds the clauses of a literal's connective, once.
    fn connect_one(&mut self, literal: Literal) -> Result<(), AllocError> {
        let term = literal.term;
        if self.is_connected(literal) {
            return Ok(());
        }
        self.mark_connected(literal)?;
        self.tasks.push(Task::Enter(term))?;
        match meaning_of(&self.ledger, term) {
            Meaning::Both(left, right) => self.connect_both(literal, left, right),
            Meaning::Either(left, right) => self.connect_either(literal, left, right),
            Meaning::One(other) => self.connect_not(literal, other),
            Meaning::Always => self.connect_truth(literal),
            Meaning::Atom => Ok(()),
        }
    }

    /// Connects the parts of a literal, which may be true where it may.
    fn connect_parts(
        &mut self,
        literal: Literal,
        left: Literal,
        right: Literal,
    ) -> Result<(), AllocError> {
        self.tasks
            .push(Task::Connect(with_sign(left, literal.positive)))?;
        self.tasks
            .push(Task::Connect(with_sign(right, literal.positive)))?;
        Ok(())
    }

    /// Adds the rows of a conjunction.
    fn connect_both(
        &mut self,
        literal: Literal,
        left: Literal,
        right: Literal,
    ) -> Result<(), AllocError> {
        self.connect_parts(literal, left, right)?;
        let term = literal.term;
        if !literal.positive {
            return self.row(3, term, &[yes(term), negated(left), negated(right)]);
        }
        self.row(1, term, &[no(term), left])?;
        self.row(2, term, &[no(term), right])
    }

    /// Adds the rows of a disjunction.
    fn connect_either(
        &mut self,
        literal: Literal,
        left: Literal,
        right: Literal,
    ) -> Result<(), AllocError> {
        self.connect_parts(literal, left, right)?;
        let term = literal.term;
        if literal.positive {
            return self.row(3, term, &[no(term), left, right]);
        }
        self.row(1, term, &[yes(term), negated(left)])?;
        self.row(2, term, &[yes(term), negated(right)])
    }

    /// Adds the row of a negation.
    fn connect_not(&mut self, literal: Literal, other: Literal) -> Result<(), AllocError> {
        self.tasks
            .push(Task::Connect(with_sign(other, literal.positive)))?;
        let term = literal.term;
        if literal.positive {
            return self.row(2, term, &[no(term), other]);
        }
        self.row(1, term, &[yes(term), negated(other)])
    }

    /// Adds the row of truth, where it may be false.
    fn connect_truth(&mut self, literal: Literal) -> Result<(), AllocError> {
        if literal.positive {
            return Ok(());
        }
        self.row(1, literal.term, &[yes(literal.term)])
    }

    /// Adds a row of a term's connective.
    fn row(&mut self, number: i128, term: u32, literals: &[Literal]) -> Result<(), AllocError> {
        self.add(
            RuleName::Conn,
            &[Number::Plain(number), Number::Node(term)],
            literals,
        )
    }
}
