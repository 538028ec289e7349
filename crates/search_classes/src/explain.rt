//! Clauses behind what classes give.

use crate::classes::{Clash, Classes};
use crate::explainer::Explainer;
use crate::members::{Cause, Link};
use cert_format::certificate::RuleName;
use search_clauses::ledger::Ledger;
use search_clauses::literals::no;
use search_clauses::steps::Number;
use search_clauses::trail::{Reason, Trail};
use std::alloc::{AllocError, Global};
use terms::term::{Kind, Literal};

/// What makes the clauses.
#[derive(Drop)]
pub struct Explanations {
    pub(crate) explainer: Explainer,
    path: Vec<u32>,
}

/// Whether two equations have their arguments in the other order.
fn is_crossed(link: Option<Link>) -> bool {
    let Some(link) = link else {
        return false;
    };
    match link.cause {
        Cause::Arguments(crosses) => crosses,
        Cause::Equation(_) => false,
    }
}

/// The multiplier that makes the difference of two numbers positive.
fn sign_of(left: i128, right: i128) -> i128 {
    if left > right { 1 } else { -1 }
}

impl Explanations {
    /// Nothing to be explained.
    pub fn new(alloc: Global) -> Explanations {
        Explanations {
            explainer: Explainer::new(alloc),
            path: Vec::new(alloc),
        }
    }

    /// The step of a clause that is false, since two numbers are in one class.
    pub fn clash(
        &mut self,
        ledger: &mut Ledger<'_>,
        classes: &Classes,
        clash: Clash,
    ) -> Result<u32, AllocError> {
        self.explainer.begin();
        self.explainer.want(clash.left, clash.right)?;
        self.explainer.gather(ledger, classes)?;
        let equation = self
            .explainer
            .derive(ledger, classes, clash.left, clash.right)?;
        let sign = sign_of(ledger.index(clash.left), ledger.index(clash.right));
        self.explainer.step(
            ledger,
            RuleName::Linear,
            &[Number::Plain(sign)],
            &[no(equation)],
        )?;
        self.explainer.end(ledger, &[])
    }

    /// The step of a clause in which the literal is the only one that isn't false, for this reason.
    pub fn explain(
        &mut self,
        ledger: &mut Ledger<'_>,
        classes: &Classes,
        trail: &Trail,
        literal: Literal,
        reason: Reason,
    ) -> Result<u32, AllocError> {
        self.explainer.begin();
        match reason {
            Reason::Choice => self.explainer.end(ledger, &[literal]),
            Reason::Step(step) => Ok(step),
            Reason::OneClass => self.one_class(ledger, classes, literal),
            Reason::Numbers => self.numbers(ledger, classes, literal),
            Reason::Member(witness) => self.member(ledger, classes, trail, literal, witness),
        }
    }

    /// The sides of the equation are of one class.
    fn one_class(
        &mut self,
        ledger: &mut Ledger<'_>,
        classes: &Classes,
        literal: Literal,
    ) -> Result<u32, AllocError> {
        let left = ledger.arg(literal.term, 0);
        let right = ledger.arg(literal.term, 1);
        self.explainer.want(left, right)?;
        self.explainer.gather(ledger, classes)?;
        let _equation = self.explainer.derive(ledger, classes, left, right)?;
        self.explainer.end(ledger, &[literal])
    }

    /// The numbers in the classes of the sides decide it.
    fn numbers(
        &mut self,
        ledger: &mut Ledger<'_>,
        classes: &Classes,
        literal: Literal,
    ) -> Result<u32, AllocError> {
        let left = ledger.arg(literal.term, 0);
        let right = ledger.arg(literal.term, 1);
        let first = classes.members.class(left).number.unwrap_or(left);
        let second = classes.members.class(right).number.unwrap_or(right);
        self.explainer.want(left, first)?;
        self.explainer.want(right, second)?;
        self.explainer.gather(ledger, classes)?;
        let multiplier = multiplier_of(ledger, literal, first, second);
        let factor = factor_of(ledger, literal, first, second);
        let mut clause = Vec::new(ledger.alloc);
        let mut multipliers = Vec::new(ledger.alloc);
        if left != first {
            let equation = self.explainer.derive(ledger, classes, left, first)?;
            clause.push(no(equation))?;
            multipliers.push(Number::Plain(factor.saturating_mul(-1)))?;
        }
        if right != second {
            let equation = self.explainer.derive(ledger, classes, right, second)?;
            clause.push(no(equation))?;
            multipliers.push(Number::Plain(factor))?;
        }
        clause.push(literal)?;
        multipliers.push(Number::Plain(multiplier))?;
        self.explainer.step(
            ledger,
            RuleName::Linear,
            multipliers.as_slice(),
            clause.as_slice(),
        )?;
        self.explainer.end(ledger, &[literal])
    }

    /// The term is of one class with one that has the value.
    fn member(
        &mut self,
        ledger: &mut Ledger<'_>,
        classes: &Classes,
        trail: &Trail,
        literal: Literal,
        witness: u32,
    ) -> Result<u32, AllocError> {
        let value = trail.value(witness) == Some(true);
        let (from, to) = if value {
            (witness, literal.term)
        } else {
            (literal.term, witness)
        };
        classes.members.way(from, to, &mut self.path)?;
        for place in 1..self.path.len() {
            self.want_link(ledger, classes, place)?;
        }
        self.explainer.gather(ledger, classes)?;
        for place in 1..self.path.len() {
            self.pass_link(ledger, classes, place)?;
        }
        let premise = Literal {
            term: witness,
            positive: !value,
        };
        self.explainer.end(ledger, &[literal, premise])
    }

    /// The terms on both sides of a link of the path, and whether it is crossed.
    fn link_at(&self, classes: &Classes, place: usize) -> Option<(u32, u32, bool)> {
        let left = self.path.get(place.saturating_sub(1)).copied();
        let right = self.path.get(place).copied();
        let (Some(left), Some(right)) = (left, right) else {
            return None;
        };
        let child = classes.members.child_of(left, right);
        let member = classes.members.get(child);
        Some((left, right, is_crossed(member.link)))
    }

    /// Wants the equations of the arguments of two truth values.
    fn want_link(
        &mut self,
        ledger: &Ledger<'_>,
        classes: &Classes,
        place: usize,
    ) -> Result<(), AllocError> {
        let Some((left, right, crosses)) = self.link_at(classes, place) else {
            return Ok(());
        };
        if !crosses {
            return self.explainer.want_args(ledger, left, right);
        }
        let first = ledger.arg(left, 0);
        let second = ledger.arg(left, 1);
        self.explainer.want(first, ledger.arg(right, 1))?;
        self.explainer.want(second, ledger.arg(right, 0))
    }

    /// Passes truth over a link.
    fn pass_link(
        &mut self,
        ledger: &mut Ledger<'_>,
        classes: &Classes,
        place: usize,
    ) -> Result<(), AllocError> {
        let Some((left, right, crosses)) = self.link_at(classes, place) else {
            return Ok(());
        };
        if ledger.kind(left) != Kind::Eq {
            return self.explainer.congruence(ledger, classes, left, right);
        }
        if !crosses {
            return self.pass_equation(ledger, classes, left, right);
        }
        let first = ledger.arg(left, 0);
        let second = ledger.arg(left, 1);
        let mirror = ledger.equation(second, first)?;
        self.explainer.symmetry(ledger, left, mirror)?;
        self.pass_equation(ledger, classes, mirror, right)
    }

    /// From an equation to one whose sides are of the same classes.
    fn pass_equation(
        &mut self,
        ledger: &mut Ledger<'_>,
        classes: &Classes,
        left: u32,
        right: u32,
    ) -> Result<(), AllocError> {
        let first = ledger.arg(left, 0);
        let second = ledger.arg(left, 1);
        let start = ledger.arg(right, 0);
        let end = ledger.arg(right, 1);
        let mut last = left;
        if start != first {
            let equation = self.explainer.derive(ledger, classes, start, first)?;
            let next = ledger.equation(start, second)?;
            self.explainer.transitivity(ledger, equation, last, next)?;
            last = next;
        }
        if end != second {
            let equation = self.explainer.derive(ledger, classes, second, end)?;
            let next = ledger.equation(start, end)?;
            self.explainer.transitivity(ledger, last, equation, next)?;
        }
        Ok(())
    }
}

/// The multiplier of the literal in the step by which two numbers decide it.
fn multiplier_of(ledger: &Ledger<'_>, literal: Literal, first: u32, second: u32) -> i128 {
    if ledger.kind(literal.term) == Kind::Eq {
        sign_of(ledger.index(first), ledger.index(second))
    } else {
        1
    }
}

/// How many times the difference of the sides stands in it.
fn factor_of(ledger: &Ledger<'_>, literal: Literal, first: u32, second: u32) -> i128 {
    let multiplier = multiplier_of(ledger, literal, first, second);
    if literal.positive {
        multiplier.saturating_mul(-1)
    } else {
        multiplier
    }
}
