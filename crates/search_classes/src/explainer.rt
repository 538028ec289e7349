//! Steps that give equations out of the links between terms.

use crate::classes::Classes;
use crate::marks::Marks;
use crate::members::Cause;
use cert_format::certificate::RuleName;
use search_clauses::ledger::Ledger;
use search_clauses::literals::{negated, no, yes};
use search_clauses::steps::Number;
use std::alloc::{AllocError, Global};
use terms::term::Literal;

/// Two terms of one class.
#[derive(Clone, Copy)]
pub struct Pair {
    pub left: u32,
    pub right: u32,
}

/// A term that has a link, and since when.
#[derive(Clone, Copy)]
struct Child {
    term: u32,
    time: u64,
}

/// An explanation that is being made: the steps so far, and the literals that they rest on. The pairs are those whose
/// links are still to be looked at. A term is marked whose link was looked at, and an equation that is derived.
#[derive(Drop)]
pub struct Explainer {
    names: Vec<Number>,
    premises: Vec<Literal>,
    pairs: Vec<Pair>,
    children: Vec<Child>,
    way: Vec<u32>,
    marks: Marks,
}

impl Explainer {
    /// Nothing to be explained.
    pub fn new(alloc: Global) -> Explainer {
        Explainer {
            names: Vec::new(alloc),
            premises: Vec::new(alloc),
            pairs: Vec::new(alloc),
            children: Vec::new(alloc),
            way: Vec::new(alloc),
            marks: Marks::new(alloc),
        }
    }

    /// Begins another explanation.
    pub fn begin(&mut self) {
        self.names.clear();
        self.premises.clear();
        self.pairs.clear();
        self.children.clear();
        self.marks.clear();
    }

    /// Rests on a literal.
    pub fn rest_on(&mut self, literal: Literal) -> Result<(), AllocError> {
        self.premises.push(literal)?;
        if literal.positive {
            self.marks.mark(literal.term)?;
        }
        Ok(())
    }

    /// Wants the equation of two terms.
    pub fn want(&mut self, left: u32, right: u32) -> Result<(), AllocError> {
        if left != right {
            self.pairs.push(Pair { left, right })?;
        }
        Ok(())
    }

    /// Wants the equations of the arguments of two terms.
    pub fn want_args(
        &mut self,
        ledger: &Ledger<'_>,
        left: u32,
        right: u32,
    ) -> Result<(), AllocError> {
        for place in 0..ledger.args(left).len() {
            self.want(ledger.arg(left, place), ledger.arg(right, place))?;
        }
        Ok(())
    }

    /// Derives all links that the wanted equations need.
    pub fn gather(&mut self, ledger: &mut Ledger<'_>, classes: &Classes) -> Result<(), AllocError> {
        for _ in 0..u64::MAX {
            let Some(pair) = self.pairs.pop() else {
                break;
            };
            self.gather_pair(ledger, classes, pair)?;
        }
        self.children.sort_by_key(|child| child.time)?;
        for place in 0..self.children.len() {
            if let Some(child) = self.children.get(place).copied() {
                self.derive_link(ledger, classes, child.term)?;
            }
        }
        Ok(())
    }

    /// Looks at the links between two terms.
    fn gather_pair(
        &mut self,
        ledger: &Ledger<'_>,
        classes: &Classes,
        pair: Pair,
    ) -> Result<(), AllocError> {
        classes.members.way(pair.left, pair.right, &mut self.way)?;
        for place in 1..self.way.len() {
            let before = self.way.get(place.saturating_sub(1)).copied();
            let here = self.way.get(place).copied();
            if let (Some(before), Some(here)) = (before, here) {
                self.gather_link(ledger, classes, before, here)?;
            }
        }
        Ok(())
    }

    /// Notes the link between two neighbours, and wants the equations that it rests on.
    fn gather_link(
        &mut self,
        ledger: &Ledger<'_>,
        classes: &Classes,
        before: u32,
        here: u32,
    ) -> Result<(), AllocError> {
        let child = classes.members.child_of(before, here);
        let member = classes.members.get(child);
        let Some(link) = member.link else {
            return Ok(());
        };
        if self.marks.has(child) {
            return Ok(());
        }
        self.marks.mark(child)?;
        self.children.push(Child {
            term: child,
            time: link.time,
        })?;
        match link.cause {
            Cause::Equation(_) => Ok(()),
            Cause::Arguments(_) => self.want_args(ledger, child, link.to),
        }
    }

    /// Derives the equation of a term and the one that it is linked to.
    fn derive_link(
        &mut self,
        ledger: &mut Ledger<'_>,
        classes: &Classes,
        child: u32,
    ) -> Result<(), AllocError> {
        let member = classes.members.get(child);
        let Some(link) = member.link else {
            return Ok(());
        };
        match link.cause {
            Cause::Equation(equation) => self.rest_on(yes(equation)),
            Cause::Arguments(_) => {
                let equation = ledger.equation(child, link.to)?;
                self.congruence(ledger, classes, child, link.to)?;
                self.marks.mark(equation)
            }
        }
    }

    /// A step by the rule on arguments: from the equations of the arguments that of the terms, or that with one term
    /// the other is true.
    pub fn congruence(
        &mut self,
        ledger: &mut Ledger<'_>,
        classes: &Classes,
        left: u32,
        right: u32,
    ) -> Result<(), AllocError> {
        let mut clause = Vec::new(ledger.alloc);
        for place in 0..ledger.args(left).len() {
            let first = ledger.arg(left, place);
            let second = ledger.arg(right, place);
            if first != second {
                let equation = self.derive(ledger, classes, first, second)?;
                clause.push(no(equation))?;
            }
        }
        if ledger.is_truth(left) {
            clause.push(no(left))?;
            clause.push(yes(right))?;
        } else {
            let equation = ledger.equation(left, right)?;
            clause.push(yes(equation))?;
        }
        let numbers = [Number::Node(left), Number::Node(right)];
        self.step(ledger, RuleName::Cong, &numbers, clause.as_slice())
    }

    /// Derives the equation of two terms of a class, whose links were derived before, and gives it.
    pub fn derive(
        &mut self,
        ledger: &mut Ledger<'_>,
        classes: &Classes,
        left: u32,
        right: u32,
    ) -> Result<u32, AllocError> {
        let equation = ledger.equation(left, right)?;
        if self.marks.has(equation) {
            return Ok(equation);
        }
        if left == right {
            self.reflexivity(ledger, equation)?;
            return Ok(equation);
        }
        classes.members.way(left, right, &mut self.way)?;
        let mut last = left;
        for place in 1..self.way.len() {
            if let Some(here) = self.way.get(place).copied() {
                self.go_on(ledger, left, last, here)?;
                last = here;
            }
        }
        Ok(equation)
    }

    /// A step that gives the equation of a term with itself.
    fn reflexivity(&mut self, ledger: &mut Ledger<'_>, equation: u32) -> Result<(), AllocError> {
        self.step(
            ledger,
            RuleName::Refl,
            &[Number::Node(equation)],
            &[yes(equation)],
        )?;
        self.marks.mark(equation)
    }

    /// From the equation of a term and the last one that of it and the next, which is linked to the last one.
    fn go_on(
        &mut self,
        ledger: &mut Ledger<'_>,
        start: u32,
        last: u32,
        here: u32,
    ) -> Result<(), AllocError> {
        let link = self.link_equation(ledger, last, here)?;
        if start == last {
            return Ok(());
        }
        let before = ledger.equation(start, last)?;
        let after = ledger.equation(start, here)?;
        if self.marks.has(after) {
            return Ok(());
        }
        self.transitivity(ledger, before, link, after)
    }

    /// The equation of two linked terms, in this order.
    fn link_equation(
        &mut self,
        ledger: &mut Ledger<'_>,
        left: u32,
        right: u32,
    ) -> Result<u32, AllocError> {
        let equation = ledger.equation(left, right)?;
        if !self.marks.has(equation) {
            let other = ledger.equation(right, left)?;
            self.symmetry(ledger, other, equation)?;
        }
        Ok(equation)
    }

    /// A step that turns an equation round.
    pub fn symmetry(
        &mut self,
        ledger: &mut Ledger<'_>,
        equation: u32,
        other: u32,
    ) -> Result<(), AllocError> {
        self.step(
            ledger,
            RuleName::Sym,
            &[Number::Node(equation), Number::Node(other)],
            &[no(equation), yes(other)],
        )?;
        self.marks.mark(other)
    }

    /// A step from two equations to a third.
    pub fn transitivity(
        &mut self,
        ledger: &mut Ledger<'_>,
        first: u32,
        second: u32,
        third: u32,
    ) -> Result<(), AllocError> {
        self.step(
            ledger,
            RuleName::Trans,
            &[
                Number::Node(first),
                Number::Node(second),
                Number::Node(third),
            ],
            &[no(first), no(second), yes(third)],
        )?;
        self.marks.mark(third)
    }

    /// Adds a step.
    pub fn step(
        &mut self,
        ledger: &mut Ledger<'_>,
        rule: RuleName,
        numbers: &[Number],
        clause: &[Literal],
    ) -> Result<(), AllocError> {
        let step = ledger.steps.push(rule, numbers, clause)?;
        self.names.push(Number::Step(step))?;
        Ok(())
    }

    /// Ends the explanation: a step whose clause is the literals, and the literals that the steps rest on, denied.
    pub fn end(
        &mut self,
        ledger: &mut Ledger<'_>,
        literals: &[Literal],
    ) -> Result<u32, AllocError> {
        let mut clause = Vec::new(ledger.alloc);
        for literal in literals {
            clause.push(*literal)?;
        }
        for premise in self.premises.as_slice() {
            let denial = negated(*premise);
            if !clause.contains(&denial) {
                clause.push(denial)?;
            }
        }
        ledger
            .steps
            .push(RuleName::Chain, self.names.as_slice(), clause.as_slice())
    }
}
