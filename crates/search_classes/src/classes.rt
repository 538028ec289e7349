//! Classes of equal terms, of which those with equal arguments are equal too.

use crate::members::{Cause, Class, Link, Member, Members};
use crate::signatures::{Signatures, mix};
use search_clauses::ledger::Ledger;
use search_clauses::trail::{Reason, Trail};
use std::alloc::{AllocError, Global};
use terms::term::{Kind, Literal};

/// A term that has one of a class as an argument, and the next such.
#[derive(Clone, Copy)]
struct Use {
    term: u32,
    next: Option<usize>,
}

/// That two terms are to go into one class.
#[derive(Clone, Copy)]
struct Merge {
    left: u32,
    right: u32,
    cause: Cause,
}

/// The classes of a merge: the term from the smaller class goes to that from the greater one.
#[derive(Clone, Copy)]
struct Union {
    from: u32,
    to: u32,
    small: u32,
    great: u32,
}

/// A literal that the classes give.
#[derive(Clone, Copy)]
pub struct Gain {
    pub literal: Literal,
    pub reason: Reason,
}

/// Two different numbers in one class.
#[derive(Clone, Copy)]
pub struct Clash {
    pub left: u32,
    pub right: u32,
}

/// What is to be taken back.
#[derive(Clone, Copy)]
enum Change {
    /// the last term that came into the table
    Signature,
    /// that the class got a value
    Witness(u32),
    /// that two classes became one; what was kept of the greater
    Union(Union, Class),
}

/// The classes, and what is still to be done about them. The cursor stands behind the true literals that were looked
/// at.
#[derive(Drop)]
pub struct Classes {
    pub members: Members,
    uses: Vec<Use>,
    signatures: Signatures,
    merges: Vec<Merge>,
    gains: Vec<Gain>,
    changes: Vec<Change>,
    time: u64,
    cursor: usize,
}

/// Whether terms of the kind are equal where their arguments are, by the rule on arguments.
fn is_function(kind: Kind) -> bool {
    !matches!(
        kind,
        Kind::Not | Kind::And | Kind::Or | Kind::Imp | Kind::Ite
    )
}

/// Whether truth values of the kind are taken apart by their connective.
pub fn is_connective(kind: Kind) -> bool {
    matches!(
        kind,
        Kind::True | Kind::Not | Kind::And | Kind::Or | Kind::Imp
    )
}

impl Classes {
    /// No terms.
    pub fn new(alloc: Global) -> Classes {
        Classes {
            members: Members::new(alloc),
            uses: Vec::new(alloc),
            signatures: Signatures::new(alloc),
            merges: Vec::new(alloc),
            gains: Vec::new(alloc),
            changes: Vec::new(alloc),
            time: 0,
            cursor: 0,
        }
    }

    /// How many changes there were.
    pub fn changes(&self) -> usize {
        self.changes.len()
    }

    /// Whether a term was entered.
    pub fn is_entered(&self, term: u32) -> bool {
        self.members.get(term).is_entered
    }

    /// Enters a term, whose arguments were entered before.
    pub fn enter(
        &mut self,
        ledger: &Ledger<'_>,
        trail: &Trail,
        term: u32,
    ) -> Result<(), AllocError> {
        let mut member = self.members.get(term);
        member.is_entered = true;
        let kind = ledger.kind(term);
        if kind == Kind::Int {
            member.class.number = Some(term);
        }
        self.members.put(term, member);
        if !is_function(kind) || ledger.args(term).is_empty() {
            return Ok(());
        }
        for arg in ledger.args(term) {
            let head = self.members.head(*arg);
            self.add_use(head, term)?;
        }
        self.look_at(ledger, trail, term)
    }

    /// Adds a term to those that have one of the class as an argument.
    fn add_use(&mut self, head: u32, term: u32) -> Result<(), AllocError> {
        let place = self.uses.len();
        self.uses.push(Use { term, next: None })?;
        let mut class = self.members.get(head).class;
        self.continue_uses(class.last_use, Some(place));
        if class.first_use.is_none() {
            class.first_use = Some(place);
        }
        class.last_use = Some(place);
        self.members.put_class(head, class);
        Ok(())
    }

    /// Puts what comes behind a place of the uses.
    fn continue_uses(&mut self, place: Option<usize>, next: Option<usize>) {
        let Some(place) = place else {
            return;
        };
        if let Some(entry) = self.uses.get_mut(place) {
            entry.next = next;
        }
    }

    /// Looks at a term whose arguments are of other classes than before.
    fn look_at(&mut self, ledger: &Ledger<'_>, trail: &Trail, term: u32) -> Result<(), AllocError> {
        let kind = ledger.kind(term);
        self.look_at_atom(ledger, trail, term)?;
        if kind == Kind::Le {
            return Ok(());
        }
        self.find_equal(ledger, term)
    }

    /// Whether the classes of the sides of an equation or an inequation tell its value.
    fn look_at_atom(
        &mut self,
        ledger: &Ledger<'_>,
        trail: &Trail,
        term: u32,
    ) -> Result<(), AllocError> {
        let Some(gain) = self.gain_of(ledger, term) else {
            return Ok(());
        };
        if trail.is_true(gain.literal) {
            return Ok(());
        }
        self.gains.push(gain)?;
        Ok(())
    }

    /// What the classes tell of an equation or an inequation.
    fn gain_of(&self, ledger: &Ledger<'_>, term: u32) -> Option<Gain> {
        let left = self.members.head(ledger.arg(term, 0));
        let right = self.members.head(ledger.arg(term, 1));
        match ledger.kind(term) {
            Kind::Eq if left == right => Some(Gain {
                literal: Literal {
                    term,
                    positive: true,
                },
                reason: Reason::OneClass,
            }),
            Kind::Eq => self.gain_by_numbers(ledger, term, left, right, false),
            Kind::Le => self.gain_by_numbers(ledger, term, left, right, true),
            _ => None,
        }
    }

    /// What the numbers in two classes tell: that they differ, or which is at most the other.
    fn gain_by_numbers(
        &self,
        ledger: &Ledger<'_>,
        term: u32,
        left: u32,
        right: u32,
        is_order: bool,
    ) -> Option<Gain> {
        let (Some(first), Some(second)) = (
            self.members.get(left).class.number,
            self.members.get(right).class.number,
        ) else {
            return None;
        };
        let positive = is_order && ledger.index(first) <= ledger.index(second);
        Some(Gain {
            literal: Literal { term, positive },
            reason: Reason::Numbers,
        })
    }

    /// Finds an equal term, or puts the term into the table.
    fn find_equal(&mut self, ledger: &Ledger<'_>, term: u32) -> Result<(), AllocError> {
        let hash = self.hash(ledger, term);
        let mut next = self.signatures.newest(hash);
        for _ in 0..u64::MAX {
            let Some((other, older)) = self.entry_at(next) else {
                self.signatures.push(term, hash)?;
                self.changes.push(Change::Signature)?;
                return Ok(());
            };
            if let Some(cause) = self.likeness(ledger, term, other) {
                return self.want(term, other, cause);
            }
            next = older;
        }
        Ok(())
    }

    /// The entry of the table with this number.
    fn entry_at(&self, number: Option<usize>) -> Option<(u32, Option<usize>)> {
        match number {
            Some(number) => self.signatures.entry(number),
            None => None,
        }
    }

    /// Notes that two terms are to be of one class.
    fn want(&mut self, left: u32, right: u32, cause: Cause) -> Result<(), AllocError> {
        if self.members.head(left) != self.members.head(right) {
            self.merges.push(Merge { left, right, cause })?;
        }
        Ok(())
    }

    /// A hash of a term's kind, index and the classes of its arguments; those of an equation in either order.
    fn hash(&self, ledger: &Ledger<'_>, term: u32) -> u64 {
        let kind = ledger.kind(term);
        let index = (ledger.index(term).unsigned_abs() % (1 << 64)) as u64;
        let start = mix(u64::from(kind as u8), index);
        if kind == Kind::Eq {
            let left = self.members.head(ledger.arg(term, 0));
            let right = self.members.head(ledger.arg(term, 1));
            return mix(
                mix(start, u64::from(left.min(right))),
                u64::from(left.max(right)),
            );
        }
        let mut hash = start;
        for arg in ledger.args(term) {
            hash = mix(hash, u64::from(self.members.head(*arg)));
        }
        hash
    }

    /// Why two terms are equal, where their kind, index and the classes of their arguments are the same.
    fn likeness(&self, ledger: &Ledger<'_>, term: u32, other: u32) -> Option<Cause> {
        let (Some(left), Some(right)) = (ledger.node(term), ledger.node(other)) else {
            return None;
        };
        if left.kind != right.kind || left.index != right.index {
            return None;
        }
        if self.have_equal(left.args.numbers(), right.args.numbers()) {
            return Some(Cause::Arguments(false));
        }
        if left.kind == Kind::Eq && self.are_crossed(left.args.numbers(), right.args.numbers()) {
            return Some(Cause::Arguments(true));
        }
        None
    }

    /// Whether arguments are of the same classes, place by place.
    fn have_equal(&self, left: &[u32], right: &[u32]) -> bool {
        if left.len() != right.len() {
            return false;
        }
        for (first, second) in left.iter().zip(right) {
            if self.members.head(*first) != self.members.head(*second) {
                return false;
            }
        }
        true
    }

    /// Whether the sides of two equations are of the same classes, each with the other of the other equation.
    fn are_crossed(&self, left: &[u32], right: &[u32]) -> bool {
        match (left, right) {
            ([first, second], [third, fourth]) => {
                self.members.head(*first) == self.members.head(*fourth)
                    && self.members.head(*second) == self.members.head(*third)
            }
            _ => false,
        }
    }

    /// Joins classes until nothing is left to be joined, or a class has two numbers.
    fn settle(&mut self, ledger: &Ledger<'_>, trail: &Trail) -> Result<Option<Clash>, AllocError> {
        for _ in 0..u64::MAX {
            let Some(merge) = self.merges.pop() else {
                return Ok(None);
            };
            let clash = self.join(ledger, trail, merge)?;
            if clash.is_some() {
                return Ok(clash);
            }
        }
        Ok(None)
    }

    /// Joins the classes of two terms. It answers two different numbers that come into one class.
    fn join(
        &mut self,
        ledger: &Ledger<'_>,
        trail: &Trail,
        merge: Merge,
    ) -> Result<Option<Clash>, AllocError> {
        let left = self.members.head(merge.left);
        let right = self.members.head(merge.right);
        if left == right {
            return Ok(None);
        }
        let union = if self.members.class(left).size <= self.members.class(right).size {
            Union {
                from: merge.left,
                to: merge.right,
                small: left,
                great: right,
            }
        } else {
            Union {
                from: merge.right,
                to: merge.left,
                small: right,
                great: left,
            }
        };
        self.unite(ledger, trail, union, merge.cause)
    }

    /// Puts the terms of the smaller class into the greater one.
    fn unite(
        &mut self,
        ledger: &Ledger<'_>,
        trail: &Trail,
        union: Union,
        cause: Cause,
    ) -> Result<Option<Clash>, AllocError> {
        let small = self.members.get(union.small).class;
        let great = self.members.get(union.great).class;
        self.pass_values(trail, union, small, great)?;
        self.changes.push(Change::Union(union, great))?;
        self.time = self.time.saturating_add(1);
        let link = Link {
            to: union.to,
            cause,
            time: self.time,
        };
        self.members.plant(union.from, link);
        self.members.rename(union.small, union.great);
        self.members.splice(union.small, union.great);
        self.continue_uses(great.last_use, small.first_use);
        self.members
            .put_class(union.great, union_class(small, great));
        if let (Some(left), Some(right)) = (small.number, great.number) {
            return Ok(Some(Clash { left, right }));
        }
        if small.number.is_some() {
            self.look_at_uses(ledger, trail, great.first_use, true)?;
        }
        self.look_at_uses(ledger, trail, small.first_use, false)?;
        Ok(None)
    }

    /// Gives the value that one of two classes has to the terms of the other.
    fn pass_values(
        &mut self,
        trail: &Trail,
        union: Union,
        small: Class,
        great: Class,
    ) -> Result<(), AllocError> {
        match (great.witness, small.witness) {
            (Some(witness), _) => self.pass_value(trail, witness, union.small),
            (None, Some(witness)) => self.pass_value(trail, witness, union.great),
            (None, None) => Ok(()),
        }
    }

    /// Gives the value of a term to all of a ring.
    fn pass_value(&mut self, trail: &Trail, witness: u32, start: u32) -> Result<(), AllocError> {
        let Some(positive) = trail.value(witness) else {
            return Ok(());
        };
        let mut term = start;
        for _ in 0..self.members.len() {
            let literal = Literal { term, positive };
            if !trail.is_true(literal) {
                self.gains.push(Gain {
                    literal,
                    reason: Reason::Member(witness),
                })?;
            }
            term = self.members.get(term).next;
            if term == start {
                return Ok(());
            }
        }
        Ok(())
    }

    /// Looks at all terms from a use on; at atoms alone where only a number is new.
    fn look_at_uses(
        &mut self,
        ledger: &Ledger<'_>,
        trail: &Trail,
        first: Option<usize>,
        atoms_alone: bool,
    ) -> Result<(), AllocError> {
        let mut next = first;
        for _ in 0..self.uses.len() {
            let Some(entry) = self.use_at(next) else {
                return Ok(());
            };
            next = entry.next;
            if atoms_alone {
                self.look_at_atom(ledger, trail, entry.term)?;
            } else {
                self.look_at(ledger, trail, entry.term)?;
            }
        }
        Ok(())
    }

    /// The use at a place.
    fn use_at(&self, place: Option<usize>) -> Option<Use> {
        match place {
            Some(place) => self.uses.get(place).copied(),
            None => None,
        }
    }

    /// Looks at the literals that became true, until there is something to be done about one, or a class has two
    /// numbers.
    pub fn propagate(
        &mut self,
        ledger: &Ledger<'_>,
        trail: &Trail,
    ) -> Result<Option<Clash>, AllocError> {
        let clash = self.settle(ledger, trail)?;
        if clash.is_some() {
            return Ok(clash);
        }
        for _ in 0..u64::MAX {
            let Some(literal) = self.next_literal(trail) else {
                return Ok(None);
            };
            self.note(ledger, trail, literal)?;
            let clash = self.settle(ledger, trail)?;
            if clash.is_some() {
                return Ok(clash);
            }
        }
        Ok(None)
    }

    /// The next literal that wasn't looked at, unless there are gains to be seen to.
    fn next_literal(&mut self, trail: &Trail) -> Option<Literal> {
        if !self.gains.is_empty() {
            return None;
        }
        let literal = trail.literal(self.cursor);
        if literal.is_some() {
            self.cursor = self.cursor.saturating_add(1);
        }
        literal
    }

    /// Notes that a literal is true.
    fn note(
        &mut self,
        ledger: &Ledger<'_>,
        trail: &Trail,
        literal: Literal,
    ) -> Result<(), AllocError> {
        let term = literal.term;
        let kind = ledger.kind(term);
        if is_connective(kind) || !self.is_entered(term) {
            return Ok(());
        }
        self.note_value(trail, literal)?;
        if kind == Kind::Eq && literal.positive {
            let left = ledger.arg(term, 0);
            let right = ledger.arg(term, 1);
            return self.want(left, right, Cause::Equation(term));
        }
        Ok(())
    }

    /// Passes the value of a term on to its class, or tells that the class has the other value.
    fn note_value(&mut self, trail: &Trail, literal: Literal) -> Result<(), AllocError> {
        let head = self.members.head(literal.term);
        let mut class = self.members.get(head).class;
        match class.witness {
            Some(witness) if trail.value(witness) != Some(literal.positive) => {
                self.gains.push(Gain {
                    literal: Literal {
                        term: literal.term,
                        positive: !literal.positive,
                    },
                    reason: Reason::Member(witness),
                })?;
                Ok(())
            }
            Some(_) => Ok(()),
            None => {
                self.changes.push(Change::Witness(head))?;
                class.witness = Some(literal.term);
                self.members.put_class(head, class);
                self.pass_value(trail, literal.term, literal.term)
            }
        }
    }

    /// The next literal that the classes give.
    pub fn next_gain(&mut self) -> Option<Gain> {
        self.gains.pop()
    }

    /// Whether all true literals were looked at, and nothing is left to be done.
    pub fn is_settled(&self, trail: &Trail) -> bool {
        self.gains.is_empty() && self.merges.is_empty() && self.cursor >= trail.len()
    }

    /// Takes back the union that brought two numbers into one class, once the clause behind it is made.
    pub fn part(&mut self) {
        if let Some(change) = self.changes.pop() {
            self.take_back(change);
        }
    }

    /// Takes back all changes but the first so many; so many literals are still true.
    pub fn undo_to(&mut self, changes: usize, literals: usize) {
        for _ in changes..self.changes.len() {
            if let Some(change) = self.changes.pop() {
                self.take_back(change);
            }
        }
        self.merges.clear();
        self.gains.clear();
        if self.cursor > literals {
            self.cursor = literals;
        }
    }

    /// Takes a change back, which is the last one.
    fn take_back(&mut self, change: Change) {
        match change {
            Change::Signature => self.signatures.pop(),
            Change::Witness(head) => {
                let mut class = self.members.get(head).class;
                class.witness = None;
                self.members.put_class(head, class);
            }
            Change::Union(union, great) => {
                self.members.cut(union.from, union.to);
                self.members.splice(union.small, union.great);
                self.members.rename(union.small, union.small);
                self.continue_uses(great.last_use, None);
                self.members.put_class(union.great, great);
            }
        }
    }
}

/// What is kept of two classes that are one.
fn union_class(small: Class, great: Class) -> Class {
    Class {
        size: small.size.saturating_add(great.size),
        number: great.number.or(small.number),
        witness: great.witness.or(small.witness),
        first_use: great.first_use.or(small.first_use),
        last_use: small.last_use.or(great.last_use),
    }
}
