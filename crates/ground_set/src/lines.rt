//! The instances that a term brings.

use crate::ground::Ground;
use crate::reads::may_stand;
use crate::rows::{alone, at_member, at_read, at_reference, at_typed_read};
use crate::wants::Piece;
use search_clauses::ledger::Ledger;
use std::alloc::AllocError;
use terms::sort::Sort;
use terms::term::Kind;

/// The column of modes.
const MODES: i128 = 0;
/// The column of owned sets.
const OWNED: i128 = 3;
/// The column of claimed sets.
const CLAIMED: i128 = 4;
/// The least type of objects.
const OBJECTS: i128 = 2;

/// Whether two references are one, or are read by one column at the same keys, at whatever heaps.
fn are_alike(ledger: &Ledger<'_>, left: u32, right: u32) -> bool {
    if left == right {
        return true;
    }
    let are_reads = ledger.kind(left) == Kind::Get && ledger.kind(right) == Kind::Get;
    are_reads && ledger.index(left) == ledger.index(right) && have_same_keys(ledger, left, right)
}

/// Whether two reads have the same keys.
fn have_same_keys(ledger: &Ledger<'_>, left: u32, right: u32) -> bool {
    let count = ledger.args(left).len().max(ledger.args(right).len());
    for place in 1..count {
        if ledger.arg(left, place) != ledger.arg(right, place) {
            return false;
        }
    }
    true
}

impl Ground {
    /// Wants what a term brings.
    pub(crate) fn visit(&mut self, ledger: &Ledger<'_>, term: u32) -> Result<(), AllocError> {
        let kind = ledger.kind(term);
        self.wants
            .want_all(ledger, alone(kind), &[Piece::Guard(term)])?;
        match kind {
            Kind::Typ => self.visit_type(ledger, term),
            Kind::Get => self.visit_get(ledger, term),
            Kind::Inv => self.visit_invariant(ledger, term),
            Kind::Div | Kind::Mod => self.visit_quotient(ledger, term),
            Kind::Stab => self.visit_stab(ledger, term),
            Kind::Set => self.visit_set(ledger, term),
            Kind::Eq => self.visit_equation(ledger, term),
            Kind::Open | Kind::Close | Kind::Clear => {
                self.visit_reads(ledger, term, term)?;
                self.visit_reads(ledger, term, ledger.arg(term, 0))
            }
            Kind::All
            | Kind::Good
            | Kind::Sys
            | Kind::Idle
            | Kind::Rely
            | Kind::Legal
            | Kind::Kept
            | Kind::Touched => self.visit_heaps(ledger, term),
            Kind::Frame => {
                self.visit_reads(ledger, term, ledger.arg(term, 1))?;
                self.visit_reads(ledger, term, ledger.arg(term, 2))
            }
            _ => Ok(()),
        }
    }

    /// A type brings that its reference is NULL or not.
    fn visit_type(&mut self, ledger: &Ledger<'_>, term: u32) -> Result<(), AllocError> {
        let reference = ledger.arg(term, 0);
        if !may_stand(ledger, self.own, reference) {
            return Ok(());
        }
        self.wants
            .want_all(ledger, &[(3, 2), (3, 4)], &[Piece::Node(reference)])
    }

    /// A read brings what its column's values are, and the rules on maps at a heap with a value stored.
    fn visit_get(&mut self, ledger: &Ledger<'_>, term: u32) -> Result<(), AllocError> {
        let column = ledger.index(term);
        if ledger.kind(ledger.arg(term, 0)) == Kind::Set {
            self.note_map(term)?;
        }
        if column == MODES {
            return self.wants.want(ledger, (4, 1), &[Piece::Guard(term)]);
        }
        if column == OWNED || column == CLAIMED || column >= self.fields {
            return self.wants.want(ledger, (4, 2), &[Piece::Node(term)]);
        }
        Ok(())
    }

    /// A quotient or a remainder brings where it lies, by the sign of the divisor.
    fn visit_quotient(&mut self, ledger: &Ledger<'_>, term: u32) -> Result<(), AllocError> {
        self.wants.want_all(
            ledger,
            &[(24, 9), (24, 12), (24, 13)],
            &[
                Piece::Node(ledger.arg(term, 1)),
                Piece::Node(ledger.arg(term, 0)),
            ],
        )
    }

    /// An invariant brings what it says, by the types of its object.
    fn visit_invariant(&mut self, ledger: &Ledger<'_>, term: u32) -> Result<(), AllocError> {
        let object = ledger.arg(term, 0);
        let mut next = self.reads.first_type(object);
        for _ in 0..self.reads.len() {
            let Some(entry) = self.reads.type_at(next) else {
                return Ok(());
            };
            next = entry.next;
            if entry.number > OBJECTS {
                self.wants.want_all(
                    ledger,
                    &[(14, 1), (14, 2)],
                    &[
                        Piece::Node(ledger.arg(term, 1)),
                        Piece::Node(ledger.arg(term, 2)),
                        Piece::Node(object),
                        Piece::Plain(entry.number),
                    ],
                )?;
            }
        }
        Ok(())
    }

    /// A member of a stable set brings the reads of its heap.
    fn visit_stab(&mut self, ledger: &Ledger<'_>, term: u32) -> Result<(), AllocError> {
        self.wants.want(
            ledger,
            (22, 4),
            &[
                Piece::Node(ledger.arg(term, 1)),
                Piece::Node(ledger.arg(term, 0)),
                Piece::Node(ledger.arg(term, 2)),
                Piece::Node(ledger.arg(term, 3)),
                Piece::Writes(term),
            ],
        )?;
        self.visit_reads(ledger, term, ledger.arg(term, 1))
    }

    /// A changed heap brings its own value, and the reads of it and of the one before.
    fn visit_set(&mut self, ledger: &Ledger<'_>, term: u32) -> Result<(), AllocError> {
        self.note_twin(term, term)?;
        self.visit_twins(ledger, term, term)?;
        self.visit_twins(ledger, ledger.arg(term, 0), term)
    }

    /// Equal heaps bring each other's reads.
    fn visit_equation(&mut self, ledger: &Ledger<'_>, term: u32) -> Result<(), AllocError> {
        let left = ledger.arg(term, 0);
        let right = ledger.arg(term, 1);
        if ledger.sort(left) != Some(Sort::Heap) {
            return Ok(());
        }
        self.visit_twins(ledger, left, right)?;
        self.visit_twins(ledger, right, left)
    }

    /// Brings the reads of a heap at another.
    fn visit_twins(
        &mut self,
        ledger: &Ledger<'_>,
        heap: u32,
        other: u32,
    ) -> Result<(), AllocError> {
        let mut next = self.reads.first_read(heap);
        for _ in 0..self.reads.len() {
            let Some(read) = self.reads.read(next) else {
                return Ok(());
            };
            next = read.next;
            if ledger.arg(read.term, 0) != other {
                self.note_twin(read.term, other)?;
            }
        }
        Ok(())
    }

    /// Goes through the reads of each heap among the term's arguments.
    fn visit_heaps(&mut self, ledger: &Ledger<'_>, term: u32) -> Result<(), AllocError> {
        for place in 0..ledger.args(term).len() {
            let heap = ledger.arg(term, place);
            if ledger.sort(heap) == Some(Sort::Heap) {
                self.visit_reads(ledger, term, heap)?;
            }
        }
        Ok(())
    }

    /// Goes through the reads of a heap.
    fn visit_reads(
        &mut self,
        ledger: &Ledger<'_>,
        guard: u32,
        heap: u32,
    ) -> Result<(), AllocError> {
        let mut next = self.reads.first_read(heap);
        for _ in 0..self.reads.len() {
            let Some(read) = self.reads.read(next) else {
                return Ok(());
            };
            next = read.next;
            self.visit_keys(ledger, guard, read.term)?;
            self.visit_read(ledger, guard, read.term)?;
        }
        Ok(())
    }

    /// What a term brings with the references of a read.
    fn visit_keys(&mut self, ledger: &Ledger<'_>, guard: u32, read: u32) -> Result<(), AllocError> {
        let kind = ledger.kind(guard);
        for place in 1..ledger.args(read).len() {
            let key = ledger.arg(read, place);
            if ledger.sort(key) == Some(Sort::Ref) {
                self.wants.want_all(
                    ledger,
                    at_reference(kind),
                    &[Piece::Guard(guard), Piece::Node(key)],
                )?;
                if kind == Kind::Sys {
                    self.visit_typed_key(ledger, guard, key)?;
                }
            }
        }
        Ok(())
    }

    /// What a well-formed heap brings with a reference and its types.
    fn visit_typed_key(
        &mut self,
        ledger: &Ledger<'_>,
        guard: u32,
        key: u32,
    ) -> Result<(), AllocError> {
        let mut next = self.reads.first_type(key);
        for _ in 0..self.reads.len() {
            let Some(entry) = self.reads.type_at(next) else {
                return Ok(());
            };
            next = entry.next;
            if entry.number == 1 {
                self.wants
                    .want(ledger, (6, 3), &[Piece::Guard(guard), Piece::Node(key)])?;
            }
            if entry.number >= OBJECTS {
                self.wants.want(
                    ledger,
                    (11, 1),
                    &[
                        Piece::Guard(guard),
                        Piece::Node(key),
                        Piece::Plain(entry.number),
                    ],
                )?;
            }
        }
        Ok(())
    }

    /// What a term brings with a read.
    fn visit_read(&mut self, ledger: &Ledger<'_>, guard: u32, read: u32) -> Result<(), AllocError> {
        let kind = ledger.kind(guard);
        let column = ledger.index(read);
        let object = ledger.arg(read, 1);
        self.wants.want_all(
            ledger,
            at_read(kind, column, self.fields),
            &[
                Piece::Guard(guard),
                Piece::Node(object),
                Piece::Column(read),
            ],
        )?;
        match kind {
            Kind::Sys => self.visit_member(ledger, guard, read)?,
            Kind::Touched => self.visit_touched(ledger, guard, read)?,
            Kind::Clear if column == OWNED => self.visit_cleared(ledger, guard, read)?,
            Kind::Stab if column == CLAIMED => self.visit_stab_claim(ledger, guard, read)?,
            _ => {}
        }
        self.visit_typed_read(ledger, guard, read)
    }

    /// What a well-formed heap brings with a member of a set.
    fn visit_member(
        &mut self,
        ledger: &Ledger<'_>,
        guard: u32,
        read: u32,
    ) -> Result<(), AllocError> {
        self.wants.want_all(
            ledger,
            at_member(ledger.index(read)),
            &[
                Piece::Guard(guard),
                Piece::Node(ledger.arg(read, 1)),
                Piece::Node(ledger.arg(read, 2)),
            ],
        )
    }

    /// An object that isn't touched keeps its content.
    fn visit_touched(
        &mut self,
        ledger: &Ledger<'_>,
        guard: u32,
        read: u32,
    ) -> Result<(), AllocError> {
        if ledger.arg(read, 1) != ledger.arg(guard, 0) || ledger.index(read) < 2 {
            return Ok(());
        }
        self.wants.want(ledger, (23, 5), &[Piece::Guard(guard), Piece::Column(read)])
    }

    /// A cleared set has no members, and others keep theirs.
    fn visit_cleared(
        &mut self,
        ledger: &Ledger<'_>,
        guard: u32,
        read: u32,
    ) -> Result<(), AllocError> {
        let object = Piece::Node(ledger.arg(read, 1));
        let member = Piece::Node(ledger.arg(read, 2));
        self.wants
            .want(ledger, (24, 6), &[Piece::Guard(guard), member])?;
        self.wants.want(
            ledger,
            (24, 7),
            &[
                object,
                Piece::Node(ledger.arg(guard, 1)),
                Piece::Node(ledger.arg(guard, 0)),
                member,
            ],
        )
    }

    /// What a claim of the stable set claims is in it.
    fn visit_stab_claim(
        &mut self,
        ledger: &Ledger<'_>,
        guard: u32,
        read: u32,
    ) -> Result<(), AllocError> {
        let member = ledger.arg(guard, 2);
        if !are_alike(ledger, ledger.arg(read, 2), member) {
            return Ok(());
        }
        self.wants.want(
            ledger,
            (22, 2),
            &[
                Piece::Node(ledger.arg(guard, 1)),
                Piece::Node(ledger.arg(guard, 0)),
                Piece::Node(ledger.arg(read, 1)),
                Piece::Node(ledger.arg(guard, 3)),
                Piece::Writes(guard),
                Piece::Node(member),
            ],
        )
    }

    /// What a term brings with a read and the types of its object.
    fn visit_typed_read(
        &mut self,
        ledger: &Ledger<'_>,
        guard: u32,
        read: u32,
    ) -> Result<(), AllocError> {
        let mut next = self.reads.first_type(ledger.arg(read, 1));
        for _ in 0..self.reads.len() {
            let Some(entry) = self.reads.type_at(next) else {
                return Ok(());
            };
            next = entry.next;
            if entry.number >= OBJECTS {
                self.visit_typed(ledger, guard, read, entry.number)?;
            }
        }
        Ok(())
    }

    /// What a term brings with a read and a type of its object.
    fn visit_typed(
        &mut self,
        ledger: &Ledger<'_>,
        guard: u32,
        read: u32,
        number: i128,
    ) -> Result<(), AllocError> {
        let object = Piece::Node(ledger.arg(read, 1));
        let kind = ledger.kind(guard);
        self.wants.want_all(
            ledger,
            at_typed_read(kind),
            &[
                Piece::Guard(guard),
                object,
                Piece::Plain(number),
                Piece::Column(read),
            ],
        )?;
        match kind {
            Kind::Touched => self.wants.want(
                ledger,
                (27, 1),
                &[
                    Piece::Node(ledger.arg(guard, 1)),
                    Piece::Node(ledger.arg(guard, 2)),
                    Piece::Node(ledger.arg(guard, 0)),
                    object,
                    Piece::Plain(number),
                    Piece::Column(read),
                ],
            ),
            Kind::Stab if ledger.index(read) == OWNED => {
                self.visit_stab_owned(ledger, guard, read, number)
            }
            _ => Ok(()),
        }
    }

    /// What a member of the stable set owns is in it, where its set is fixed.
    fn visit_stab_owned(
        &mut self,
        ledger: &Ledger<'_>,
        guard: u32,
        read: u32,
        number: i128,
    ) -> Result<(), AllocError> {
        let member = ledger.arg(guard, 2);
        if !are_alike(ledger, ledger.arg(read, 2), member) {
            return Ok(());
        }
        self.wants.want(
            ledger,
            (22, 3),
            &[
                Piece::Node(ledger.arg(guard, 1)),
                Piece::Node(ledger.arg(guard, 0)),
                Piece::Node(ledger.arg(read, 1)),
                Piece::Node(ledger.arg(guard, 3)),
                Piece::Writes(guard),
                Piece::Node(member),
                Piece::Plain(number),
            ],
        )
    }
}
