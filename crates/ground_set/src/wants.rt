//! Instances that are wanted, each once.

use crate::rows::Row;
use search_classes::signatures::{Signatures, mix};
use search_clauses::ledger::Ledger;
use search_clauses::steps::Number;
use std::alloc::{AllocError, Global};
use terms::term::Kind;

/// An instance that is wanted: the axiom's number and part, and where its numbers stand.
#[derive(Clone, Copy)]
pub struct Want {
    row: Row,
    start: usize,
    end: usize,
}

impl Want {
    /// The number of the axiom.
    pub fn axiom(self) -> i128 {
        i128::from(self.row.0)
    }

    /// The number of its part.
    pub fn part(self) -> i128 {
        i128::from(self.row.1)
    }
}

/// A piece of an instance's numbers.
#[derive(Clone, Copy)]
pub enum Piece {
    /// a term
    Node(u32),
    /// a number that names no term
    Plain(i128),
    /// what the term gives that brings the instance
    Guard(u32),
    /// how many objects a frame or a stable set leaves out, and these
    Writes(u32),
    /// the column of a read, and its keys behind the first
    Column(u32),
}

/// Instances that are wanted.
#[derive(Drop)]
pub struct Wants {
    wants: Vec<Want>,
    numbers: Vec<Number>,
    table: Signatures,
}

/// A number for each number, for hashing.
fn code_of(number: Number) -> u64 {
    match number {
        Number::Node(id) => u64::from(id),
        Number::Step(step) => u64::from(step),
        Number::Plain(plain) => ((plain.unsigned_abs() % (1 << 63)) as u64).wrapping_add(1 << 63),
    }
}

/// Whether two numbers are of one form and equal.
fn is_same(left: Number, right: Number) -> bool {
    match (left, right) {
        (Number::Node(first), Number::Node(second)) => first == second,
        (Number::Plain(first), Number::Plain(second)) => first == second,
        _ => false,
    }
}

/// Whether numbers are the same, place by place.
fn are_same(left: &[Number], right: &[Number]) -> bool {
    if left.len() != right.len() {
        return false;
    }
    for (first, second) in left.iter().zip(right) {
        if !is_same(*first, *second) {
            return false;
        }
    }
    true
}

impl Wants {
    /// None.
    pub fn new(alloc: Global) -> Wants {
        Wants {
            wants: Vec::new(alloc),
            numbers: Vec::new(alloc),
            table: Signatures::new(alloc),
        }
    }

    /// How many there are.
    pub fn len(&self) -> usize {
        self.wants.len()
    }

    /// The one with this number.
    pub fn get(&self, number: usize) -> Option<Want> {
        self.wants.get(number).copied()
    }

    /// The numbers of an instance.
    pub fn numbers(&self, want: Want) -> &[Number] {
        self.numbers.get(want.start..want.end).unwrap_or(&[])
    }

    /// Wants an instance of each of these parts.
    pub fn want_all(
        &mut self,
        ledger: &Ledger<'_>,
        rows: &[Row],
        pieces: &[Piece],
    ) -> Result<(), AllocError> {
        for row in rows {
            self.want(ledger, *row, pieces)?;
        }
        Ok(())
    }

    /// Wants an instance.
    pub fn want(
        &mut self,
        ledger: &Ledger<'_>,
        row: Row,
        pieces: &[Piece],
    ) -> Result<(), AllocError> {
        let start = self.numbers.len();
        for piece in pieces {
            self.put(ledger, *piece)?;
        }
        let want = Want {
            row,
            start,
            end: self.numbers.len(),
        };
        let hash = self.hash(want);
        if self.is_there(want, hash) {
            self.numbers.truncate(start);
            return Ok(());
        }
        let Ok(number) = u32::try_from(self.wants.len()) else {
            return Err(AllocError);
        };
        self.wants.push(want)?;
        self.table.push(number, hash)
    }

    /// A hash of an instance's row and numbers.
    fn hash(&self, want: Want) -> u64 {
        let mut hash = mix(u64::from(want.row.0), u64::from(want.row.1));
        for number in self.numbers(want) {
            hash = mix(hash, code_of(*number));
        }
        hash
    }

    /// Whether the same instance was wanted before.
    fn is_there(&self, want: Want, hash: u64) -> bool {
        let mut next = self.table.newest(hash);
        for _ in 0..self.wants.len() {
            let Some(number) = next else {
                return false;
            };
            let Some((other, older)) = self.table.entry(number) else {
                return false;
            };
            if self.is_equal(want, other) {
                return true;
            }
            next = older;
        }
        false
    }

    /// Whether an instance is the one with this number.
    fn is_equal(&self, want: Want, number: u32) -> bool {
        let Some(other) = self.get(number as usize) else {
            return false;
        };
        want.row.0 == other.row.0
            && want.row.1 == other.row.1
            && are_same(self.numbers(want), self.numbers(other))
    }

    /// Appends the numbers that a piece stands for.
    fn put(&mut self, ledger: &Ledger<'_>, piece: Piece) -> Result<(), AllocError> {
        match piece {
            Piece::Node(id) => self.put_number(Number::Node(id)),
            Piece::Plain(number) => self.put_number(Number::Plain(number)),
            Piece::Guard(id) => self.put_guard(ledger, id),
            Piece::Writes(id) => self.put_writes(ledger, id),
            Piece::Column(id) => self.put_column(ledger, id),
        }
    }

    /// Appends a number.
    fn put_number(&mut self, number: Number) -> Result<(), AllocError> {
        self.numbers.push(number)?;
        Ok(())
    }

    /// What a term gives: itself, where it changes a heap; else its arguments, behind the number of a quantified
    /// formula.
    fn put_guard(&mut self, ledger: &Ledger<'_>, id: u32) -> Result<(), AllocError> {
        match ledger.kind(id) {
            Kind::Open | Kind::Close => self.put_number(Number::Node(id)),
            Kind::Frame | Kind::Stab => {
                for place in 0..4 {
                    self.put_number(Number::Node(ledger.arg(id, place)))?;
                }
                self.put_writes(ledger, id)
            }
            Kind::All => {
                self.put_number(Number::Plain(ledger.index(id)))?;
                self.put_args(ledger, id, 0)
            }
            _ => self.put_args(ledger, id, 0),
        }
    }

    /// Appends a term's arguments from a place on.
    fn put_args(&mut self, ledger: &Ledger<'_>, id: u32, from: usize) -> Result<(), AllocError> {
        for arg in ledger.args(id).get(from..).unwrap_or(&[]) {
            self.put_number(Number::Node(*arg))?;
        }
        Ok(())
    }

    /// Appends the number of objects that a term leaves out, and these.
    fn put_writes(&mut self, ledger: &Ledger<'_>, id: u32) -> Result<(), AllocError> {
        let count = ledger.args(id).len().saturating_sub(4);
        self.put_number(Number::Plain(count as i128))?;
        self.put_args(ledger, id, 4)
    }

    /// Appends a read's column, and its keys behind the first.
    fn put_column(&mut self, ledger: &Ledger<'_>, id: u32) -> Result<(), AllocError> {
        self.put_number(Number::Plain(ledger.index(id)))?;
        self.put_args(ledger, id, 2)
    }
}
