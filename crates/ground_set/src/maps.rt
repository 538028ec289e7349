//! Reads of heaps with a value stored, by the rules on maps.

use crate::ground::Ground;
use cert_format::certificate::RuleName;
use search_clauses::ledger::Ledger;
use search_clauses::literals::yes;
use search_clauses::steps::{Inference, Number};
use std::alloc::AllocError;
use terms::term::{Kind, Literal};

impl Ground {
    /// Adds what the rules on maps say of a read at a heap with a value stored.
    pub(crate) fn map(&mut self, ledger: &mut Ledger<'_>, read: u32) -> Result<(), AllocError> {
        let heap = ledger.arg(read, 0);
        let is_column = ledger.index(read) == ledger.index(heap);
        if is_column && has_keys(ledger, read, heap) {
            let value = last_arg(ledger, heap);
            let equation = ledger.equation(read, value)?;
            return self.add_row(
                ledger,
                &[Number::Plain(1), Number::Node(equation)],
                &[yes(equation)],
            );
        }
        let older = ledger.arg(heap, 0);
        let before = read_at(ledger, read, older)?;
        let equation = ledger.equation(read, before)?;
        if !is_column {
            return self.add_row(
                ledger,
                &[Number::Plain(3), Number::Node(equation)],
                &[yes(equation)],
            );
        }
        self.map_keys(ledger, read, heap, equation)
    }

    /// Where a key differs, the read is that of the heap before.
    fn map_keys(
        &mut self,
        ledger: &mut Ledger<'_>,
        read: u32,
        heap: u32,
        equation: u32,
    ) -> Result<(), AllocError> {
        for place in 1..ledger.args(read).len() {
            let own = ledger.arg(heap, place);
            let key = ledger.arg(read, place);
            if own != key {
                let same = ledger.equation(own, key)?;
                self.add_row(
                    ledger,
                    &[
                        Number::Plain(2),
                        Number::Plain(place as i128),
                        Number::Node(equation),
                        Number::Node(same),
                    ],
                    &[yes(same), yes(equation)],
                )?;
            }
        }
        Ok(())
    }

    /// Adds a row of the rules on maps, with its terms.
    fn add_row(
        &mut self,
        ledger: &mut Ledger<'_>,
        numbers: &[Number],
        literals: &[Literal],
    ) -> Result<(), AllocError> {
        for literal in literals {
            self.see(ledger, literal.term)?;
        }
        self.inferences.push(Inference {
            rule: RuleName::Map,
            numbers: Vec::from_slice(ledger.alloc, numbers)?,
            literals: Vec::from_slice(ledger.alloc, literals)?,
        })?;
        Ok(())
    }
}

/// The value that is stored.
fn last_arg(ledger: &Ledger<'_>, heap: u32) -> u32 {
    let count = ledger.args(heap).len();
    ledger.arg(heap, count.saturating_sub(1))
}

/// Whether the read has the very keys at which the value is stored.
fn has_keys(ledger: &Ledger<'_>, read: u32, heap: u32) -> bool {
    for place in 1..ledger.args(read).len() {
        if ledger.arg(read, place) != ledger.arg(heap, place) {
            return false;
        }
    }
    true
}

/// The read of a term's column and keys at a heap; the term reads them, or stores a value there.
pub(crate) fn read_at(ledger: &mut Ledger<'_>, term: u32, heap: u32) -> Result<u32, AllocError> {
    let mut args = Vec::new(ledger.alloc);
    args.push(heap)?;
    let count = ledger.args(term).len();
    let end = match ledger.kind(term) {
        Kind::Set => count.saturating_sub(1),
        _ => count,
    };
    for place in 1..end {
        args.push(ledger.arg(term, place))?;
    }
    let column = ledger.index(term);
    ledger.add(Kind::Get, column, args.as_slice())
}
