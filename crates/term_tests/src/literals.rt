//! Terms that are read as numbers.

use std::alloc::{AllocError, Global};
use term_bank::bank::Bank;
use terms::term::{Args, Kind, Term};

/// The number that a term without arguments is, as the only one of a bank.
fn value_of(alloc: Global, kind: Kind, index: i128) -> Result<Option<i128>, AllocError> {
    let args = Args::new(alloc, &[])?;
    let node = Term { kind, index, args };
    let mut bank = Bank::new(alloc);
    match bank.intern(&node) {
        Ok(id) => Ok(bank.literal(id)),
        Err(_) => Err(AllocError),
    }
}

const ROWS: &[(Kind, i128, Option<i128>)] = &[
    (Kind::Int, 5, Some(5)),
    (Kind::Int, -7, Some(-7)),
    (Kind::Ci, 5, None),
    (Kind::True, 0, None),
];

#[test]
fn numbers_are_read(rt: HostRuntime) -> Result<(), AllocError> {
    for (place, (kind, index, wanted)) in ROWS.iter().enumerate() {
        assert!(rt;
            value_of(rt.alloc(), *kind, *index)? == *wanted,
            "row {place}"
        );
    }
    Ok(())
}
