//! The sorts of terms.

use std::alloc::{AllocError, Global};
use terms::sort::{Column, Columns, Sort, Sorts, sort_of};
use terms::term::{Args, Kind};

const INT: Sort = Sort::Int;

const REF: Sort = Sort::Ref;

const HEAP: Sort = Sort::Heap;

const BOOL: Sort = Sort::Bool;

fn sorts(alloc: Global, list: &[Sort]) -> Result<Sorts, AllocError> {
    Ok(Sorts::new(Vec::from_slice(alloc, list)?))
}

/// The columns of every program, mode, owner, count, owned set and claimed set, and a shape with one hole
/// of each sort.
const COLUMNS: &[(&[Sort], Sort)] = &[
    (&[REF], INT),
    (&[REF], REF),
    (&[REF], INT),
    (&[REF, REF], INT),
    (&[REF, REF], INT),
    (&[REF, INT, REF], INT),
];

/// The columns, and one formula with a thread and a heap free.
fn columns(alloc: Global) -> Result<Columns, AllocError> {
    let mut columns = Vec::new(alloc);
    for (keys, value) in COLUMNS {
        let keys = sorts(alloc, keys)?;
        columns.push(Column {
            keys,
            value: *value,
        })?;
    }
    let mut quantified = Vec::new(alloc);
    quantified.push(sorts(alloc, &[REF, HEAP])?)?;
    Ok(Columns {
        columns,
        quantified,
    })
}

type Row<'a> = (Kind, i128, &'a [Sort], Option<Sort>);

const NUMBERS_AND_REFERENCES: &[Row<'static>] = &[
    (Kind::Int, -7, &[], Some(INT)),
    (Kind::Int, 0, &[INT], None),
    (Kind::Ci, 99_999_999_999, &[], Some(INT)),
    (Kind::Ci, -1, &[], None),
    (Kind::Add, 0, &[INT, INT], Some(INT)),
    (Kind::Add, 1, &[INT, INT], None),
    (Kind::Sub, 0, &[INT, INT], Some(INT)),
    (Kind::Mul, 0, &[INT, REF], None),
    (Kind::Mul, 0, &[INT, INT], Some(INT)),
    (Kind::Div, 0, &[INT, INT], Some(INT)),
    (Kind::Mod, 0, &[INT, INT], Some(INT)),
    (Kind::Mod, 0, &[INT], None),
    (Kind::Typ, 0, &[REF], Some(INT)),
    (Kind::Ite, 0, &[BOOL, INT, INT], Some(INT)),
    (Kind::Ite, 0, &[BOOL, INT, REF], None),
    (Kind::Ite, 0, &[BOOL, REF, REF], Some(REF)),
    (Kind::Null, 0, &[], Some(REF)),
    (Kind::Me, 0, &[], Some(REF)),
    (Kind::Cr, 3, &[], Some(REF)),
    (Kind::Cex, 0, &[REF, HEAP], Some(REF)),
    (Kind::Cex, 1, &[REF, HEAP], None),
];

const HEAPS_AND_COLUMNS: &[Row<'static>] = &[
    (Kind::Get, 0, &[HEAP, REF], Some(INT)),
    (Kind::Get, 1, &[HEAP, REF], Some(REF)),
    (Kind::Get, 3, &[HEAP, REF, REF], Some(INT)),
    (Kind::Get, 3, &[HEAP, REF], None),
    (Kind::Get, 5, &[HEAP, REF, INT, REF], Some(INT)),
    (Kind::Get, 6, &[HEAP, REF], None),
    (Kind::Get, -1, &[HEAP, REF], None),
    (Kind::Ch, 0, &[], Some(HEAP)),
    (Kind::Set, 1, &[HEAP, REF, REF], Some(HEAP)),
    (Kind::Set, 1, &[HEAP, REF, INT], None),
    (Kind::Set, 1, &[], None),
    (Kind::Open, 0, &[HEAP, REF, REF], Some(HEAP)),
    (Kind::Close, 0, &[HEAP, REF, REF], Some(HEAP)),
    (Kind::Close, 0, &[REF, HEAP, REF], None),
    (Kind::Clear, 0, &[HEAP, REF], Some(HEAP)),
];

const TRUTH_VALUES: &[Row<'static>] = &[
    (Kind::True, 0, &[], Some(BOOL)),
    (Kind::Not, 0, &[BOOL], Some(BOOL)),
    (Kind::And, 0, &[BOOL, BOOL], Some(BOOL)),
    (Kind::Or, 0, &[BOOL, BOOL], Some(BOOL)),
    (Kind::Imp, 0, &[BOOL, INT], None),
    (Kind::Imp, 0, &[BOOL, BOOL], Some(BOOL)),
    (Kind::Eq, 0, &[HEAP, HEAP], Some(BOOL)),
    (Kind::Eq, 0, &[BOOL, BOOL], None),
    (Kind::Eq, 0, &[INT, REF], None),
    (Kind::Le, 0, &[INT, INT], Some(BOOL)),
    (Kind::All, 0, &[REF, HEAP], Some(BOOL)),
    (Kind::All, 0, &[REF], None),
    (Kind::Good, 0, &[HEAP], Some(BOOL)),
    (Kind::Sys, 0, &[HEAP], Some(BOOL)),
    (Kind::Inv, 0, &[REF, HEAP, HEAP], Some(BOOL)),
    (Kind::Legal, 0, &[HEAP, HEAP], Some(BOOL)),
    (Kind::Kept, 0, &[HEAP, HEAP], Some(BOOL)),
    (Kind::Touched, 0, &[REF, HEAP, HEAP], Some(BOOL)),
    (Kind::Rely, 0, &[REF, HEAP, HEAP], Some(BOOL)),
    (Kind::Frame, 0, &[REF, HEAP, HEAP, HEAP], Some(BOOL)),
    (Kind::Frame, 0, &[REF, HEAP, HEAP, HEAP, REF, INT], None),
    (Kind::Frame, 0, &[REF, HEAP, HEAP], None),
    (Kind::Stab, 0, &[REF, HEAP, REF, HEAP, REF, REF], Some(BOOL)),
    (Kind::Stab, 0, &[REF, HEAP, HEAP, HEAP], None),
    (Kind::Idle, 0, &[REF, HEAP], Some(BOOL)),
    (Kind::Idle, 0, &[REF, HEAP, HEAP], None),
];

const TABLES: &[(&str, &[Row<'static>])] = &[
    ("numbers and references", NUMBERS_AND_REFERENCES),
    ("heaps and columns", HEAPS_AND_COLUMNS),
    ("truth values", TRUTH_VALUES),
];

#[test]
fn sorts_of_terms(rt: HostRuntime) -> Result<(), AllocError> {
    let columns = columns(rt.alloc())?;
    for (name, rows) in TABLES {
        for (place, (kind, index, args, wanted)) in rows.iter().enumerate() {
            let is_met = sort_of(*kind, *index, args, &columns) == *wanted;
            assert!(rt; is_met, "{name}: row {place}");
        }
    }
    Ok(())
}

const ARGUMENTS: &[&[u32]] = &[&[], &[7], &[1, 2, 3, 4], &[1, 2, 3, 4, 5, 6]];

#[test]
fn arguments_are_kept(rt: HostRuntime) -> Result<(), AllocError> {
    for numbers in ARGUMENTS {
        let args = Args::new(rt.alloc(), numbers)?.copy()?;
        assert!(rt; args.numbers() == *numbers, "{numbers:?}");
    }
    Ok(())
}
