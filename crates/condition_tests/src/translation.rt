//! Sources, each with the terms of its conditions. The expected texts were made by another program, written
//! from the grammar, the translation and the numbering of docs/LANGUAGE.md and docs/CONDITIONS.md alone; those of the two
//! sources whose certificates stand in tests/commands.rows and tests/certificates.rows by hand.

use crate::condition_lists::of_source;
use crate::rows::is;
use std::alloc::{AllocError, Global};
use std::fmt::Write;
use term_graph::graph::Graph;
use terms::term::Term;

/// A source, and its conditions' terms from 0 on, with a bar between two conditions.
const ROWS: &[(&str, &str)] = &[
    ("void main() {}", ""),
    (
        "void main() { _(assert 1 == 1) }",
        "Ch 0, Good 0, Int 1, Eq 2 2, Imp 1 3",
    ),
    (
        "void main() { _(assert 1 != 2) }",
        "Ch 0, Good 0, Int 1, Int 2, Eq 2 3, Not 4, Imp 1 5",
    ),
    (
        "void main() { _(assert !(1 == 2)) }",
        "Ch 0, Good 0, Int 1, Int 2, Eq 2 3, Not 4, Imp 1 5",
    ),
    (
        "void main() { _(assert !(1 != 2)) }",
        "Ch 0, Good 0, Int 1, Int 2, Eq 2 3, Not 4, Not 5, Imp 1 6",
    ),
    (
        "void main() { _(assert !(1 == 2 && 3 == 4)) }",
        "Ch 0, Good 0, Int 1, Int 2, Eq 2 3, Int 3, Int 4, Eq 5 6, And 4 7, Not 8, Imp 1 9",
    ),
    (
        "void main() { _(assert !(1 == 2 || 3 == 4)) }",
        "Ch 0, Good 0, Int 1, Int 2, Eq 2 3, Int 3, Int 4, Eq 5 6, Or 4 7, Not 8, Imp 1 9",
    ),
    (
        "void main() { _(assert !(!(1 == 2))) }",
        "Ch 0, Good 0, Int 1, Int 2, Eq 2 3, Not 4, Not 5, Imp 1 6",
    ),
    (
        "void main() { _(assert 1 == 2 && 3 == 4 && 5 == 6) }",
        "Ch 0, Good 0, Int 1, Int 2, Eq 2 3, Int 3, Int 4, Eq 5 6, And 4 7, Int 5, Int 6, Eq 9 10, And 8 11, Imp 1 12",
    ),
    (
        "void main() { _(assert 1 == 2 && (3 == 4 && 5 == 6)) }",
        "Ch 0, Good 0, Int 1, Int 2, Eq 2 3, Int 3, Int 4, Eq 5 6, Int 5, Int 6, Eq 8 9, And 7 10, And 4 11, Imp 1 12",
    ),
    (
        "void main() { _(assert 1 == 2 || 3 == 4 || 5 == 6) }",
        "Ch 0, Good 0, Int 1, Int 2, Eq 2 3, Int 3, Int 4, Eq 5 6, Or 4 7, Int 5, Int 6, Eq 9 10, Or 8 11, Imp 1 12",
    ),
    (
        "void main() { _(assert 1 == 2 || (3 == 4 || 5 == 6)) }",
        "Ch 0, Good 0, Int 1, Int 2, Eq 2 3, Int 3, Int 4, Eq 5 6, Int 5, Int 6, Eq 8 9, Or 7 10, Or 4 11, Imp 1 12",
    ),
    (
        "void main() { _(assert 1 == 2 || 3 == 4 && 5 == 6) }",
        "Ch 0, Good 0, Int 1, Int 2, Eq 2 3, Int 3, Int 4, Eq 5 6, Int 5, Int 6, Eq 8 9, And 7 10, Or 4 11, Imp 1 12",
    ),
    (
        "void main() { _(assert (1 == 2 || 3 == 4) && 5 == 6) }",
        "Ch 0, Good 0, Int 1, Int 2, Eq 2 3, Int 3, Int 4, Eq 5 6, Or 4 7, Int 5, Int 6, Eq 9 10, And 8 11, Imp 1 12",
    ),
    (
        "void main() { _(assert 0 == 2147483647) }",
        "Ch 0, Good 0, Int 0, Int 2147483647, Eq 2 3, Imp 1 4",
    ),
    (
        "void main() { _(assert 0 == 2147483648) }",
        "Ch 0, Good 0, Int 0, Int 2147483648, Eq 2 3, Imp 1 4",
    ),
    (
        "void main() { _(assert 1 == 1) _(assert 1 == 1) }",
        "Ch 0, Good 0, Int 1, Eq 2 2, Imp 1 3 | Ch 0, Good 0, Int 1, Eq 2 2, And 1 3, Imp 4 3",
    ),
    (
        "void main(int x) { _(assert x == x) }",
        "Ch 0, Good 0, Int -2147483648, Ci 0, Le 2 3, Int 2147483647, Le 3 5, And 4 6, And 1 7, Eq 3 3, Imp 8 9",
    ),
    (
        "void main(int x, int y) { _(assert y == x) }",
        "Ch 0, Good 0, Int -2147483648, Ci 0, Le 2 3, Int 2147483647, Le 3 5, Ci 1, Le 2 7, Le 7 5, And 8 9, And 6 10, And 4 11, And 1 12, Eq 7 3, Imp 13 14",
    ),
    (
        "void main(int x) _(requires x == 1) _(requires x != 2) { _(assert x == 1) }",
        "Ch 0, Good 0, Int -2147483648, Ci 0, Le 2 3, Int 2147483647, Le 3 5, Int 1, Eq 3 7, Int 2, Eq 3 9, Not 10, And 8 11, And 6 12, And 4 13, And 1 14, Imp 15 8",
    ),
    (
        "void main(int x) _(requires x == 1 && x != 2) { _(assert x == 1) }",
        "Ch 0, Good 0, Int -2147483648, Ci 0, Le 2 3, Int 2147483647, Le 3 5, Int 1, Eq 3 7, Int 2, Eq 3 9, Not 10, And 8 11, And 6 12, And 4 13, And 1 14, Imp 15 8",
    ),
    (
        "void main(int x) _(requires x == 1 || x == 2) { _(assert x == 1) }",
        "Ch 0, Good 0, Int -2147483648, Ci 0, Le 2 3, Int 2147483647, Le 3 5, Int 1, Eq 3 7, Int 2, Eq 3 9, Or 8 10, And 6 11, And 4 12, And 1 13, Imp 14 8",
    ),
    (
        "void main(int x) _(requires !(x == 1)) { _(assert x != 1) }",
        "Ch 0, Good 0, Int -2147483648, Ci 0, Le 2 3, Int 2147483647, Le 3 5, Int 1, Eq 3 7, Not 8, And 6 9, And 4 10, And 1 11, Imp 12 9",
    ),
    (
        "void main(int x) { if (x == 1) { _(assert x == 1) } }",
        "Ch 0, Good 0, Int -2147483648, Ci 0, Le 2 3, Int 2147483647, Le 3 5, Int 1, Eq 3 7, And 6 8, And 4 9, And 1 10, Imp 11 8",
    ),
    (
        "void main(int x) { if (x == 1) {} else { _(assert x != 1) } }",
        "Ch 0, Good 0, Int -2147483648, Ci 0, Le 2 3, Int 2147483647, Le 3 5, Int 1, Eq 3 7, Not 8, And 6 9, And 4 10, And 1 11, Imp 12 9",
    ),
    (
        "void main(int x) { if (x == 1) { _(assert x == 1) } else { _(assert x != 1) } _(assert x == x) }",
        "Ch 0, Good 0, Int -2147483648, Ci 0, Le 2 3, Int 2147483647, Le 3 5, Int 1, Eq 3 7, And 6 8, And 4 9, And 1 10, Imp 11 8 | Ch 0, Good 0, Int -2147483648, Ci 0, Le 2 3, Int 2147483647, Le 3 5, Int 1, Eq 3 7, Not 8, And 6 9, And 4 10, And 1 11, Imp 12 9 | Ch 0, Good 0, Int -2147483648, Ci 0, Le 2 3, Int 2147483647, Le 3 5, Int 1, Eq 3 7, And 8 8, Not 8, And 10 10, Or 9 11, And 6 12, And 4 13, And 1 14, Eq 3 3, Imp 15 16",
    ),
    (
        "void main() { if (1 == 2) {} _(assert 3 == 4) }",
        "Ch 0, Good 0, Int 1, Int 2, Eq 2 3, Not 4, Or 4 5, And 1 6, Int 3, Int 4, Eq 8 9, Imp 7 10",
    ),
    (
        "void main() { if (1 == 2) { _(assert 3 == 4) _(assert 5 == 6) } else { _(assert 7 == 8) _(assert 9 == 0) } _(assert 1 == 2) }",
        "Ch 0, Good 0, Int 1, Int 2, Eq 2 3, And 1 4, Int 3, Int 4, Eq 6 7, Imp 5 8 | Ch 0, Good 0, Int 1, Int 2, Eq 2 3, Int 3, Int 4, Eq 5 6, And 4 7, And 1 8, Int 5, Int 6, Eq 10 11, Imp 9 12 | Ch 0, Good 0, Int 1, Int 2, Eq 2 3, Not 4, And 1 5, Int 7, Int 8, Eq 7 8, Imp 6 9 | Ch 0, Good 0, Int 1, Int 2, Eq 2 3, Not 4, Int 7, Int 8, Eq 6 7, And 5 8, And 1 9, Int 9, Int 0, Eq 11 12, Imp 10 13 | Ch 0, Good 0, Int 1, Int 2, Eq 2 3, Int 3, Int 4, Eq 5 6, Int 5, Int 6, Eq 8 9, And 7 10, And 4 11, Not 4, Int 7, Int 8, Eq 14 15, Int 9, Int 0, Eq 17 18, And 16 19, And 13 20, Or 12 21, And 1 22, Imp 23 4",
    ),
    (
        "void main() { if (1 == 2) { if (3 == 4) { if (5 == 6) { _(assert 7 == 8) } } } _(assert 9 == 0) }",
        "Ch 0, Good 0, Int 1, Int 2, Eq 2 3, Int 3, Int 4, Eq 5 6, Int 5, Int 6, Eq 8 9, And 7 10, And 4 11, And 1 12, Int 7, Int 8, Eq 14 15, Imp 13 16 | Ch 0, Good 0, Int 1, Int 2, Eq 2 3, Int 3, Int 4, Eq 5 6, Int 5, Int 6, Eq 8 9, Int 7, Int 8, Eq 11 12, And 10 13, Not 10, Or 14 15, And 7 16, Not 7, Or 17 18, And 4 19, Not 4, Or 20 21, And 1 22, Int 9, Int 0, Eq 24 25, Imp 23 26",
    ),
    (
        "void main() { if (1 == 2) { if (3 == 4) { _(assert 5 == 6) } else { _(assert 7 == 8) } } _(assert 9 == 0) }",
        "Ch 0, Good 0, Int 1, Int 2, Eq 2 3, Int 3, Int 4, Eq 5 6, And 4 7, And 1 8, Int 5, Int 6, Eq 10 11, Imp 9 12 | Ch 0, Good 0, Int 1, Int 2, Eq 2 3, Int 3, Int 4, Eq 5 6, Not 7, And 4 8, And 1 9, Int 7, Int 8, Eq 11 12, Imp 10 13 | Ch 0, Good 0, Int 1, Int 2, Eq 2 3, Int 3, Int 4, Eq 5 6, Int 5, Int 6, Eq 8 9, And 7 10, Not 7, Int 7, Int 8, Eq 13 14, And 12 15, Or 11 16, And 4 17, Not 4, Or 18 19, And 1 20, Int 9, Int 0, Eq 22 23, Imp 21 24",
    ),
    (
        "void main() { if (1 == 2) { if (3 == 4) { _(assert 5 == 6) } } else { _(assert 7 == 8) } _(assert 9 == 0) }",
        "Ch 0, Good 0, Int 1, Int 2, Eq 2 3, Int 3, Int 4, Eq 5 6, And 4 7, And 1 8, Int 5, Int 6, Eq 10 11, Imp 9 12 | Ch 0, Good 0, Int 1, Int 2, Eq 2 3, Not 4, And 1 5, Int 7, Int 8, Eq 7 8, Imp 6 9 | Ch 0, Good 0, Int 1, Int 2, Eq 2 3, Int 3, Int 4, Eq 5 6, Int 5, Int 6, Eq 8 9, And 7 10, Not 7, Or 11 12, And 4 13, Not 4, Int 7, Int 8, Eq 16 17, And 15 18, Or 14 19, And 1 20, Int 9, Int 0, Eq 22 23, Imp 21 24",
    ),
    (
        "void main() { if (1 != 2) { _(assert 1 != 2) } else { _(assert 1 == 2) } }",
        "Ch 0, Good 0, Int 1, Int 2, Eq 2 3, Not 4, And 1 5, Imp 6 5 | Ch 0, Good 0, Int 1, Int 2, Eq 2 3, Not 4, Not 5, And 1 6, Imp 7 4",
    ),
    (
        "void main(int x) _(requires x == 1) { if (x == 1) { _(assert x == 1) } _(assert x == 1) }",
        "Ch 0, Good 0, Int -2147483648, Ci 0, Le 2 3, Int 2147483647, Le 3 5, Int 1, Eq 3 7, And 8 8, And 6 9, And 4 10, And 1 11, Imp 12 8 | Ch 0, Good 0, Int -2147483648, Ci 0, Le 2 3, Int 2147483647, Le 3 5, Int 1, Eq 3 7, And 8 8, Not 8, Or 9 10, And 8 11, And 6 12, And 4 13, And 1 14, Imp 15 8",
    ),
    ("void main()\t{}", ""),
    ("void main() { // nothing\n}", ""),
    (
        "void main() { _(assert 1 < 2) }",
        "Ch 0, Good 0, Int 2, Int 1, Le 2 3, Not 4, Imp 1 5",
    ),
    ("void main(int x) { x = 1; }", ""),
    (
        "void main(int x) _(requires x < 5) { _(assert x < 6) }",
        "Ch 0, Good 0, Int -2147483648, Ci 0, Le 2 3, Int 2147483647, Le 3 5, Int 5, Le 7 3, Not 8, And 6 9, And 4 10, And 1 11, Int 6, Le 13 3, Not 14, Imp 12 15",
    ),
    (
        "void main(int x) _(requires x == 5) { _(assert x == 5) }",
        "Ch 0, Good 0, Int -2147483648, Ci 0, Le 2 3, Int 2147483647, Le 3 5, Int 5, Eq 3 7, And 6 8, And 4 9, And 1 10, Imp 11 8",
    ),
];

/// A term's kind, its index where it has no arguments, and its arguments.
fn show_term(out: &mut String, term: &Term) -> Result<(), AllocError> {
    write!(out, "{:?}", term.kind)?;
    let args = term.args.numbers();
    if args.is_empty() {
        write!(out, " {}", term.index)?;
    }
    for number in args {
        write!(out, " {number}")?;
    }
    Ok(())
}

fn show_condition(out: &mut String, terms: &Graph) -> Result<(), AllocError> {
    for id in 0..terms.len() {
        if id > 0 {
            out.push_str(", ")?;
        }
        show_term(out, terms.node(id as u32))?;
    }
    Ok(())
}

fn shown(alloc: Global, source: &str) -> Result<String, AllocError> {
    let mut out = String::new(alloc);
    for terms in &of_source(alloc, source)? {
        if !out.is_empty() {
            out.push_str(" | ")?;
        }
        show_condition(&mut out, terms)?;
    }
    Ok(out)
}

#[test]
fn conditions_of_sources(rt: HostRuntime) {
    for (source, want) in ROWS {
        let got = shown(rt.alloc(), source).expect(&rt, "memory for conditions");
        is(&rt, &(*source, got.as_str()), &(*source, *want));
    }
}
