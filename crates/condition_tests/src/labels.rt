//! The labels of small sources. Each was worked out by hand, from the order in which an item's checks are evaluated.

use crate::programs::program_of;
use crate::rows::is;
use check_labels::labels::{ProgramLabel, program_labels};
use check_labels::names::item_name;
use method::program::Program;
use std::alloc::{AllocError, Global};
use std::fmt::Write;
use std::process::Abort;
use test_sources::ATOMIC;

/// A source, and its labels in order.
const ROWS: &[(&str, &str)] = &[
    (
        "struct P { int a; int b; _(invariant a <= b) };\nvoid set(struct P *p) _(writes p) _(requires \\wrapped(p)) _(ensures \\wrapped(p)) { _(unwrap p) p->a = 1; p->b = 2; _(wrap p) }\nvoid main() {}",
        "P/1 Reflexive line 1, P/2 Stable line 1, set/1 Unwrap line 2, set/2 Writes line 2, set/3 Claimed line 2, set/4 Write line 2, set/5 Writes line 2, set/6 Write line 2, set/7 Writes line 2, set/8 Wrap line 2, set/9 Writes line 2, set/10 Wrap line 2, set/11 Invariant line 2, set/12 Ensures line 2",
    ),
    (
        ATOMIC,
        "Ctr/1 Reflexive line 1, Ctr/2 Stable line 1, f/1 AtomicClosed line 2, f/2 AtomicClosed line 2, f/3 Invariant line 2, f/4 Invariant line 2",
    ),
    (
        "void f() _(ensures 1 == 1) {\nreturn; }\nvoid main() {}",
        "f/1 Ensures line 2, f/2 Ensures line 2",
    ),
    (
        "int f() _(ensures 1 == 1) {\nreturn 1;\n}\nvoid main() {}",
        "f/1 Ensures line 2",
    ),
    (
        "void main(int x, int a, unsigned b) { x = a + 1 / b; }",
        "main/1 Range line 1, main/2 Range line 1, main/3 Divide line 1, main/4 Range line 1, main/5 Range line 1, main/6 Range line 1",
    ),
    (
        "void main(int n) {\nwhile (n != 0)\n_(invariant n >= 0)\n_(invariant n <= 9) {\nn = 1 / n;\n}\n}",
        "main/1 LoopInv line 2, main/2 LoopInv line 2, main/3 Divide line 5, main/4 Range line 5, main/5 LoopInv line 2, main/6 LoopInv line 2",
    ),
    (
        "struct A { volatile int n; };\nvoid g(int x)\n_(requires x == 1)\n_(ensures x == 1)\n{\n}\nvoid main(struct A *p) {\ng(\n1);\ndo\n_(invariant 1) {\n_(atomic p) {\np->n\n= 1; }\n} while (p\n!= NULL);\n}",
        "g/1 Ensures line 6, main/1 Requires line 8, main/2 LoopInv line 10, main/3 AtomicClosed line 12, main/4 Write line 13, main/5 Writes line 13, main/6 Invariant line 12, main/7 LoopInv line 10",
    ),
    (
        "struct G { volatile int v; struct G *p; };\nvoid main(struct G *g) { g->p->v += 1; }",
        "main/1 Read line 2, main/2 Read line 2, main/3 Read line 2, main/4 Range line 2, main/5 Write line 2, main/6 Writes line 2",
    ),
    (
        "struct P { volatile int n; };\nvoid main(struct P *q, struct P *p, struct P *r) { _(unwrapping q) { q->n = 1; } }",
        "main/1 Unwrap line 2, main/2 Writes line 2, main/3 Claimed line 2, main/4 Write line 2, main/5 Writes line 2, main/6 Wrap line 2, main/7 Writes line 2, main/8 Wrap line 2, main/9 Invariant line 2",
    ),
];

fn push_label(out: &mut String, program: &Program, label: &ProgramLabel) -> Result<(), AllocError> {
    for byte in item_name(program, label.item) {
        out.push(char::from(*byte))?;
    }
    write!(
        out,
        "/{} {:?} line {}",
        label.ordinal, label.kind, label.line
    )
}

fn labels(alloc: Global, program: &Program) -> Result<String, AllocError> {
    let mut out = String::new(alloc);
    for label in &program_labels(alloc, program)? {
        if !out.is_empty() {
            out.push_str(", ")?;
        }
        push_label(&mut out, program, label)?;
    }
    Ok(out)
}

/// The labels of the source are these.
fn has_labels(rt: &impl Abort, alloc: Global, source: &str, want: &str) {
    let text = match program_of(alloc, source) {
        Some(program) => labels(alloc, &program),
        None => String::from_str(alloc, "no program"),
    };
    let got = text.expect(rt, "memory for labels");
    is(rt, &(source, got.as_str()), &(source, want));
}

#[test]
fn labels_of_sources(rt: HostRuntime) {
    for (source, want) in ROWS {
        has_labels(&rt, rt.alloc(), source, want);
    }
}
