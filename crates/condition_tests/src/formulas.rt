//! Facts and checks of small sources, as trees. Each was worked out by hand from docs/CONDITIONS.md.

use crate::condition_lists::Part::{self, Check, Facts};
use crate::condition_lists::{of_source, part_of};
use crate::rows::is;
use std::alloc::Global;
use std::process::Abort;

/// The number of a condition, counted from 0 over the whole source, a part of it, and that part's text.
type Row<'a> = (usize, Part, &'a str);

/// Sources with parts of their conditions.
type Table = &'static [(&'static str, &'static [Row<'static>])];

/// Where others act before an item, and what heap its checks speak of.
const HEAPS: Table = &[
    (
        "struct A { int x; }; void main(struct A *p) { _(assert \\fresh(p)) }",
        &[
            (
                0,
                Facts(0),
                "(Good(h0) & (((r0 = Null) | (Typ(r0) = 3)) & Rely(Me, h0, h1)))",
            ),
            (0, Check, "Not((get1(h0, r0) = Me))"),
        ],
    ),
    (
        "struct A { int x; }; void main(struct A *p) { _(assert \\old(p->x) == 1) }",
        &[
            (0, Facts(2), "Rely(Me, h0, h1)"),
            (0, Check, "(get5(h0, r0) = 1)"),
        ],
    ),
    (
        "struct A { int x; }; void f(struct A *p) _(ensures p->x == 1) { } void main() { }",
        &[
            (0, Facts(2), "Rely(Me, h0, h1)"),
            (0, Check, "(get5(h1, r0) = 1)"),
        ],
    ),
    (
        "int f() _(ensures \\result == 1) { return 1; } void main() { }",
        &[(0, Facts(0), "Good(h0)"), (0, Check, "(1 = 1)")],
    ),
    (
        "struct A { int x; }; int f(struct A *p) { return p->x; } void main() { }",
        &[
            (0, Facts(2), "Rely(Me, h0, h1)"),
            (
                0,
                Check,
                "(((get0(h1, r0) = 1) & (get1(h1, r0) = Me)) | Stab(Me, h1, r0, h1))",
            ),
        ],
    ),
    (
        "void main(int n) { while (n < 5) _(invariant n <= 5) _(invariant 0 <= n) { n = n + 1; } }",
        &[
            (0, Check, "(i0 <= 5)"),
            (1, Facts(3), "(i0 <= 5)"),
            (1, Check, "(0 <= i0)"),
            (
                2,
                Facts(4),
                "((0 <= i0) & ((-2147483648 <= i1) & ((i1 <= 2147483647) & (Frame(Me, h0, h1, h0) & ((i1 <= 5) & ((0 <= i1) & Not((5 <= i1))))))))",
            ),
            (
                2,
                Check,
                "((-2147483648 <= (i1 + 1)) & ((i1 + 1) <= 2147483647))",
            ),
            (3, Check, "((i1 + 1) <= 5)"),
            (4, Check, "(0 <= (i1 + 1))"),
        ],
    ),
    (
        "struct A { int x; }; void main(struct A *p) _(requires \\mutable(p)) { while (p->x < 5) _(invariant \\true) { } }",
        &[
            (
                0,
                Facts(2),
                "(((get0(h0, r0) = 1) & (get1(h0, r0) = Me)) & Rely(Me, h0, h1))",
            ),
            (0, Check, "True"),
            (
                1,
                Facts(3),
                "(Rely(Me, h0, h1) & (True & (Frame(Me, h1, h2, h0) & True)))",
            ),
            (
                1,
                Check,
                "(((get0(h2, r0) = 1) & (get1(h2, r0) = Me)) | Stab(Me, h2, r0, h2))",
            ),
        ],
    ),
    (
        "struct A { struct A *q; int v; }; void main(struct A *p) _(writes p) _(requires \\mutable(p)) { p->q = malloc(sizeof(struct A)); }",
        &[
            (
                0,
                Facts(3),
                "(Rely(Me, h0, h1) & (((r2 = Null) | (Typ(r2) = 3)) & ((-2147483648 <= i0) & ((i0 <= 2147483647) & (((r1 = Null) & (h2 = h1)) | ((Typ(r1) = 3) & ((get0(h1, r1) = 0) & (h2 = set6(set5(set1(set0(h1, r1, 1), r1, Me), r1, r2), r1, i0)))))))))",
            ),
            (0, Check, "((get0(h2, r0) = 1) & (get1(h2, r0) = Me))"),
            (1, Check, "((r0 = r0) | Not((get1(h0, r0) = Me)))"),
        ],
    ),
    (
        "int g() { return 1; } struct A { int v; }; void main(struct A *p) _(writes p) { p->v = g(); }",
        &[
            (
                0,
                Facts(2),
                "(Rely(Me, h0, h1) & (Frame(Me, h1, h2, h1) & ((-2147483648 <= i0) & (i0 <= 2147483647))))",
            ),
            (0, Check, "((get0(h2, r0) = 1) & (get1(h2, r0) = Me))"),
        ],
    ),
    (
        "struct A { _(ghost \\claim c;) }; _(claimable) struct Q { int x; }; void main(struct A *p, struct Q *q) _(writes p, q) { _(ghost p->c = \\make_claim({q}, q->x == 1);) }",
        &[
            (
                0,
                Check,
                "((Typ(r1) = 4) & ((get0(h1, r1) = 2) & ((get1(h1, r1) = Me) & ((r1 = r0) | ((r1 = r1) | Not((get1(h0, r1) = Me)))))))",
            ),
            (
                2,
                Check,
                "(get6(set5(set2(h2, r1, (get2(h2, r1) + 1)), r0, r2), r1) = 1)",
            ),
            (
                3,
                Check,
                "Inv(r1, h1, set5(set2(h2, r1, (get2(h2, r1) + 1)), r0, r2))",
            ),
            (
                4,
                Check,
                "((get0(set2(h2, r1, (get2(h2, r1) + 1)), r0) = 1) & (get1(set2(h2, r1, (get2(h2, r1) + 1)), r0) = Me))",
            ),
            (
                5,
                Check,
                "((r0 = r0) | ((r0 = r1) | Not((get1(h0, r0) = Me))))",
            ),
        ],
    ),
];

/// What is known behind a branch, a loop, a return, a call, a wrap, the end of a claim, and behind reads that others don't disturb.
const FACTS: Table = &[
    (
        "void main(int x, int y) { if (x == 1) { y = 2; x = 3; } else { x = 4; } _(assert y == x) }",
        &[
            (
                0,
                Facts(5),
                "(((i0 = 1) & ((i2 = 3) & (i3 = 2))) | (Not((i0 = 1)) & ((i2 = 4) & (i3 = i1))))",
            ),
            (0, Check, "(i3 = i2)"),
        ],
    ),
    (
        "void main(int x, int y) { if (y == 1) { x = x + 1; y = x; } _(assert x == y) }",
        &[
            (0, Facts(5), "(i1 = 1)"),
            (
                0,
                Check,
                "((-2147483648 <= (i0 + 1)) & ((i0 + 1) <= 2147483647))",
            ),
            (
                1,
                Facts(5),
                "(((i1 = 1) & (((-2147483648 <= (i0 + 1)) & ((i0 + 1) <= 2147483647)) & ((i2 = (i0 + 1)) & (i3 = (i0 + 1))))) | (Not((i1 = 1)) & ((i2 = i0) & (i3 = i1))))",
            ),
        ],
    ),
    (
        "void main(int x) { if (x == 1) { x = 3; return; } _(assert x == 2) }",
        &[
            (0, Facts(3), "(Not(True) | (Not((i0 = 1)) & (i1 = i0)))"),
            (0, Check, "(i1 = 2)"),
        ],
    ),
    (
        "void main(int x) { if (x == 1) { return; } x = 2; _(assert x == 2) }",
        &[
            (0, Facts(3), "(Not(True) | Not((i0 = 1)))"),
            (0, Check, "(2 = 2)"),
        ],
    ),
    (
        "void main(int x) { if (x == 1) { return; } else { return; } _(assert x == 2) }",
        &[
            (0, Facts(3), "(Not(True) | Not(True))"),
            (0, Check, "(i0 = 2)"),
        ],
    ),
    (
        "void main(int x, int y) { if (y == 1) { if (x == 1) { return; } else { return; } } _(assert x == 2) }",
        &[(0, Facts(5), "(Not(True) | Not((i1 = 1)))")],
    ),
    (
        "void main(int x) { if (x == 1) { int z = 5; x = z; } _(assert x == 2) }",
        &[
            (
                0,
                Facts(3),
                "(((i0 = 1) & (i1 = 5)) | (Not((i0 = 1)) & (i1 = i0)))",
            ),
            (0, Check, "(i1 = 2)"),
        ],
    ),
    (
        "void main(int a, int x) { if (a) x = 5; else x = 5; _(assert x == 5) }",
        &[
            (0, Facts(5), "(Not((i0 = 0)) | Not(Not((i0 = 0))))"),
            (0, Check, "(5 = 5)"),
        ],
    ),
    (
        "int g() _(ensures \\result == 1) { return 1; } void main(int x) { g(); _(assert x == 1) }",
        &[
            (
                1,
                Facts(3),
                "(Rely(Me, h0, h1) & (Frame(Me, h1, h2, h1) & ((-2147483648 <= i1) & ((i1 <= 2147483647) & (i1 = 1)))))",
            ),
            (1, Check, "(i0 = 1)"),
        ],
    ),
    (
        "struct B { int v; }; struct A { struct B *p; struct B *q; _(invariant \\mine(p, q)) _(invariant \\mine(p)) }; void main(struct A *a) _(writes a) { _(wrap a) }",
        &[
            (2, Check, "((get0(h1, r0) = 1) & (get1(h1, r0) = Me))"),
            (
                4,
                Check,
                "all0(set3(set3(set3(Clear(h1, r0), r0, get6(h1, r0), 1), r0, get7(h1, r0), 1), r0, get6(h1, r0), 1), r0, h1, Me, r0, h0)",
            ),
            (
                5,
                Check,
                "Inv(r0, h1, Close(set3(set3(set3(Clear(h1, r0), r0, get6(h1, r0), 1), r0, get7(h1, r0), 1), r0, get6(h1, r0), 1), r0, Me))",
            ),
        ],
    ),
    (
        "_(claimable) struct A { int x; }; void main(struct A *p, struct A *q _(ghost \\claim c)) _(writes c) { _(ghost \\destroy_claim(c, {p, q});) }",
        &[
            (
                0,
                Check,
                "(((get0(h1, r2) = 2) & (get1(h1, r2) = Me)) & (((r2 = r2) | Not((get1(h0, r2) = Me))) & ((Typ(r2) = 2) & ((get4(h1, r2, r0) = 1) & ((get4(h1, r2, r1) = 1) & (all0(h1, r2, r0, r1) & Not((r1 = r0))))))))",
            ),
            (
                1,
                Check,
                "((get1(h1, r0) = Me) & ((r0 = r2) | Not((get1(h0, r0) = Me))))",
            ),
            (
                3,
                Check,
                "Inv(r0, h1, set2(set2(set1(set0(h1, r2, 3), r2, Null), r0, (get2(set1(set0(h1, r2, 3), r2, Null), r0) - 1)), r1, (get2(set2(set1(set0(h1, r2, 3), r2, Null), r0, (get2(set1(set0(h1, r2, 3), r2, Null), r0) - 1)), r1) - 1)))",
            ),
            (
                4,
                Check,
                "Inv(r1, h1, set2(set2(set1(set0(h1, r2, 3), r2, Null), r0, (get2(set1(set0(h1, r2, 3), r2, Null), r0) - 1)), r1, (get2(set2(set1(set0(h1, r2, 3), r2, Null), r0, (get2(set1(set0(h1, r2, 3), r2, Null), r0) - 1)), r1) - 1)))",
            ),
        ],
    ),
    (
        "struct A { int x; }; void main() { struct A *p = malloc(sizeof(struct A)); int s = 0; if (p != NULL) { s = p->x; s = p->x; } }",
        &[
            (
                1,
                Facts(0),
                "(Good(h0) & (Rely(Me, h0, h1) & ((-2147483648 <= i0) & ((i0 <= 2147483647) & ((((r0 = Null) & (h2 = h1)) | ((Typ(r0) = 3) & ((get0(h1, r0) = 0) & (h2 = set5(set1(set0(h1, r0, 1), r0, Me), r0, i0))))) & (Not((r0 = Null)) & (Good(h2) & ((((get0(h2, r0) = 1) & (get1(h2, r0) = Me)) | Stab(Me, h2, r0, h2)) & Good(h2)))))))))",
            ),
            (
                1,
                Check,
                "(((get0(h2, r0) = 1) & (get1(h2, r0) = Me)) | Stab(Me, h2, r0, h2))",
            ),
        ],
    ),
];

/// Checks in atomic blocks, of approved fields, of conversions, of what is reached by tests alone, and of claims.
const CHECKS: Table = &[
    (
        "struct A { volatile int n; }; void main(struct A *p, struct A *q) _(writes p, q) { _(atomic q, p) { p->n = 1; } }",
        &[
            (0, Check, "(get0(h1, r1) = 2)"),
            (
                2,
                Check,
                "(((get0(h1, r0) = 1) & (get1(h1, r0) = Me)) | ((r0 = r1) | (r0 = r0)))",
            ),
            (
                3,
                Check,
                "(((r0 = r0) | ((r0 = r1) | Not((get1(h0, r0) = Me)))) | ((r0 = r1) | (r0 = r0)))",
            ),
            (4, Check, "Inv(r1, h1, set5(h1, r0, 1))"),
        ],
    ),
    (
        "struct F { volatile int a; _(invariant \\approves(\\this->\\owner, a)) }; void main(struct F *p, struct F *q) _(writes p) { _(atomic q, p) { p->a = 1; } }",
        &[
            (
                4,
                Check,
                "(((get0(h1, r0) = 1) & (get1(h1, r0) = Me)) | (((r0 = r1) | (r0 = r0)) & (((get1(h1, r0) = Me) & ((r0 = r0) | Not((get1(h0, r0) = Me)))) | ((get1(h1, r0) = r1) | (get1(h1, r0) = r0)))))",
            ),
            (
                5,
                Check,
                "(((r0 = r0) | Not((get1(h0, r0) = Me))) | ((r0 = r1) | (r0 = r0)))",
            ),
        ],
    ),
    (
        "void main(unsigned u) { u++; }",
        &[
            (0, Check, "((0 <= 1) & (1 <= 4294967295))"),
            (1, Check, "((0 <= (i0 + 1)) & ((i0 + 1) <= 4294967295))"),
        ],
    ),
    (
        "void main(int a, int b, int c) { if (a == 1 && (b == 2 && c / a == 3)) { } }",
        &[
            (0, Check, "((i0 = 1) -> ((i1 = 2) -> Not((i0 = 0))))"),
            (
                1,
                Check,
                "((i0 = 1) -> ((i1 = 2) -> ((-2147483648 <= (i2 / i0)) & ((i2 / i0) <= 2147483647))))",
            ),
        ],
    ),
    (
        "void main(int a, int b, int c) { if (a == 1 && b == 2 && c / a == 3) { } }",
        &[(0, Check, "(((i0 = 1) & (i1 = 2)) -> Not((i0 = 0)))")],
    ),
    (
        "void main(int a, int c) { if (a == 1 || c / a == 3) { } }",
        &[(0, Check, "(Not((i0 = 1)) -> Not((i0 = 0)))")],
    ),
    (
        "void main(int a, int c) { c = a == 1 ? 2 / a : c / a; }",
        &[
            (0, Check, "((i0 = 1) -> Not((i0 = 0)))"),
            (2, Check, "(Not((i0 = 1)) -> Not((i0 = 0)))"),
        ],
    ),
    (
        "_(claimable) struct A { volatile int n; }; void main(struct A *p, int x, int y _(ghost \\claim c)) _(writes p) { _(atomic p) { _(ghost if (x) if (y) c = \\make_claim({p}, \\true);) } }",
        &[
            (
                1,
                Facts(8),
                "((get0(h1, r0) = 2) & (Not((i0 = 0)) & Not((i1 = 0))))",
            ),
            (
                1,
                Check,
                "((Typ(r0) = 3) & ((get0(h1, r0) = 2) & (((get1(h1, r0) = Me) & ((r0 = r0) | Not((get1(h0, r0) = Me)))) | (get1(h1, r0) = r0))))",
            ),
            (3, Check, "Inv(r0, h1, h4)"),
            (
                4,
                Check,
                "(Not((i0 = 0)) -> (Not((i1 = 0)) -> Inv(r0, h1, h4)))",
            ),
            (
                5,
                Check,
                "(Not((i0 = 0)) -> (Not((i1 = 0)) -> ((get0(h4, r2) = 2) -> True)))",
            ),
        ],
    ),
    (
        "_(claimable) struct A { volatile int n; }; struct B { int x; }; _(claimable) struct C { volatile int m; }; void main(struct A *p, struct C *q _(ghost \\claim c)) { _(atomic p, q) { _(ghost c = \\make_claim({p, q}, \\true);) } }",
        &[(
            3,
            Check,
            "(((Typ(r1) = 3) | (Typ(r1) = 5)) & ((get0(h1, r1) = 2) & (Not((r1 = r0)) & (((get1(h1, r1) = Me) & Not((get1(h0, r1) = Me))) | ((get1(h1, r1) = r0) | (get1(h1, r1) = r1))))))",
        )],
    ),
    (
        "struct A { int x; }; void main(_(ghost \\object o) _(ghost \\claim c)) { _(ghost c = \\make_claim({o}, \\true);) }",
        &[(
            0,
            Check,
            "(Not(True) & ((get0(h1, r0) = 2) & ((get1(h1, r0) = Me) & Not((get1(h0, r0) = Me)))))",
        )],
    ),
    (
        "_(claimable) struct A { volatile int n; struct A *b; }; void main(int k, struct A *p, int j _(ghost \\claim c)) { _(ghost c = \\make_claim({p->b, p, NULL}, p->n >= j);) }",
        &[
            (
                4,
                Facts(0),
                "(Good(h0) & (Legal(h0, h1) & ((Typ(r0) = 2) & ((get0(h0, r0) = 2) & ((get0(h1, r0) = 2) & (Not(Touched(r0, h0, h1)) & (((r1 = Null) | (Typ(r1) = 3)) & ((-2147483648 <= i0) & ((i0 <= 2147483647) & (((r2 = Null) | (Typ(r2) = 3)) & ((get4(h0, r0, r2) = 1) & ((get4(h0, r0, r1) = 1) & ((r3 = Null) & ((get4(h0, r0, r3) = 1) & (i0 <= get5(h0, r1))))))))))))))))",
            ),
            (4, Check, "(i0 <= get5(h1, r1))"),
        ],
    ),
];

/// The words of annotations.
const WORDS: Table = &[
    (
        "struct A { int x; }; void main(struct A *p) { _(assert \\wrapped0(p)) }",
        &[(
            0,
            Check,
            "((get0(h1, r0) = 2) & ((get1(h1, r0) = Me) & (get2(h1, r0) = 0)))",
        )],
    ),
    (
        "_(dynamic_owns) struct A { int x; }; void main(struct A *p, struct A *q) { _(assert q \\in p->\\owns) }",
        &[(0, Check, "(get3(h1, r0, r1) = 1)")],
    ),
    (
        "_(claimable) struct A { int x; }; void main(struct A *p, int k _(ghost \\claim c)) { _(assert \\claims(c, p->\\closed && p->x == k)) }",
        &[(
            0,
            Check,
            "((get4(h1, r1, r0) = 1) & (get6(h1, r1, r0, i0) = 1))",
        )],
    ),
    (
        "void main(int x) { x = 5; _(assert \\unchanged(x)) }",
        &[(0, Check, "(i0 = 5)")],
    ),
    (
        "void main(int x) { x = 5; _(assert \\unchanged(x < 3)) }",
        &[(
            0,
            Check,
            "(Ite(Not((3 <= i0)), 1, 0) = Ite(Not((3 <= 5)), 1, 0))",
        )],
    ),
    (
        "void main(int a, int b) { int v = a < b; if (v) { _(assert a == 1) } }",
        &[(0, Facts(5), "Not((i1 <= i0))")],
    ),
    (
        "void main(int c, int a, int b, int d) { if (c ? a < b : d) { _(assert a == 1) } }",
        &[(
            0,
            Facts(9),
            "Not((Ite(Not((i0 = 0)), Ite(Not((i2 <= i1)), 1, 0), i3) = 0))",
        )],
    ),
    (
        "void main(int a, int b) { _(assert (a < b) == (b < 7)) }",
        &[(
            0,
            Check,
            "(Ite(Not((i1 <= i0)), 1, 0) = Ite(Not((7 <= i1)), 1, 0))",
        )],
    ),
    (
        "void main(int x) { _(assert x == -5) }",
        &[(0, Check, "(i0 = (0 - 5))")],
    ),
    (
        "void main(int a, int b) { _(assert a > b && a >= b && a != b) }",
        &[(
            0,
            Check,
            "((Not((i0 <= i1)) & (i1 <= i0)) & Not((i0 = i1)))",
        )],
    ),
    (
        "void main(int a, int b) { _(assert a <==> b) }",
        &[(
            0,
            Check,
            "((Not((i0 = 0)) -> Not((i1 = 0))) & (Not((i1 = 0)) -> Not((i0 = 0))))",
        )],
    ),
    (
        "_(dynamic_owns) struct A { int x; }; void main(struct A *p) { _(assert \\forall struct A *q; q \\in p->\\owns ==> q == p && q == \\old(p)) }",
        &[(0, Check, "all0(h1, r0, r0)")],
    ),
    (
        "_(dynamic_owns) struct A { int x; }; void main(struct A *p) { _(assert \\forall struct A *q; q \\in p->\\owns ==> q->x == \\old(q->x)) }",
        &[(0, Check, "all0(h1, r0, h0)")],
    ),
    (
        "_(dynamic_owns) struct A { int x; }; void main(struct A *p) { _(assert \\exists struct A *q; q \\in p->\\owns && q == p) }",
        &[(0, Check, "Not(all0(h1, r0))")],
    ),
    (
        "_(dynamic_owns) struct A { int x; }; void main(struct A *p) { _(assert \\forall struct A *q; q \\in p->\\owns ==> \\forall struct A *r; r \\in q->\\owns ==> r->x == p->x) }",
        &[(0, Check, "all0(h1, r0)")],
    ),
    (
        "_(dynamic_owns) struct A { int x; }; void g(struct A *p) _(requires \\forall struct A *q; q \\in p->\\owns ==> q != NULL) { _(assert \\true) } void main(struct A *p) { g(p); }",
        &[(0, Facts(2), "all0(h0, r0)"), (1, Check, "all0(h1, r0)")],
    ),
];

/// Each source of the table has these parts.
fn hold(rt: &impl Abort, alloc: Global, table: Table) {
    for entry in table {
        let (source, rows) = *entry;
        let conditions = of_source(alloc, source).expect(rt, "memory for conditions");
        for row in rows {
            let (number, part, want) = row;
            let got = part_of(alloc, &conditions, *number, part).expect(rt, "memory for a text");
            is(rt, &(source, got.as_str()), &(source, *want));
        }
    }
}

#[test]
fn tables(rt: HostRuntime) {
    hold(&rt, rt.alloc(), HEAPS);
    hold(&rt, rt.alloc(), FACTS);
    hold(&rt, rt.alloc(), CHECKS);
    hold(&rt, rt.alloc(), WORDS);
}
