//! Expressions and annotations at the front of texts.

use crate::answers::Answer::{self, Following, TooDeep, Unexpected, UnknownForm};
use crate::answers::{Told, answers};
use annot_syntax::Place::{Argument, Contract, Ghost, Loop, Member, Parameter, Statement, Struct};
use annot_syntax::{Place, is_annotation, read_annotation, read_expression};
use c_source::fault::SourceFault;
use std::alloc::Global;
use std::process::Abort;
use vcc_lexer::tokens;

/// A text, the token from which on it is read, how many levels stand around it, where it stands if it is an annotation, and the
/// place behind it, or the fault.
type Row = (&'static str, usize, u32, Option<Place>, Answer);

/// Expressions.
const EXPRESSIONS: &[Row] = &[
    ("a + b * c;", 0, 0, None, Following(5)),
    ("x = a + b;", 2, 0, None, Following(5)),
    ("x = a + b;", 4, 0, None, Following(5)),
    ("a ? b ? c : d : e }", 0, 0, None, Following(9)),
    ("!-a == (b) && c = d", 0, 0, None, Following(9)),
    ("f(x)", 0, 0, None, Following(1)),
    ("a->b.c", 0, 0, None, Following(3)),
    ("a ==> b", 0, 0, None, Following(1)),
    ("", 0, 0, None, Unexpected(1)),
    ("a + ;", 0, 0, None, Unexpected(5)),
    ("(a ==> b)", 0, 0, None, Unexpected(4)),
    ("a", 0, 199, None, Following(1)),
    ("a + b", 0, 199, None, TooDeep(3)),
    ("(a)", 0, 199, None, TooDeep(1)),
    ("(a)", 0, 198, None, Following(3)),
    ("((a))", 0, 198, None, TooDeep(2)),
    ("a", 0, 200, None, TooDeep(1)),
    ("-", 0, 200, None, TooDeep(1)),
    (";", 0, 200, None, Unexpected(1)),
];

/// Each form of an annotation in its places.
const ANNOTATIONS: &[Row] = &[
    (
        "_(claimable) _(dynamic_owns)",
        0,
        0,
        Some(Struct),
        Following(3),
    ),
    (
        "_(volatile_owns, claimable)",
        0,
        0,
        Some(Struct),
        Following(5),
    ),
    ("_(invariant a == b) }", 0, 0, Some(Member), Following(6)),
    (
        "_(ghost volatile \\claim c;)",
        0,
        0,
        Some(Member),
        Following(7),
    ),
    ("_(ghost struct T *p))", 0, 0, Some(Parameter), Following(7)),
    ("_(requires a > 0) {", 0, 0, Some(Contract), Following(6)),
    (
        "_(ensures \\result == 1)",
        0,
        0,
        Some(Contract),
        Following(6),
    ),
    ("_(maintains a)", 0, 0, Some(Contract), Following(4)),
    (
        "_(writes p, \\span(q), \\extent(r))",
        0,
        0,
        Some(Contract),
        Following(14),
    ),
    ("_(assert a ==> b) x", 0, 0, Some(Statement), Following(6)),
    (
        "_(ghost { int x; x = 1; })",
        0,
        0,
        Some(Statement),
        Following(12),
    ),
    ("_(ghost _(wrap p);)", 0, 0, Some(Statement), Following(8)),
    ("x = 1; _(wrap p)", 4, 0, Some(Statement), Following(8)),
    ("_(unwrap p)", 0, 0, Some(Statement), Following(4)),
    ("_(unwrapping p) { }", 0, 0, Some(Statement), Following(4)),
    ("_(atomic p, q) {", 0, 0, Some(Statement), Following(6)),
    (
        "_(invariant a < b) _(invariant c)",
        0,
        0,
        Some(Loop),
        Following(6),
    ),
    ("_(assert a)", 0, 0, Some(Loop), Following(4)),
    ("_(ghost x = 1)", 0, 0, Some(Loop), Following(6)),
    ("_(wrap p)", 0, 0, Some(Loop), Following(4)),
    ("_(unwrap p)", 0, 0, Some(Loop), Following(4)),
    ("_(unwrapping p) {", 0, 0, Some(Loop), Following(4)),
    ("_(atomic p)", 0, 0, Some(Loop), Following(4)),
    ("f(a _(ghost c))", 3, 0, Some(Argument), Following(7)),
    ("_(ghost a + b) )", 0, 0, Some(Argument), Following(6)),
    ("_(wrap p);", 0, 0, Some(Ghost), Following(4)),
    ("_(unwrap p->q)", 0, 0, Some(Ghost), Following(6)),
];

/// Annotations with levels around them.
const WITHIN: &[Row] = &[
    ("_(claimable)", 0, 200, Some(Struct), Following(3)),
    ("_(foo)", 0, 200, Some(Struct), UnknownForm(3)),
    ("_(ghost int x)", 0, 199, Some(Member), Following(5)),
    ("_(ghost int x)", 0, 200, Some(Member), TooDeep(1)),
    ("_(invariant a)", 0, 198, Some(Member), Following(4)),
    ("_(invariant a)", 0, 199, Some(Member), TooDeep(3)),
    (
        "_(invariant \\approves(\\this->\\owner, a))",
        0,
        196,
        Some(Member),
        Following(11),
    ),
    (
        "_(invariant \\approves(\\this->\\owner, a))",
        0,
        197,
        Some(Member),
        TooDeep(13),
    ),
    ("_(ghost int x)", 0, 199, Some(Parameter), Following(5)),
    ("_(ghost int x)", 0, 200, Some(Parameter), TooDeep(1)),
    ("_(requires a)", 0, 198, Some(Contract), Following(4)),
    ("_(requires a)", 0, 199, Some(Contract), TooDeep(1)),
    ("_(writes \\span(p))", 0, 197, Some(Contract), Following(7)),
    ("_(writes \\span(p))", 0, 198, Some(Contract), TooDeep(10)),
    ("_(assert a)", 0, 198, Some(Statement), Following(4)),
    ("_(assert a)", 0, 199, Some(Statement), TooDeep(1)),
    ("_(foo)", 0, 200, Some(Statement), TooDeep(1)),
    ("_(assert a + b)", 0, 197, Some(Statement), Following(6)),
    ("_(assert a + b)", 0, 198, Some(Statement), TooDeep(12)),
    ("_(assert (a))", 0, 198, Some(Statement), TooDeep(10)),
    ("_(ghost { })", 0, 198, Some(Statement), Following(5)),
    ("_(ghost x = 1)", 0, 197, Some(Statement), Following(6)),
    ("_(ghost x = 1)", 0, 198, Some(Statement), TooDeep(9)),
    ("_(invariant a)", 0, 198, Some(Loop), Following(4)),
    ("_(invariant a)", 0, 199, Some(Loop), TooDeep(1)),
    ("_(ghost c)", 0, 198, Some(Argument), Following(4)),
    ("_(ghost c)", 0, 199, Some(Argument), TooDeep(1)),
    ("_(wrap p)", 0, 198, Some(Ghost), Following(4)),
    ("_(wrap p->q)", 0, 198, Some(Ghost), TooDeep(9)),
];

/// Forms in wrong places, and words that are forms nowhere.
const REFUSED: &[Row] = &[
    ("_(claimable, foo)", 0, 0, Some(Struct), Unexpected(14)),
    ("_()", 0, 0, Some(Struct), Unexpected(3)),
    ("_(invariant a)", 0, 0, Some(Struct), Unexpected(3)),
    ("_(claimable)", 0, 0, Some(Member), Unexpected(3)),
    ("_(ghost x = 1)", 0, 0, Some(Member), Unexpected(9)),
    ("_(invariant a)", 0, 0, Some(Parameter), Unexpected(3)),
    ("_(ghost int x;)", 0, 0, Some(Parameter), Unexpected(14)),
    (
        "_(ghost volatile int x)",
        0,
        0,
        Some(Parameter),
        Unexpected(9),
    ),
    ("_(assert a)", 0, 0, Some(Contract), Unexpected(3)),
    ("_(invariant a)", 0, 0, Some(Statement), Unexpected(3)),
    ("_(_(wrap p))", 0, 0, Some(Statement), Unexpected(3)),
    (
        "_(ghost _(assert p))",
        0,
        0,
        Some(Statement),
        Unexpected(11),
    ),
    ("_(ensures a)", 0, 0, Some(Loop), Unexpected(3)),
    ("_(wrap p)", 0, 0, Some(Argument), Unexpected(3)),
    ("_(ghost int x)", 0, 0, Some(Argument), Unexpected(9)),
    ("_(ghost x = 1)", 0, 0, Some(Argument), Unexpected(11)),
    ("_(unwrapping p)", 0, 0, Some(Ghost), Unexpected(3)),
    ("_(ghost x = 1)", 0, 0, Some(Ghost), Unexpected(3)),
    ("_(foo)", 0, 0, Some(Member), UnknownForm(3)),
    ("_(foo)", 0, 0, Some(Parameter), UnknownForm(3)),
    ("_(foo)", 0, 0, Some(Contract), UnknownForm(3)),
    ("_(assume a)", 0, 0, Some(Statement), UnknownForm(3)),
    ("_(ghost _(foo p))", 0, 0, Some(Statement), UnknownForm(11)),
    ("_(decreases a)", 0, 0, Some(Loop), UnknownForm(3)),
    ("_(foo)", 0, 0, Some(Argument), UnknownForm(3)),
    ("_(foo)", 0, 0, Some(Ghost), UnknownForm(3)),
];

/// The place behind what is read, or the fault.
fn front_of<T: Drop>(read: Result<(T, usize), SourceFault>) -> Told {
    match read {
        Ok((_, following)) => Ok((0, following)),
        Err(fault) => Err(fault),
    }
}

/// What is read of a text from this token on; nothing where the text or the levels around it are too many, or no annotation stands
/// there that should.
#[tactic(auto, using(c_source::proofs::Ends::has_end))]
fn read(alloc: Global, text: &str, at: usize, above: u32, place: Option<Place>) -> Told {
    let bytes = text.as_bytes();
    if bytes.len() > 1000 || above > 200 {
        return Err(SourceFault::OutOfMemory);
    }
    let Ok(tokens) = tokens(alloc, bytes) else {
        return Err(SourceFault::OutOfMemory);
    };
    if at >= tokens.len() {
        return Err(SourceFault::OutOfMemory);
    }
    let Some(place) = place else {
        return front_of(read_expression(alloc, tokens.as_slice(), at, above));
    };
    if !is_annotation(tokens.as_slice(), at) {
        return Err(SourceFault::OutOfMemory);
    }
    front_of(read_annotation(alloc, tokens.as_slice(), at, above, place))
}

/// The rows of a table are answered as they say.
fn all_read(rt: &impl Abort, alloc: Global, rows: &[Row]) {
    for (text, at, above, place, want) in rows {
        let got = read(alloc, text, *at, *above, *place);
        answers(rt, text, *above, got, *want);
    }
}

#[test]
fn pieces(rt: HostRuntime) {
    let alloc = rt.alloc();
    all_read(&rt, alloc, EXPRESSIONS);
    all_read(&rt, alloc, ANNOTATIONS);
    all_read(&rt, alloc, WITHIN);
    all_read(&rt, alloc, REFUSED);
}
