//! Whole sources: how high their trees are, worked out from the text, and how many items they have; or the first fault.

ghost use Rattle.std.specs.Prelude.{◌<◌, IfOk};
ghost use Rattle.c_syntax.specs.Views.{items_of};
ghost use Rattle.tree_heights.specs.Parts.{parts};

use crate::answers::Answer::{self, High, TooDeep, Unexpected, UnknownForm};
use crate::answers::{Told, answers};
use c_reader::read_source;
use c_source::fault::SourceFault;
use c_syntax::items::Tree;
use std::alloc::Global;
use std::process::Abort;
use tree_heights::items::height;
use tree_heights::laws::height_laws;

/// Each form of an item, and of what stands in one.
const SOURCES: &[(&str, Answer)] = &[
    ("", High(0, 0)),
    ("struct s { };", High(2, 1)),
    (
        "struct s { int a; volatile struct t *p; unsigned long long n; };",
        High(2, 1),
    ),
    (
        "_(volatile_owns, claimable) _(dynamic_owns) struct s { _(ghost volatile \\claim c;) _(ghost struct t *p) };",
        High(2, 1),
    ),
    ("struct a { _(invariant (a)) };", High(4, 1)),
    (
        "struct a { _(invariant \\approves(\\this->\\owner, a)) };",
        High(5, 1),
    ),
    (
        "int f(int a, struct s *b _(ghost \\claim c) _(ghost \\object o)) { }",
        High(2, 1),
    ),
    ("struct s *f(void) { return NULL; }", High(4, 1)),
    (
        "void f() _(requires a) _(ensures b) _(maintains c) _(writes a, \\span(b), \\extent(c)) { }",
        High(4, 1),
    ),
    ("void a() _(requires ((a))) { ; }", High(5, 1)),
    ("void a() { _(assert 1 + ((a))) }", High(7, 1)),
    ("void a() { _(assert a->a ? 1 : a) }", High(6, 1)),
    (
        "void a() { _(assert \\forall \\object a; \\old(a)) }",
        High(6, 1),
    ),
    ("void a() { a(1 _(ghost (a))); }", High(6, 1)),
    (
        "void a() { a = InterlockedExchange(&a->a, 1) == (a); }",
        High(7, 1),
    ),
    ("void a() { a = malloc(sizeof(struct a)); }", High(5, 1)),
    ("void a() { if (a) ; else return (1); }", High(6, 1)),
    ("void a() { while (1) _(invariant (a)) ; }", High(6, 1)),
    ("void a() { _(ghost a->\\owns += { (a) }) }", High(6, 1)),
    (
        "struct s { int a; };\nint f() { }\n_(claimable) struct t { };\nvoid g() { ; }",
        High(3, 4),
    ),
];

/// So many braces that the last is too deep.
const DEEP: &str = "void f() \
    {{{{{{{{{{{{{{{{{{{{{{{{{{{{{{{{{{{{{{{{{{{{{{{{{{\
    {{{{{{{{{{{{{{{{{{{{{{{{{{{{{{{{{{{{{{{{{{{{{{{{{{\
    {{{{{{{{{{{{{{{{{{{{{{{{{{{{{{{{{{{{{{{{{{{{{{{{{{\
    {{{{{{{{{{{{{{{{{{{{{{{{{{{{{{{{{{{{{{{{{{{{{{{{{{";

/// One of each kind of fault.
const FAULTS: &[(&str, Answer)] = &[
    ("struct s { int a }", Unexpected(18)),
    ("int f() { } 5", Unexpected(13)),
    ("void f() { _(assume a) }", UnknownForm(14)),
    (DEEP, TooDeep(209)),
];

/// The tree of a short source.
pub fn tree_of(alloc: Global, source: &str) -> Result<Tree, SourceFault>
    ensures few { IfOk result (λ t. parts (items_of t) < 1073741824) }
{
    let bytes = source.as_bytes();
    if bytes.len() > 1000 {
        return Err(SourceFault::OutOfMemory);
    }
    read_source(alloc, bytes)
}

/// How high the source's tree is, and how many items it has; or the first fault.
fn read(alloc: Global, source: &str) -> Told {
    match tree_of(alloc, source) {
        Ok(tree) => Ok((height(&tree), tree.items.len())),
        Err(fault) => Err(fault),
    }
}

/// The rows of a table are answered as they say.
fn all_read(rt: &impl Abort, alloc: Global, rows: &[(&str, Answer)]) {
    for (source, want) in rows {
        answers(rt, source, 200, read(alloc, source), *want);
    }
}

#[test]
fn sources(rt: HostRuntime) {
    all_read(&rt, rt.alloc(), SOURCES);
    all_read(&rt, rt.alloc(), FAULTS);
    height_laws();
}
