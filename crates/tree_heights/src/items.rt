//! How high functions, structs and whole sources are.

ghost use Rattle.std.specs.Prelude.{◌≡◌, ◌<◌, ◌≤◌, map};
ghost use Rattle.c_syntax.specs.Views as view;
ghost use Rattle.c_syntax.specs.Views.{items_of};
ghost use Rattle.tree_heights.specs.Heights as h;
ghost use Rattle.tree_heights.specs.Heights.{height};
ghost use Rattle.tree_heights.specs.Parts as p;
ghost use Rattle.tree_heights.specs.Parts.{parts};

use crate::expressions::expression;
use crate::statements::{greatest_statement, invariant};
use c_syntax::items::{Clause, Function, Item, Member, Struct, Tree, WritesItem};

/// How high an item of a writes list is.
fn written(x: &WritesItem) -> u32
    requires few { p.written (view.written x.now) < 1073741824 }
    ensures high { result ≡ h.written (view.written x.now) }
    ensures low { result ≤ p.written (view.written x.now) }
{
    match x {
        WritesItem::Object(object) => expression(object),
        WritesItem::Span(_, object) => 1 + expression(object),
        WritesItem::Extent(_, object) => 1 + expression(object),
    }
}

/// The greatest height of a writes list, 0 of none.
fn greatest_written(all: &[WritesItem]) -> u32
    requires few { p.all p.written (map view.written all.now) < 1073741824 }
    ensures high { result ≡ h.greatest h.written (map view.written all.now) }
    ensures low { result ≤ p.all p.written (map view.written all.now) }
{
    let mut most = 0;
    for x in all {
        most = most.max(written(x));
    }
    most
}

/// How high a clause of a contract is.
fn clause(x: &Clause) -> u32
    requires few { p.clause (view.clause x.now) < 1073741824 }
    ensures high { result ≡ h.clause (view.clause x.now) }
    ensures low { result ≤ p.clause (view.clause x.now) }
{
    match x {
        Clause::Condition(_, _, property) => 1 + expression(property),
        Clause::Writes(_, all) => 1 + greatest_written(all),
    }
}

/// The greatest height of clauses, 0 of none.
fn greatest_clause(all: &[Clause]) -> u32
    requires few { p.all p.clause (map view.clause all.now) < 1073741824 }
    ensures high { result ≡ h.greatest h.clause (map view.clause all.now) }
    ensures low { result ≤ p.all p.clause (map view.clause all.now) }
{
    let mut most = 0;
    for x in all {
        most = most.max(clause(x));
    }
    most
}

/// How high a function is.
fn function(x: &Function) -> u32
    requires few { p.function (view.function x.now) < 1073741824 }
    ensures high { result ≡ h.function (view.function x.now) }
    ensures low { result ≤ p.function (view.function x.now) }
{
    let block = 1 + greatest_statement(&x.body);
    1 + greatest_clause(&x.contract).max(block)
}

/// How high a member of a struct is.
fn member(x: &Member) -> u32
    requires few { p.member (view.member x.now) < 1073741824 }
    ensures high { result ≡ h.member (view.member x.now) }
    ensures low { result ≤ p.member (view.member x.now) }
{
    match x {
        Member::Field(_) => 1,
        Member::Invariant(x) => invariant(x),
    }
}

/// The greatest height of a struct's members, 0 of none.
fn greatest_member(all: &[Member]) -> u32
    requires few { p.all p.member (map view.member all.now) < 1073741824 }
    ensures high { result ≡ h.greatest h.member (map view.member all.now) }
    ensures low { result ≤ p.all p.member (map view.member all.now) }
{
    let mut most = 0;
    for x in all {
        most = most.max(member(x));
    }
    most
}

/// How high a struct is.
fn structure(x: &Struct) -> u32
    requires few { p.struct (view.struct x.now) < 1073741824 }
    ensures high { result ≡ h.struct (view.struct x.now) }
    ensures low { result ≤ p.struct (view.struct x.now) }
{
    1 + greatest_member(&x.members).max(1)
}

/// How high an item is.
fn item(x: &Item) -> u32
    requires few { p.item (view.item x.now) < 1073741824 }
    ensures high { result ≡ h.item (view.item x.now) }
    ensures low { result ≤ p.item (view.item x.now) }
{
    match x {
        Item::Struct(x) => structure(x),
        Item::Function(x) => function(x),
    }
}

/// The height of a source's tree: the greatest of its items, 0 where it has none.
pub fn height(tree: &Tree) -> u32
    requires few { parts (items_of tree.now) < 1073741824 }
    ensures high { result ≡ height (items_of tree.now) }
    ensures low { result ≤ parts (items_of tree.now) }
{
    let mut most = 0;
    for x in &tree.items {
        most = most.max(item(x));
    }
    most
}
