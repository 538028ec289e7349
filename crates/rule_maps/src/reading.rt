//! Equalities whose left side reads a heap in which a value was stored.

ghost use Rattle.std.specs.Prelude.{◌≡◌, ◌↔◌, ◌<◌, IsTrue, IfSome, MatchOption, length};
ghost use Rattle.rule_maps.specs.Rows as spec;
ghost use Rattle.rule_maps.specs.Readings.{IsNoReading, IsReading, IsStored, IsNoStore, IsUnchanged};

use term_graph::graph::Graph;
use terms::sort::Sort;
use terms::term::Kind;
use vcc_rules::equality::equality_at;

/// A heap in which a value was stored: `set column heap keys value`.
#[derive(Clone, Copy, Debug)]
pub struct Store<'a> {
    pub column: i128,
    pub heap: u32,
    pub keys: &'a [u32],
    pub value: u32,
}

/// An equality whose left side reads such a heap: `get column store keys = other`.
#[derive(Clone, Copy, Debug)]
pub struct Reading<'a> {
    pub term: u32,
    pub column: i128,
    pub keys: &'a [u32],
    pub store: Store<'a>,
    pub other: u32,
}

/// Whether the term has a sort.
fn is_sorted(sorts: &[Option<Sort>], t: u32) -> bool
    ensures { result ≡ spec.is_sorted sorts.now t }
{
    match sorts.get(t as usize) {
        Some(sort) => sort.is_some(),
        None => false,
    }
}

/// The reading that a step's number names: an equality that has a sort.
pub fn reading_at<'a>(sorts: &[Option<Sort>], terms: &'a Graph, name: i128) -> Option<Reading<'a>>
    ensures reading { MatchOption result (IsNoReading sorts.now terms.now name) (IsReading sorts.now terms.now name) }
    ensures within { IfSome result (λ r. r.other < length terms.now) }
{
    let equality = equality_at(terms, name)?;
    if !is_sorted(sorts, equality.term) {
        return None;
    }
    let read = terms.node(equality.left);
    let (store, keys) = read.args.numbers().split_first()?;
    if read.kind != Kind::Get {
        return None;
    }
    let store = store_at(terms, *store)?;
    Some(Reading {
        term: equality.term,
        column: read.index,
        keys,
        store,
        other: equality.right,
    })
}

/// The store that a term is.
fn store_at(terms: &Graph, term: u32) -> Option<Store<'_>>
    requires { term < length terms.now }
    ensures { MatchOption result (IsNoStore terms.now term) (IsStored terms.now term) }
{
    let node = terms.node(term);
    let (heap, rest) = node.args.numbers().split_first()?;
    let (value, keys) = rest.split_last()?;
    if node.kind != Kind::Set {
        return None;
    }
    Some(Store {
        column: node.index,
        heap: *heap,
        keys,
        value: *value,
    })
}

/// Whether the right side reads the heap from before the store, in the same column and at the same keys.
pub fn is_unchanged(terms: &Graph, r: Reading<'_>) -> bool
    requires { r.other < length terms.now }
    ensures { IsTrue result ↔ IsUnchanged terms.now r.entry }
{
    let node = terms.node(r.other);
    match node.args.numbers().split_first() {
        Some((heap, keys)) => {
            node.kind == Kind::Get
                && node.index == r.column
                && *heap == r.store.heap
                && keys == r.keys
        }
        None => false,
    }
}
