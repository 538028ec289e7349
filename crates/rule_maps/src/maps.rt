//! What is read of a heap in which a value was stored: `map`.

ghost use Rattle.std.specs.Prelude.{◌≡◌, ◌↔◌, ◌+◌, ◌<◌, ◌∷◌, [], IsTrue, MatchOption, pos, length};
ghost use Rattle.vcc_rules.specs.Law.{AreSortsOf};
ghost use Rattle.rule_maps.specs.Readings.{IsKey, IsNoIndex, ReadsBack, ReadsElsewhere, ReadsColumn};
ghost use Rattle.rule_maps.specs.Rows.{IsReadBack, IsOtherKey, IsOtherColumn, IsMap};
ghost use Rattle.rule_maps.specs.Sound.{map_sound};

use crate::reading::{Reading, is_unchanged, reading_at};
use int_ranges::exact::Wide;
use term_graph::graph::Graph;
use terms::numbers::{Numbers, index_below};
use terms::sort::Sort;
use terms::term::Literal;
use vcc_rules::equality::{Equality, equality_at};
use vcc_rules::propositional::{is_one, is_pair, yes};
use vcc_rules::rule::{Clauses, Rule, Scratch};

/// What was stored in a heap is read at its place, and all else is as it was. It takes the number of the row and that
/// of the equality; of row 2 the key's number, from 1, before it, and behind it that of the equality of the keys.
#[derive(Clone, Copy, Debug)]
pub struct Maps<'a> {
    /// The sorts of the terms, as far as they have one.
    pub sorts: &'a [Option<Sort>],
}

impl<'a> Rule for Maps<'a> {
    type Data = Numbers;

    ghost suits = { λ rule language terms. AreSortsOf language terms rule.sorts.now };

    ghost gives = { λ rule terms earlier below detail clause. IsMap rule.sorts.now terms detail clause };

    ghost leaves = { λ rule terms detail clause w. ⊥ };

    fn concludes(
        &self,
        terms: &Graph,
        _earlier: &Clauses,
        _below: usize,
        detail: &Numbers,
        clause: &[Literal],
        _scratch: &mut Scratch,
    ) -> Result<bool, Wide> {
        Ok(match detail.as_slice() {
            [1, t] => is_read_back(self.sorts, terms, *t, clause),
            [2, key, t, u] => is_other_key(self.sorts, terms, *key, *t, *u, clause),
            [3, t] => is_other_column(self.sorts, terms, *t, clause),
            _ => false,
        })
    }

    ghost sound = { λ rule language terms earlier below detail clause suits. map_sound language rule.sorts.now terms suits earlier.root earlier.list.items below detail clause };
}

#[tactic(auto, using(crate::proofs::Readings::back_row))]
fn is_read_back(sorts: &[Option<Sort>], terms: &Graph, t: i128, clause: &[Literal]) -> bool
    ensures { IsTrue result ↔ IsReadBack sorts.now terms.now (pos 1 ∷ t ∷ []) clause.now }
{
    match reading_at(sorts, terms, t) {
        Some(r) => reads_back(r, clause),
        None => false,
    }
}

/// Whether the clause says that what was stored is read.
fn reads_back(r: Reading<'_>, clause: &[Literal]) -> bool
    ensures { IsTrue result ↔ ReadsBack r.entry clause.now }
{
    r.column == r.store.column
        && r.keys == r.store.keys
        && r.other == r.store.value
        && is_one(clause, yes(r.term))
}

#[tactic(auto, using(crate::proofs::Readings::elsewhere_row, crate::proofs::Readings::no_equality))]
fn is_other_key(
    sorts: &[Option<Sort>],
    terms: &Graph,
    key: i128,
    t: i128,
    u: i128,
    clause: &[Literal],
) -> bool
    ensures { IsTrue result ↔ IsOtherKey sorts.now terms.now (pos 2 ∷ key ∷ t ∷ u ∷ []) clause.now }
{
    match (reading_at(sorts, terms, t), equality_at(terms, u)) {
        (Some(r), Some(e)) => reads_elsewhere(terms, key, r, e, clause),
        _ => false,
    }
}

/// Whether the clause says that nothing changed, or that the keys with this number are equal.
fn reads_elsewhere(
    terms: &Graph,
    key: i128,
    r: Reading<'_>,
    e: Equality,
    clause: &[Literal],
) -> bool
    requires { r.other < length terms.now }
    ensures { IsTrue result ↔ ReadsElsewhere terms.now key r.entry e clause.now }
{
    r.column == r.store.column
        && is_unchanged(terms, r)
        && is_key(r.store.keys, key, e.left)
        && is_key(r.keys, key, e.right)
        && is_pair(clause, yes(e.term), yes(r.term))
}

/// Whether the key with this number, from 1, is the term.
#[tactic(auto, using(crate::proofs::Keys::key_is, crate::proofs::Keys::no_key))]
fn is_key(keys: &[u32], number: i128, key: u32) -> bool
    ensures { IsTrue result ↔ IsKey keys.now number key }
{
    match index_of(number, keys.len()) {
        Some(i) => keys[i] == key,
        None => false,
    }
}

/// The index of what has this number, from 1, of so many.
fn index_of(number: i128, count: usize) -> Option<usize>
    ensures { MatchOption result (IsNoIndex number count) (λ i. (number ≡ pos (i + 1)) × (i < count)) }
{
    index_below(number.checked_sub(1)?, count)
}

#[tactic(auto, using(crate::proofs::Readings::column_row))]
fn is_other_column(sorts: &[Option<Sort>], terms: &Graph, t: i128, clause: &[Literal]) -> bool
    ensures { IsTrue result ↔ IsOtherColumn sorts.now terms.now (pos 3 ∷ t ∷ []) clause.now }
{
    match reading_at(sorts, terms, t) {
        Some(r) => reads_column(terms, r, clause),
        None => false,
    }
}

/// Whether the clause says that nothing changed in another column.
fn reads_column(terms: &Graph, r: Reading<'_>, clause: &[Literal]) -> bool
    requires { r.other < length terms.now }
    ensures { IsTrue result ↔ ReadsColumn terms.now r.entry clause.now }
{
    r.column != r.store.column && is_unchanged(terms, r) && is_one(clause, yes(r.term))
}
