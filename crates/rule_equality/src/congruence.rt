//! Equal arguments give equal terms: `cong`.

ghost use Rattle.std.specs.Prelude.{◌≡◌, ◌↔◌, ◌<◌, ◌≤◌, ◌∷◌, [], IsTrue, IfSome, Some, length, pos};
ghost use Rattle.vcc_rules.specs.Equality.{sides};
ghost use Rattle.vcc_rules.specs.Law.{AreSortsOf};
ghost use Rattle.rule_equality.specs.Rows.{is_truth_value, IsBehind, Denies, Agrees, IsCongruent, IsCongruence};
ghost use Rattle.rule_equality.specs.Sound.{congruence_sound};

use int_ranges::exact::Wide;
use term_graph::graph::Graph;
use terms::numbers::{Numbers, index_below};
use terms::sort::Sort;
use terms::term::{Literal, Term};
use vcc_rules::equality::equality_at;
use vcc_rules::propositional::{is_pair, no, yes};
use vcc_rules::rule::{Clauses, Rule, Scratch};

/// Two terms of one kind with equal arguments are equal. It takes the numbers of the two.
#[derive(Clone, Copy, Debug)]
pub struct Congruence<'a> {
    /// The sorts of the terms, as far as they have one.
    pub sorts: &'a [Option<Sort>],
}

impl<'a> Rule for Congruence<'a> {
    type Data = Numbers;

    ghost suits = { λ rule language terms. AreSortsOf language terms rule.sorts.now };

    ghost gives = { λ rule terms earlier below detail clause. IsCongruence rule.sorts.now terms detail clause };

    ghost leaves = { λ rule terms detail clause w. ⊥ };

    fn concludes(
        &self,
        terms: &Graph,
        _earlier: &Clauses,
        _below: usize,
        detail: &Numbers,
        clause: &[Literal],
        _scratch: &mut Scratch,
    ) -> Result<bool, Wide> {
        Ok(match detail.as_slice() {
            [t, u] => is_congruence(self.sorts, terms, *t, *u, clause),
            _ => false,
        })
    }

    ghost sound = { λ rule language terms earlier below detail clause suits. congruence_sound language rule.sorts.now terms earlier.root earlier.list.items below detail clause };
}

#[tactic(auto, using(crate::proofs::Congruences::unnamed_first, crate::proofs::Congruences::unnamed_second))]
fn is_congruence(
    sorts: &[Option<Sort>],
    terms: &Graph,
    t: i128,
    u: i128,
    clause: &[Literal],
) -> bool
    ensures { IsTrue result ↔ IsCongruence sorts.now terms.now (t ∷ u ∷ []) clause.now }
{
    match (index_below(t, terms.len()), index_below(u, terms.len())) {
        (Some(t), Some(u)) => are_congruent(sorts, terms, t as u32, u as u32, clause),
        _ => false,
    }
}

/// Whether the terms are of one kind and index, and the clause says that they are equal if their arguments are.

#[tactic(auto, using(crate::proofs::Congruences::congruent_row, crate::proofs::Congruences::unlike))]
fn are_congruent(sorts: &[Option<Sort>], terms: &Graph, t: u32, u: u32, clause: &[Literal]) -> bool
    requires left { t < length terms.now }
    requires right { u < length terms.now }
    ensures { IsTrue result ↔ IsCongruence sorts.now terms.now (pos t ∷ pos u ∷ []) clause.now }
{
    let left = terms.node(t);
    let right = terms.node(u);
    if !are_alike(left, right) {
        return false;
    }
    let pair = Pair { left: t, right: u };
    is_congruent(
        sorts,
        terms,
        pair,
        left.args.numbers(),
        right.args.numbers(),
        clause,
    )
}

/// Whether the terms are of one kind and index.
fn are_alike(left: &Term, right: &Term) -> bool
    ensures { IsTrue result ↔ ((left.now.kind ≡ right.now.kind) × (left.now.index ≡ right.now.index)) }
{
    left.kind == right.kind && left.index == right.index
}

/// Two terms, by their numbers.
#[derive(Clone, Copy, Debug)]
struct Pair {
    left: u32,
    right: u32,
}

/// Whether the clause says that the terms, which have these arguments, are equal if their arguments are.

#[tactic(auto, using(crate::proofs::Congruences::unlike_lengths))]
fn is_congruent(
    sorts: &[Option<Sort>],
    terms: &Graph,
    of: Pair,
    left: &[u32],
    right: &[u32],
    clause: &[Literal],
) -> bool
    ensures { IsTrue result ↔ IsCongruent sorts.now terms.now of.left of.right left.now right.now clause.now }
{
    if left.len() != right.len() {
        return false;
    }
    let mut at = 0;
    for i in 0..left.len() {
        let args = Pair {
            left: left[i],
            right: right[i],
        };
        let Some(next) = behind(sorts, terms, args, clause, at) else {
            return false;
        };
        at = next;
    }
    agrees(sorts, terms, of, &clause[at..])
}

/// The place behind what the clause says of two arguments, from the place `at` on.

fn behind(
    sorts: &[Option<Sort>],
    terms: &Graph,
    args: Pair,
    clause: &[Literal],
    at: usize,
) -> Option<usize>
    requires { at ≤ length clause.now }
    ensures within { IfSome result (λ next. next ≤ length clause.now) }
    ensures passes { IsBehind sorts.now terms.now args.left args.right clause.now at result }
{
    if is_truth(sorts, args.left) || is_truth(sorts, args.right) {
        return None;
    }
    if args.left == args.right {
        return Some(at);
    }
    if at == clause.len() || !denies(terms, args, clause[at]) {
        return None;
    }
    Some(at + 1)
}

/// Whether the literal denies that the two terms are equal.
fn denies(terms: &Graph, pair: Pair, l: Literal) -> bool
    ensures { IsTrue result ↔ Denies terms.now pair.left pair.right l }
{
    !l.positive && equates(terms, l.term, pair)
}

/// Whether the literals say that the two terms are equal; of truth values, that the right one is true if the left one
/// is.
fn agrees(sorts: &[Option<Sort>], terms: &Graph, pair: Pair, rest: &[Literal]) -> bool
    ensures { IsTrue result ↔ Agrees sorts.now terms.now pair.left pair.right rest.now }
{
    if is_truth(sorts, pair.left) {
        return is_pair(rest, no(pair.left), yes(pair.right));
    }
    match rest {
        [only] => only.positive && equates(terms, only.term, pair),
        _ => false,
    }
}

/// Whether the term is the equality of the two.
fn equates(terms: &Graph, term: u32, pair: Pair) -> bool
    ensures { IsTrue result ↔ (sides terms.now term ≡ Some (pair.left, pair.right)) }
{
    match equality_at(terms, i128::from(term)) {
        Some(e) => e.left == pair.left && e.right == pair.right,
        None => false,
    }
}

/// Whether the term is a truth value; one without a sort counts as one.
fn is_truth(sorts: &[Option<Sort>], term: u32) -> bool
    ensures { result ≡ is_truth_value sorts.now term }
{
    match sorts.get(term as usize) {
        Some(sort) => match sort {
            Some(sort) => *sort == Sort::Bool,
            None => true,
        },
        None => true,
    }
}
