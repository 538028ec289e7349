//! Equality is an equivalence: `refl`, `sym` and `trans`.

ghost use Rattle.std.specs.Prelude.{◌↔◌, ◌∷◌, [], IsTrue};
ghost use Rattle.rule_equality.specs.Rows.{IsRefl, IsSym, IsTrans};
ghost use Rattle.rule_equality.specs.Sound.{refl_sound, sym_sound, trans_sound};

use int_ranges::exact::Wide;
use term_graph::graph::Graph;
use terms::numbers::Numbers;
use terms::term::Literal;
use vcc_rules::equality::equality_at;
use vcc_rules::propositional::{is_one, is_pair, is_triple, no, yes};
use vcc_rules::rule::{Clauses, Rule, Scratch};

/// A term equals itself. It takes the equality's number.
pub struct Reflexivity;

impl Rule for Reflexivity {
    type Data = Numbers;

    ghost suits = { λ rule language terms. Unit {0} };

    ghost gives = { λ rule terms earlier below detail clause. IsRefl terms detail clause };

    ghost leaves = { λ rule terms detail clause w. ⊥ };

    fn concludes(
        &self,
        terms: &Graph,
        _earlier: &Clauses,
        _below: usize,
        detail: &Numbers,
        clause: &[Literal],
        _scratch: &mut Scratch,
    ) -> Result<bool, Wide> {
        Ok(match detail.as_slice() {
            [t] => match equality_at(terms, *t) {
                Some(e) => e.left == e.right && is_one(clause, yes(e.term)),
                None => false,
            },
            _ => false,
        })
    }

    ghost sound = { λ rule language terms earlier below detail clause suits. refl_sound language terms earlier.root earlier.list.items below detail clause };
}

/// An equality turned round. It takes the numbers of the two equalities.
pub struct Symmetry;

impl Rule for Symmetry {
    type Data = Numbers;

    ghost suits = { λ rule language terms. Unit {0} };

    ghost gives = { λ rule terms earlier below detail clause. IsSym terms detail clause };

    ghost leaves = { λ rule terms detail clause w. ⊥ };

    fn concludes(
        &self,
        terms: &Graph,
        _earlier: &Clauses,
        _below: usize,
        detail: &Numbers,
        clause: &[Literal],
        _scratch: &mut Scratch,
    ) -> Result<bool, Wide> {
        Ok(match detail.as_slice() {
            [t, u] => match (equality_at(terms, *t), equality_at(terms, *u)) {
                (Some(d), Some(e)) => {
                    d.left == e.right
                        && d.right == e.left
                        && is_pair(clause, no(d.term), yes(e.term))
                }
                _ => false,
            },
            _ => false,
        })
    }

    ghost sound = { λ rule language terms earlier below detail clause suits. sym_sound language terms earlier.root earlier.list.items below detail clause };
}

/// Two equalities that share a term. It takes the numbers of the two and of the one that follows.
pub struct Transitivity;

impl Rule for Transitivity {
    type Data = Numbers;

    ghost suits = { λ rule language terms. Unit {0} };

    ghost gives = { λ rule terms earlier below detail clause. IsTrans terms detail clause };

    ghost leaves = { λ rule terms detail clause w. ⊥ };

    fn concludes(
        &self,
        terms: &Graph,
        _earlier: &Clauses,
        _below: usize,
        detail: &Numbers,
        clause: &[Literal],
        _scratch: &mut Scratch,
    ) -> Result<bool, Wide> {
        Ok(match detail.as_slice() {
            [t, u, w] => is_trans(terms, *t, *u, *w, clause),
            _ => false,
        })
    }

    ghost sound = { λ rule language terms earlier below detail clause suits. trans_sound language terms earlier.root earlier.list.items below detail clause };
}

fn is_trans(terms: &Graph, t: i128, u: i128, w: i128, clause: &[Literal]) -> bool
    ensures { IsTrue result ↔ IsTrans terms.now (t ∷ u ∷ w ∷ []) clause.now }
{
    match (
        equality_at(terms, t),
        equality_at(terms, u),
        equality_at(terms, w),
    ) {
        (Some(d), Some(e), Some(f)) => {
            d.right == e.left
                && d.left == f.left
                && e.right == f.right
                && is_triple(clause, no(d.term), no(e.term), yes(f.term))
        }
        _ => false,
    }
}
