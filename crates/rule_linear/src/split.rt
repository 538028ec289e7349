//! Two comparisons make an equality: `split`.

ghost use Rattle.std.specs.Prelude.{◌↔◌, ◌∷◌, [], IsTrue, MatchOption};
ghost use Rattle.vcc_rules.specs.Law.{AreSortsOf};
ghost use Rattle.rule_linear.specs.Comparisons.{IsComparison, NamesNone};
ghost use Rattle.rule_linear.specs.Rows.{IsSplit};
ghost use Rattle.rule_linear.specs.SplitSound.{split_sound};

use crate::bound::is_int_term;
use int_ranges::exact::Wide;
use term_graph::graph::Graph;
use terms::numbers::{Numbers, index_below};
use terms::sort::Sort;
use terms::term::{Kind, Literal};
use vcc_rules::equality::equality_at;
use vcc_rules::propositional::{is_triple, no, yes};
use vcc_rules::rule::{Clauses, Rule, Scratch};

/// Two Ints are equal if each is at most the other. It takes the numbers of the equality and of the two comparisons.
#[derive(Clone, Copy, Debug)]
pub struct Split<'a> {
    /// The sorts of the terms, as far as they have one.
    pub sorts: &'a [Option<Sort>],
}

impl<'a> Rule for Split<'a> {
    type Data = Numbers;

    ghost suits = { λ rule language terms. AreSortsOf language terms rule.sorts.now };

    ghost gives = { λ rule terms earlier below detail clause. IsSplit rule.sorts.now terms detail clause };

    ghost leaves = { λ rule terms detail clause w. ⊥ };

    fn concludes(
        &self,
        terms: &Graph,
        _earlier: &Clauses,
        _below: usize,
        detail: &Numbers,
        clause: &[Literal],
        _scratch: &mut Scratch,
    ) -> Result<bool, Wide> {
        Ok(match detail.as_slice() {
            [t, u, v] => is_split(terms, self.sorts, *t, *u, *v, clause),
            _ => false,
        })
    }

    ghost sound = { λ rule language terms earlier below detail clause suits. split_sound language rule.sorts.now terms earlier.root earlier.list.items below detail clause suits };
}

/// A term that is a comparison, with its sides: the left one is at most the right one.
#[derive(Clone, Copy, Debug, PartialEq, Eq)]
pub struct Comparison {
    pub term: u32,
    pub left: u32,
    pub right: u32,
}

/// The comparison that a step's number names.
fn comparison_at(terms: &Graph, number: i128) -> Option<Comparison>
    ensures { MatchOption result (NamesNone terms.now number) (λ c. IsComparison terms.now number c) }
{
    let term = index_below(number, terms.len())? as u32;
    let node = terms.node(term);
    match (node.kind, node.args.numbers()) {
        (Kind::Le, [left, right]) => Some(Comparison {
            term,
            left: *left,
            right: *right,
        }),
        _ => None,
    }
}

fn is_split(
    terms: &Graph,
    sorts: &[Option<Sort>],
    t: i128,
    u: i128,
    v: i128,
    clause: &[Literal],
) -> bool
    ensures { IsTrue result ↔ IsSplit sorts.now terms.now (t ∷ u ∷ v ∷ []) clause.now }
{
    match (
        equality_at(terms, t),
        comparison_at(terms, u),
        comparison_at(terms, v),
    ) {
        (Some(d), Some(e), Some(f)) => {
            e.left == d.left
                && e.right == d.right
                && f.left == d.right
                && f.right == d.left
                && is_int_term(sorts, d.left)
                && is_int_term(sorts, d.right)
                && is_triple(clause, yes(d.term), no(e.term), no(f.term))
        }
        _ => false,
    }
}
