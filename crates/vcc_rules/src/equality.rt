//! Terms that are equalities.

ghost use Rattle.std.specs.Prelude.{◌<◌, IfSome, MatchOption, length};
ghost use Rattle.vcc_rules.specs.Equality.{IsEquality, IsNoEquality};

use term_graph::graph::Graph;
use terms::numbers::index_below;
use terms::term::Kind;

/// A term that is an equality, with its sides.
#[derive(Clone, Copy, Debug, PartialEq, Eq)]
pub struct Equality {
    pub term: u32,
    pub left: u32,
    pub right: u32,
}

/// The equality that a step's number names.
pub fn equality_at(terms: &Graph, number: i128) -> Option<Equality>
    ensures equality { MatchOption result (IsNoEquality terms.now number) (IsEquality terms.now number) }
    ensures within { IfSome result (λ e. (e.left < length terms.now) × (e.right < length terms.now)) }
{
    let term = index_below(number, terms.len())? as u32;
    let node = terms.node(term);
    match (node.kind, node.args.numbers()) {
        (Kind::Eq, [left, right]) => Some(Equality {
            term,
            left: *left,
            right: *right,
        }),
        _ => None,
    }
}
