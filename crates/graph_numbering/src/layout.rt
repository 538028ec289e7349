//! What is laid out for a node.

ghost use Rattle.std.specs.Prelude.{◌≡◌, ℕ, option_map};
ghost use Rattle.graph_numbering.specs.Layout as spec;

use terms::numbers::index_below;
use terms::term::{Kind, Term};

/// What is laid out for a node.
#[derive(Clone, Copy, Debug, PartialEq, Eq)]
pub enum Layout {
    /// the node, behind its arguments
    Itself,
    /// the term with this number
    Given(u32),
    /// the null reference
    Null,
}

/// What is laid out for a node: an argument in place of a constant, where there are arguments, and else the node
/// itself.
pub fn layout_of(node: &Term, args: Option<&[u32]>) -> Layout
    ensures { result ≡ spec.layout_of (option_map (λ a. a.now) args.entry) node.now.kind node.now.index }
{
    let Some(args) = args else {
        return Layout::Itself;
    };
    if !is_constant(node.kind) {
        return Layout::Itself;
    }
    argument(args, node.index)
}

fn is_constant(kind: Kind) -> bool
    ensures { result ≡ spec.is_constant kind }
{
    matches!(kind, Kind::Ci | Kind::Cr | Kind::Ch)
}

fn argument(args: &[u32], index: i128) -> Layout
    ensures { result ≡ spec.argument args.now index }
{
    match index_below(index, args.len()) {
        Some(place) => Layout::Given(args[place]),
        None => Layout::Null,
    }
}
