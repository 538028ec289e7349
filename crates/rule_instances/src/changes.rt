//! Terms that open or close an object.

ghost use Rattle.std.specs.Prelude.{◌≡◌, ◌<◌, ◌∷◌, ℕ, [], List, IfSome, IfNone, None, length};
ghost use Rattle.terms.specs.Formula.{Formula};
ghost use Rattle.axiom_instances.specs.Terms.{kind_of, arguments_of};
ghost use Rattle.axiom_instances.specs.Axioms as spec;
ghost use Rattle.condition_formulas.specs.Standing.{StandsAs};
ghost use Rattle.rule_instances.specs.Changes.{IsChange, AreThree};

use term_graph::graph::Graph;
use terms::term::{Kind, Term};

/// What a term opens or closes: the heap before, the object, the owner of its members, and its mode.
#[derive(Clone, Copy)]
pub struct Change {
    pub heap: u32,
    pub object: u32,
    pub owner: u32,
    pub mode: u32,
}

/// Three numbers.
#[derive(Clone, Copy)]
struct Three {
    first: u32,
    second: u32,
    third: u32,
}

fn as_three(numbers: &[u32]) -> Option<Three>
    ensures some { IfSome result (λ t. AreThree t numbers.now) }
    ensures none { IfNone result ((a b c : ℕ) → numbers.now ≡ a ∷ b ∷ c ∷ [] → ⊥) }
{
    match numbers {
        [first, second, third] => Some(Three {
            first: *first,
            second: *second,
            third: *third,
        }),
        _ => None,
    }
}

/// What the node opens or closes, if it does.
pub fn change_of(graph: &Graph, id: u32) -> Option<Change>
    ensures some { (f : Formula) → StandsAs graph.now id f → IfSome result (λ c. IsChange graph.now c f) }
    ensures none { (f : Formula) → StandsAs graph.now id f → IfNone result (spec.change_of (kind_of f) (arguments_of f) ≡ None) }
{
    if id as usize >= graph.len() {
        return None;
    }
    let node = graph.node(id);
    let Some(args) = as_three(node.args.numbers()) else {
        return None;
    };
    match node.kind {
        Kind::Open => Some(Change {
            heap: args.first,
            object: args.second,
            owner: args.third,
            mode: 1,
        }),
        Kind::Close => Some(Change {
            heap: args.first,
            object: args.second,
            owner: args.second,
            mode: 2,
        }),
        _ => None,
    }
}
