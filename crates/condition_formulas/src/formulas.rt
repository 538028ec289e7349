//! Formulas over integers, references and heaps, as nodes of a graph.

ghost use Rattle.std.specs.Prelude.{IfOk, List, pos};
ghost use Rattle.terms.specs.Formula.{Formula, Node, leaf, unary, binary};
ghost use Rattle.condition_formulas.specs.Standing.{StandsAs, StandAll, Later};
ghost use Rattle.conditions.specs.Formulas as spec;

use std::alloc::AllocError;
use term_graph::graph::Graph;
use terms::term::Kind;

/// A node with these arguments.
#[tactic(auto, using(crate::proofs::Rows::later_is))]
pub fn node(graph: &mut Graph, kind: Kind, index: i128, args: &[u32]) -> Result<u32, AllocError>
    ensures stands { (fs : List Formula) → StandAll graph.old args.now fs → IfOk result (λ id. StandsAs graph.new id (Node kind index (spec.row fs))) }
    ensures later { Later graph.old graph.new }
{
    let id = graph.add(kind, index, args)?;
    Ok(id)
}

/// A node without arguments.
fn leaf(graph: &mut Graph, kind: Kind, index: i128) -> Result<u32, AllocError>
    ensures stands { IfOk result (λ id. StandsAs graph.new id (leaf kind index)) }
    ensures later { Later graph.old graph.new }
{
    node(graph, kind, index, &[])
}

/// A node of one argument.
fn unary(graph: &mut Graph, kind: Kind, a: u32) -> Result<u32, AllocError>
    ensures stands { (f : Formula) → StandsAs graph.old a f → IfOk result (λ id. StandsAs graph.new id (unary kind f)) }
    ensures later { Later graph.old graph.new }
{
    node(graph, kind, 0, &[a])
}

/// A node of two arguments.
pub(crate) fn binary(graph: &mut Graph, kind: Kind, a: u32, b: u32) -> Result<u32, AllocError>
    ensures stands { (f g : Formula) → StandsAs graph.old a f → StandsAs graph.old b g → IfOk result (λ id. StandsAs graph.new id (binary kind f g)) }
    ensures later { Later graph.old graph.new }
{
    node(graph, kind, 0, &[a, b])
}

/// The integer literal.
pub fn int(graph: &mut Graph, z: i128) -> Result<u32, AllocError>
    ensures stands { IfOk result (λ id. StandsAs graph.new id (spec.int z)) }
    ensures later { Later graph.old graph.new }
{
    leaf(graph, Kind::Int, z)
}

/// The integer literal of a natural number.
pub fn nat(graph: &mut Graph, n: usize) -> Result<u32, AllocError>
    ensures stands { IfOk result (λ id. StandsAs graph.new id (spec.nat n)) }
    ensures later { Later graph.old graph.new }
{
    leaf(graph, Kind::Int, n as i128)
}

/// NULL
pub fn null(graph: &mut Graph) -> Result<u32, AllocError>
    ensures stands { IfOk result (λ id. StandsAs graph.new id (spec.null)) }
    ensures later { Later graph.old graph.new }
{
    leaf(graph, Kind::Null, 0)
}

/// The thread whose code it is.
pub fn me(graph: &mut Graph) -> Result<u32, AllocError>
    ensures stands { IfOk result (λ id. StandsAs graph.new id (spec.me)) }
    ensures later { Later graph.old graph.new }
{
    leaf(graph, Kind::Me, 0)
}

/// The integer constant with this number.
pub fn integer(graph: &mut Graph, n: usize) -> Result<u32, AllocError>
    ensures stands { IfOk result (λ id. StandsAs graph.new id (spec.integer n)) }
    ensures later { Later graph.old graph.new }
{
    leaf(graph, Kind::Ci, n as i128)
}

/// The reference constant with this number.
pub fn reference(graph: &mut Graph, n: usize) -> Result<u32, AllocError>
    ensures stands { IfOk result (λ id. StandsAs graph.new id (spec.reference n)) }
    ensures later { Later graph.old graph.new }
{
    leaf(graph, Kind::Cr, n as i128)
}

/// The heap constant with this number.
pub fn heap(graph: &mut Graph, n: usize) -> Result<u32, AllocError>
    ensures stands { IfOk result (λ id. StandsAs graph.new id (spec.heap n)) }
    ensures later { Later graph.old graph.new }
{
    leaf(graph, Kind::Ch, n as i128)
}

/// The formula that always holds.
pub fn truth(graph: &mut Graph) -> Result<u32, AllocError>
    ensures stands { IfOk result (λ id. StandsAs graph.new id (spec.true_formula)) }
    ensures later { Later graph.old graph.new }
{
    leaf(graph, Kind::True, 0)
}

/// A denial.
pub fn not(graph: &mut Graph, a: u32) -> Result<u32, AllocError>
    ensures stands { (f : Formula) → StandsAs graph.old a f → IfOk result (λ id. StandsAs graph.new id (spec.not' f)) }
    ensures later { Later graph.old graph.new }
{
    unary(graph, Kind::Not, a)
}

/// A conjunction.
pub fn and(graph: &mut Graph, a: u32, b: u32) -> Result<u32, AllocError>
    ensures stands { (f g : Formula) → StandsAs graph.old a f → StandsAs graph.old b g → IfOk result (λ id. StandsAs graph.new id (spec.and' f g)) }
    ensures later { Later graph.old graph.new }
{
    binary(graph, Kind::And, a, b)
}

/// A disjunction.
pub fn or(graph: &mut Graph, a: u32, b: u32) -> Result<u32, AllocError>
    ensures stands { (f g : Formula) → StandsAs graph.old a f → StandsAs graph.old b g → IfOk result (λ id. StandsAs graph.new id (spec.or' f g)) }
    ensures later { Later graph.old graph.new }
{
    binary(graph, Kind::Or, a, b)
}

/// An implication.
pub fn imp(graph: &mut Graph, a: u32, b: u32) -> Result<u32, AllocError>
    ensures stands { (f g : Formula) → StandsAs graph.old a f → StandsAs graph.old b g → IfOk result (λ id. StandsAs graph.new id (spec.imp f g)) }
    ensures later { Later graph.old graph.new }
{
    binary(graph, Kind::Imp, a, b)
}

/// An equation.
pub fn eq(graph: &mut Graph, a: u32, b: u32) -> Result<u32, AllocError>
    ensures stands { (f g : Formula) → StandsAs graph.old a f → StandsAs graph.old b g → IfOk result (λ id. StandsAs graph.new id (spec.eq f g)) }
    ensures later { Later graph.old graph.new }
{
    binary(graph, Kind::Eq, a, b)
}

/// That the first is at most the second.
pub fn le(graph: &mut Graph, a: u32, b: u32) -> Result<u32, AllocError>
    ensures stands { (f g : Formula) → StandsAs graph.old a f → StandsAs graph.old b g → IfOk result (λ id. StandsAs graph.new id (spec.le f g)) }
    ensures later { Later graph.old graph.new }
{
    binary(graph, Kind::Le, a, b)
}

/// The first where the test holds, else the second.
pub fn ite(graph: &mut Graph, test: u32, first: u32, second: u32) -> Result<u32, AllocError>
    ensures stands { (b x y : Formula) → StandsAs graph.old test b → StandsAs graph.old first x → StandsAs graph.old second y → IfOk result (λ id. StandsAs graph.new id (spec.ite b x y)) }
    ensures later { Later graph.old graph.new }
{
    node(graph, Kind::Ite, 0, &[test, first, second])
}

/// The type number of a reference.
pub fn typ(graph: &mut Graph, a: u32) -> Result<u32, AllocError>
    ensures stands { (f : Formula) → StandsAs graph.old a f → IfOk result (λ id. StandsAs graph.new id (spec.typ f)) }
    ensures later { Later graph.old graph.new }
{
    unary(graph, Kind::Typ, a)
}

/// The formula that never holds.
pub fn falsehood(graph: &mut Graph) -> Result<u32, AllocError>
    ensures stands { IfOk result (λ id. StandsAs graph.new id (spec.false_formula)) }
    ensures later { Later graph.old graph.new }
{
    let always = truth(graph)?;
    not(graph, always)
}
