//! What expressions come to: truth values, integers and references, as nodes of a graph.

ghost use Rattle.std.specs.Prelude.{◌≡◌, ◌&&◌, IfOk, List, pos};
ghost use Rattle.terms.specs.declared.term.Term.{Term};
ghost use Rattle.terms.specs.Formula.{Formula};
ghost use Rattle.conditions.specs.Formulas as formulas;
ghost use Rattle.conditions.specs.Symbolic as spec;
ghost use Rattle.condition_formulas.specs.Standing.{StandsAs, StandAll, Later};
ghost use Rattle.condition_formulas.specs.Symbolics.{IsSymbolic, choice_like};
ghost use Rattle.int_ranges.specs.Ranges.{least_of, greatest_of};

use crate::formulas::{binary, eq, int, ite, le, nat, not, null, or, typ};
use crate::lists::listed;
use int_ranges::ctype::CType;
use method::program::{Comparison, DeclaredType, Operator};
use std::alloc::{AllocError, Global};
use term_graph::graph::Graph;
use terms::term::Kind;

/// A truth value, an integer or a reference, each by the number of its node.
#[derive(Clone, Copy, Debug, PartialEq, Eq)]
pub enum Symbolic {
    Truth(u32),
    Number(u32),
    Reference(u32),
}

/// The term that stands where a value is wanted.
pub fn term(graph: &mut Graph, value: Symbolic) -> Result<u32, AllocError>
    ensures stands { (w : spec.Symbolic) → IsSymbolic graph.old value w → IfOk result (λ id. StandsAs graph.new id (spec.term w)) }
    ensures later { Later graph.old graph.new }
{
    match value {
        Symbolic::Truth(holds) => {
            let one = nat(graph, 1)?;
            let zero = nat(graph, 0)?;
            ite(graph, holds, one, zero)
        }
        Symbolic::Number(id) => Ok(id),
        Symbolic::Reference(id) => Ok(id),
    }
}

/// What C takes as true: a number other than 0, a reference other than NULL.
pub fn test(graph: &mut Graph, value: Symbolic) -> Result<u32, AllocError>
    ensures stands { (w : spec.Symbolic) → IsSymbolic graph.old value w → IfOk result (λ id. StandsAs graph.new id (spec.test w)) }
    ensures later { Later graph.old graph.new }
{
    match value {
        Symbolic::Truth(holds) => Ok(holds),
        Symbolic::Number(id) => {
            let zero = nat(graph, 0)?;
            let none = eq(graph, id, zero)?;
            not(graph, none)
        }
        Symbolic::Reference(id) => {
            let nothing = null(graph)?;
            let none = eq(graph, id, nothing)?;
            not(graph, none)
        }
    }
}

/// Whether it is the integer literal z.
fn is_int(graph: &Graph, z: i128, value: Symbolic) -> bool
    ensures { (w : spec.Symbolic) → IsSymbolic graph.now value w → result ≡ spec.is_int z w }
{
    let Symbolic::Number(id) = value else {
        return false;
    };
    if id as usize >= graph.len() {
        return false;
    }
    let node = graph.node(id);
    match node.kind {
        Kind::Int => node.index == z && node.args.numbers().is_empty(),
        _ => false,
    }
}

/// Whether the terms are equal.
pub fn same_symbolic(graph: &Graph, a: Symbolic, b: Symbolic) -> bool
    ensures { (v w : spec.Symbolic) → IsSymbolic graph.now a v → IsSymbolic graph.now b w → result ≡ spec.same_symbolic v w }
{
    graph.known();
    match (a, b) {
        (Symbolic::Truth(x), Symbolic::Truth(y)) => x == y,
        (Symbolic::Number(x), Symbolic::Number(y)) => x == y,
        (Symbolic::Reference(x), Symbolic::Reference(y)) => x == y,
        _ => false,
    }
}

/// Whether the first is the literal 1, and the second 0.
fn are_one_and_zero(graph: &Graph, first: Symbolic, second: Symbolic) -> bool
    ensures { (v w : spec.Symbolic) → IsSymbolic graph.now first v → IsSymbolic graph.now second w → result ≡ (spec.is_int (pos 1) v && spec.is_int (pos 0) w) }
{
    let is_one = is_int(graph, 1, first);
    let is_zero = is_int(graph, 0, second);
    is_one && is_zero
}

/// A reference where the first value is one, else a number.
fn chosen_like(value: Symbolic, id: u32) -> Symbolic
    ensures { (ts : List Term) (w : spec.Symbolic) (f : Formula) → IsSymbolic ts value w → StandsAs ts id f → IsSymbolic ts result (choice_like w f) }
{
    match value {
        Symbolic::Reference(_) => Symbolic::Reference(id),
        _ => Symbolic::Number(id),
    }
}

/// A value chosen by a test; with 1 and 0 it is the truth value.
pub fn choose(
    graph: &mut Graph,
    test: u32,
    first: Symbolic,
    second: Symbolic,
) -> Result<Symbolic, AllocError>
    ensures stands { (b : Formula) (v w : spec.Symbolic) → StandsAs graph.old test b → IsSymbolic graph.old first v → IsSymbolic graph.old second w → IfOk result (λ s. IsSymbolic graph.new s (spec.choose b v w)) }
    ensures later { Later graph.old graph.new }
{
    if are_one_and_zero(graph, first, second) {
        return Ok(Symbolic::Truth(test));
    }
    let x = term(graph, first)?;
    let y = term(graph, second)?;
    let id = ite(graph, test, x, y)?;
    Ok(chosen_like(first, id))
}

/// A term of the type.
pub fn symbolic_of_type(ty: DeclaredType, id: u32) -> Symbolic
    ensures { (ts : List Term) (f : Formula) → StandsAs ts id f → IsSymbolic ts result (spec.symbolic_of_type ty f) }
{
    match ty {
        DeclaredType::Integer(_) => Symbolic::Number(id),
        DeclaredType::Pointer(_) => Symbolic::Reference(id),
        DeclaredType::Object => Symbolic::Reference(id),
        DeclaredType::Claim => Symbolic::Reference(id),
    }
}

/// The least value of the type.
fn least(ty: CType) -> i128
    ensures { result ≡ least_of ty }
{
    match ty {
        CType::Int => -2_147_483_648,
        CType::Unsigned => 0,
        CType::LongLong => -9_223_372_036_854_775_808,
        CType::UnsignedLongLong => 0,
    }
}

/// The greatest value of the type.
fn greatest(ty: CType) -> i128
    ensures { result ≡ greatest_of ty }
{
    match ty {
        CType::Int => 2_147_483_647,
        CType::Unsigned => 4_294_967_295,
        CType::LongLong => 9_223_372_036_854_775_807,
        CType::UnsignedLongLong => 18_446_744_073_709_551_615,
    }
}

/// The least value of the type.
fn least_literal(graph: &mut Graph, ty: CType) -> Result<u32, AllocError>
    ensures stands { IfOk result (λ id. StandsAs graph.new id (formulas.int (least_of ty))) }
    ensures later { Later graph.old graph.new }
{
    int(graph, least(ty))
}

/// The greatest value of the type.
fn greatest_literal(graph: &mut Graph, ty: CType) -> Result<u32, AllocError>
    ensures stands { IfOk result (λ id. StandsAs graph.new id (formulas.int (greatest_of ty))) }
    ensures later { Later graph.old graph.new }
{
    int(graph, greatest(ty))
}

/// That x is an integer of the type.
pub fn bounds(alloc: Global, graph: &mut Graph, ty: CType, x: u32) -> Result<Vec<u32>, AllocError>
    ensures stands { (f : Formula) → StandsAs graph.old x f → IfOk result (λ ids. StandAll graph.new ids.items (spec.bounds ty f)) }
    ensures later { Later graph.old graph.new }
{
    let low = least_literal(graph, ty)?;
    let above = le(graph, low, x)?;
    let high = greatest_literal(graph, ty)?;
    let below = le(graph, x, high)?;
    listed(alloc, &[above, below])
}

/// That x has this type number.
pub fn has_type(graph: &mut Graph, x: u32, number: usize) -> Result<u32, AllocError>
    ensures stands { (f : Formula) → StandsAs graph.old x f → IfOk result (λ id. StandsAs graph.new id (formulas.eq (formulas.typ f) (formulas.nat number))) }
    ensures later { Later graph.old graph.new }
{
    let ty = typ(graph, x)?;
    let wanted = nat(graph, number)?;
    eq(graph, ty, wanted)
}

/// That x is NULL or has this type number.
fn null_or_type(graph: &mut Graph, x: u32, number: usize) -> Result<u32, AllocError>
    ensures stands { (f : Formula) → StandsAs graph.old x f → IfOk result (λ id. StandsAs graph.new id (formulas.or' (formulas.eq f formulas.null) (formulas.eq (formulas.typ f) (formulas.nat number)))) }
    ensures later { Later graph.old graph.new }
{
    let nothing = null(graph)?;
    let none = eq(graph, x, nothing)?;
    let typed = has_type(graph, x, number)?;
    or(graph, none, typed)
}

/// That x is one of the type.
pub fn ranges(
    alloc: Global,
    graph: &mut Graph,
    ty: DeclaredType,
    x: u32,
) -> Result<Vec<u32>, AllocError>
    ensures stands { (f : Formula) → StandsAs graph.old x f → IfOk result (λ ids. StandAll graph.new ids.items (spec.ranges ty f)) }
    ensures later { Later graph.old graph.new }
{
    match ty {
        DeclaredType::Integer(c) => bounds(alloc, graph, c, x),
        DeclaredType::Pointer(n) => {
            let typed = null_or_type(graph, x, n as usize)?;
            listed(alloc, &[typed])
        }
        DeclaredType::Object => {
            let absent = has_type(graph, x, 1)?;
            let present = not(graph, absent)?;
            listed(alloc, &[present])
        }
        DeclaredType::Claim => {
            let typed = null_or_type(graph, x, 2)?;
            listed(alloc, &[typed])
        }
    }
}

/// An operation on integers, unchecked.
pub fn compute(graph: &mut Graph, operator: Operator, a: u32, b: u32) -> Result<u32, AllocError>
    ensures stands { (f g : Formula) → StandsAs graph.old a f → StandsAs graph.old b g → IfOk result (λ id. StandsAs graph.new id (spec.compute operator f g)) }
    ensures later { Later graph.old graph.new }
{
    match operator {
        Operator::Plus => binary(graph, Kind::Add, a, b),
        Operator::Minus => binary(graph, Kind::Sub, a, b),
        Operator::Times => binary(graph, Kind::Mul, a, b),
        Operator::Over => binary(graph, Kind::Div, a, b),
        Operator::Modulo => binary(graph, Kind::Mod, a, b),
    }
}

/// That the first isn't at most the second.
fn above(graph: &mut Graph, a: u32, b: u32) -> Result<u32, AllocError>
    ensures stands { (f g : Formula) → StandsAs graph.old a f → StandsAs graph.old b g → IfOk result (λ id. StandsAs graph.new id (formulas.not' (formulas.le f g))) }
    ensures later { Later graph.old graph.new }
{
    let within = le(graph, a, b)?;
    not(graph, within)
}

/// That they aren't equal.
pub fn unlike(graph: &mut Graph, a: u32, b: u32) -> Result<u32, AllocError>
    ensures stands { (f g : Formula) → StandsAs graph.old a f → StandsAs graph.old b g → IfOk result (λ id. StandsAs graph.new id (formulas.not' (formulas.eq f g))) }
    ensures later { Later graph.old graph.new }
{
    let same = eq(graph, a, b)?;
    not(graph, same)
}

/// A comparison.
pub fn compare(graph: &mut Graph, comparison: Comparison, a: u32, b: u32) -> Result<u32, AllocError>
    ensures stands { (f g : Formula) → StandsAs graph.old a f → StandsAs graph.old b g → IfOk result (λ id. StandsAs graph.new id (spec.compare comparison f g)) }
    ensures later { Later graph.old graph.new }
{
    match comparison {
        Comparison::Equal => eq(graph, a, b),
        Comparison::NotEqual => unlike(graph, a, b),
        Comparison::Less => above(graph, b, a),
        Comparison::LessEqual => le(graph, a, b),
        Comparison::Greater => above(graph, a, b),
        Comparison::GreaterEqual => le(graph, b, a),
    }
}
