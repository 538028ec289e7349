//! The form of an Int term, part by part.

ghost use Rattle.std.specs.Prelude.{◌≡◌, ◌<◌, length, All, ◌+ℤ◌, ◌-ℤ◌, ◌*ℤ◌};
ghost use Rattle.std.specs.Int.{w128, int_wrap};
ghost use Rattle.rule_linear.specs.Below.{IsBelow};
ghost use Rattle.rule_linear.specs.Forms.{Number, Single, whole_number, number_at as whole_number_at, sum_at, of_shape, number_of, product_shape, shape_of};

use term_graph::graph::Graph;
use terms::term::{Kind, Term};

/// How an Int term is put together of others, by their numbers.
#[derive(Clone, Copy, Debug, PartialEq, Eq)]
pub enum Shape {
    /// a number
    Number(i128),
    /// the sum
    Plus(u32, u32),
    /// the difference
    Minus(u32, u32),
    /// a number times a term
    Times(i128, u32),
    /// a unit: nothing of these
    Alone,
}

/// A part of a form: the coefficient of the unit with this number, or the constant.
#[derive(Clone, Copy, Debug, PartialEq, Eq)]
pub enum Part {
    Coefficient(u32),
    Constant,
}

/// The number that the term is, where it is one.
fn whole_number_of(node: &Term) -> Option<i128>
    ensures { result ≡ whole_number node.now.kind node.now.index node.now.args }
{
    match (node.kind, node.args.numbers()) {
        (Kind::Int, []) => Some(node.index),
        _ => None,
    }
}

/// The shape of a product of these two.
fn product_of(terms: &Graph, a: u32, b: u32) -> Shape
    requires left { a < length terms.now }
    requires right { b < length terms.now }
    ensures { result ≡ product_shape (whole_number_at terms.now a) (whole_number_at terms.now b) a b }
{
    if let Some(n) = whole_number_of(terms.node(a)) {
        return Shape::Times(n, b);
    }
    if let Some(n) = whole_number_of(terms.node(b)) {
        return Shape::Times(n, a);
    }
    Shape::Alone
}

/// The shape of a node at the number `t`.
fn node_shape(terms: &Graph, t: u32, node: &Term) -> Shape
    requires within { t < length terms.now }
    requires below { All (λ a. a < t) node.now.args }
    ensures { result ≡ shape_of terms.now node.now.kind node.now.index node.now.args }
{
    match (node.kind, node.args.numbers()) {
        (Kind::Int, []) => Shape::Number(node.index),
        (Kind::Add, [a, b]) => Shape::Plus(*a, *b),
        (Kind::Sub, [a, b]) => Shape::Minus(*a, *b),
        (Kind::Mul, [a, b]) => product_of(terms, *a, *b),
        _ => Shape::Alone,
    }
}

/// The shape of the term with this number.
pub fn shape_at(terms: &Graph, t: u32) -> Shape
    requires { t < length terms.now }
    ensures is { sum_at terms.now t ≡ of_shape (sum_at terms.now) t result }
    ensures below { IsBelow t result }
{
    terms.known();
    let node = terms.node(t);
    node_shape(terms, t, node)
}

/// The part of a number's form.
fn part_of_number(n: i128, part: Part) -> i128
    ensures { result ≡ number_of (Number n) part }
{
    match part {
        Part::Coefficient(_) => 0,
        Part::Constant => n,
    }
}

/// The part of a unit's form.
fn part_of_unit(t: u32, part: Part) -> i128
    ensures { result ≡ number_of (Single t) part }
{
    match part {
        Part::Coefficient(u) => { if t == u { 1 } else { 0 } }
        Part::Constant => 0,
    }
}

/// The sum modulo 2^128.
pub fn wrapped_sum(x: i128, y: i128) -> i128
    ensures { result ≡ int_wrap w128 (x +ℤ y) }
{
    x.wrapping_add(y)
}

/// The difference modulo 2^128.
pub fn wrapped_difference(x: i128, y: i128) -> i128
    ensures { result ≡ int_wrap w128 (x -ℤ y) }
{
    x.wrapping_sub(y)
}

/// The product modulo 2^128.
pub fn wrapped_product(x: i128, y: i128) -> i128
    ensures { result ≡ int_wrap w128 (x *ℤ y) }
{
    x.wrapping_mul(y)
}

/// The number that a part has in the form of the term, modulo 2^128.
pub fn part_at(terms: &Graph, t: u32, part: Part) -> i128
    requires { t < length terms.now }
    ensures { result ≡ int_wrap w128 (number_of (sum_at terms.now t) part) }
{
    match shape_at(terms, t) {
        Shape::Number(n) => part_of_number(n, part),
        Shape::Plus(a, b) => wrapped_sum(part_at(terms, a, part), part_at(terms, b, part)),
        Shape::Minus(a, b) => wrapped_difference(part_at(terms, a, part), part_at(terms, b, part)),
        Shape::Times(n, a) => wrapped_product(n, part_at(terms, a, part)),
        Shape::Alone => part_of_unit(t, part),
    }
}
