//! Trees of expressions and assignments: what a source says, in the order of its text, with brackets and places as they
//! stand there.

use crate::token::Span;
use crate::tree::{
    BinaryOperator, Constant, Interlocked, ListWord, Quantifier, SpecFunction, Status,
    UnaryOperator,
};
use int_ranges::ctype::CType;

/// A name where it stands.
#[derive(Debug, Drop)]
pub struct Identifier {
    pub span: Span,
    pub name: Vec<u8>,
}

/// The type of a value, as it is written.
#[derive(Debug, Drop)]
pub enum ValueType {
    Integer(CType),
    /// `struct` and the name, and `*`
    Pointer(Identifier),
    /// `\object`
    Object,
    /// `\claim`
    Claim,
}

/// An expression of code or of a spec: a spec is an expression with more forms. Each has the place of the token that it is
/// found by: its first token, or its operator.
#[derive(Drop)]
pub enum Expr {
    Number(Span, u64, CType),
    Name(Identifier),
    /// `NULL`
    Null(Span),
    Constant(Span, Constant),
    /// a pair of brackets
    Group(Span, Box<Expr>),
    /// `->` and a field, with the arrow's place
    Field(Span, Box<Expr>, Identifier),
    /// `->` and a status, with the places of the arrow and of the word
    Status(Span, Box<Expr>, Span, Status),
    /// `->\owns`, with the places of the arrow and of the word
    Owns(Span, Box<Expr>, Span),
    Unary(Span, UnaryOperator, Box<Expr>),
    Binary(Span, BinaryOperator, Box<Expr>, Box<Expr>),
    /// with the place of the `?`
    Conditional(Span, Box<Expr>, Box<Expr>, Box<Expr>),
    Apply(Span, SpecFunction, Box<Expr>),
    /// a word and its arguments, of which there is one at least
    Several(Span, ListWord, Vec<Expr>),
    /// `\claims_object`
    ClaimsObject(Span, Box<Expr>, Box<Expr>),
    /// `\claims`
    Claims(Span, Box<Expr>, Box<Expr>),
    /// `\approves(\this->\owner, f)`, with the name of the field
    Approves(Span, Identifier),
    Quantified(Span, Quantifier, ValueType, Identifier, Box<Expr>),
}

/// An Interlocked call: its word's place, the field behind the `&`, the other arguments.
#[derive(Drop)]
pub struct InterlockedCall {
    pub span: Span,
    pub function: Interlocked,
    pub field: Expr,
    pub arguments: Vec<Expr>,
}

/// `==` or `!=` behind an Interlocked call, and what the earlier value is compared with.
#[derive(Drop)]
pub struct Compared {
    pub span: Span,
    pub is_equal: bool,
    pub other: Expr,
}

/// A call: the function's name, its arguments and its ghost arguments.
#[derive(Drop)]
pub struct Call {
    pub function: Identifier,
    pub arguments: Vec<Expr>,
    pub ghost_arguments: Vec<Expr>,
}

/// What stands right of a `=`.
#[derive(Drop)]
pub enum Right {
    Value(Expr),
    /// `malloc`: the struct of a cast, if there is one, the word's place, and the struct
    Malloc(Option<Identifier>, Span, Identifier),
    Interlocked(InterlockedCall, Option<Compared>),
    Call(Call),
}

/// How an assignment changes its left side.
#[derive(Drop)]
pub enum Change {
    /// `=`
    Set(Right),
    /// `+=`
    Add(Expr),
    /// `-=`
    Subtract(Expr),
    /// `++`
    Increment,
    /// `--`
    Decrement,
}

/// An assignment: its left side, the place of its sign, and the change.
#[derive(Drop)]
pub struct Assignment {
    pub left: Expr,
    pub span: Span,
    pub change: Change,
}
