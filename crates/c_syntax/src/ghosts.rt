//! Trees of ghost statements.

use crate::expressions::{Expr, Identifier, ValueType};
use crate::token::Span;

/// What is added to an owned set or taken from it: one object, or the members of a set.
#[derive(Drop)]
pub enum Members {
    One(Expr),
    Set(Vec<Expr>),
}

/// How a ghost statement changes an owned set.
#[derive(Drop)]
pub enum OwnsChange {
    Set(Vec<Expr>),
    Add(Members),
    Subtract(Members),
}

/// What stands right of a `=` in a ghost statement.
#[derive(Drop)]
pub enum GhostRight {
    Value(Expr),
    /// `\make_claim`, its place, the claimed objects and the property
    MakeClaim(Span, Vec<Expr>, Expr),
}

/// A ghost statement, with the place of its first token.
#[derive(Drop)]
pub enum GhostStmt {
    Block(Span, Vec<GhostStmt>),
    Declare(Span, ValueType, Identifier, Option<GhostRight>),
    /// the left side, the place of the `=`, and the right side
    Assign(Span, Expr, Span, GhostRight),
    /// an expression that ends with `->\owns`, the place of the sign, and the change
    Owns(Span, Expr, Span, OwnsChange),
    DestroyClaim(Span, Expr, Vec<Expr>),
    Wrap(Span, Expr),
    Unwrap(Span, Expr),
    If(Span, Expr, Box<GhostStmt>),
    IfElse(Span, Expr, Box<GhostStmt>, Box<GhostStmt>),
}
