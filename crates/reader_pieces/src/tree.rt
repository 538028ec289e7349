//! Annotations, and where they stand.

use c_syntax::expressions::Expr;
use c_syntax::ghosts::GhostStmt;
use c_syntax::items::{Clause, FieldDeclaration, Parameter};
use c_syntax::statements::Invariant;
use c_syntax::token::Span;
use c_syntax::tree::Attribute;

/// Where an annotation stands.
#[derive(Clone, Copy, Debug, PartialEq, Eq)]
pub enum Place {
    /// in front of a struct
    Struct,
    /// among the members of a struct
    Member,
    /// among the parameters of a function
    Parameter,
    /// in the contract of a function
    Contract,
    /// where a statement stands
    Statement,
    /// in front of the body of a loop
    Loop,
    /// among the arguments of a call
    Argument,
    /// where a ghost statement stands
    Ghost,
}

/// An annotation, with the place of its `_(`. What stands in front of a block stands without it.
#[derive(Drop)]
pub enum Annotation {
    Attributes(Span, Vec<Attribute>),
    Invariant(Invariant),
    /// a ghost field
    Field(Span, FieldDeclaration),
    /// a ghost parameter
    Parameter(Span, Parameter),
    Clause(Clause),
    Assert(Span, Expr),
    Ghost(Span, GhostStmt),
    Wrap(Span, Expr),
    Unwrap(Span, Expr),
    Unwrapping(Span, Expr),
    Atomic(Span, Vec<Expr>),
    /// a ghost argument
    Argument(Span, Expr),
}
