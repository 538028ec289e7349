//! Trees of statements.

use crate::expressions::{Assignment, Call, Expr, Identifier, Right, ValueType};
use crate::ghosts::GhostStmt;
use crate::token::Span;

/// `_(invariant ..)`, with the place of its `_(`.
#[derive(Drop)]
pub struct Invariant {
    pub span: Span,
    pub property: Expr,
}

/// A statement, with the place of its first token.
#[derive(Drop)]
pub enum Stmt {
    /// with the place of its `}`
    Block(Span, Vec<Stmt>, Span),
    /// `;`
    Skip(Span),
    Declare(Span, ValueType, Identifier, Option<Right>),
    Assign(Span, Assignment),
    Call(Span, Call),
    If(Span, Expr, Box<Stmt>),
    IfElse(Span, Expr, Box<Stmt>, Box<Stmt>),
    While(Span, Expr, Vec<Invariant>, Box<Stmt>),
    /// with the place of the word `while` behind the body
    Do(Span, Vec<Invariant>, Box<Stmt>, Span, Expr),
    For(Span, Option<Assignment>, Expr, Option<Assignment>, Vec<Invariant>, Box<Stmt>),
    Return(Span, Option<Expr>),
    /// `vcc_spawn`
    Spawn(Span, Call),
    Free(Span, Expr),
    Assert(Span, Expr),
    Ghost(Span, GhostStmt),
    Wrap(Span, Expr),
    Unwrap(Span, Expr),
    /// with the place of the block's `}`
    Unwrapping(Span, Expr, Vec<Stmt>, Span),
    Atomic(Span, Vec<Expr>, Vec<Stmt>, Span),
}
