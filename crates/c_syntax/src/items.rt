//! Trees of contracts, functions, structs and sources.

use crate::expressions::{Expr, Identifier, ValueType};
use crate::statements::{Invariant, Stmt};
use crate::token::Span;
use crate::tree::{Attribute, Condition};

/// An item of a writes list; `\span` and `\extent` with their places.
#[derive(Drop)]
pub enum WritesItem {
    Object(Expr),
    Span(Span, Expr),
    Extent(Span, Expr),
}

/// A clause of a contract, with the place of its `_(`.
#[derive(Drop)]
pub enum Clause {
    Condition(Span, Condition, Expr),
    Writes(Span, Vec<WritesItem>),
}

/// A parameter.
#[derive(Drop)]
pub struct Parameter {
    pub ty: ValueType,
    pub name: Identifier,
}

/// A function, with the places of its first token and of its body's braces.
#[derive(Drop)]
pub struct Function {
    pub span: Span,
    /// the type of its value; none for `void`
    pub result: Option<ValueType>,
    pub name: Identifier,
    pub parameters: Vec<Parameter>,
    pub ghost_parameters: Vec<Parameter>,
    pub contract: Vec<Clause>,
    pub start: Span,
    pub body: Vec<Stmt>,
    pub end: Span,
}

/// A field.
#[derive(Drop)]
pub struct FieldDeclaration {
    pub is_ghost: bool,
    pub is_volatile: bool,
    pub ty: ValueType,
    pub name: Identifier,
}

/// A member of a struct.
#[derive(Drop)]
pub enum Member {
    Field(FieldDeclaration),
    Invariant(Invariant),
}

/// A struct, with the place of its word `struct`.
#[derive(Drop)]
pub struct Struct {
    pub attributes: Vec<Attribute>,
    pub span: Span,
    pub name: Identifier,
    pub members: Vec<Member>,
}

/// A struct or a function.
#[derive(Drop)]
pub enum Item {
    Struct(Struct),
    Function(Function),
}

/// A source: its items, and the place of its end.
#[derive(Drop)]
pub struct Tree {
    pub items: Vec<Item>,
    pub end: Span,
}
