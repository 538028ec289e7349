//! Fronts of statements, blocks and bodies, and the statements that are made of them.

ghost use Rattle.std.specs.Prelude.{◌≡◌, map};
ghost use Rattle.std.specs.Option.{option_map};
ghost use Rattle.c_syntax.specs.Grammar as g;
ghost use Rattle.c_syntax.specs.Views.{exp, stm};
ghost use Rattle.reader_statements.specs.Rows.{as_block};
ghost use Rattle.reader_statements.specs.Views.{braces, holding};

use c_syntax::expressions::{Assignment, Expr};
use c_syntax::statements::{Invariant, Stmt};
use c_syntax::token::Span;

/// Statements in braces, with the places of the braces.
#[derive(Drop)]
pub struct Block {
    pub start: Span,
    pub statements: Vec<Stmt>,
    pub end: Span,
}

/// A loop's invariants, and the statement behind them.
#[derive(Drop)]
pub struct Body {
    pub invariants: Vec<Invariant>,
    pub inner: Box<Stmt>,
}

/// What stands in front of a loop's invariants and its body.
#[derive(Drop)]
pub enum LoopFront {
    While(Span, Expr),
    Do(Span),
    For(Span, Option<Box<Assignment>>, Expr, Option<Box<Assignment>>),
}

/// What stands in an annotation in front of the block that belongs to it.
#[derive(Drop)]
pub enum BlockFront {
    Unwrapping(Span, Expr),
    Atomic(Span, Vec<Expr>),
}

/// What is read of a statement before the first statement that it holds. A whole statement is in a box, since each function
/// that holds one by itself is proved case by case.
pub enum Front {
    /// a statement that holds no other
    Whole(Box<Stmt>),
    /// a block, of which nothing is read
    Block,
    /// `if` and its condition
    Branch(Span, Expr),
    Loop(LoopFront),
    Annotation(BlockFront),
}

/// Statements between these braces.
#[tactic(auto, using(crate::proofs::Vectors::stms_are))]
pub fn between(start: Span, statements: Vec<Stmt>, end: Span) -> Block
    ensures { braces result ≡ record { start = start; all = g.stms_of (map stm statements.items); end = end } }
{
    Block {
        start,
        statements,
        end,
    }
}

/// A block as a statement.
pub fn block_of(block: Block) -> Stmt
    ensures { stm result ≡ as_block (braces block) }
{
    Stmt::Block(block.start, block.statements, block.end)
}

/// An annotation with its block.
pub fn annotation_of(front: BlockFront, block: Block) -> Stmt
    ensures { stm result ≡ holding front (braces block) }
{
    match front {
        BlockFront::Unwrapping(span, object) => {
            Stmt::Unwrapping(span, object, block.statements, block.end)
        }
        BlockFront::Atomic(span, objects) => {
            Stmt::Atomic(span, objects, block.statements, block.end)
        }
    }
}

/// `if`, with `else` or without.
pub fn branch_of(span: Span, condition: Expr, held: Box<Stmt>, second: Option<Box<Stmt>>) -> Stmt
    ensures { stm result ≡ g.if_of span (exp condition) (stm held.value) (option_map (λ b. stm b.value) second) }
{
    match second {
        None => Stmt::If(span, condition, held),
        Some(second) => Stmt::IfElse(span, condition, held, second),
    }
}
