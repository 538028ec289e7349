//! Branches.

ghost use Rattle.std.specs.Prelude.{◌≡◌, IfOk};
ghost use Rattle.c_syntax.specs.Views as tree;
ghost use Rattle.typing_symbols.specs.Scopes.{known};
ghost use Rattle.typed_program.specs.Codes as codes;
ghost use Rattle.elab_statements.specs.Rows.{row, inner, nothing, branched, no_inner, branched_inner};
ghost use Rattle.elab_statements.specs.Settings.{setting as set, at};

use crate::rows::{InnerRow, Row};
use crate::settings::Setting;
use c_syntax::expressions::Expr;
use elab_assignments::values::code;
use method::program::{Inner, Stmt};
use std::alloc::{AllocError, Global};
use typing_expressions::context::Quantified;
use typing_symbols::variables::Variables;

/// `if` with an `else`, ghost or not.
pub fn if_else_row<'s, 'a>(
    alloc: Global,
    setting: Setting<'s, 'a>,
    variables: &Variables<'a>,
    line: u32,
    in_ghost: bool,
    test: &'a Expr,
    yes: Row,
    no: Row,
) -> Result<Row, AllocError>
    ensures { IfOk result (λ r. row r ≡
        branched line in_ghost (codes.code (at (set setting.entry) (known variables.now)) (tree.exp test.now))
        (row yes) (row no)) }
{
    let none = Quantified::Nothing;
    let condition = code(alloc, setting.around(variables, &none), test)?;
    let next = no.next;
    let statement = Stmt::If(line, in_ghost, condition, yes.statements, no.statements);
    Row::single(alloc, next, statement)
}

/// `if`, ghost or not.
pub fn if_row<'s, 'a>(
    alloc: Global,
    setting: Setting<'s, 'a>,
    variables: &Variables<'a>,
    line: u32,
    in_ghost: bool,
    test: &'a Expr,
    yes: Row,
) -> Result<Row, AllocError>
    ensures { IfOk result (λ r. row r ≡
        branched line in_ghost (codes.code (at (set setting.entry) (known variables.now)) (tree.exp test.now))
        (row yes) (nothing (row yes).next)) }
{
    let no = Row::nothing(alloc, yes.next);
    if_else_row(alloc, setting, variables, line, in_ghost, test, yes, no)
}

/// `if` with an `else` within an atomic block.
pub fn inner_if_else_row<'s, 'a>(
    alloc: Global,
    setting: Setting<'s, 'a>,
    variables: &Variables<'a>,
    line: u32,
    test: &'a Expr,
    yes: InnerRow,
    no: InnerRow,
) -> Result<InnerRow, AllocError>
    ensures { IfOk result (λ r. inner r ≡
        branched_inner line (codes.code (at (set setting.entry) (known variables.now)) (tree.exp test.now))
        (inner yes) (inner no)) }
{
    let none = Quantified::Nothing;
    let condition = code(alloc, setting.around(variables, &none), test)?;
    let next = no.next;
    let statement = Inner::InsideIf(line, condition, yes.statements, no.statements);
    InnerRow::single(alloc, next, statement)
}

/// `if` within an atomic block.
pub fn inner_if_row<'s, 'a>(
    alloc: Global,
    setting: Setting<'s, 'a>,
    variables: &Variables<'a>,
    line: u32,
    test: &'a Expr,
    yes: InnerRow,
) -> Result<InnerRow, AllocError>
    ensures { IfOk result (λ r. inner r ≡
        branched_inner line (codes.code (at (set setting.entry) (known variables.now)) (tree.exp test.now))
        (inner yes) (no_inner (inner yes).next)) }
{
    let no = InnerRow::nothing(alloc, yes.next);
    inner_if_else_row(alloc, setting, variables, line, test, yes, no)
}
