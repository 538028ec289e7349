//! Statements that hold others.

ghost use Rattle.std.specs.Prelude.{◌≡◌, IfOk, map, option_map};
ghost use Rattle.c_syntax.specs.Views as tree;
ghost use Rattle.elab_code.specs.Views.{around as here};
ghost use Rattle.elab_assignments.specs.Views.{before as stands};
ghost use Rattle.typing_symbols.specs.Scopes.{known};
ghost use Rattle.typed_program.specs.Codes as codes;
ghost use Rattle.typed_program.specs.Numbers as numbers;
ghost use Rattle.typed_program.specs.Statements as spec;
ghost use Rattle.typed_program.specs.Trees as t;
ghost use Rattle.typed_program.specs.Views as view;
ghost use Rattle.elab_statements.specs.Forms.{assigned_behind as with_assigned, loop_row as loop_typed};
ghost use Rattle.elab_statements.specs.Shaped.{while_row as while_typed, do_row as do_typed, unwrapping_row as unwrapping_typed};
ghost use Rattle.elab_statements.specs.Rows.{row, inner as inner_seen, appended, single};
ghost use Rattle.elab_statements.specs.Settings.{setting as set, at};

use crate::rows::{InnerRow, Row};
use crate::settings::Setting;
use c_syntax::expressions::{Assignment, Expr};
use c_syntax::statements::Stmt as Tree;
use elab_assignments::assignments::assigned;
use elab_assignments::counters::Counters;
use elab_assignments::objects::{all_listed, struct_at};
use elab_assignments::values::code;
use elab_code::around::Around;
use method::program::{Action, Spec, Stmt};
use std::alloc::{AllocError, Global};
use typing_expressions::context::Quantified;
use typing_expressions::forms::first_place;
use typing_symbols::variables::Variables;

/// The assignment in front of a loop or behind its body, if there is one, behind this row.
#[tactic(auto, using(crate::proofs::Sequences::append_none))]
fn assigned_behind<'s, 'a>(
    alloc: Global,
    around: Around<'s, 'a>,
    so_far: Row,
    x: &'a Option<Assignment>,
) -> Result<Row, AllocError>
    ensures { IfOk result (λ r. row r ≡
        with_assigned (here around.entry) (row so_far) (option_map tree.assignment x.now)) }
{
    match x {
        None => Ok(so_far),
        Some(change) => {
            let statement = assigned(alloc, around, first_place(&change.left).line, change)?;
            let next = so_far.next;
            so_far.followed_by(next, statement)
        }
    }
}

/// `while`, behind these statements.
fn while_behind<'s, 'a>(
    alloc: Global,
    around: Around<'s, 'a>,
    front: Row,
    line: u32,
    invariants: Vec<Spec>,
    test: &'a Expr,
    body: Row,
) -> Result<Row, AllocError>
    ensures { IfOk result (λ r. row r ≡
        appended (row front) (while_typed line (view.specs invariants.items) (codes.code (here around.entry)
        (tree.exp test.now)) (row body))) }
{
    let condition = code(alloc, around, test)?;
    let next = body.next;
    let statement = Stmt::While(line, invariants, condition, body.statements);
    front.followed_by(next, statement)
}

/// `do`.
fn do_row<'s, 'a>(
    alloc: Global,
    around: Around<'s, 'a>,
    line: u32,
    invariants: Vec<Spec>,
    body: Row,
    tested: u32,
    test: &'a Expr,
) -> Result<Row, AllocError>
    ensures { IfOk result (λ r. row r ≡
        do_typed line (view.specs invariants.items) (row body) tested (codes.code (here around.entry)
        (tree.exp test.now))) }
{
    let condition = code(alloc, around, test)?;
    let next = body.next;
    let statement = Stmt::DoWhile(line, invariants, body.statements, tested, condition);
    Row::single(alloc, next, statement)
}

/// A loop with these invariants and this body; the body of a `for` ends with its last assignment. Of any other
/// statement the body alone.
pub fn loop_row<'s, 'a>(
    alloc: Global,
    setting: Setting<'s, 'a>,
    variables: &Variables<'a>,
    before: Counters,
    x: &'a Tree,
    invariants: Vec<Spec>,
    body: Row,
) -> Result<Row, AllocError>
    ensures { IfOk result (λ r. row r ≡
        loop_typed (at (set setting.entry) (known variables.now)) (stands before) (tree.stm x.now)
        (view.specs invariants.items) (row body)) }
{
    let none = Quantified::Nothing;
    let around = setting.around(variables, &none);
    match x {
        Tree::While(span, test, _, _) => {
            let front = Row::nothing(alloc, before);
            while_behind(alloc, around, front, span.line, invariants, test, body)
        }
        Tree::Do(span, _, _, tested, test) => do_row(
            alloc,
            around,
            span.line,
            invariants,
            body,
            tested.line,
            test,
        ),
        Tree::For(span, first, test, last, _, _) => {
            let start = Row::nothing(alloc, before);
            let front = assigned_behind(alloc, around, start, first)?;
            let turn = assigned_behind(alloc, around, body, last)?;
            while_behind(alloc, around, front, span.line, invariants, test, turn)
        }
        _ => Ok(body),
    }
}

/// An unwrapping block.
pub fn unwrapping_row<'s, 'a>(
    alloc: Global,
    setting: Setting<'s, 'a>,
    variables: &Variables<'a>,
    line: u32,
    formula: u32,
    object: &'a Expr,
    body: Row,
) -> Result<Row, AllocError>
    ensures { IfOk result (λ r. let a = at (set setting.entry) (known variables.now) in row r ≡
        unwrapping_typed line (numbers.struct_at a (tree.exp object.now)) formula (codes.code a
        (tree.exp object.now)) (row body)) }
{
    let none = Quantified::Nothing;
    let around = setting.around(variables, &none);
    let ty = struct_at(around, object)?;
    let value = code(alloc, around, object)?;
    let next = body.next;
    let statement = Stmt::Unwrapping(line, ty, formula, value, body.statements);
    Row::single(alloc, next, statement)
}

/// An atomic block.
pub fn atomic_row<'s, 'a>(
    alloc: Global,
    setting: Setting<'s, 'a>,
    variables: &Variables<'a>,
    line: u32,
    objects: &'a [Expr],
    body: InnerRow,
) -> Result<Row, AllocError>
    ensures { IfOk result (λ r. row r ≡
        single (inner_seen body).next (t.Do line (t.Atomic (map (spec.listed (at (set setting.entry)
        (known variables.now))) (tree.exps objects.now)) (inner_seen body).statements))) }
{
    let none = Quantified::Nothing;
    let listed = all_listed(alloc, setting.around(variables, &none), objects)?;
    let next = body.next;
    let action = Action::Atomic(listed, body.statements);
    Row::single(alloc, next, Stmt::Do(line, action))
}
