//! Statements that hold no others.

ghost use Rattle.std.specs.Prelude.{◌≡◌, IfOk, option_map};
ghost use Rattle.c_syntax.specs.Views as view;
ghost use Rattle.elab_code.specs.Views.{around as here};
ghost use Rattle.elab_assignments.specs.Views.{before as stands};
ghost use Rattle.elab_clauses.specs.Numberings.{numbering as shaped};
ghost use Rattle.typing_symbols.specs.Scopes.{known};
ghost use Rattle.typed_program.specs.Views as program;
ghost use Rattle.elab_statements.specs.Forms.{action as acted, action_row as action_typed, simple_row as simple_typed};
ghost use Rattle.elab_statements.specs.Rows.{row};
ghost use Rattle.elab_statements.specs.Settings.{setting as set, at};
ghost use Rattle.elab_statements.specs.Shaped.{declared_statement};

use crate::counts::behind_statement;
use crate::rows::Row;
use crate::settings::Setting;
use c_syntax::expressions::{Identifier, Right, ValueType};
use c_syntax::statements::Stmt as Tree;
use elab_assignments::assignments::{assigned, defined};
use elab_assignments::calls::{arguments, call_of};
use elab_assignments::counters::Counters;
use elab_assignments::objects::{returned, wrapped};
use elab_assignments::places::variable;
use elab_assignments::values::code;
use elab_clauses::numbering::{Numbering, said};
use elab_code::around::Around;
use elab_code::numbers::function_number;
use method::program::{Action, Receiver, Stmt};
use std::alloc::{AllocError, Global};
use typing_expressions::context::Quantified;
use typing_symbols::variables::Variables;

/// A declaration.
fn declared<'s, 'a>(
    alloc: Global,
    around: Around<'s, 'a>,
    line: u32,
    ty: &'a ValueType,
    name: &'a Identifier,
    first: &'a Option<Right>,
) -> Result<Stmt, AllocError>
    ensures { IfOk result (λ s. program.stmt s ≡
        declared_statement (here around.entry) line (view.ty ty.now) (view.id name.now)
        (option_map view.rhs first.now)) }
{
    match first {
        None => {
            let number = variable(around, name)?;
            Ok(Stmt::Do(line, Action::Declare(number)))
        }
        Some(value) => defined(alloc, around, line, ty, name, value),
    }
}

/// The action that a statement is, if it is one that neither declares nor assigns.
fn action_of<'s, 'a>(
    alloc: Global,
    around: Around<'s, 'a>,
    numbering: Numbering<'_>,
    before: Counters,
    x: &'a Tree,
) -> Result<Option<Action>, AllocError>
    ensures { IfOk result (λ v. option_map program.action v ≡
        acted (shaped numbering.entry) (here around.entry) (stands before) (view.stm x.now)) }
{
    match x {
        Tree::Spawn(_, called) => {
            let number = function_number(around.context.scope.declarations, &called.function)?;
            let values = arguments(alloc, around, called)?;
            Ok(Some(Action::SpawnThread(number, values)))
        }
        Tree::Free(_, pointer) => {
            let object = code(alloc, around, pointer)?;
            Ok(Some(Action::FreeObject(object)))
        }
        Tree::Assert(_, property) => {
            let holds = said(alloc, around, numbering, before.formulas, property)?;
            Ok(Some(Action::AssertSpec(holds.spec)))
        }
        Tree::Wrap(_, object) => {
            let wrap = wrapped(alloc, around, before, object)?;
            Ok(Some(wrap))
        }
        Tree::Unwrap(_, object) => {
            let value = code(alloc, around, object)?;
            Ok(Some(Action::UnwrapObject(value)))
        }
        _ => Ok(None),
    }
}

/// A declaration, an assignment, a call or a return; of any other statement nothing.
pub fn simple_row<'s, 'a>(
    alloc: Global,
    setting: Setting<'s, 'a>,
    variables: &Variables<'a>,
    before: Counters,
    x: &'a Tree,
) -> Result<Row, AllocError>
    ensures { IfOk result (λ r. row r ≡
        simple_typed (at (set setting.entry) (known variables.now)) (stands before) (view.stm x.now)) }
{
    let none = Quantified::Nothing;
    let around = setting.around(variables, &none);
    match x {
        Tree::Declare(span, ty, name, first) => {
            let statement = declared(alloc, around, span.line, ty, name, first)?;
            Row::single(alloc, before, statement)
        }
        Tree::Assign(span, change) => {
            let statement = assigned(alloc, around, span.line, change)?;
            Row::single(alloc, before, statement)
        }
        Tree::Call(span, called) => {
            let statement = call_of(alloc, around, span.line, Receiver::Nobody, None, called)?;
            Row::single(alloc, before, statement)
        }
        Tree::Return(span, value) => {
            let value = returned(alloc, around, value.as_ref())?;
            Row::single(alloc, before, Stmt::Return(span.line, value))
        }
        _ => Ok(Row::nothing(alloc, before)),
    }
}

/// A statement that is an action which neither declares nor assigns; of any other nothing.
pub fn action_row<'s, 'a>(
    alloc: Global,
    setting: Setting<'s, 'a>,
    variables: &Variables<'a>,
    numbering: Numbering<'_>,
    before: Counters,
    line: u32,
    x: &'a Tree,
) -> Result<Row, AllocError>
    ensures { IfOk result (λ r. row r ≡
        action_typed (shaped numbering.entry) (at (set setting.entry) (known variables.now))
        (stands before) line (view.stm x.now)) }
{
    let none = Quantified::Nothing;
    let around = setting.around(variables, &none);
    let next = behind_statement(before, x)?;
    let action = action_of(alloc, around, numbering, before, x)?;
    Row::done(alloc, next, line, action)
}
