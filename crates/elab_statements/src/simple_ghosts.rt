//! Ghost statements that hold no others.

ghost use Rattle.std.specs.Prelude.{◌≡◌, IfOk, option_map};
ghost use Rattle.c_syntax.specs.Views as view;
ghost use Rattle.elab_code.specs.Views.{around as here};
ghost use Rattle.elab_assignments.specs.Views.{before as stands};
ghost use Rattle.typing_symbols.specs.Scopes.{known};
ghost use Rattle.typed_program.specs.Trees as t;
ghost use Rattle.typed_program.specs.Views as program;
ghost use Rattle.elab_statements.specs.Forms.{ghost_action, ghost_action_row, ghost_change, ghost_declared, inner_change_row as inner_typed};
ghost use Rattle.elab_statements.specs.Rows.{row, inner};
ghost use Rattle.elab_statements.specs.Settings.{setting as set, at};

use crate::counts::behind_ghost;
use crate::rows::{InnerRow, Row};
use crate::settings::Setting;
use c_syntax::expressions::{Identifier, ValueType};
use c_syntax::ghosts::{GhostRight, GhostStmt};
use elab_assignments::counters::Counters;
use elab_assignments::ghosts::{claim_end, ghost_assigned, ghost_right, owned_change};
use elab_assignments::objects::wrapped;
use elab_assignments::places::variable;
use elab_assignments::values::code;
use elab_code::around::Around;
use method::program::{Action, Simple};
use std::alloc::{AllocError, Global};
use typing_expressions::context::Quantified;
use typing_symbols::variables::Variables;

/// A declaration.
fn declared<'s, 'a>(
    alloc: Global,
    around: Around<'s, 'a>,
    before: Counters,
    ty: &'a ValueType,
    name: &'a Identifier,
    first: &'a Option<GhostRight>,
) -> Result<Action, AllocError>
    ensures { IfOk result (λ v. program.action v ≡
        ghost_declared (here around.entry) (stands before) (view.ty ty.now) (view.id name.now) (option_map view.ghost_rhs first.now)) }
{
    let number = variable(around, name)?;
    match first {
        None => Ok(Action::Declare(number)),
        Some(value) => {
            let value = ghost_right(alloc, around, before, ty, value)?;
            Ok(Action::Define(number, value))
        }
    }
}

/// The change that a ghost statement is, if it is one that may also stand in an atomic block.
fn change_of<'s, 'a>(
    alloc: Global,
    around: Around<'s, 'a>,
    before: Counters,
    x: &'a GhostStmt,
) -> Result<Option<Simple>, AllocError>
    ensures { IfOk result (λ v. option_map program.simple v ≡
        ghost_change (here around.entry) (stands before) (view.ghost x.now)) }
{
    match x {
        GhostStmt::Assign(_, left, _, value) => {
            let simple = ghost_assigned(alloc, around, before, left, value)?;
            Ok(Some(simple))
        }
        GhostStmt::Owns(_, left, _, members) => {
            let simple = owned_change(alloc, around, left, members)?;
            Ok(Some(simple))
        }
        GhostStmt::DestroyClaim(_, claim, objects) => {
            let simple = claim_end(alloc, around, before, claim, objects)?;
            Ok(Some(simple))
        }
        _ => Ok(None),
    }
}

/// A change as an action.
fn simply(change: Option<Simple>) -> Option<Action>
    ensures { option_map program.action result ≡ option_map t.Simply (option_map program.simple change) }
{
    match change {
        Some(simple) => Some(Action::Simply(simple)),
        None => None,
    }
}

/// The action that a ghost statement is, if it holds no others.
fn action_of<'s, 'a>(
    alloc: Global,
    around: Around<'s, 'a>,
    before: Counters,
    x: &'a GhostStmt,
) -> Result<Option<Action>, AllocError>
    ensures { IfOk result (λ v. option_map program.action v ≡
        ghost_action (here around.entry) (stands before) (view.ghost x.now)) }
{
    match x {
        GhostStmt::Declare(_, ty, name, first) => {
            let declaration = declared(alloc, around, before, ty, name, first)?;
            Ok(Some(declaration))
        }
        GhostStmt::Wrap(_, object) => {
            let wrap = wrapped(alloc, around, before, object)?;
            Ok(Some(wrap))
        }
        GhostStmt::Unwrap(_, object) => {
            let value = code(alloc, around, object)?;
            Ok(Some(Action::UnwrapObject(value)))
        }
        _ => {
            let simple = change_of(alloc, around, before, x)?;
            Ok(simply(simple))
        }
    }
}

/// A ghost statement that holds no others, with its line; of any other nothing.
pub fn action_row<'s, 'a>(
    alloc: Global,
    setting: Setting<'s, 'a>,
    variables: &Variables<'a>,
    before: Counters,
    line: u32,
    x: &'a GhostStmt,
) -> Result<Row, AllocError>
    ensures { IfOk result (λ r. row r ≡
        ghost_action_row (at (set setting.entry) (known variables.now)) (stands before) line (view.ghost x.now)) }
{
    let none = Quantified::Nothing;
    let around = setting.around(variables, &none);
    let next = behind_ghost(before, x)?;
    let action = action_of(alloc, around, before, x)?;
    Row::done(alloc, next, line, action)
}

/// A ghost statement within an atomic block that holds no others, with its line; of any other nothing.
pub fn inner_change_row<'s, 'a>(
    alloc: Global,
    setting: Setting<'s, 'a>,
    variables: &Variables<'a>,
    before: Counters,
    line: u32,
    x: &'a GhostStmt,
) -> Result<InnerRow, AllocError>
    ensures { IfOk result (λ r. inner r ≡
        inner_typed (at (set setting.entry) (known variables.now)) (stands before) line (view.ghost x.now)) }
{
    let none = Quantified::Nothing;
    let around = setting.around(variables, &none);
    let next = behind_ghost(before, x)?;
    let change = change_of(alloc, around, before, x)?;
    InnerRow::done(alloc, next, line, change)
}
