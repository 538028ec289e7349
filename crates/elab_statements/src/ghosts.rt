//! Ghost statements.

ghost use Rattle.std.specs.Prelude.{◌≡◌, map, IfOk, OnOk};
ghost use Rattle.c_syntax.specs.Grammar.{ghosts_of};
ghost use Rattle.c_syntax.specs.Views as view;
ghost use Rattle.typing_symbols.specs.Scopes.{known};
ghost use Rattle.elab_assignments.specs.Views.{before as stands};
ghost use Rattle.elab_statements.specs.Rows.{row, typed_ghost, typed_ghosts};
ghost use Rattle.elab_statements.specs.Settings.{setting as set, at};

use crate::choices::{if_else_row, if_row};
use crate::rows::Row;
use crate::settings::Setting;
use crate::simple_ghosts::action_row;
use c_syntax::ghosts::GhostStmt;
use elab_assignments::counters::Counters;
use std::alloc::{AllocError, Global};
use typing_statements::scopes::know_ghost;
use typing_symbols::variables::Variables;

/// A ghost statement before which so much stands.
#[cycle(ghosts)]
pub fn ghost_statement<'s, 'a>(
    alloc: Global,
    setting: Setting<'s, 'a>,
    variables: &mut Variables<'a>,
    before: Counters,
    x: &'a GhostStmt,
) -> Result<Row, AllocError>
    ensures typed { IfOk result (λ r. row r ≡
        typed_ghost (at (set setting.entry) (known variables.old)) (stands before) (view.ghost x.now)) }
    ensures kept { OnOk result (known variables.new ≡ known variables.old) }
{
    match x {
        GhostStmt::Block(_, all) => ghost_statements(alloc, setting, variables, before, all),
        GhostStmt::If(span, test, yes) => {
            let inner = ghost_statement(alloc, setting, variables, before, yes)?;
            if_row(alloc, setting, variables, span.line, true, test, inner)
        }
        GhostStmt::IfElse(span, test, first, second) => {
            let yes = ghost_statement(alloc, setting, variables, before, first)?;
            let no = ghost_statement(alloc, setting, variables, yes.next, second)?;
            if_else_row(alloc, setting, variables, span.line, true, test, yes, no)
        }
        GhostStmt::Declare(span, _, _, _)
        | GhostStmt::Assign(span, _, _, _)
        | GhostStmt::Owns(span, _, _, _)
        | GhostStmt::DestroyClaim(span, _, _)
        | GhostStmt::Wrap(span, _)
        | GhostStmt::Unwrap(span, _) => {
            action_row(alloc, setting, variables, before, span.line, x)
        }
    }
}

/// Ghost statements, each of which knows what those before it declare.
#[cycle(ghosts)]
fn ghost_statements<'s, 'a>(
    alloc: Global,
    setting: Setting<'s, 'a>,
    variables: &mut Variables<'a>,
    before: Counters,
    all: &'a [GhostStmt],
) -> Result<Row, AllocError>
    ensures typed { IfOk result (λ r. row r ≡
        typed_ghosts (at (set setting.entry) (known variables.old)) (stands before) (ghosts_of
        (map view.ghost all.now))) }
    ensures kept { OnOk result (known variables.new ≡ known variables.old) }
{
    let count = variables.count();
    let mut so_far = Row::nothing(alloc, before);
    for x in all {
        let one = ghost_statement(alloc, setting, variables, so_far.next, x)?;
        so_far = so_far.then(one)?;
        know_ghost(variables, x)?;
    }
    variables.keep(count);
    Ok(so_far)
}
