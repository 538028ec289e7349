//! Statements within an atomic block.

ghost use Rattle.std.specs.Prelude.{◌≡◌, map, IfOk, OnOk};
ghost use Rattle.c_syntax.specs.Grammar.{ghosts_of, stms_of};
ghost use Rattle.c_syntax.specs.Views as view;
ghost use Rattle.typing_symbols.specs.Scopes.{known};
ghost use Rattle.elab_assignments.specs.Views.{before as stands};
ghost use Rattle.typed_program.specs.Statements as spec;
ghost use Rattle.typed_program.specs.Trees as t;
ghost use Rattle.elab_statements.specs.Rows.{inner as seen, no_inner, single_inner, typed_inner_ghost, typed_inner_ghosts, typed_inner, typed_inners};
ghost use Rattle.elab_statements.specs.Settings.{setting as set, at};

use crate::choices::{inner_if_else_row, inner_if_row};
use crate::counts::behind_statement;
use crate::rows::InnerRow;
use crate::settings::Setting;
use crate::simple_ghosts::inner_change_row;
use c_syntax::expressions::Assignment;
use c_syntax::ghosts::GhostStmt;
use c_syntax::statements::Stmt;
use elab_assignments::assignments::inner_assigned;
use elab_assignments::counters::Counters;
use method::program::Inner;
use std::alloc::{AllocError, Global};
use typing_expressions::context::Quantified;
use typing_statements::scopes::{know, know_ghost};
use typing_symbols::variables::Variables;

/// A ghost statement within an atomic block, before which so much stands.
#[cycle(inner_ghosts)]
fn inner_ghost<'s, 'a>(
    alloc: Global,
    setting: Setting<'s, 'a>,
    variables: &mut Variables<'a>,
    before: Counters,
    x: &'a GhostStmt,
) -> Result<InnerRow, AllocError>
    ensures typed { IfOk result (λ r. seen r ≡
        typed_inner_ghost (at (set setting.entry) (known variables.old)) (stands before) (view.ghost x.now)) }
    ensures kept { OnOk result (known variables.new ≡ known variables.old) }
{
    match x {
        GhostStmt::Block(_, all) => inner_ghosts(alloc, setting, variables, before, all),
        GhostStmt::If(span, test, yes) => {
            let inner = inner_ghost(alloc, setting, variables, before, yes)?;
            inner_if_row(alloc, setting, variables, span.line, test, inner)
        }
        GhostStmt::IfElse(span, test, first, second) => {
            let yes = inner_ghost(alloc, setting, variables, before, first)?;
            let no = inner_ghost(alloc, setting, variables, yes.next, second)?;
            inner_if_else_row(alloc, setting, variables, span.line, test, yes, no)
        }
        GhostStmt::Declare(span, _, _, _)
        | GhostStmt::Assign(span, _, _, _)
        | GhostStmt::Owns(span, _, _, _)
        | GhostStmt::DestroyClaim(span, _, _)
        | GhostStmt::Wrap(span, _)
        | GhostStmt::Unwrap(span, _) => {
            inner_change_row(alloc, setting, variables, before, span.line, x)
        }
    }
}

/// Ghost statements within an atomic block, each of which knows what those before it declare.
#[cycle(inner_ghosts)]
fn inner_ghosts<'s, 'a>(
    alloc: Global,
    setting: Setting<'s, 'a>,
    variables: &mut Variables<'a>,
    before: Counters,
    all: &'a [GhostStmt],
) -> Result<InnerRow, AllocError>
    ensures typed { IfOk result (λ r. seen r ≡
        typed_inner_ghosts (at (set setting.entry) (known variables.old)) (stands before) (ghosts_of
        (map view.ghost all.now))) }
    ensures kept { OnOk result (known variables.new ≡ known variables.old) }
{
    let count = variables.count();
    let mut so_far = InnerRow::nothing(alloc, before);
    for x in all {
        let one = inner_ghost(alloc, setting, variables, so_far.next, x)?;
        so_far = so_far.then(one)?;
        know_ghost(variables, x)?;
    }
    variables.keep(count);
    Ok(so_far)
}

/// An assignment within an atomic block.
fn assignment<'s, 'a>(
    alloc: Global,
    setting: Setting<'s, 'a>,
    variables: &Variables<'a>,
    before: Counters,
    line: u32,
    x: &'a Assignment,
) -> Result<InnerRow, AllocError>
    ensures { IfOk result (λ r. let a = at (set setting.entry) (known variables.now) in let y = view.assignment x.now in seen r ≡
        single_inner (stands before) (t.Inside line (t.Assign (spec.target a y.left)
        (spec.changed a y.left y.effect)))) }
{
    let none = Quantified::Nothing;
    let change = inner_assigned(alloc, setting.around(variables, &none), x)?;
    InnerRow::single(alloc, before, Inner::Inside(line, change))
}

/// What stands in no atomic block.
fn no_inner_statement(alloc: Global, before: Counters, x: &Stmt) -> Result<InnerRow, AllocError>
    ensures { IfOk result (λ r. seen r ≡ no_inner (spec.plus (stands before) (spec.in_statement (view.stm x.now)))) }
{
    let next = behind_statement(before, x)?;
    Ok(InnerRow::nothing(alloc, next))
}

/// A statement within an atomic block, before which so much stands.
#[cycle(inner_statements)]
fn inner_statement<'s, 'a>(
    alloc: Global,
    setting: Setting<'s, 'a>,
    variables: &mut Variables<'a>,
    before: Counters,
    x: &'a Stmt,
) -> Result<InnerRow, AllocError>
    ensures typed { IfOk result (λ r. seen r ≡
        typed_inner (at (set setting.entry) (known variables.old)) (stands before) (view.stm x.now)) }
    ensures kept { OnOk result (known variables.new ≡ known variables.old) }
{
    match x {
        Stmt::Block(_, all, _) => inner_statements(alloc, setting, variables, before, all),
        Stmt::Assign(span, change) => {
            assignment(alloc, setting, variables, before, span.line, change)
        }
        Stmt::Ghost(_, inner) => inner_ghost(alloc, setting, variables, before, inner),
        _ => no_inner_statement(alloc, before, x),
    }
}

/// Statements within an atomic block, each of which knows what those before it declare.
#[cycle(inner_statements)]
pub fn inner_statements<'s, 'a>(
    alloc: Global,
    setting: Setting<'s, 'a>,
    variables: &mut Variables<'a>,
    before: Counters,
    all: &'a [Stmt],
) -> Result<InnerRow, AllocError>
    ensures typed { IfOk result (λ r. seen r ≡
        typed_inners (at (set setting.entry) (known variables.old)) (stands before) (stms_of (map view.stm all.now))) }
    ensures kept { OnOk result (known variables.new ≡ known variables.old) }
{
    let count = variables.count();
    let mut so_far = InnerRow::nothing(alloc, before);
    for x in all {
        let one = inner_statement(alloc, setting, variables, so_far.next, x)?;
        so_far = so_far.then(one)?;
        know(variables, x)?;
    }
    variables.keep(count);
    Ok(so_far)
}
