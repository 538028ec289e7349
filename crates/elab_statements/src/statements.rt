//! Statements.

ghost use Rattle.std.specs.Prelude.{◌≡◌, map, IfOk, OnOk};
ghost use Rattle.c_syntax.specs.Grammar.{stms_of};
ghost use Rattle.c_syntax.specs.Views as view;
ghost use Rattle.typing_symbols.specs.Scopes.{known};
ghost use Rattle.elab_assignments.specs.Views.{before as stands};
ghost use Rattle.elab_clauses.specs.Numberings.{numbering as shaped};
ghost use Rattle.elab_statements.specs.Shaped.{typed_statement, typed_statements};
ghost use Rattle.elab_statements.specs.Rows.{row};
ghost use Rattle.elab_statements.specs.Settings.{setting as set, at};

use crate::choices::{if_else_row, if_row};
use crate::ghosts::ghost_statement;
use crate::inner::inner_statements;
use crate::loops::{atomic_row, loop_row, unwrapping_row};
use crate::rows::Row;
use crate::settings::Setting;
use crate::simple::{action_row, simple_row};
use c_syntax::statements::Stmt;
use elab_assignments::counters::Counters;
use elab_clauses::numbering::{Numbering, invariants};
use std::alloc::{AllocError, Global};
use typing_expressions::context::Quantified;
use typing_statements::scopes::know;
use typing_symbols::variables::Variables;

/// A statement before which so much stands.
#[cycle(statements)]
pub fn statement<'s, 'a>(
    alloc: Global,
    setting: Setting<'s, 'a>,
    numbering: Numbering<'s>,
    variables: &mut Variables<'a>,
    before: Counters,
    x: &'a Stmt,
) -> Result<Row, AllocError>
    ensures typed { IfOk result (λ r. row r ≡
        typed_statement (shaped numbering.entry) (at (set setting.entry) (known variables.old))
        (stands before) (view.stm x.now)) }
    ensures kept { OnOk result (known variables.new ≡ known variables.old) }
{
    match x {
        Stmt::Block(_, all, _) => statements(alloc, setting, numbering, variables, before, all),
        Stmt::If(span, test, yes) => {
            let inner = statement(alloc, setting, numbering, variables, before, yes)?;
            if_row(alloc, setting, variables, span.line, false, test, inner)
        }
        Stmt::IfElse(span, test, first, second) => {
            let yes = statement(alloc, setting, numbering, variables, before, first)?;
            let no = statement(alloc, setting, numbering, variables, yes.next, second)?;
            if_else_row(alloc, setting, variables, span.line, false, test, yes, no)
        }
        Stmt::While(_, _, all, body)
        | Stmt::Do(_, all, body, _, _)
        | Stmt::For(_, _, _, _, all, body) => {
            let none = Quantified::Nothing;
            let around = setting.around(variables, &none);
            let told = invariants(alloc, around, numbering, before.formulas, all)?;
            let start = Counters {
                formulas: told.next,
                ..before
            };
            let inner = statement(alloc, setting, numbering, variables, start, body)?;
            loop_row(alloc, setting, variables, before, x, told.specs, inner)
        }
        Stmt::Ghost(_, inner) => ghost_statement(alloc, setting, variables, before, inner),
        Stmt::Unwrapping(span, object, all, _) => {
            let start = before.with_formulas(1)?;
            let inner = statements(alloc, setting, numbering, variables, start, all)?;
            unwrapping_row(
                alloc,
                setting,
                variables,
                span.line,
                before.formulas,
                object,
                inner,
            )
        }
        Stmt::Atomic(span, objects, all, _) => {
            let inner = inner_statements(alloc, setting, variables, before, all)?;
            atomic_row(alloc, setting, variables, span.line, objects, inner)
        }
        Stmt::Spawn(span, _)
        | Stmt::Free(span, _)
        | Stmt::Assert(span, _)
        | Stmt::Wrap(span, _)
        | Stmt::Unwrap(span, _) => action_row(
            alloc, setting, variables, numbering, before, span.line, x,
        ),
        Stmt::Skip(_)
        | Stmt::Declare(_, _, _, _)
        | Stmt::Assign(_, _)
        | Stmt::Call(_, _)
        | Stmt::Return(_, _) => simple_row(alloc, setting, variables, before, x),
    }
}

/// Statements, each of which knows what those before it declare.
#[cycle(statements)]
pub fn statements<'s, 'a>(
    alloc: Global,
    setting: Setting<'s, 'a>,
    numbering: Numbering<'s>,
    variables: &mut Variables<'a>,
    before: Counters,
    all: &'a [Stmt],
) -> Result<Row, AllocError>
    ensures typed { IfOk result (λ r. row r ≡
        typed_statements (shaped numbering.entry) (at (set setting.entry) (known variables.old))
        (stands before) (stms_of (map view.stm all.now))) }
    ensures kept { OnOk result (known variables.new ≡ known variables.old) }
{
    let count = variables.count();
    let mut so_far = Row::nothing(alloc, before);
    for x in all {
        let one = statement(alloc, setting, numbering, variables, so_far.next, x)?;
        so_far = so_far.then(one)?;
        know(variables, x)?;
    }
    variables.keep(count);
    Ok(so_far)
}
