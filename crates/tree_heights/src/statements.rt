//! How high statements are.

ghost use Rattle.std.specs.Prelude.{◌≡◌, ◌<◌, ◌≤◌, map};
ghost use Rattle.std.specs.Option.{option_map};
ghost use Rattle.c_syntax.specs.Views as view;
ghost use Rattle.tree_heights.specs.Heights as h;
ghost use Rattle.tree_heights.specs.Parts as p;

use crate::expressions::{expression, greatest_expression};
use crate::ghosts::ghost_statement;
use crate::rights::{assignment, call, right};
use c_syntax::expressions::Assignment;
use c_syntax::statements::{Invariant, Stmt};

/// How high an invariant is.
pub(crate) fn invariant(x: &Invariant) -> u32
    requires few { p.invariant (view.invariant x.now) < 1073741824 }
    ensures high { result ≡ h.invariant (view.invariant x.now) }
    ensures low { result ≤ p.invariant (view.invariant x.now) }
{
    1 + expression(&x.property)
}

/// The greatest height of invariants, 0 of none.
fn greatest_invariant(all: &[Invariant]) -> u32
    requires few { p.all p.invariant (map view.invariant all.now) < 1073741824 }
    ensures high { result ≡ h.greatest h.invariant (map view.invariant all.now) }
    ensures low { result ≤ p.all p.invariant (map view.invariant all.now) }
{
    let mut most = 0;
    for x in all {
        most = most.max(invariant(x));
    }
    most
}

/// The height of an assignment of a `for`, 0 of none.
fn optional_assignment(x: &Option<Assignment>) -> u32
    requires few { p.optional p.assignment (option_map view.assignment x.now) < 1073741824 }
    ensures high { result ≡ h.optional h.assignment (option_map view.assignment x.now) }
    ensures low { result ≤ p.optional p.assignment (option_map view.assignment x.now) }
{
    match x {
        None => 0,
        Some(x) => assignment(x),
    }
}

/// How high a statement is.
#[cycle(statements)]
pub(crate) fn statement(x: &Stmt) -> u32
    requires few { p.statement (view.stm x.now) < 1073741824 }
    ensures high { result ≡ h.statement (view.stm x.now) }
    ensures low { result ≤ p.statement (view.stm x.now) }
{
    match x {
        Stmt::Block(_, all, _) => 1 + greatest_statement(all),
        Stmt::Skip(_) => 1,
        Stmt::Declare(_, _, _, None) => 2,
        Stmt::Declare(_, _, _, Some(first)) => 1 + right(first).max(1),
        Stmt::Assign(_, change) => assignment(change),
        Stmt::Call(_, called) => 1 + call(called),
        Stmt::If(_, test, yes) => 1 + expression(test).max(statement(yes)),
        Stmt::IfElse(_, test, first, second) => {
            1 + expression(test)
                .max(statement(first))
                .max(statement(second))
        }
        Stmt::While(_, test, invariants, body) => {
            1 + expression(test)
                .max(greatest_invariant(invariants))
                .max(statement(body))
        }
        Stmt::Do(_, invariants, body, _, test) => {
            1 + greatest_invariant(invariants)
                .max(statement(body))
                .max(expression(test))
        }
        Stmt::For(_, before, test, after, invariants, body) => {
            let head = optional_assignment(before)
                .max(expression(test))
                .max(optional_assignment(after));
            1 + head
                .max(greatest_invariant(invariants))
                .max(statement(body))
        }
        Stmt::Return(_, None) => 1,
        Stmt::Return(_, Some(value)) => 1 + expression(value),
        Stmt::Spawn(_, called) => 1 + call(called),
        Stmt::Free(_, pointer) => 1 + expression(pointer),
        Stmt::Assert(_, property) => 1 + expression(property),
        Stmt::Ghost(_, inner) => 1 + ghost_statement(inner),
        Stmt::Wrap(_, object) => 1 + expression(object),
        Stmt::Unwrap(_, object) => 1 + expression(object),
        Stmt::Unwrapping(_, object, all, _) => 1
            + expression(object).max(1 + greatest_statement(all)),
        Stmt::Atomic(_, objects, all, _) => {
            1 + greatest_expression(objects).max(1 + greatest_statement(all))
        }
    }
}

/// The greatest height of statements, 0 of none.
#[cycle(statements)]
pub(crate) fn greatest_statement(all: &[Stmt]) -> u32
    requires few { p.all p.statement (map view.stm all.now) < 1073741824 }
    ensures high { result ≡ h.greatest h.statement (map view.stm all.now) }
    ensures low { result ≤ p.all p.statement (map view.stm all.now) }
{
    let mut most = 0;
    for x in all {
        most = most.max(statement(x));
    }
    most
}
