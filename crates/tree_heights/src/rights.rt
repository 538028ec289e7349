//! How high calls, right sides and assignments are.

ghost use Rattle.std.specs.Prelude.{◌≡◌, ◌+◌, ◌<◌, ◌≤◌};
ghost use Rattle.std.specs.Option.{option_map};
ghost use Rattle.c_syntax.specs.Views as view;
ghost use Rattle.c_syntax.specs.declared.expressions.Right.TheVariants as rights;
ghost use Rattle.tree_heights.specs.Heights as h;
ghost use Rattle.tree_heights.specs.Parts as p;

use crate::expressions::{expression, greatest_expression, greatest_ghost_argument};
use c_syntax::expressions::{Assignment, Call, Change, Compared, InterlockedCall, Right};

/// How high a call is.
pub(crate) fn call(x: &Call) -> u32
    requires few { p.call (view.call x.now) < 1073741824 }
    ensures high { result ≡ h.call (view.call x.now) }
    ensures low { result ≤ p.call (view.call x.now) }
{
    let arguments = greatest_expression(&x.arguments);
    let ghost_arguments = greatest_ghost_argument(&x.ghost_arguments);
    arguments.max(ghost_arguments).max(1)
}

/// How high an Interlocked call is.
pub(crate) fn interlocked(x: &InterlockedCall) -> u32
    requires few { p.interlocked (view.inter x.now) < 1073741824 }
    ensures high { result ≡ h.interlocked (view.inter x.now) }
    ensures low { result ≤ p.interlocked (view.inter x.now) }
{
    1 + expression(&x.field).max(greatest_expression(&x.arguments))
}

/// How high an Interlocked call is with what it is compared with.
fn compared(x: &InterlockedCall, other: &Option<Compared>) -> u32
    requires few { p.right (view.rhs (rights.Interlocked x.now other.now)) < 1073741824 }
    ensures high { result ≡ h.compared (view.inter x.now) (option_map view.comparison other.now) }
    ensures low { result ≤ p.right (view.rhs (rights.Interlocked x.now other.now)) }
{
    match other {
        None => interlocked(x),
        Some(compared) => 1 + interlocked(x).max(expression(&compared.other)),
    }
}

/// How high a right side is.
pub(crate) fn right(x: &Right) -> u32
    requires few { p.right (view.rhs x.now) < 1073741824 }
    ensures high { result ≡ h.right (view.rhs x.now) }
    ensures low { result ≤ p.right (view.rhs x.now) }
{
    match x {
        Right::Value(value) => expression(value),
        Right::Malloc(_, _, _) => 2,
        Right::Interlocked(call, other) => compared(call, other),
        Right::Call(called) => call(called),
    }
}

/// The height of what an assignment's sign has on its right, 0 of nothing.
pub(crate) fn change(x: &Change) -> u32
    requires few { p.effect (view.effect x.now) < 1073741824 }
    ensures high { result ≡ h.effect (view.effect x.now) }
    ensures low { result ≤ p.effect (view.effect x.now) }
{
    match x {
        Change::Set(value) => right(value),
        Change::Add(value) => expression(value),
        Change::Subtract(value) => expression(value),
        Change::Increment | Change::Decrement => 0,
    }
}

/// How high an assignment is.
pub(crate) fn assignment(x: &Assignment) -> u32
    requires few { p.assignment (view.assignment x.now) < 1073741824 }
    ensures high { result ≡ h.assignment (view.assignment x.now) }
    ensures low { result ≤ p.assignment (view.assignment x.now) }
{
    1 + expression(&x.left).max(change(&x.change))
}
