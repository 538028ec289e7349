//! Statements that hold no others.

ghost use Rattle.std.specs.Prelude.{◌≡◌, ◌||◌, not, map};
ghost use Rattle.std.specs.Option.{option_map};
ghost use Rattle.c_syntax.specs.Views as view;
ghost use Rattle.typing_spec.specs.Atomic as atomic;
ghost use Rattle.typing_spec.specs.Contexts as contexts;
ghost use Rattle.typing_spec.specs.Functions as functions;
ghost use Rattle.typing_spec.specs.Pieces as pieces;
ghost use Rattle.typing_expressions.specs.Violations.{violations};
ghost use Rattle.typing_expressions.specs.Views.{context as around, maybe_kind, maybe_broken, findings};
ghost use Rattle.typing_statements.specs.Breaks as spec;

use crate::arguments::{call, misconverted};
use crate::ghosts::{atomic_breaks, references, wrap_breaks};
use crate::rights::{assignment, right};
use c_syntax::expressions::{Assignment, Call, Change, Expr, Right, ValueType};
use c_syntax::statements::Invariant;
use c_syntax::token::Span;
use typing_expressions::context::{Context, Text};
use typing_expressions::expressions::expression;
use typing_expressions::forms::first_place;
use typing_expressions::judged::unconverted_if;
use typing_expressions::kinds::Kind;
use typing_expressions::lookups::kind_of;
use typing_expressions::rule::Rule;
use typing_expressions::violations::{Diagnostics, Violation, broken_if, earlier};
use typing_expressions::words::type_breaks;

/// A declaration.
pub fn declaration<'s, 'a>(
    context: Context<'s, 'a>,
    span: Span,
    ty: &'a ValueType,
    first: &'a Option<Right>,
) -> Diagnostics
    ensures { findings result ≡ spec.declaration (around context.entry) span (view.ty ty.now) (option_map view.rhs first.now) }
{
    let late = atomic_breaks(context, span);
    let declared = Diagnostics::breaking(type_breaks(context.scope.declarations, ty));
    match first {
        None => Diagnostics::breaking(late).then(declared),
        Some(first) => {
            let value = right(context, first);
            let wanted = kind_of(context.scope.declarations, ty);
            let own = earlier(misconverted(value.kind, wanted, value.place), late);
            Diagnostics::breaking(own).then(declared.then(value.violations))
        }
    }
}

/// Whether a change is a call or an allocation.
fn is_call_or_malloc(change: &Change) -> bool
    ensures { result ≡ atomic.is_call_or_malloc (view.effect change.now) }
{
    match change {
        Change::Set(Right::Malloc(_, _, _)) | Change::Set(Right::Call(_)) => true,
        _ => false,
    }
}

/// An assignment.
pub fn assign_statement<'s, 'a>(
    context: Context<'s, 'a>,
    span: Span,
    x: &'a Assignment,
) -> Diagnostics
    ensures { findings result ≡ spec.assign_statement (around context.entry) span (view.assignment x.now) }
{
    let late = context.in_atomic && is_call_or_malloc(&x.change);
    let own = Diagnostics::breaking(broken_if(late, Rule::InAtomic, span));
    own.then(assignment(context, x))
}

/// A call.
pub fn call_statement<'s, 'a>(context: Context<'s, 'a>, span: Span, x: &'a Call) -> Diagnostics
    ensures { findings result ≡ spec.call_statement (around context.entry) span (view.call x.now) }
{
    let own = Diagnostics::breaking(atomic_breaks(context, span));
    own.then(call(context, x))
}

/// Whether a return gives a value just where the function has one.
fn returns_well(value: Option<&ValueType>, given: Option<&Expr>) -> bool
    ensures { result ≡ functions.returns_well (option_map (λ t. view.ty t.now) value.entry) (option_map (λ x. view.exp x.now) given.entry) }
{
    match (value, given) {
        (Some(_), Some(_)) | (None, None) => true,
        _ => false,
    }
}

/// What a return itself breaks.
fn return_breaks<'s, 'a>(
    context: Context<'s, 'a>,
    span: Span,
    given: Option<&'a Expr>,
) -> Option<Violation>
    ensures { maybe_broken result ≡ spec.return_breaks (around context.entry) span (option_map (λ x. view.exp x.now) given.entry) }
{
    let misplaced = context.in_unwrapping || !returns_well(context.value, given);
    earlier(
        atomic_breaks(context, span),
        broken_if(misplaced, Rule::ReturnForm, span),
    )
}

/// A value that is returned and doesn't convert to that of the function.
fn returned_breaks<'s, 'a>(
    context: Context<'s, 'a>,
    kind: Option<Kind<'s, 'a>>,
    place: Span,
) -> Option<Violation>
    ensures { maybe_broken result ≡ spec.returned_breaks (around context.entry) (maybe_kind kind.entry) place }
{
    match context.value {
        None => None,
        Some(ty) => misconverted(kind, kind_of(context.scope.declarations, ty), place),
    }
}

/// A return.
pub fn return_statement<'s, 'a>(
    context: Context<'s, 'a>,
    span: Span,
    value: &'a Option<Expr>,
) -> Diagnostics
    ensures { findings result ≡ spec.return_statement (around context.entry) span (option_map view.exp value.now) }
{
    match value {
        None => Diagnostics::breaking(return_breaks(context, span, None)),
        Some(value) => {
            let judged = expression(context, value);
            let unconverted = returned_breaks(context, judged.kind, first_place(value));
            let own = earlier(unconverted, return_breaks(context, span, Some(value)));
            Diagnostics::breaking(own).then(judged.violations)
        }
    }
}

/// Whether a function of this name is known to have a value.
fn has_value<'s, 'a>(context: Context<'s, 'a>, x: &Call) -> bool
    ensures { result ≡ spec.spawns_value (around context.entry) (view.call x.now) }
{
    match context.scope.declarations.find_function(&x.function) {
        None => false,
        Some(function) => function.result.is_some(),
    }
}

/// A spawn.
pub fn spawn_statement<'s, 'a>(context: Context<'s, 'a>, span: Span, x: &'a Call) -> Diagnostics
    ensures { findings result ≡ spec.spawn_statement (around context.entry) span (view.call x.now) }
{
    let own = earlier(
        atomic_breaks(context, span),
        broken_if(has_value(context, x), Rule::SpawnedValue, x.function.span),
    );
    Diagnostics::breaking(own).then(call(context, x))
}

/// A `free`.
pub fn free_statement<'s, 'a>(context: Context<'s, 'a>, span: Span, x: &'a Expr) -> Diagnostics
    ensures { findings result ≡ spec.free_statement (around context.entry) span (view.exp x.now) }
{
    let judged = expression(context, x);
    let own = earlier(
        unconverted_if(judged.kind, Kind::Object, first_place(x)),
        atomic_breaks(context, span),
    );
    Diagnostics::breaking(own).then(judged.violations)
}

/// An assertion.
pub fn assertion<'s, 'a>(context: Context<'s, 'a>, span: Span, x: &'a Expr) -> Diagnostics
    ensures { findings result ≡ spec.assertion (around context.entry) span (view.exp x.now) }
{
    let own = Diagnostics::breaking(atomic_breaks(context, span));
    own.then(expression(context.with_text(Text::Assert), x).violations)
}

/// A wrap or an unwrap.
pub fn wrap_statement<'s, 'a>(context: Context<'s, 'a>, span: Span, x: &'a Expr) -> Diagnostics
    ensures { findings result ≡ spec.wrap_statement (around context.entry) span (view.exp x.now) }
{
    let judged = expression(context.with_text(Text::GhostCode), x);
    let own = earlier(
        atomic_breaks(context, span),
        wrap_breaks(judged.kind, first_place(x)),
    );
    Diagnostics::breaking(own).then(judged.violations)
}

/// Invariants of a loop.
pub fn invariants<'s, 'a>(context: Context<'s, 'a>, all: &'a [Invariant]) -> Diagnostics
    ensures { findings result ≡ violations (pieces.invariants contexts.LoopInvariant (around context.entry) (map view.invariant all.now)) }
{
    let mut so_far = Diagnostics::nothing();
    let inside = context.with_text(Text::LoopInvariant);
    for x in all {
        so_far = so_far.then(expression(inside, &x.property).violations);
    }
    so_far
}

/// An assignment of a `for`, if there is one.
pub fn optional_assignment<'s, 'a>(
    context: Context<'s, 'a>,
    x: &'a Option<Assignment>,
) -> Diagnostics
    ensures { findings result ≡ violations (pieces.if_some (pieces.assignment (around context.entry)) (option_map view.assignment x.now)) }
{
    match x {
        None => Diagnostics::nothing(),
        Some(x) => assignment(context, x),
    }
}

// ---- what stands in front of the statements that another one holds

/// An `if` with its test.
pub fn if_front<'s, 'a>(context: Context<'s, 'a>, span: Span, test: &'a Expr) -> Diagnostics
    ensures { findings result ≡ spec.if_front (around context.entry) span (view.exp test.now) }
{
    let own = Diagnostics::breaking(atomic_breaks(context, span));
    own.then(expression(context, test).violations)
}

/// A `while` with its test and invariants.
pub fn while_front<'s, 'a>(
    context: Context<'s, 'a>,
    span: Span,
    test: &'a Expr,
    all: &'a [Invariant],
) -> Diagnostics
    ensures { findings result ≡ spec.while_front (around context.entry) span (view.exp test.now) (map view.invariant all.now) }
{
    let own = Diagnostics::breaking(atomic_breaks(context, span));
    let condition = expression(context, test).violations;
    own.then(condition.then(invariants(context, all)))
}

/// A `do` with its invariants.
pub fn do_front<'s, 'a>(context: Context<'s, 'a>, span: Span, all: &'a [Invariant]) -> Diagnostics
    ensures { findings result ≡ spec.do_front (around context.entry) span (map view.invariant all.now) }
{
    let own = Diagnostics::breaking(atomic_breaks(context, span));
    own.then(invariants(context, all))
}

/// A `for` with what stands in its brackets, and its invariants.
pub fn for_front<'s, 'a>(
    context: Context<'s, 'a>,
    span: Span,
    before: &'a Option<Assignment>,
    test: &'a Expr,
    after: &'a Option<Assignment>,
    all: &'a [Invariant],
) -> Diagnostics
    ensures { findings result ≡ spec.for_front (around context.entry) span (option_map view.assignment before.now) (view.exp test.now) (option_map view.assignment after.now) (map view.invariant all.now) }
{
    let own = Diagnostics::breaking(atomic_breaks(context, span));
    let condition = expression(context, test).violations;
    let first = optional_assignment(context, before);
    let last = optional_assignment(context, after);
    let following = last.then(invariants(context, all));
    own.then(first.then(condition.then(following)))
}

/// An atomic block with its objects, of whose block this is found.
pub fn atomic_block<'s, 'a>(
    context: Context<'s, 'a>,
    span: Span,
    objects: &'a [Expr],
    inner: Diagnostics,
) -> Diagnostics
    ensures { findings result ≡ spec.atomic_block (around context.entry) span (view.exps objects.now) (findings inner) }
{
    let all = references(context.with_text(Text::GhostCode), objects);
    let own = earlier(
        all.unconverted,
        earlier(atomic_breaks(context, span), inner.later),
    );
    Diagnostics::breaking(own).then(all.violations.then(inner))
}
