//! Arguments of calls.

ghost use Rattle.std.specs.Prelude.{◌≡◌, map, slice_get};
ghost use Rattle.std.specs.Option.{option_map};
ghost use Rattle.c_syntax.specs.Views as view;
ghost use Rattle.c_syntax.specs.Items.{Param};
ghost use Rattle.typing_spec.specs.Contexts.{ghost as as_ghost};
ghost use Rattle.typing_spec.specs.Conversions as uses;
ghost use Rattle.typing_spec.specs.Pieces as pieces;
ghost use Rattle.typing_spec.specs.Places.{fail_together};
ghost use Rattle.typing_spec.specs.Rules as rules;
ghost use Rattle.typing_spec.specs.Types as types;
ghost use Rattle.typing_expressions.specs.Violations.{violations, broken_if as spec_broken_if};
ghost use Rattle.typing_expressions.specs.Judging.{unconverted};
ghost use Rattle.typing_expressions.specs.Views.{context as around, kind, maybe_kind, maybe_broken, findings};
ghost use Rattle.typing_statements.specs.Breaks as spec;
ghost use Rattle.typing_statements.specs.Views.{values, values_of, one_more};

use c_syntax::expressions::{Call, Expr};
use c_syntax::items::{Function, Parameter};
use c_syntax::token::Span;
use typing_expressions::context::{Context, Text};
use typing_expressions::expressions::expression;
use typing_expressions::forms::first_place;
use typing_expressions::judged::Judged;
use typing_expressions::kinds::Kind;
use typing_expressions::lookups::kind_of;
use typing_expressions::rule::Rule;
use typing_expressions::violations::{Diagnostics, Violation, broken_if, earlier};

/// A value that doesn't convert to what is wanted of it.
pub fn misconverted<'s, 'a>(
    value: Option<Kind<'s, 'a>>,
    wanted: Option<Kind<'s, 'a>>,
    span: Span,
) -> Option<Violation>
    ensures { maybe_broken result ≡ spec_broken_if (fail_together types.converts (maybe_kind value.entry) (maybe_kind wanted.entry)) rules.Conversion span }
{
    match (value, wanted) {
        (Some(value), Some(wanted)) => {
            broken_if(!value.converts(wanted), Rule::Conversion, span)
        }
        _ => None,
    }
}

/// Values in a row: what breaks in them, and the first that doesn't convert to what is wanted of it.
#[derive(Clone, Copy)]
pub struct Passed {
    pub violations: Diagnostics,
    pub unconverted: Option<Violation>,
}

impl Passed {
    /// With one more, of which this may be wanted.
    fn with(self, violations: Diagnostics, unconverted: Option<Violation>) -> Passed
        ensures { values_of result ≡ one_more (values_of self) (findings violations) (maybe_broken unconverted) }
    {
        Passed {
            violations: self.violations.then(violations),
            unconverted: earlier(self.unconverted, unconverted),
        }
    }
}

/// An argument that doesn't convert to its parameter, if there is one.
fn mispassed<'s, 'a>(
    context: Context<'s, 'a>,
    value: Option<Kind<'s, 'a>>,
    parameter: Option<&'a Parameter>,
    span: Span,
) -> Option<Violation>
    ensures { maybe_broken result ≡ spec.mispassed (around context.entry) (maybe_kind value.entry) (option_map (λ p. view.parameter p.now) parameter.entry) span }
{
    match parameter {
        None => None,
        Some(parameter) => misconverted(
            value,
            kind_of(context.scope.declarations, &parameter.ty),
            span,
        ),
    }
}

/// The parameter at a place, if there is one.
#[tactic(auto, using(crate::proofs::Values::got_of_map))]
fn parameter_at<'a>(parameters: &'a [Parameter], i: usize) -> Option<&'a Parameter>
    ensures { option_map (λ p. view.parameter p.now) result ≡ slice_get (map view.parameter parameters.now) i }
{
    if i < parameters.len() {
        Some(&parameters[i])
    } else {
        None
    }
}

/// Arguments, of which each has to convert to its parameter, as far as there are both.
pub fn arguments<'s, 'a>(
    context: Context<'s, 'a>,
    all: &'a [Expr],
    parameters: &'a [Parameter],
) -> Passed
    ensures { values_of result ≡ values (around context.entry) (view.exps all.now) (uses.paired (around context.entry) (view.exps all.now) (map view.parameter parameters.now)) }
{
    let mut so_far = Passed {
        violations: Diagnostics::nothing(),
        unconverted: None,
    };
    for (i, x) in all.iter().enumerate() {
        let judged = expression(context, x);
        let place = first_place(x);
        let wrong = mispassed(context, judged.kind, parameter_at(parameters, i), place);
        so_far = so_far.with(judged.violations, wrong);
    }
    so_far
}

/// Values that all have to convert to this.
pub fn values_to<'s, 'a>(
    context: Context<'s, 'a>,
    all: &'a [Expr],
    wanted: Option<Kind<'s, 'a>>,
) -> Passed
    ensures { values_of result ≡ values (around context.entry) (view.exps all.now) (map (uses.to (maybe_kind wanted.entry) (around context.entry)) (view.exps all.now)) }
{
    let mut so_far = Passed {
        violations: Diagnostics::nothing(),
        unconverted: None,
    };
    for x in all {
        let judged = expression(context, x);
        let wrong = misconverted(judged.kind, wanted, first_place(x));
        so_far = so_far.with(judged.violations, wrong);
    }
    so_far
}

/// The parameters of a function, if there is one.
fn parameters_of<'a>(target: Option<&'a Function>) -> &'a [Parameter]
    ensures { map view.parameter result.now ≡ spec.parameters_of (option_map (λ f. view.function f.now) target.entry) }
{
    match target {
        None => &[],
        Some(function) => &function.parameters,
    }
}

/// Its ghost parameters.
fn ghost_parameters_of<'a>(target: Option<&'a Function>) -> &'a [Parameter]
    ensures { map view.parameter result.now ≡ spec.ghost_parameters_of (option_map (λ f. view.function f.now) target.entry) }
{
    match target {
        None => &[],
        Some(function) => &function.ghost_parameters,
    }
}

/// A call with another number of arguments than there are parameters.
fn count_breaks<'a>(x: &Call, target: Option<&'a Function>) -> Option<Violation>
    ensures { maybe_broken result ≡ spec.count_breaks (view.call x.now) (option_map (λ f. view.function f.now) target.entry) }
{
    match target {
        None => None,
        Some(function) => {
            let is_other = x.arguments.len() != function.parameters.len()
                || x.ghost_arguments.len() != function.ghost_parameters.len();
            broken_if(is_other, Rule::ArgumentCount, x.function.span)
        }
    }
}

/// What a call breaks itself, whose arguments break this.
fn called_breaks<'a>(
    x: &Call,
    target: Option<&'a Function>,
    unconverted: Option<Violation>,
) -> Option<Violation>
    ensures { maybe_broken result ≡ spec.called_by (view.call x.now) (option_map (λ f. view.function f.now) target.entry) (maybe_broken unconverted) }
{
    let undeclared = broken_if(target.is_none(), Rule::Undeclared, x.function.span);
    earlier(undeclared, earlier(unconverted, count_breaks(x, target)))
}

/// What breaks in a call.
pub fn call<'s, 'a>(context: Context<'s, 'a>, x: &'a Call) -> Diagnostics
    ensures { findings result ≡ violations (pieces.call (around context.entry) (view.call x.now)) }
{
    let target = context.scope.declarations.find_function(&x.function);
    let code = arguments(context, &x.arguments, parameters_of(target));
    let ghosts = arguments(
        context.with_text(Text::GhostCode),
        &x.ghost_arguments,
        ghost_parameters_of(target),
    );
    let own = called_breaks(x, target, earlier(code.unconverted, ghosts.unconverted));
    Diagnostics::breaking(own).then(code.violations.then(ghosts.violations))
}
