//! What is known of an expression.

ghost use Rattle.std.specs.Prelude.{◌≡◌, Some};
ghost use Rattle.typing_spec.specs.Types as types;
ghost use Rattle.typing_spec.specs.Operands as operands;
ghost use Rattle.typing_spec.specs.Places as places;
ghost use Rattle.typing_expressions.specs.Judging as spec;
ghost use Rattle.typing_expressions.specs.Views.{kind, maybe_kind, maybe_broken, findings, judged};

use crate::kinds::{
    Kind, branches, conditional_kind, left_fits, right_fits, together_fit, unary_fits,
};
use crate::rule::Rule;
use crate::violations::{Diagnostics, Violation, broken_if};
use c_syntax::token::Span;
use c_syntax::tree::{BinaryOperator, UnaryOperator};

/// What an expression is, if that is known, and what breaks in it.
#[derive(Clone, Copy)]
pub struct Judged<'s, 'a> {
    pub kind: Option<Kind<'s, 'a>>,
    pub violations: Diagnostics,
}

/// An expression without parts.
pub fn leaf<'s, 'a>(kind: Option<Kind<'s, 'a>>, own: Option<Violation>) -> Judged<'s, 'a>
    ensures { judged result ≡ spec.leaf (maybe_kind kind.entry) (maybe_broken own) }
{
    Judged {
        kind,
        violations: Diagnostics::breaking(own),
    }
}

/// An expression behind its parts.
pub fn whole<'s, 'a>(
    kind: Option<Kind<'s, 'a>>,
    inner: Diagnostics,
    own: Option<Violation>,
) -> Judged<'s, 'a>
    ensures { judged result ≡ spec.whole (maybe_kind kind.entry) (findings inner) (maybe_broken own) }
{
    Judged {
        kind,
        violations: inner.then(Diagnostics::breaking(own)),
    }
}

/// A value that doesn't convert where this kind is wanted.
pub fn unconverted_if<'s, 'a>(
    value: Option<Kind<'s, 'a>>,
    wanted: Kind<'s, 'a>,
    span: Span,
) -> Option<Violation>
    ensures { maybe_broken result ≡ spec.unconverted_if (maybe_kind value.entry) (kind wanted.entry) span }
{
    match value {
        None => None,
        Some(value) => broken_if(!value.converts(wanted), Rule::Conversion, span),
    }
}

/// Whether what is known of the operand doesn't fit the operator.
fn unary_fails<'s, 'a>(operator: UnaryOperator, operand: Option<Kind<'s, 'a>>) -> bool
    ensures { result ≡ places.fails (types.unary_fits operator) (maybe_kind operand.entry) }
{
    match operand {
        None => false,
        Some(operand) => !unary_fits(operator, operand),
    }
}

/// An operator over what it stands in front of.
pub fn unary<'s, 'a>(span: Span, operator: UnaryOperator, operand: Judged<'s, 'a>) -> Judged<'s, 'a>
    ensures { judged result ≡ spec.unary span operator (judged operand.entry) }
{
    let fails = unary_fails(operator, operand.kind);
    let kind = match operand.kind {
        None => None,
        Some(inner) => {
            if unary_fits(operator, inner) {
                Some(Kind::Integer)
            } else {
                None
            }
        }
    };
    whole(
        kind,
        operand.violations,
        broken_if(fails, Rule::Operands, span),
    )
}

/// Whether what is known of the operands doesn't fit the operator.
pub fn misfit<'s, 'a>(
    operator: BinaryOperator,
    left: Option<Kind<'s, 'a>>,
    right: Option<Kind<'s, 'a>>,
) -> bool
    ensures { result ≡ operands.misfit operator (maybe_kind left.entry) (maybe_kind right.entry) }
{
    match (left, right) {
        (None, None) => false,
        (Some(left), None) => !left_fits(operator, left),
        (None, Some(right)) => !right_fits(operator, right),
        (Some(left), Some(right)) => {
            !left_fits(operator, left)
                || (!right_fits(operator, right) || !together_fit(operator, left, right))
        }
    }
}

/// What an operator gives.
pub fn binary_kind<'s, 'a>(
    operator: BinaryOperator,
    left: Option<Kind<'s, 'a>>,
    right: Option<Kind<'s, 'a>>,
) -> Option<Kind<'s, 'a>>
    ensures { maybe_kind result ≡ spec.binary_kind operator (maybe_kind left.entry) (maybe_kind right.entry) }
{
    match (left, right) {
        (Some(left), Some(right)) => {
            if left_fits(operator, left)
                && (right_fits(operator, right) && together_fit(operator, left, right))
            {
                Some(Kind::Integer)
            } else {
                None
            }
        }
        _ => None,
    }
}

/// An operator between its operands.
pub fn binary<'s, 'a>(
    span: Span,
    operator: BinaryOperator,
    left: Judged<'s, 'a>,
    right: Judged<'s, 'a>,
) -> Judged<'s, 'a>
    ensures { judged result ≡ spec.binary span operator (judged left.entry) (judged right.entry) }
{
    let fails = misfit(operator, left.kind, right.kind);
    whole(
        binary_kind(operator, left.kind, right.kind),
        left.violations.then(right.violations),
        broken_if(fails, Rule::Operands, span),
    )
}

/// Whether the test is none, or neither branch converts to the other.
fn branches_misfit<'s, 'a>(
    test: Option<Kind<'s, 'a>>,
    left: Option<Kind<'s, 'a>>,
    right: Option<Kind<'s, 'a>>,
) -> bool
    ensures { result ≡ operands.branches_misfit (maybe_kind test.entry) (maybe_kind left.entry) (maybe_kind right.entry) }
{
    let apart = match (left, right) {
        (Some(left), Some(right)) => branches(left, right).is_none(),
        _ => false,
    };
    match test {
        None => apart,
        Some(test) => !test.is_scalar() || apart,
    }
}

/// What `?:` gives.
fn choice_kind<'s, 'a>(
    test: Option<Kind<'s, 'a>>,
    left: Option<Kind<'s, 'a>>,
    right: Option<Kind<'s, 'a>>,
) -> Option<Kind<'s, 'a>>
    ensures { maybe_kind result ≡ spec.choice_kind (maybe_kind test.entry) (maybe_kind left.entry) (maybe_kind right.entry) }
{
    match (test, left, right) {
        (Some(test), Some(left), Some(right)) => conditional_kind(test, left, right),
        _ => None,
    }
}

/// `?:` between its test and branches.
pub fn conditional<'s, 'a>(
    span: Span,
    test: Judged<'s, 'a>,
    left: Judged<'s, 'a>,
    right: Judged<'s, 'a>,
) -> Judged<'s, 'a>
    ensures { judged result ≡ spec.conditional span (judged test.entry) (judged left.entry) (judged right.entry) }
{
    let fails = branches_misfit(test.kind, left.kind, right.kind);
    whole(
        choice_kind(test.kind, left.kind, right.kind),
        test.violations.then(left.violations.then(right.violations)),
        broken_if(fails, Rule::Operands, span),
    )
}

/// The truth of a statement about both.
pub fn truth_of_both<'s, 'a>(
    left: Option<Kind<'s, 'a>>,
    right: Option<Kind<'s, 'a>>,
) -> Option<Kind<'s, 'a>>
    ensures { maybe_kind result ≡ types.truth_of_both (maybe_kind left.entry) (maybe_kind right.entry) }
{
    match (left, right) {
        (Some(_), Some(_)) => Some(Kind::Integer),
        _ => None,
    }
}
