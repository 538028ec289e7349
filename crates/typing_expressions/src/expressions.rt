//! Expressions.

ghost use Rattle.std.specs.Prelude.{◌≡◌};
ghost use Rattle.c_syntax.specs.Views.{exp, exps};
ghost use Rattle.typing_expressions.specs.Violations.{judge};
ghost use Rattle.typing_expressions.specs.Judging as spec;
ghost use Rattle.typing_expressions.specs.Views.{context as around, kind, judged, row_of};

use crate::arrows::{field, name, owns, status, word};
use crate::context::{Context, Quantified};
use crate::forms::first_place;
use crate::judged::{Judged, binary, conditional, leaf, unary, whole};
use crate::kinds::Kind;
use crate::rule::Rule;
use crate::violations::broken_if;
use crate::words::{Row, apply, claims, claims_object, first_wanted, quantified, several};
use c_syntax::expressions::Expr;

/// What an expression is, and what breaks in it.
#[cycle(expressions)]
pub fn expression<'s, 'a>(context: Context<'s, 'a>, x: &'a Expr) -> Judged<'s, 'a>
    ensures { judged result ≡ judge (around context.entry) (exp x.now) }
{
    let inside = context.deeper();
    match x {
        Expr::Number(_, _, _) => leaf(Some(Kind::Integer), None),
        Expr::Null(_) => leaf(Some(Kind::Null), None),
        Expr::Name(known) => name(context, known),
        Expr::Constant(span, constant) => word(context, *span, *constant),
        Expr::Group(_, inner) => {
            let inner = expression(context, inner);
            whole(inner.kind, inner.violations, None)
        }
        Expr::Field(span, left, named) => {
            let inner = expression(inside, left);
            field(context, *span, named, inner)
        }
        Expr::Status(span, left, place, which) => {
            let inner = expression(inside, left);
            status(context, *span, left, *place, *which, inner)
        }
        Expr::Owns(span, left, place) => {
            let inner = expression(inside, left);
            owns(context, *span, left, *place, inner)
        }
        Expr::Unary(span, operator, operand) => {
            let inner = expression(inside, operand);
            unary(*span, *operator, inner)
        }
        Expr::Binary(span, operator, left, right) => {
            let around_operands = context.operand(*operator);
            let first = expression(around_operands, left);
            let second = expression(around_operands, right);
            binary(*span, *operator, first, second)
        }
        Expr::Conditional(span, test, left, right) => {
            let condition = expression(inside, test);
            let first = expression(inside, left);
            let second = expression(inside, right);
            conditional(*span, condition, first, second)
        }
        Expr::Apply(span, function, argument) => {
            let inner = expression(context.argument(*function), argument);
            apply(context, *span, *function, argument, inner)
        }
        Expr::Several(span, word, arguments) => {
            let inner = row(inside, first_wanted(*word), arguments);
            several(context, *span, *word, inner)
        }
        Expr::ClaimsObject(_, claim, object) => {
            let first = expression(inside, claim);
            let second = expression(inside, object);
            claims_object(claim, object, first, second)
        }
        Expr::Claims(_, claim, property) => {
            let first = expression(inside, claim);
            let second = expression(context.inside_claims(), property);
            claims(claim, first, second)
        }
        Expr::Approves(span, _) => {
            leaf(
                Some(Kind::Integer),
                broken_if(true, Rule::ApprovalForm, *span),
            )
        }
        Expr::Quantified(span, quantifier, ty, variable, body) => {
            let bound = Quantified::Variable(ty, variable, context.scope.quantified);
            let in_body = context.quantified(ty, variable, &bound);
            let inner = expression(in_body, body);
            quantified(context, *span, *quantifier, ty, variable, body, inner)
        }
    }
}

/// Expressions in a row, where this is wanted of the first and a reference of each further one.
#[cycle(expressions)]
pub fn row<'s, 'a>(context: Context<'s, 'a>, wanted: Kind<'s, 'a>, all: &'a [Expr]) -> Row<'s, 'a>
    ensures { row_of result ≡ spec.row (kind wanted.entry) (around context.entry) (exps all.now) }
{
    let mut so_far = Row::nothing(context, wanted);
    for x in all {
        so_far = so_far.with(expression(context, x), first_place(x));
    }
    so_far
}
