//! The form of quantifiers, and trees without their brackets.

ghost use Rattle.std.specs.Prelude.{◌≡◌};
ghost use Rattle.std.specs.List.{list_any};
ghost use Rattle.std.specs.Option.{option_map};
ghost use Rattle.c_syntax.specs.Expressions as e;
ghost use Rattle.c_syntax.specs.Grammar as grammar;
ghost use Rattle.c_syntax.specs.Views.{id, exp, exps};
ghost use Rattle.typing_spec.specs.Declarations as declared;
ghost use Rattle.typing_spec.specs.Trees as trees;
ghost use Rattle.typing_spec.specs.Properties as spec;

use c_syntax::expressions::{Expr, Identifier};
use c_syntax::token::Span;
use c_syntax::tree::{BinaryOperator, Constant, Quantifier};

/// The expression without brackets around the whole.
pub fn bare<'a>(x: &'a Expr) -> &'a Expr
    ensures { exp result.now ≡ trees.bare (exp x.now) }
{
    match x {
        Expr::Group(_, inner) => bare(inner),
        _ => x,
    }
}

/// Whether the expression is `\this`, brackets apart.
pub fn is_this(x: &Expr) -> bool
    ensures { result ≡ spec.is_this (trees.bare (exp x.now)) }
{
    match bare(x) {
        Expr::Constant(_, Constant::This) => true,
        _ => false,
    }
}

/// The field that an invariant approves, if it is an approval, brackets apart.
pub fn approved_field<'a>(x: &'a Expr) -> Option<&'a Identifier>
    ensures { option_map (λ n. id n.now) result ≡ declared.approved_field (exp x.now) }
{
    match x {
        Expr::Group(_, inner) => approved_field(inner),
        Expr::Approves(_, field) => Some(field),
        _ => None,
    }
}

/// Whether an invariant is an approval, brackets apart.
pub fn is_approval(x: &Expr) -> bool
    ensures { result ≡ declared.is_approval (exp x.now) }
{
    approved_field(x).is_some()
}

/// Whether both have one name.
pub fn same_name(left: &Identifier, right: &Identifier) -> bool
    ensures { result ≡ declared.same_name (id left.now) (id right.now) }
{
    left.name.as_slice() == right.name.as_slice()
}

/// Whether the expression is this name.
pub fn is_name(name: &Identifier, x: &Expr) -> bool
    ensures { result ≡ trees.is_name (id name.now) (exp x.now) }
{
    match x {
        Expr::Name(other) => same_name(name, other),
        _ => false,
    }
}

/// Whether the name stands free in the expression.
#[cycle(mentions)]
pub fn mentions(name: &Identifier, x: &Expr) -> bool
    ensures { result ≡ trees.mentions (id name.now) (exp x.now) }
{
    match x {
        Expr::Number(_, _, _) | Expr::Null(_) | Expr::Constant(_, _) | Expr::Approves(_, _) => {
            false
        }
        Expr::Name(other) => same_name(name, other),
        Expr::Group(_, inner)
        | Expr::Field(_, inner, _)
        | Expr::Status(_, inner, _, _)
        | Expr::Owns(_, inner, _)
        | Expr::Unary(_, _, inner)
        | Expr::Apply(_, _, inner) => mentions(name, inner),
        Expr::Binary(_, _, first, second)
        | Expr::ClaimsObject(_, first, second)
        | Expr::Claims(_, first, second) => mentions(name, first) || mentions(name, second),
        Expr::Conditional(_, test, first, second) => {
            mentions(name, test) || (mentions(name, first) || mentions(name, second))
        }
        Expr::Several(_, _, arguments) => any_mentions(name, arguments),
        Expr::Quantified(_, _, _, bound, body) => {
            if same_name(name, bound) {
                false
            } else {
                mentions(name, body)
            }
        }
    }
}

/// Whether the name stands free in one of the expressions.
#[cycle(mentions)]
fn any_mentions(name: &Identifier, all: &[Expr]) -> bool
    ensures { result ≡ list_any (trees.mentions (id name.now)) (exps all.now) }
{
    for x in all {
        if mentions(name, x) {
            return true;
        }
    }
    false
}

/// Whether the operator makes it `p \in x->\owns` with this p, where x doesn't speak of p.
fn is_member(
    name: &Identifier,
    span: Span,
    operator: BinaryOperator,
    member: &Expr,
    set: &Expr,
) -> bool
    ensures { result ≡ spec.is_membership (id name.now) (e.Binary span operator (exp member.now) (exp set.now)) }
{
    match (operator, set) {
        (BinaryOperator::In, Expr::Owns(_, owner, _)) => {
            is_name(name, bare(member)) && !mentions(name, owner)
        }
        _ => false,
    }
}

/// Whether it is `p \in x->\owns` with this p, where x doesn't speak of p.
fn is_membership(name: &Identifier, x: &Expr) -> bool
    ensures { result ≡ spec.is_membership (id name.now) (exp x.now) }
{
    match x {
        Expr::Binary(span, operator, member, set) => {
            is_member(name, *span, *operator, member, set)
        },
        _ => false,
    }
}

/// The first operand of a chain of `&&`.
fn first_operand<'a>(x: &'a Expr) -> &'a Expr
    ensures { exp result.now ≡ spec.first_operand (exp x.now) }
{
    match x {
        Expr::Binary(_, BinaryOperator::And, left, _) => first_operand(left),
        _ => x,
    }
}

/// Whether it is `p \in x->\owns ==> E`.
fn is_for_all_body(name: &Identifier, body: &Expr) -> bool
    ensures { result ≡ spec.is_for_all_body (id name.now) (exp body.now) }
{
    match body {
        Expr::Binary(_, BinaryOperator::Implies, left, _) => is_membership(name, bare(left)),
        _ => false,
    }
}

/// Whether it is `p \in x->\owns && E`, with further operands or not.
fn is_exists_body(name: &Identifier, body: &Expr) -> bool
    ensures { result ≡ spec.is_exists_body (id name.now) (exp body.now) }
{
    match body {
        Expr::Binary(_, BinaryOperator::And, left, _) => {
            is_membership(name, bare(first_operand(left)))
        }
        _ => false,
    }
}

/// Whether the body of a quantifier over this variable is of the form.
pub fn is_of_form(quantifier: Quantifier, name: &Identifier, body: &Expr) -> bool
    ensures { result ≡ spec.is_of_form quantifier (id name.now) (exp body.now) }
{
    match quantifier {
        Quantifier::ForAll => is_for_all_body(name, bare(body)),
        Quantifier::Exists => is_exists_body(name, bare(body)),
    }
}

/// The place of an expression's first token.
pub fn first_place(x: &Expr) -> Span
    ensures { result ≡ grammar.first_place (exp x.now) }
{
    match x {
        Expr::Name(name) => name.span,
        Expr::Field(_, left, _)
        | Expr::Status(_, left, _, _)
        | Expr::Owns(_, left, _)
        | Expr::Binary(_, _, left, _)
        | Expr::Conditional(_, left, _, _) => first_place(left),
        Expr::Number(span, _, _)
        | Expr::Null(span)
        | Expr::Constant(span, _)
        | Expr::Group(span, _)
        | Expr::Unary(span, _, _)
        | Expr::Apply(span, _, _)
        | Expr::Several(span, _, _)
        | Expr::ClaimsObject(span, _, _)
        | Expr::Claims(span, _, _)
        | Expr::Approves(span, _)
        | Expr::Quantified(span, _, _, _, _) => *span,
    }
}
