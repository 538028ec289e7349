//! Whether two expressions are one tree, brackets apart.

ghost use Rattle.std.specs.Prelude.{◌≡◌};
ghost use Rattle.c_syntax.specs.Grammar.{exps_of};
ghost use Rattle.c_syntax.specs.Views.{exp, exps, ty};
ghost use Rattle.typing_spec.specs.Trees as trees;

use crate::forms::{bare, is_name, same_name};
use c_syntax::expressions::{Expr, ValueType};
use c_syntax::tree::{
    BinaryOperator, Constant, ListWord, Quantifier, SpecFunction, Status, UnaryOperator,
};
use int_ranges::ctype::CType;

fn integer_number(ty: CType) -> u8
    ensures { result ≡ trees.integer_number ty }
{
    match ty {
        CType::Int => 1,
        CType::Unsigned => 2,
        CType::LongLong => 3,
        CType::UnsignedLongLong => 4,
    }
}

fn constant_number(word: Constant) -> u8
    ensures { result ≡ trees.constant_number word }
{
    match word {
        Constant::True => 1,
        Constant::False => 2,
        Constant::This => 3,
        Constant::Me => 4,
        Constant::Result => 5,
    }
}

fn status_number(status: Status) -> u8
    ensures { result ≡ trees.status_number status }
{
    match status {
        Status::Closed => 1,
        Status::Owner => 2,
        Status::ClaimCount => 3,
    }
}

fn unary_number(operator: UnaryOperator) -> u8
    ensures { result ≡ trees.unary_number operator }
{
    match operator {
        UnaryOperator::Not => 1,
        UnaryOperator::Negate => 2,
    }
}

fn binary_number(operator: BinaryOperator) -> u8
    ensures { result ≡ trees.binary_number operator }
{
    match operator {
        BinaryOperator::Times => 1,
        BinaryOperator::Over => 2,
        BinaryOperator::Modulo => 3,
        BinaryOperator::Plus => 4,
        BinaryOperator::Minus => 5,
        BinaryOperator::Less => 6,
        BinaryOperator::LessEqual => 7,
        BinaryOperator::Greater => 8,
        BinaryOperator::GreaterEqual => 9,
        BinaryOperator::In => 10,
        BinaryOperator::Equal => 11,
        BinaryOperator::NotEqual => 12,
        BinaryOperator::And => 13,
        BinaryOperator::Or => 14,
        BinaryOperator::Implies => 15,
        BinaryOperator::Equivalent => 16,
    }
}

fn function_number(function: SpecFunction) -> u8
    ensures { result ≡ trees.function_number function }
{
    match function {
        SpecFunction::Old => 1,
        SpecFunction::Unchanged => 2,
        SpecFunction::Wrapped => 3,
        SpecFunction::WrappedUnclaimed => 4,
        SpecFunction::Mutable => 5,
        SpecFunction::Fresh => 6,
    }
}

fn list_word_number(word: ListWord) -> u8
    ensures { result ≡ trees.list_word_number word }
{
    match word {
        ListWord::Mine => 1,
        ListWord::ClaimsOnly => 2,
    }
}

fn quantifier_number(quantifier: Quantifier) -> u8
    ensures { result ≡ trees.quantifier_number quantifier }
{
    match quantifier {
        Quantifier::ForAll => 1,
        Quantifier::Exists => 2,
    }
}

/// Whether both are one type, as it is written.
fn same_type(left: &ValueType, right: &ValueType) -> bool
    ensures { result ≡ trees.same_type (ty left.now) (ty right.now) }
{
    match (left, right) {
        (ValueType::Integer(left), ValueType::Integer(right)) => {
            integer_number(*left) == integer_number(*right)
        }
        (ValueType::Pointer(left), ValueType::Pointer(right)) => same_name(left, right),
        (ValueType::Object, ValueType::Object) | (ValueType::Claim, ValueType::Claim) => true,
        _ => false,
    }
}

/// Whether both are one tree, brackets apart; literals are the same where their numbers are.
#[cycle(same)]
pub fn same_tree(left: &Expr, right: &Expr) -> bool
    ensures { result ≡ trees.same_tree (exp left.now) (exp right.now) }
{
    let other = bare(right);
    match left {
        Expr::Group(_, inner) => same_tree(inner, right),
        Expr::Number(_, value, _) => match other {
            Expr::Number(_, same, _) => *value == *same,
            _ => false,
        },
        Expr::Name(name) => is_name(name, other),
        Expr::Null(_) => matches!(other, Expr::Null(_)),
        Expr::Constant(_, word) => match other {
            Expr::Constant(_, same) => constant_number(*word) == constant_number(*same),
            _ => false,
        },
        Expr::Field(_, object, name) => match other {
            Expr::Field(_, same, named) => same_name(name, named) && same_tree(object, same),
            _ => false,
        },
        Expr::Status(_, object, _, status) => match other {
            Expr::Status(_, same, _, told) => {
                status_number(*status) == status_number(*told) && same_tree(object, same)
            }
            _ => false,
        },
        Expr::Owns(_, object, _) => match other {
            Expr::Owns(_, same, _) => same_tree(object, same),
            _ => false,
        },
        Expr::Unary(_, operator, operand) => match other {
            Expr::Unary(_, sign, same) => {
                unary_number(*operator) == unary_number(*sign) && same_tree(operand, same)
            }
            _ => false,
        },
        Expr::Binary(_, operator, first, second) => match other {
            Expr::Binary(_, sign, one, two) => {
                binary_number(*operator) == binary_number(*sign)
                    && (same_tree(first, one) && same_tree(second, two))
            }
            _ => false,
        },
        Expr::Conditional(_, test, first, second) => match other {
            Expr::Conditional(_, same, one, two) => {
                same_tree(test, same) && (same_tree(first, one) && same_tree(second, two))
            }
            _ => false,
        },
        Expr::Apply(_, function, argument) => match other {
            Expr::Apply(_, word, same) => {
                function_number(*function) == function_number(*word) && same_tree(argument, same)
            }
            _ => false,
        },
        Expr::Several(_, word, arguments) => match other {
            Expr::Several(_, told, same) => {
                list_word_number(*word) == list_word_number(*told) && same_row(arguments, same)
            }
            _ => false,
        },
        Expr::ClaimsObject(_, claim, object) => match other {
            Expr::ClaimsObject(_, one, two) => same_tree(claim, one) && same_tree(object, two),
            _ => false,
        },
        Expr::Claims(_, claim, property) => match other {
            Expr::Claims(_, one, two) => same_tree(claim, one) && same_tree(property, two),
            _ => false,
        },
        Expr::Approves(_, field) => match other {
            Expr::Approves(_, same) => same_name(field, same),
            _ => false,
        },
        Expr::Quantified(_, quantifier, ty, variable, body) => match other {
            Expr::Quantified(_, word, same, name, inner) => {
                quantifier_number(*quantifier) == quantifier_number(*word)
                    && (same_type(ty, same)
                        && (same_name(variable, name) && same_tree(body, inner)))
            }
            _ => false,
        },
    }
}

/// Whether both are the same trees, one by one.
#[cycle(same)]
fn same_row(left: &[Expr], right: &[Expr]) -> bool
    ensures { result ≡ trees.same_row (exps_of (exps left.now)) (exps_of (exps right.now)) }
{
    let mut others = right;
    for x in left {
        let Some((first, rest)) = others.split_first() else {
            return false;
        };
        if !same_tree(x, first) {
            return false;
        }
        others = rest;
    }
    others.is_empty()
}
