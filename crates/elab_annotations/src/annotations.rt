//! Expressions of annotations.

ghost use Rattle.std.specs.Prelude.{◌≡◌, IfOk};
ghost use Rattle.c_syntax.specs.Views as view;
ghost use Rattle.elab_code.specs.Views.{around as surroundings};
ghost use Rattle.typed_program.specs.Annotations as spec;
ghost use Rattle.typed_program.specs.Views.{spec as said, specs};
ghost use Rattle.elab_annotations.specs.Typing.{only_typed, arguments_typed, property_typed, conjuncts_typed, exact_set_typed, mine_arguments_typed, for_all_typed, exists_body_typed, owner_typed, others_typed, no_form_typed};
ghost use Rattle.elab_annotations.specs.Views.{annotation as unboxed, boxed as seen, typed, row_of};

use crate::counts::{next_formula, plus};
use crate::parts::{
    BoxedSpec, apply, binary, claims_object, conditional, field, lists, name, status, unary,
    within_quantifier, word,
};
use crate::rows::{Row, all_owned, claims, claims_only, exists, for_all, single};
use c_syntax::expressions::{Expr, Identifier, ValueType};
use c_syntax::tree::{BinaryOperator, ListWord, Quantifier, Status};
use elab_code::around::Around;
use elab_code::numbers::declared_type;
use method::program::{DeclaredType, Spec};
use std::alloc::{AllocError, Global};
use typing_expressions::context::Quantified;

/// An expression of an annotation as it is typed, and the number that the next quantified formula behind it has.
#[derive(Drop)]
pub struct TypedSpec {
    pub spec: Spec,
    pub next: u32,
}

/// An expression whose first quantified formula has this number, in a box.
#[cycle(annotations)]
fn boxed<'s, 'a>(
    alloc: Global,
    around: Around<'s, 'a>,
    first: u32,
    x: &'a Expr,
) -> Result<BoxedSpec, AllocError>
    ensures { IfOk result (λ v. seen v ≡ typed (surroundings around.entry) first (view.exp x.now)) }
{
    match x {
        Expr::Number(_, value, _) => {
            BoxedSpec::new(alloc, Spec::Number(i128::from(*value)), first)
        }
        Expr::Name(known) => name(alloc, around, first, known),
        Expr::Null(_) => BoxedSpec::new(alloc, Spec::Null, first),
        Expr::Constant(_, constant) => BoxedSpec::new(alloc, word(*constant), first),
        Expr::Group(_, inner) => boxed(alloc, around, first, inner),
        Expr::Field(_, left, named) => {
            let inner = boxed(alloc, around, first, left)?;
            field(alloc, around, left, named, inner)
        }
        Expr::Status(_, left, _, which) => {
            let inner = boxed(alloc, around, first, left)?;
            status(alloc, *which, inner)
        }
        Expr::Owns(_, left, _) => boxed(alloc, around, first, left),
        Expr::Unary(_, operator, operand) => {
            let inner = boxed(alloc, around, first, operand)?;
            unary(alloc, *operator, inner)
        }
        Expr::Binary(_, operator, left, right) => {
            let front = boxed(alloc, around, first, left)?;
            let back = boxed(alloc, around, front.next, right)?;
            binary(alloc, *operator, front, back)
        }
        Expr::Conditional(_, test, left, right) => {
            let condition = boxed(alloc, around, first, test)?;
            let front = boxed(alloc, around, condition.next, left)?;
            let back = boxed(alloc, around, front.next, right)?;
            conditional(alloc, condition, front, back)
        }
        Expr::Apply(_, function, argument) => {
            let inner = boxed(alloc, around, first, argument)?;
            apply(alloc, *function, inner)
        }
        Expr::Several(_, word, arguments) => match word {
            ListWord::Mine => {
                let objects = row(alloc, around, first, arguments)?;
                all_owned(alloc, objects)
            }
            ListWord::ClaimsOnly => exact_set(alloc, around, first, arguments),
        },
        Expr::ClaimsObject(_, claim, object) => {
            let front = boxed(alloc, around, first, claim)?;
            let back = boxed(alloc, around, front.next, object)?;
            claims_object(alloc, front, back)
        }
        Expr::Claims(_, claim, property) => {
            let front = boxed(alloc, around, first, claim)?;
            let back = conjuncts(alloc, around, front.next, property)?;
            claims(alloc, front, back)
        }
        Expr::Approves(_, _) => BoxedSpec::new(alloc, Spec::Truth(true), first),
        Expr::Quantified(_, quantifier, ty, variable, body) => {
            let declared = declared_type(around.context.scope.declarations, ty)?;
            let bound = Quantified::Variable(ty, variable, around.context.scope.quantified);
            let inside = within_quantifier(around, ty, variable, &bound);
            match quantifier {
                Quantifier::ForAll => for_all_body(alloc, around, inside, first, declared, body),
                Quantifier::Exists => exists_body(alloc, around, inside, first, declared, body),
            }
        }
    }
}

/// One expression, alone in a row.
#[cycle(annotations)]
fn only<'s, 'a>(
    alloc: Global,
    around: Around<'s, 'a>,
    first: u32,
    x: &'a Expr,
) -> Result<Row, AllocError>
    ensures { IfOk result (λ r. row_of r ≡ only_typed (surroundings around.entry) first (view.exp x.now)) }
{
    let whole = boxed(alloc, around, first, x)?;
    single(alloc, whole)
}

/// The expressions of an argument list.
#[cycle(annotations)]
fn row<'s, 'a>(
    alloc: Global,
    around: Around<'s, 'a>,
    first: u32,
    all: &'a [Expr],
) -> Result<Row, AllocError>
    ensures { IfOk result (λ r. row_of r ≡ arguments_typed (surroundings around.entry) first (view.exps all.now)) }
{
    let mut so_far = Row::nothing(alloc, first);
    for x in all {
        let one = boxed(alloc, around, so_far.next, x)?;
        so_far = so_far.with_boxed(one)?;
    }
    Ok(so_far)
}

/// `\claims_only` of an argument list: the first is the claim.
#[cycle(annotations)]
fn exact_set<'s, 'a>(
    alloc: Global,
    around: Around<'s, 'a>,
    first: u32,
    all: &'a [Expr],
) -> Result<BoxedSpec, AllocError>
    ensures { IfOk result (λ v. seen v ≡ exact_set_typed (surroundings around.entry) first (view.exps all.now)) }
{
    let start = plus(1, first)?;
    let Some((claim, objects)) = all.split_first() else {
        return BoxedSpec::new(alloc, Spec::Truth(false), start);
    };
    let front = boxed(alloc, around, start, claim)?;
    let back = row(alloc, around, front.next, objects)?;
    claims_only(alloc, first, front, back)
}

/// The conjuncts of the second argument of `\claims`.
#[cycle(annotations)]
fn conjuncts<'s, 'a>(
    alloc: Global,
    around: Around<'s, 'a>,
    first: u32,
    x: &'a Expr,
) -> Result<Row, AllocError>
    ensures { IfOk result (λ r. row_of r ≡ conjuncts_typed (surroundings around.entry) first (view.exp x.now)) }
{
    match x {
        Expr::Group(_, inner) => conjuncts(alloc, around, first, inner),
        Expr::Binary(_, operator, left, right) => match operator {
            BinaryOperator::And => {
                let front = conjuncts(alloc, around, first, left)?;
                let back = conjuncts(alloc, around, front.next, right)?;
                front.then(back)
            }
            _ => only(alloc, around, first, x),
        },
        Expr::Status(_, left, _, Status::Closed) => {
            let object = boxed(alloc, around, first, left)?;
            let closed = lists(alloc, object)?;
            single(alloc, closed)
        }
        _ => only(alloc, around, first, x),
    }
}

/// The body of `\forall`: a membership, and what holds of each member, around which `inside` stands.
#[cycle(annotations)]
fn for_all_body<'q, 's, 'a>(
    alloc: Global,
    around: Around<'s, 'a>,
    inside: Around<'q, 'a>,
    first: u32,
    ty: DeclaredType,
    body: &'a Expr,
) -> Result<BoxedSpec, AllocError>
    ensures { IfOk result (λ v. seen v ≡ for_all_typed (surroundings around.entry) (surroundings inside.entry) first ty (view.exp body.now)) }
{
    match body {
        Expr::Group(_, inner) => for_all_body(alloc, around, inside, first, ty, inner),
        Expr::Binary(_, BinaryOperator::Implies, left, right) => {
            let start = plus(1, first)?;
            let object = owner(alloc, around, start, left)?;
            let holds = boxed(alloc, inside, object.next, right)?;
            for_all(alloc, first, ty, object, holds)
        }
        _ => {
            let start = plus(1, first)?;
            no_form(alloc, start, body)
        }
    }
}

/// The body of `\exists`: a membership, and what holds of some member, around which `inside` stands.
#[cycle(annotations)]
fn exists_body<'q, 's, 'a>(
    alloc: Global,
    around: Around<'s, 'a>,
    inside: Around<'q, 'a>,
    first: u32,
    ty: DeclaredType,
    body: &'a Expr,
) -> Result<BoxedSpec, AllocError>
    ensures { IfOk result (λ v. seen v ≡ exists_body_typed (surroundings around.entry) (surroundings inside.entry) first ty (view.exp body.now)) }
{
    match body {
        Expr::Group(_, inner) => exists_body(alloc, around, inside, first, ty, inner),
        Expr::Binary(_, operator, left, right) => match operator {
            BinaryOperator::And => {
                let start = plus(1, first)?;
                let object = owner_first(alloc, around, start, left)?;
                let front = others(alloc, inside, start, left)?;
                let last = boxed(alloc, inside, front.next, right)?;
                let all = front.with_boxed(last)?;
                exists(alloc, first, ty, object, all)
            }
            _ => {
                let start = plus(1, first)?;
                no_form(alloc, start, body)
            }
        },
        _ => {
            let start = plus(1, first)?;
            no_form(alloc, start, body)
        }
    }
}

/// What isn't of its form.
fn no_form(alloc: Global, first: u32, x: &Expr) -> Result<BoxedSpec, AllocError>
    ensures { IfOk result (λ v. seen v ≡ no_form_typed first (view.exp x.now)) }
{
    let next = next_formula(first, x)?;
    BoxedSpec::new(alloc, Spec::Null, next)
}

/// The object of a membership.
#[cycle(annotations)]
fn owner<'s, 'a>(
    alloc: Global,
    around: Around<'s, 'a>,
    first: u32,
    x: &'a Expr,
) -> Result<BoxedSpec, AllocError>
    ensures { IfOk result (λ v. seen v ≡ owner_typed (surroundings around.entry) first (view.exp x.now)) }
{
    match x {
        Expr::Group(_, inner) => owner(alloc, around, first, inner),
        Expr::Binary(_, BinaryOperator::In, left, right) => {
            let start = next_formula(first, left)?;
            boxed(alloc, around, start, right)
        }
        _ => no_form(alloc, first, x),
    }
}

/// The object of the membership that is the first operand of a chain of `&&`.
#[cycle(annotations)]
fn owner_first<'s, 'a>(
    alloc: Global,
    around: Around<'s, 'a>,
    first: u32,
    x: &'a Expr,
) -> Result<Box<Spec>, AllocError>
    ensures { IfOk result (λ v. said v.value ≡ spec.owner_first (surroundings around.entry) first (view.exp x.now)) }
{
    match x {
        Expr::Group(_, inner) => {
            let object = owner(alloc, around, first, inner)?;
            Ok(object.spec)
        }
        Expr::Binary(_, BinaryOperator::In, left, right) => {
            let start = next_formula(first, left)?;
            let object = boxed(alloc, around, start, right)?;
            Ok(object.spec)
        }
        Expr::Binary(_, BinaryOperator::And, left, _) => owner_first(alloc, around, first, left),
        _ => {
            let null = Box::new(alloc, Spec::Null)?;
            Ok(null)
        }
    }
}

/// The operands of a chain of `&&` behind its first.
#[cycle(annotations)]
fn others<'s, 'a>(
    alloc: Global,
    around: Around<'s, 'a>,
    first: u32,
    x: &'a Expr,
) -> Result<Row, AllocError>
    ensures { IfOk result (λ r. row_of r ≡ others_typed (surroundings around.entry) first (view.exp x.now)) }
{
    match x {
        Expr::Binary(_, operator, left, right) => match operator {
            BinaryOperator::And => {
                let front = others(alloc, around, first, left)?;
                let last = boxed(alloc, around, front.next, right)?;
                front.with_boxed(last)
            }
            _ => {
                let next = next_formula(first, x)?;
                Ok(Row::nothing(alloc, next))
            }
        },
        _ => {
            let next = next_formula(first, x)?;
            Ok(Row::nothing(alloc, next))
        }
    }
}

/// An expression whose first quantified formula has this number.
pub fn annotation<'s, 'a>(
    alloc: Global,
    around: Around<'s, 'a>,
    first: u32,
    x: &'a Expr,
) -> Result<TypedSpec, AllocError>
    ensures { IfOk result (λ v. unboxed v ≡ typed (surroundings around.entry) first (view.exp x.now)) }
{
    let whole = boxed(alloc, around, first, x)?;
    Ok(whole.taken_out())
}

/// The operands of `&&` at the top of an expression, and the number behind them.
#[cycle(operands)]
fn operands<'s, 'a>(
    alloc: Global,
    around: Around<'s, 'a>,
    first: u32,
    x: &'a Expr,
) -> Result<Row, AllocError>
    ensures { IfOk result (λ r. row_of r ≡ property_typed (surroundings around.entry) first (view.exp x.now)) }
{
    match x {
        Expr::Group(_, inner) => operands(alloc, around, first, inner),
        Expr::Binary(_, BinaryOperator::And, left, right) => {
            let front = operands(alloc, around, first, left)?;
            let back = operands(alloc, around, front.next, right)?;
            front.then(back)
        }
        _ => only(alloc, around, first, x),
    }
}

/// The operands of `&&` at the top of an expression, through brackets.
pub fn property<'s, 'a>(
    alloc: Global,
    around: Around<'s, 'a>,
    first: u32,
    x: &'a Expr,
) -> Result<Vec<Spec>, AllocError>
    ensures { IfOk result (λ v. specs v.items ≡ spec.property (surroundings around.entry) first (view.exp x.now)) }
{
    let all = operands(alloc, around, first, x)?;
    Ok(all.specs)
}

/// The arguments of the `\mine` conjuncts at the top of an invariant, and the number behind it.
#[cycle(mine_arguments)]
fn mine_arguments<'s, 'a>(
    alloc: Global,
    around: Around<'s, 'a>,
    first: u32,
    x: &'a Expr,
) -> Result<Row, AllocError>
    ensures { IfOk result (λ r. row_of r ≡ mine_arguments_typed (surroundings around.entry) first (view.exp x.now)) }
{
    match x {
        Expr::Group(_, inner) => mine_arguments(alloc, around, first, inner),
        Expr::Binary(_, BinaryOperator::And, left, right) => {
            let front = mine_arguments(alloc, around, first, left)?;
            let back = mine_arguments(alloc, around, front.next, right)?;
            front.then(back)
        }
        Expr::Several(_, word, arguments) => match word {
            ListWord::Mine => row(alloc, around, first, arguments),
            ListWord::ClaimsOnly => {
                let next = next_formula(first, x)?;
                Ok(Row::nothing(alloc, next))
            }
        },
        _ => {
            let next = next_formula(first, x)?;
            Ok(Row::nothing(alloc, next))
        }
    }
}

/// The arguments of the `\mine` conjuncts at the top of an invariant.
pub fn mine<'s, 'a>(
    alloc: Global,
    around: Around<'s, 'a>,
    first: u32,
    x: &'a Expr,
) -> Result<Vec<Spec>, AllocError>
    ensures { IfOk result (λ v. specs v.items ≡ spec.mine (surroundings around.entry) first (view.exp x.now)) }
{
    let all = mine_arguments(alloc, around, first, x)?;
    Ok(all.specs)
}
