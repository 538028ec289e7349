//! Expressions of annotations out of what their parts are.

ghost use Rattle.std.specs.Prelude.{◌≡◌, IfOk, ◌∷◌, true};
ghost use Rattle.c_syntax.specs.Views as view;
ghost use Rattle.elab_code.specs.Views.{around as surroundings, meaning as of_name};
ghost use Rattle.typing_expressions.specs.Views.{quantified as bound};
ghost use Rattle.typed_program.specs.Annotations as spec;
ghost use Rattle.typed_program.specs.Codes.{binary as binary_form};
ghost use Rattle.typed_program.specs.Numbers as numbers;
ghost use Rattle.typed_program.specs.Trees as t;
ghost use Rattle.typed_program.specs.Views.{spec as said};
ghost use Rattle.elab_annotations.specs.Typing.{alone, one, two, three};
ghost use Rattle.elab_annotations.specs.Views.{annotation, boxed as seen};

use crate::annotations::TypedSpec;
use c_syntax::expressions::{Expr, Identifier, ValueType};
use c_syntax::tree::{BinaryOperator, Constant, SpecFunction, Status, UnaryOperator};
use elab_code::around::{Around, Meaning};
use elab_code::numbers::{field_of_kind, meaning};
use method::program::{Comparison, Operator, Spec};
use std::alloc::{AllocError, Global};
use typing_expressions::context::{Context, Quantified, Scope};
use typing_expressions::expressions::expression;

/// An expression as it is typed, in a box: one that is held where a later one fails is dropped by one call.
#[derive(Drop)]
pub struct BoxedSpec {
    pub spec: Box<Spec>,
    pub next: u32,
}

impl BoxedSpec {
    /// This expression, behind which the next quantified formula has this number.
    pub fn new(alloc: Global, spec: Spec, next: u32) -> Result<BoxedSpec, AllocError>
        ensures { IfOk result (λ v. seen v ≡ alone (said spec) next) }
    {
        Ok(BoxedSpec {
            spec: Box::new(alloc, spec)?,
            next,
        })
    }

    /// The expression without its box.
    pub fn taken_out(self) -> TypedSpec
        ensures { annotation result ≡ seen self }
    {
        TypedSpec {
            spec: Box::into_inner(self.spec),
            next: self.next,
        }
    }
}

/// A word.
pub fn word(constant: Constant) -> Spec
    ensures { said result ≡ spec.word constant }
{
    match constant {
        Constant::True => Spec::Truth(true),
        Constant::False => Spec::Truth(false),
        Constant::This => Spec::This,
        Constant::Me => Spec::Me,
        Constant::Result => Spec::Result,
    }
}

/// A bare name, which has this meaning.
fn named(alloc: Global, meaning: Meaning) -> Result<Spec, AllocError>
    ensures { IfOk result (λ s. said s ≡ spec.name (of_name meaning)) }
{
    match meaning {
        Meaning::OfQuantifier(place) => Ok(Spec::Bound(place)),
        Meaning::OfFunction(place) => Ok(Spec::Variable(place)),
        Meaning::OwnField(field) => {
            let this = Box::new(alloc, Spec::This)?;
            Ok(Spec::Field(this, field))
        }
    }
}

/// A bare name.
pub fn name(
    alloc: Global,
    around: Around<'_, '_>,
    first: u32,
    known: &Identifier,
) -> Result<BoxedSpec, AllocError>
    ensures { IfOk result (λ v. seen v ≡ alone (spec.name (numbers.meaning (surroundings around.entry) (view.id known.now))) first) }
{
    let means = meaning(around, known)?;
    let spec = named(alloc, means)?;
    BoxedSpec::new(alloc, spec, first)
}

/// A field of an object.
pub fn field<'s, 'a>(
    alloc: Global,
    around: Around<'s, 'a>,
    left: &'a Expr,
    named: &Identifier,
    inner: BoxedSpec,
) -> Result<BoxedSpec, AllocError>
    ensures { IfOk result (λ v. seen v ≡ one (λ w. t.SField w (numbers.field_at (surroundings around.entry) (view.exp left.now) (view.id named.now))) (seen inner)) }
{
    let owner = expression(around.context, left);
    let number = field_of_kind(around.context.scope.declarations, owner.kind, named)?;
    BoxedSpec::new(alloc, Spec::Field(inner.spec, number), inner.next)
}

/// A word about an object's status.
fn told(which: Status, object: Box<Spec>) -> Spec
    ensures { said result ≡ spec.status which (said object.value) }
{
    match which {
        Status::Closed => Spec::Closed(object),
        Status::Owner => Spec::Owner(object),
        Status::ClaimCount => Spec::ClaimCount(object),
    }
}

/// A word about an object's status.
pub fn status(alloc: Global, which: Status, inner: BoxedSpec) -> Result<BoxedSpec, AllocError>
    ensures { IfOk result (λ v. seen v ≡ one (spec.status which) (seen inner)) }
{
    BoxedSpec::new(alloc, told(which, inner.spec), inner.next)
}

/// That an object is closed, as a conjunct of a property.
pub fn lists(alloc: Global, inner: BoxedSpec) -> Result<BoxedSpec, AllocError>
    ensures { IfOk result (λ v. seen v ≡ one t.SLists (seen inner)) }
{
    BoxedSpec::new(alloc, Spec::Lists(inner.spec), inner.next)
}

/// An operator in front of an operand.
fn negation(operator: UnaryOperator, operand: Box<Spec>) -> Spec
    ensures { said result ≡ spec.negation operator (said operand.value) }
{
    match operator {
        UnaryOperator::Not => Spec::Not(operand),
        UnaryOperator::Negate => Spec::Negate(operand),
    }
}

/// An operator in front of an operand.
pub fn unary(
    alloc: Global,
    operator: UnaryOperator,
    inner: BoxedSpec,
) -> Result<BoxedSpec, AllocError>
    ensures { IfOk result (λ v. seen v ≡ one (spec.negation operator) (seen inner)) }
{
    BoxedSpec::new(alloc, negation(operator, inner.spec), inner.next)
}

/// A word with one argument.
fn applied(function: SpecFunction, argument: Box<Spec>) -> Spec
    ensures { said result ≡ spec.applied function (said argument.value) }
{
    match function {
        SpecFunction::Old => Spec::Old(argument),
        SpecFunction::Unchanged => Spec::Unchanged(argument),
        SpecFunction::Wrapped => Spec::Wrapped(argument),
        SpecFunction::WrappedUnclaimed => Spec::Wrapped0(argument),
        SpecFunction::Mutable => Spec::Mutable(argument),
        SpecFunction::Fresh => Spec::Fresh(argument),
    }
}

/// A word with one argument.
pub fn apply(
    alloc: Global,
    function: SpecFunction,
    inner: BoxedSpec,
) -> Result<BoxedSpec, AllocError>
    ensures { IfOk result (λ v. seen v ≡ one (spec.applied function) (seen inner)) }
{
    BoxedSpec::new(alloc, applied(function, inner.spec), inner.next)
}

/// An operator between its operands.
fn joined(operator: BinaryOperator, left: Box<Spec>, right: Box<Spec>) -> Spec
    ensures { said result ≡ spec.joined (binary_form operator) (said left.value) (said right.value) }
{
    match operator {
        BinaryOperator::Times => Spec::Arithmetic(Operator::Times, left, right),
        BinaryOperator::Over => Spec::Arithmetic(Operator::Over, left, right),
        BinaryOperator::Modulo => Spec::Arithmetic(Operator::Modulo, left, right),
        BinaryOperator::Plus => Spec::Arithmetic(Operator::Plus, left, right),
        BinaryOperator::Minus => Spec::Arithmetic(Operator::Minus, left, right),
        BinaryOperator::Less => Spec::Compare(Comparison::Less, left, right),
        BinaryOperator::LessEqual => Spec::Compare(Comparison::LessEqual, left, right),
        BinaryOperator::Greater => Spec::Compare(Comparison::Greater, left, right),
        BinaryOperator::GreaterEqual => Spec::Compare(Comparison::GreaterEqual, left, right),
        BinaryOperator::In => Spec::Member(left, right),
        BinaryOperator::Equal => Spec::Compare(Comparison::Equal, left, right),
        BinaryOperator::NotEqual => Spec::Compare(Comparison::NotEqual, left, right),
        BinaryOperator::And => Spec::And(left, right),
        BinaryOperator::Or => Spec::Or(left, right),
        BinaryOperator::Implies => Spec::Implies(left, right),
        BinaryOperator::Equivalent => Spec::Iff(left, right),
    }
}

/// An operator between its operands.
pub fn binary(
    alloc: Global,
    operator: BinaryOperator,
    left: BoxedSpec,
    right: BoxedSpec,
) -> Result<BoxedSpec, AllocError>
    ensures { IfOk result (λ v. seen v ≡ two (spec.joined (binary_form operator)) (seen left) (seen right)) }
{
    BoxedSpec::new(alloc, joined(operator, left.spec, right.spec), right.next)
}

/// `?:` between its test and branches.
pub fn conditional(
    alloc: Global,
    test: BoxedSpec,
    left: BoxedSpec,
    right: BoxedSpec,
) -> Result<BoxedSpec, AllocError>
    ensures { IfOk result (λ v. seen v ≡ three t.SChoose (seen test) (seen left) (seen right)) }
{
    BoxedSpec::new(
        alloc,
        Spec::Choose(test.spec, left.spec, right.spec),
        right.next,
    )
}

/// That a claim claims an object.
pub fn claims_object(
    alloc: Global,
    claim: BoxedSpec,
    object: BoxedSpec,
) -> Result<BoxedSpec, AllocError>
    ensures { IfOk result (λ v. seen v ≡ two t.SClaimsObject (seen claim) (seen object)) }
{
    BoxedSpec::new(
        alloc,
        Spec::ClaimsObject(claim.spec, object.spec),
        object.next,
    )
}

/// What stands around the body of a quantifier.
pub fn within_quantifier<'q, 's, 'a>(
    around: Around<'s, 'a>,
    ty: &'a ValueType,
    variable: &'a Identifier,
    all: &'q Quantified<'q, 'a>,
) -> Around<'q, 'a>
where
    's: 'q,
    requires { bound all.now ≡ record { name = view.id variable.now; ty = view.ty ty.now; is_ghost = true } ∷ bound around.context.scope.quantified.now }
    ensures { surroundings result ≡ spec.within_quantifier (view.ty ty.now) (view.id variable.now) (surroundings around.entry) }
{
    let inside = around.context.quantified(ty, variable, all);
    Around {
        context: Context {
            scope: Scope {
                quantified: all,
                ..around.context.scope
            },
            ..inside
        },
        places: around.places,
    }
}
