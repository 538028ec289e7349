//! What values are.

ghost use Rattle.std.specs.Prelude.{◌≡◌};
ghost use Rattle.std.specs.Option.{option_map};
ghost use Rattle.typing_spec.specs.Types as spec;
ghost use Rattle.typing_expressions.specs.Views.{kind};

use c_syntax::tree::{BinaryOperator, SpecFunction, Status, UnaryOperator};
use typing_symbols::declarations::StructEntry;

/// What a value is; integer types convert to each other, so they are one here.
#[derive(Clone, Copy)]
pub enum Kind<'s, 'a> {
    Integer,
    /// `NULL`
    Null,
    /// `struct T *`
    Pointer(&'s StructEntry<'a>),
    /// `\object`
    Object,
    /// `\claim`
    Claim,
    /// `e->\owns`
    OwnedSet,
    /// what a void function gives
    Void,
}

impl<'s, 'a> Kind<'s, 'a> {
    pub fn is_integer(self) -> bool
        ensures { result ≡ spec.is_integer (kind self.entry) }
    {
        matches!(self, Kind::Integer)
    }

    pub fn is_pointer(self) -> bool
        ensures { result ≡ spec.is_pointer (kind self.entry) }
    {
        matches!(self, Kind::Pointer(_))
    }

    pub fn is_reference(self) -> bool
        ensures { result ≡ spec.is_reference (kind self.entry) }
    {
        matches!(
            self,
            Kind::Null | Kind::Pointer(_) | Kind::Object | Kind::Claim
        )
    }

    pub fn is_owned_set(self) -> bool
        ensures { result ≡ spec.is_owned_set (kind self.entry) }
    {
        matches!(self, Kind::OwnedSet)
    }

    /// Whether it may be a test.
    pub fn is_scalar(self) -> bool
        ensures { result ≡ spec.is_scalar (kind self.entry) }
    {
        self.is_integer() || self.is_reference()
    }

    /// Whether such a value converts to the other kind.
    pub fn converts(self, other: Kind<'s, 'a>) -> bool
        ensures { result ≡ spec.converts (kind self.entry) (kind other.entry) }
    {
        match self {
            Kind::Integer => matches!(other, Kind::Integer),
            Kind::Null => other.is_reference(),
            Kind::Pointer(left) => match other {
                Kind::Pointer(right) => {
                    left.tree.name.name.as_slice() == right.tree.name.name.as_slice()
                }
                Kind::Object => true,
                _ => false,
            },
            Kind::Object => matches!(other, Kind::Object),
            Kind::Claim => matches!(other, Kind::Claim | Kind::Object),
            Kind::OwnedSet | Kind::Void => false,
        }
    }

    /// Whether both are integers, or both references.
    fn is_comparable(self, other: Kind<'s, 'a>) -> bool
        ensures { result ≡ spec.comparable (kind self.entry) (kind other.entry) }
    {
        (self.is_integer() && other.is_integer()) || (self.is_reference() && other.is_reference())
    }
}

/// Whether the operator takes such an operand.
pub fn unary_fits<'s, 'a>(operator: UnaryOperator, operand: Kind<'s, 'a>) -> bool
    ensures { result ≡ spec.unary_fits operator (kind operand.entry) }
{
    match operator {
        UnaryOperator::Not => operand.is_scalar(),
        UnaryOperator::Negate => operand.is_integer(),
    }
}

/// Whether the operator takes such a left operand.
pub fn left_fits<'s, 'a>(operator: BinaryOperator, operand: Kind<'s, 'a>) -> bool
    ensures { result ≡ spec.left_fits operator (kind operand.entry) }
{
    match operator {
        BinaryOperator::In => operand.is_reference(),
        BinaryOperator::Equal
        | BinaryOperator::NotEqual
        | BinaryOperator::And
        | BinaryOperator::Or
        | BinaryOperator::Implies
        | BinaryOperator::Equivalent => operand.is_scalar(),
        _ => operand.is_integer(),
    }
}

/// Whether the operator takes such a right operand.
pub fn right_fits<'s, 'a>(operator: BinaryOperator, operand: Kind<'s, 'a>) -> bool
    ensures { result ≡ spec.right_fits operator (kind operand.entry) }
{
    match operator {
        BinaryOperator::In => operand.is_owned_set(),
        _ => left_fits(operator, operand),
    }
}

/// Whether the operator takes both together.
pub fn together_fit<'s, 'a>(
    operator: BinaryOperator,
    left: Kind<'s, 'a>,
    right: Kind<'s, 'a>,
) -> bool
    ensures { result ≡ spec.together_fit operator (kind left.entry) (kind right.entry) }
{
    match operator {
        BinaryOperator::Equal | BinaryOperator::NotEqual => left.is_comparable(right),
        _ => true,
    }
}

/// What two branches of `?:` give.
pub fn branches<'s, 'a>(left: Kind<'s, 'a>, right: Kind<'s, 'a>) -> Option<Kind<'s, 'a>>
    ensures { option_map kind result ≡ spec.branches (kind left.entry) (kind right.entry) }
{
    if left.converts(right) {
        Some(right)
    } else if right.converts(left) {
        Some(left)
    } else {
        None
    }
}

/// What `?:` gives with a test and branches of these kinds.
pub fn conditional_kind<'s, 'a>(
    test: Kind<'s, 'a>,
    left: Kind<'s, 'a>,
    right: Kind<'s, 'a>,
) -> Option<Kind<'s, 'a>>
    ensures { option_map kind result ≡ spec.conditional_kind (kind test.entry) (kind left.entry) (kind right.entry) }
{
    if test.is_scalar() {
        branches(left, right)
    } else {
        None
    }
}

/// What a word behind `->` gives.
pub fn status_kind<'s, 'a>(status: Status) -> Kind<'s, 'a>
    ensures { kind result ≡ spec.status_kind status }
{
    match status {
        Status::Closed | Status::ClaimCount => Kind::Integer,
        Status::Owner => Kind::Object,
    }
}

/// What a word of one argument gives.
pub fn function_kind<'s, 'a>(function: SpecFunction, argument: Kind<'s, 'a>) -> Kind<'s, 'a>
    ensures { kind result ≡ spec.function_kind function (kind argument.entry) }
{
    match function {
        SpecFunction::Old => argument,
        _ => Kind::Integer,
    }
}
