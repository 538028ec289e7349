//! What stands right of an operator, and what a quantifier's body is.

ghost use Rattle.std.specs.Prelude.{◌≡◌};
ghost use Rattle.reader_expressions.specs.Operands.{of_joint};

use crate::joints::Joint;
use crate::levels::{Mode, Tier};
use c_syntax::tree::BinaryOperator;

/// What stands right of an operator, and what a quantifier's body is.
#[derive(Clone, Copy)]
pub enum Operand {
    /// An expression of this level.
    Level(Mode, Tier),
    /// An expression that ends with `->\owns`.
    OwnedSet,
    /// What `&&` joins right of `\in`.
    Membership,
    /// The body of a quantifier right of `\in`.
    SetBody,
}

/// A joint's operator, and what stands right of it.
pub fn following(joint: Joint) -> (BinaryOperator, Operand)
    ensures { result ≡ of_joint joint }
{
    match joint {
        Joint::In => (BinaryOperator::In, Operand::OwnedSet),
        Joint::And => (BinaryOperator::And, Operand::Membership),
        Joint::Implies => (BinaryOperator::Implies, Operand::SetBody),
    }
}
