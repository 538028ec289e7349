//! What stands around a piece of a program.

ghost use Rattle.std.specs.Prelude.{◌≡◌, true, ◌∷◌};
ghost use Rattle.c_syntax.specs.Views as view;
ghost use Rattle.typing_spec.specs.Contexts as spec;
ghost use Rattle.typing_spec.specs.Pieces as pieces;
ghost use Rattle.typing_expressions.specs.Views.{context, text, property, quantified as bound};

use c_syntax::expressions::{Expr, Identifier, ValueType};
use c_syntax::tree::{BinaryOperator, SpecFunction};
use typing_symbols::declarations::{Declarations, StructEntry};
use typing_symbols::variables::Variables;

/// What a text is: what runs, ghost code, or which kind of spec.
#[derive(Clone, Copy)]
pub enum Text {
    Code,
    /// also what is wrapped, unwrapped or listed at an atomic block, and ghost arguments
    GhostCode,
    TypeInvariant,
    LoopInvariant,
    Requires,
    Ensures,
    Maintains,
    Writes,
    Assert,
    ClaimProperty,
}

/// Where an expression stands in a property: a claim's, or the second argument of `\claims`.
#[derive(Clone, Copy)]
pub enum InProperty<'a> {
    Outside,
    /// a whole conjunct, with the claimed objects of a claim's property
    Conjunct(Option<&'a [Expr]>),
    /// part of a conjunct
    Below,
}

/// The variables of the quantifiers around, the innermost first.
#[derive(Clone, Copy)]
pub enum Quantified<'q, 'a> {
    Nothing,
    Variable(&'a ValueType, &'a Identifier, &'q Quantified<'q, 'a>),
}

/// What names and words stand for.
#[derive(Clone, Copy)]
pub struct Scope<'s, 'a> {
    pub declarations: &'s Declarations<'a>,
    pub variables: &'s Variables<'a>,
    pub quantified: &'s Quantified<'s, 'a>,
    /// the struct whose invariant this is
    pub this: Option<&'s StructEntry<'a>>,
    /// the type of `\result`, in an ensures clause
    pub result_type: Option<&'a ValueType>,
}

/// What stands around a piece of a program.
#[derive(Clone, Copy)]
pub struct Context<'s, 'a> {
    pub scope: Scope<'s, 'a>,
    /// the type of the function's value
    pub value: Option<&'a ValueType>,
    pub text: Text,
    pub property: InProperty<'a>,
    pub in_old: bool,
    pub in_atomic: bool,
    pub in_unwrapping: bool,
}

impl<'a> InProperty<'a> {
    /// Where the parts of an expression stand that is no conjunction.
    fn part(self) -> InProperty<'a>
        ensures { property result ≡ spec.part_of (property self.entry) }
    {
        match self {
            InProperty::Outside => InProperty::Outside,
            InProperty::Conjunct(_) | InProperty::Below => InProperty::Below,
        }
    }
}

impl<'s, 'a> Context<'s, 'a> {
    /// Inside an expression that isn't a conjunction.
    pub fn deeper(mut self) -> Context<'s, 'a>
        ensures { context result ≡ spec.deeper (context self.entry) }
    {
        self.property = self.property.part();
        self
    }

    /// Around the operands of an operator.
    pub fn operand(self, operator: BinaryOperator) -> Context<'s, 'a>
        ensures { context result ≡ pieces.operand operator (context self.entry) }
    {
        match operator {
            BinaryOperator::And => self,
            _ => self.deeper(),
        }
    }

    /// Around the argument of a word.
    pub fn argument(mut self, function: SpecFunction) -> Context<'s, 'a>
        ensures { context result ≡ pieces.argument function (context self.entry) }
    {
        self.property = self.property.part();
        self.in_old = matches!(function, SpecFunction::Old) || self.in_old;
        self
    }

    /// In the second argument of `\claims`.
    pub fn inside_claims(mut self) -> Context<'s, 'a>
        ensures { context result ≡ spec.inside_claims (context self.entry) }
    {
        self.property = InProperty::Conjunct(None);
        self
    }

    /// As another text.
    pub fn with_text(mut self, other: Text) -> Context<'s, 'a>
        ensures { context result ≡ spec.with_text (text other) (context self.entry) }
    {
        self.text = other;
        self
    }

    /// In the property of a claim of these objects.
    pub fn claim_property(mut self, objects: &'a [Expr]) -> Context<'s, 'a>
        ensures { context result ≡ pieces.claim_property (view.exps objects.now) (context self.entry) }
    {
        self.text = Text::ClaimProperty;
        self.property = InProperty::Conjunct(Some(objects));
        self
    }

    /// In an atomic block.
    pub fn inside_atomic(mut self) -> Context<'s, 'a>
        ensures { context result ≡ spec.inside_atomic (context self.entry) }
    {
        self.in_atomic = true;
        self
    }

    /// In an unwrapping block.
    pub fn inside_unwrapping(mut self) -> Context<'s, 'a>
        ensures { context result ≡ spec.inside_unwrapping (context self.entry) }
    {
        self.in_unwrapping = true;
        self
    }

    /// In the body of a quantifier over this variable, which stands in front of those around.
    pub fn quantified<'q>(
        self,
        ty: &'a ValueType,
        variable: &'a Identifier,
        all: &'q Quantified<'q, 'a>,
    ) -> Context<'q, 'a>
    where
        's: 'q,
        requires { bound all.now ≡ record { name = view.id variable.now; ty = view.ty ty.now; is_ghost = true } ∷ bound self.scope.quantified.now }
        ensures { context result ≡ spec.with_quantified (view.ty ty.now) (view.id variable.now) (spec.deeper (context self.entry)) }
    {
        Context {
            scope: Scope {
                quantified: all,
                ..self.scope
            },
            property: self.property.part(),
            ..self
        }
    }
}
