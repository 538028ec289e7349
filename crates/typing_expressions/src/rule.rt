//! The typing rules.

ghost use Rattle.std.specs.Prelude.{◌≡◌};
ghost use Rattle.typing_spec.specs.Rules as spec;
ghost use Rattle.typing_expressions.specs.Views.{rule};

/// A typing rule that a source may break.
#[derive(Clone, Copy, Debug, PartialEq, Eq)]
pub enum Rule {
    /// A name isn't declared.
    Undeclared,
    /// A name is declared twice.
    DeclaredTwice,
    /// An operator's operands don't fit.
    Operands,
    /// A value doesn't convert to what is wanted there.
    Conversion,
    /// A call has too many or too few arguments.
    ArgumentCount,
    /// `->` stands behind something else than a `struct T *`.
    Arrow,
    /// What runs reads or writes what is ghost.
    GhostInCode,
    /// Ghost code writes what isn't ghost.
    GhostWrites,
    /// Such a statement can't stand in an atomic block.
    InAtomic,
    /// An atomic block has a second access to a volatile field.
    SecondAccess,
    /// An Interlocked call is out of form or place.
    InterlockedCall,
    /// An owned set can't be changed so.
    OwnsChange,
    /// Something else than a `struct T *` is wrapped or unwrapped.
    WrapOperand,
    /// Such an object can't be claimed.
    Claimed,
    /// An invariant reads what it can't speak of.
    InvariantReads,
    /// A quantifier, or an owned set in an invariant, isn't of the form.
    QuantifierForm,
    /// `\old`, `\unchanged` or `\fresh` is out of place.
    OldPlace,
    /// `\result` is out of place.
    ResultPlace,
    /// `\this` or `\mine` is out of place.
    ThisPlace,
    /// A claim's property holds what it can't.
    PropertyForm,
    /// A return is missing, out of place or out of form.
    ReturnForm,
    /// A function with a value is spawned.
    SpawnedValue,
    /// A struct has no field, or both kinds of owned sets.
    StructForm,
    /// There is no `main`.
    NoMain,
    /// `\approves` is out of place or of form.
    ApprovalForm,
}

impl Rule {
    /// The number by which the rule is told, from 1 to 25.
    pub fn number(self) -> u8
        ensures { result ≡ spec.number (rule self) }
    {
        match self {
            Rule::Undeclared => 1,
            Rule::DeclaredTwice => 2,
            Rule::Operands => 3,
            Rule::Conversion => 4,
            Rule::ArgumentCount => 5,
            Rule::Arrow => 6,
            Rule::GhostInCode => 7,
            Rule::GhostWrites => 8,
            Rule::InAtomic => 9,
            Rule::SecondAccess => 10,
            Rule::InterlockedCall => 11,
            Rule::OwnsChange => 12,
            Rule::WrapOperand => 13,
            Rule::Claimed => 14,
            Rule::InvariantReads => 15,
            Rule::QuantifierForm => 16,
            Rule::OldPlace => 17,
            Rule::ResultPlace => 18,
            Rule::ThisPlace => 19,
            Rule::PropertyForm => 20,
            Rule::ReturnForm => 21,
            Rule::SpawnedValue => 22,
            Rule::StructForm => 23,
            Rule::NoMain => 24,
            Rule::ApprovalForm => 25,
        }
    }
}
