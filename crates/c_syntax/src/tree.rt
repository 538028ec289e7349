//! Words and signs of trees that stand for one thing each: operators, statuses, attributes and the like.

/// `\true`, `\false`, `\this`, `\me`, `\result`.
#[derive(Clone, Copy, Debug, PartialEq, Eq)]
pub enum Constant {
    True,
    False,
    This,
    Me,
    Result,
}

/// What may stand behind `->` in a spec beside a field.
#[derive(Clone, Copy, Debug, PartialEq, Eq)]
pub enum Status {
    Closed,
    Owner,
    ClaimCount,
}

#[derive(Clone, Copy, Debug, PartialEq, Eq)]
pub enum UnaryOperator {
    Not,
    Negate,
}

#[derive(Clone, Copy, Debug, PartialEq, Eq)]
pub enum BinaryOperator {
    Times,
    Over,
    Modulo,
    Plus,
    Minus,
    Less,
    LessEqual,
    Greater,
    GreaterEqual,
    /// `\in`
    In,
    Equal,
    NotEqual,
    And,
    Or,
    Implies,
    Equivalent,
}

/// Words of one argument.
#[derive(Clone, Copy, Debug, PartialEq, Eq)]
pub enum SpecFunction {
    Old,
    Unchanged,
    Wrapped,
    /// `\wrapped0`
    WrappedUnclaimed,
    Mutable,
    Fresh,
}

/// Words of a list of arguments, of which there is one at least.
#[derive(Clone, Copy, Debug, PartialEq, Eq)]
pub enum ListWord {
    /// each is a member of the owned set of `\this`
    Mine,
    /// the first claims the others, and nothing else
    ClaimsOnly,
}

#[derive(Clone, Copy, Debug, PartialEq, Eq)]
pub enum Quantifier {
    ForAll,
    Exists,
}

/// The Interlocked functions, by their ends.
#[derive(Clone, Copy, Debug, PartialEq, Eq)]
pub enum Interlocked {
    CompareExchange,
    Exchange,
    Increment,
    Decrement,
}

/// The words of a contract's conditions.
#[derive(Clone, Copy, Debug, PartialEq, Eq)]
pub enum Condition {
    Requires,
    Ensures,
    Maintains,
}

#[derive(Clone, Copy, Debug, PartialEq, Eq)]
pub enum Attribute {
    Claimable,
    DynamicOwns,
    VolatileOwns,
}
