//! Tokens.

use int_ranges::ctype::CType;

/// A place in a source: the line and the column of a byte, both counted from 1. A line ends behind its LF; each other byte takes one column.
#[derive(Clone, Copy, Debug, PartialEq, Eq)]
pub struct Span {
    pub line: u32,
    pub column: u32,
}

/// A name with a meaning of its own in the grammar, which therefore names nothing else.
#[derive(Clone, Copy, Debug, PartialEq, Eq)]
pub enum Keyword {
    Claimable,
    DynamicOwns,
    VolatileOwns,
    Struct,
    Volatile,
    Invariant,
    Ghost,
    Int,
    Unsigned,
    Long,
    Void,
    Requires,
    Ensures,
    Maintains,
    Writes,
    If,
    Else,
    While,
    Do,
    For,
    Return,
    VccSpawn,
    Free,
    Assert,
    Wrap,
    Unwrap,
    Unwrapping,
    Atomic,
    Malloc,
    Sizeof,
    /// `InterlockedCompareExchange`
    CompareExchange,
    /// `InterlockedExchange`
    Exchange,
    /// `InterlockedIncrement`
    Increment,
    /// `InterlockedDecrement`
    Decrement,
    Null,
}

/// A backslash and a name, without the backslash.
#[derive(Clone, Copy, Debug, PartialEq, Eq)]
pub enum SpecWord {
    Object,
    Claim,
    Span,
    Extent,
    Owns,
    DestroyClaim,
    MakeClaim,
    In,
    True,
    False,
    This,
    Me,
    Result,
    Old,
    Unchanged,
    Mine,
    Wrapped,
    /// `\wrapped0`
    WrappedUnclaimed,
    Mutable,
    Fresh,
    ClaimsObject,
    Claims,
    ClaimsOnly,
    Approves,
    Closed,
    Owner,
    ClaimCount,
    Forall,
    Exists,
}

/// A token that is neither a word nor a number.
#[derive(Clone, Copy, Debug, PartialEq, Eq)]
pub enum Sign {
    /// `(`
    Open,
    /// `)`
    Close,
    /// `{`
    BraceOpen,
    /// `}`
    BraceClose,
    /// `[`
    BracketOpen,
    /// `]`
    BracketClose,
    /// `_(`
    Annotation,
    /// `;`
    Semicolon,
    /// `,`
    Comma,
    /// `->`
    Arrow,
    /// `=`
    Assign,
    /// `+=`
    AddAssign,
    /// `-=`
    SubtractAssign,
    /// `++`
    Increment,
    /// `--`
    Decrement,
    /// `==`
    Equal,
    /// `!=`
    NotEqual,
    /// `<`
    Less,
    /// `<=`
    LessEqual,
    /// `>`
    Greater,
    /// `>=`
    GreaterEqual,
    /// `+`
    Plus,
    /// `-`
    Minus,
    /// `*`
    Star,
    /// `/`
    Slash,
    /// `%`
    Percent,
    /// `!`
    Not,
    /// `&&`
    And,
    /// `||`
    Or,
    /// `?`
    Question,
    /// `:`
    Colon,
    /// `&`
    Ampersand,
    /// `==>`
    Implies,
    /// `<==>`
    Equivalent,
    /// `.`
    Dot,
    /// `|`
    Bar,
    /// `^`
    Caret,
    /// `~`
    Tilde,
}

/// What a token is.
#[derive(Clone, Copy)]
pub enum TokenKind<'a> {
    /// a name that is no keyword
    Name(&'a [u8]),
    Keyword(Keyword),
    SpecWord(SpecWord),
    /// a backslash and a name that is no word of the language
    OtherSpecWord,
    /// a number, with the type that C's list gives it
    Number { value: u64, ty: CType },
    Sign(Sign),
    /// the end of the text
    End,
}

/// A token, with the place of its first byte. Its text is the source's bytes from `start` up to `end`.
#[derive(Clone, Copy)]
pub struct Token<'a> {
    pub kind: TokenKind<'a>,
    pub span: Span,
    pub start: u32,
    pub end: u32,
}
