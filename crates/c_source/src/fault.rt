//! Why a source gives no tree.

use c_syntax::token::Span;
use thiserror::Error;

/// The first fault of a source, with its place. Faults of tokens come before those of the grammar.
#[derive(Clone, Copy, Debug, PartialEq, Eq, Error)]
pub enum SourceFault {
    /// A byte that begins no token.
    #[error("bad byte")]
    BadByte(Span),
    /// What has the shape of a number and is none, at its first byte.
    #[error("bad number")]
    BadNumber(Span),
    /// A comment without end, at its first byte.
    #[error("open comment")]
    OpenComment(Span),
    /// The first token past the limit.
    #[error("too many tokens")]
    TooManyTokens(Span),
    /// A token with which no item goes on.
    #[error("unexpected token")]
    Unexpected(Span),
    /// The same of a word behind `_(` that is a form nowhere.
    #[error("unknown form")]
    UnknownForm(Span),
    /// A token with which only items go on that are too high.
    #[error("too deep")]
    TooDeep(Span),
    #[error("out of memory")]
    OutOfMemory,
}
