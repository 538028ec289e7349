//! Why a source gives no tokens.

use crate::token::Span;
use thiserror::Error;

/// The first fault of a source's tokens, with its place.
#[derive(Clone, Copy, Debug, PartialEq, Eq, Error)]
pub enum LexFault {
    /// A byte that begins no token.
    #[error("bad byte")]
    BadByte(Span),
    /// What has the shape of a number and is none, at its first byte.
    #[error("bad number")]
    BadNumber(Span),
    /// A comment without end, at its first byte.
    #[error("open comment")]
    OpenComment(Span),
    /// The first token past the limit.
    #[error("too many tokens")]
    TooManyTokens(Span),
    #[error("out of memory")]
    OutOfMemory,
}
