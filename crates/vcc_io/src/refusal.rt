//! Why a command gives no verdict.

use c_syntax::token::Span;
use int_ranges::exact::Wide;
use typing_expressions::violations::Violation;
use vcc_base::limit::Limit;

/// What is wrong with a line of a certificate or of a schedule.
#[derive(Clone, Copy, Debug, PartialEq, Eq)]
pub enum LineFault {
    BadLine,
    BadNumber,
    CutShort,
    Trailing,
    CountOver,
}

/// How many blocks a certificate has, and how many conditions a source.
#[derive(Clone, Copy, Debug, PartialEq, Eq)]
pub struct BlockCount {
    pub blocks: usize,
    pub conditions: usize,
}

/// Why a command gives no verdict.
#[derive(Clone, Copy)]
pub enum Refusal<'a> {
    /// The words are no command.
    Usage,
    /// A byte of the source that begins no token.
    BadByte(Span),
    /// What has the shape of a number and is none.
    BadNumber(Span),
    /// A comment without end.
    OpenComment(Span),
    /// A token with which no source goes on.
    Unexpected(Span),
    /// A word behind `_(` that is a form nowhere.
    UnknownForm(Span),
    /// The first typing rule that the source breaks.
    BreaksRule(Violation),
    /// The certificate's first fault: its line, and what is wrong with it.
    BadCertificate(u32, LineFault),
    /// The certificate has another number of blocks than the source has conditions.
    Count(BlockCount),
    /// The schedule's first fault: its line, and what is wrong with it.
    BadSchedule(u32, LineFault),
    /// The schedule's arguments don't fit main.
    BadArgs,
    /// A number leaves 128 bits: an annotation's value in a replay, or what a step of a certificate works out.
    Wide(Wide),
    /// A serial, a thread's number or a claim count would be past the greatest that a heap holds.
    Exhausted,
    /// More than this limit allows.
    Limit(Limit),
    Missing(&'a str),
    ReadFault(&'a str),
    OutOfMemory,
}
