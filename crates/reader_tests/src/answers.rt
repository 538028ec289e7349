//! What is read of a text, as the rows of all tables say it.

use crate::rows::is;
use Answer::{Following, High, TooDeep, Unexpected, UnknownForm};
use c_source::fault::SourceFault;
use c_syntax::token::Span;
use std::process::Abort;

/// How high it is, with a count that its table explains; or the first fault.
pub type Told = Result<(u32, usize), SourceFault>;

/// The same in a row: a fault with its column in the first line.
#[derive(Clone, Copy)]
pub enum Answer {
    High(u32, usize),
    /// the place behind what is read, of which no height is told
    Following(usize),
    Unexpected(u32),
    UnknownForm(u32),
    TooDeep(u32),
}

/// What the answer says.
fn meaning(answer: Answer) -> Told {
    match answer {
        High(height, count) => Ok((height, count)),
        Following(count) => Ok((0, count)),
        Unexpected(column) => Err(SourceFault::Unexpected(Span { line: 1, column })),
        UnknownForm(column) => Err(SourceFault::UnknownForm(Span { line: 1, column })),
        TooDeep(column) => Err(SourceFault::TooDeep(Span { line: 1, column })),
    }
}

/// What is read of the text is the row's answer; the number, which a message shows too, is of the row.
pub fn answers(rt: &impl Abort, text: &str, number: u32, got: Told, want: Answer) {
    is(rt, &(text, number, got), &(text, number, meaning(want)));
}
