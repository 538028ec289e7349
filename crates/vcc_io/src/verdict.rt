//! What a certificate shows of a source.

use check_labels::labels::ProgramLabel;

/// A check whose condition doesn't follow: the name of its struct or function, and its label.
#[derive(Clone, Copy)]
pub struct Failing<'p> {
    pub name: &'p [u8],
    pub label: ProgramLabel,
}

/// What a certificate shows of a source.
#[derive(Clone, Copy)]
pub enum Verdict<'p> {
    /// Every condition follows.
    Yes,
    /// This check is the first whose condition doesn't follow.
    No(Failing<'p>),
}
