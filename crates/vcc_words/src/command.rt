//! The commands.

/// A command's two names.
#[derive(Clone, Copy)]
pub struct Pair<'a> {
    pub source: &'a str,
    /// Of the certificate, or of the schedule.
    pub other: &'a str,
}

/// What `verify` is to search, and how far.
#[derive(Clone, Copy)]
pub struct Search<'a> {
    pub source: &'a str,
    pub cert: &'a str,
    /// How many leaves the search for one condition may look at: 1 to 1,000,000.
    pub leaves: u32,
    /// How many rounds of instances may be added for one condition: 0 to 1,000.
    pub rounds: u32,
}

/// The names of an upgrade.
#[derive(Clone, Copy)]
pub struct Rewriting<'a> {
    pub source: &'a str,
    pub cert: &'a str,
    /// Of the certificate that is written: neither of the other two.
    pub new: &'a str,
}

/// A command.
#[derive(Clone, Copy)]
pub enum Command<'a> {
    /// Judge a source by a certificate.
    Check(Pair<'a>),
    /// Search the certificate of a source.
    Verify(Search<'a>),
    /// Write the certificate of a source anew, with lemmas.
    Upgrade(Rewriting<'a>),
    /// Replay a schedule on a source.
    Run(Pair<'a>),
    /// Verify a source of so many copies: 1 to 50.
    Gen(u32),
}
