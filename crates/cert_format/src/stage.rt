//! Which line has to come.

use crate::certificate::Owner;

/// How many lines and literals of a lemma or block are still to come.
#[derive(Clone, Copy, Debug, PartialEq, Eq)]
pub struct Counts {
    pub terms: u32,
    pub steps: u32,
    pub literals: u32,
}

/// The line that has to come next.
#[derive(Clone, Copy, Debug, PartialEq, Eq)]
pub enum Stage {
    /// `vcc-cert V`
    Version,
    /// `lemmas M`
    LemmaCount,
    /// the first line of a lemma, of which so many are still to begin; with none left `conditions N`
    Lemmas(u32),
    /// a term or step of a lemma or block, behind which so many others are still to begin
    InDerivation(Owner, u32, Counts),
    /// the first line of a block, of which so many are still to begin; with none left `end`
    Conditions(u32),
    /// none
    Ended,
}
