//! The command of a number.

ghost use Rattle.std.specs.Prelude.{ℕ, MatchOption};
ghost use Rattle.vcc_words.specs.Words.{IsGen, texts};

use crate::search::number;

/// The most copies that a source may be made of.
const MOST_COPIES: u32 = 50;

/// The number of copies, where the words are `gen` with a number.
pub(crate) fn copy_count(words: &[String]) -> Option<u32>
    ensures { MatchOption result ((copies : ℕ) → IsGen (texts words.now) copies → ⊥) (IsGen (texts words.now)) }
{
    let [word, count] = words else {
        return None;
    };
    if word.as_str() == "gen" {
        number(count.as_bytes(), 1, MOST_COPIES)
    } else {
        None
    }
}
