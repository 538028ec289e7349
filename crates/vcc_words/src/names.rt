//! Names, and the commands of two names.

ghost use Rattle.std.specs.Prelude.{◌↔◌, ℕ, List, IsTrue, MatchOption};
ghost use Rattle.vcc_words.specs.Words.{IsName, IsNamedPair, texts};

use crate::command::Pair;

/// Whether a word is a name: it isn't empty, and doesn't begin with `-`.
pub(crate) fn is_name(word: &str) -> bool
    ensures { IsTrue result ↔ IsName word.now }
{
    match word.as_bytes() {
        [] => false,
        [first, ..] => *first != b'-',
    }
}

/// The two names, where the words are this command with two names.
pub(crate) fn named_pair<'a>(words: &'a [String], command: &str) -> Option<Pair<'a>>
    ensures { MatchOption result
        ((first second : List ℕ) → IsNamedPair command.now (texts words.now) first second → ⊥)
        (λ pair. IsNamedPair command.now (texts words.now) pair.source.now pair.other.now) }
{
    let [word, first, second] = words else {
        return None;
    };
    let source = first.as_str();
    let other = second.as_str();
    if word.as_str() == command && is_name(source) && is_name(other) {
        Some(Pair { source, other })
    } else {
        None
    }
}
