//! The command of three names.

ghost use Rattle.std.specs.Prelude.{◌≢◌, ◌↔◌, ℕ, List, IsTrue, MatchOption};
ghost use Rattle.vcc_words.specs.Words.{IsName, IsUpgrade, texts};

use crate::command::Rewriting;
use crate::names::is_name;

/// Whether these are names.
fn are_names(source: &str, cert: &str, new: &str) -> bool
    ensures { IsTrue result ↔ (IsName source.now × IsName cert.now × IsName new.now) }
{
    is_name(source) && is_name(cert) && is_name(new)
}

/// Whether the new name is neither of the other two.
fn is_apart(source: &str, cert: &str, new: &str) -> bool
    ensures { IsTrue result ↔ ((new.now ≢ source.now) × (new.now ≢ cert.now)) }
{
    new != source && new != cert
}

/// The three names, where the words are `upgrade` with its names.
pub(crate) fn upgrade_names<'a>(words: &'a [String]) -> Option<Rewriting<'a>>
    ensures { MatchOption result
        ((source cert new : List ℕ) → IsUpgrade (texts words.now) source cert new → ⊥)
        (λ names. IsUpgrade (texts words.now) names.source.now names.cert.now names.new.now) }
{
    let [word, first, second, third] = words else {
        return None;
    };
    let source = first.as_str();
    let cert = second.as_str();
    let new = third.as_str();
    if word.as_str() == "upgrade" && are_names(source, cert, new) && is_apart(source, cert, new) {
        Some(Rewriting { source, cert, new })
    } else {
        None
    }
}
