//! What `verify` is to search.

ghost use Rattle.std.specs.Prelude.{ℕ, ◌≤◌, MatchOption};
ghost use Rattle.vcc_words.specs.Arguments.{AsksFor, AsksNothing, IsNumber, IsValue, Demands, text_of};

use crate::arguments::Arguments;
use crate::command::Search;
use decimal_text::number::parse_count;

/// The most leaves that may be asked for.
const MOST_LEAVES: u32 = 1_000_000;
/// The leaves where none are asked for.
const USUAL_LEAVES: u32 = 100_000;
/// The most rounds that may be asked for.
const MOST_ROUNDS: u32 = 1_000;
/// The rounds where none are asked for.
const USUAL_ROUNDS: u32 = 64;

/// The number that the text is, within these bounds.
pub(crate) fn number(text: &[u8], least: u32, most: u32) -> Option<u32>
    ensures { MatchOption result ((n : ℕ) → IsNumber text.now least most n → ⊥) (IsNumber text.now least most) }
{
    let number = parse_count(most, text)?;
    if number < least {
        return None;
    }
    Some(number)
}

/// The number of an option, where it stands, or else the default.
fn value(text: Option<&[u8]>, least: u32, most: u32, usual: u32) -> Option<u32>
    ensures { MatchOption result ((n : ℕ) → IsValue (text_of text.entry) least most usual n → ⊥)
        (IsValue (text_of text.entry) least most usual) }
{
    match text {
        None => Some(usual),
        Some(text) => number(text, least, most),
    }
}

/// What the arguments ask to be searched, where their numbers are within their bounds and their names differ.
pub(crate) fn search_for<'a>(arguments: Arguments<'a>) -> Option<Search<'a>>
    ensures { MatchOption result (AsksNothing arguments.entry) (AsksFor arguments.entry) }
{
    if arguments.source == arguments.cert {
        return None;
    }
    let leaves = value(arguments.leaves, 1, MOST_LEAVES, USUAL_LEAVES)?;
    let rounds = value(arguments.rounds, 0, MOST_ROUNDS, USUAL_ROUNDS)?;
    Some(Search {
        source: arguments.source,
        cert: arguments.cert,
        leaves,
        rounds,
    })
}

/// What the arguments ask to be searched, where they are there.
pub(crate) fn search_of<'a>(arguments: Option<Arguments<'a>>) -> Option<Search<'a>>
    ensures { Demands arguments.entry result }
{
    match arguments {
        Some(arguments) => search_for(arguments),
        None => None,
    }
}
