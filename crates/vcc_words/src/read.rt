//! Reading the words of a command.

ghost use Rattle.std.specs.Prelude.{◌≡◌, ◌∷◌, IfOk, MatchOption, codes};
ghost use Rattle.vcc_words.specs.Arguments.{IsNoVerify, ReadsSearch, Verifies};
ghost use Rattle.vcc_words.specs.Words.{Reads, texts};

use crate::arguments::read_arguments;
use crate::command::{Command, Search};
use crate::copies::copy_count;
use crate::names::named_pair;
use crate::search::search_of;
use crate::upgrade::upgrade_names;
use std::alloc::{AllocError, Global};

/// The words behind `verify`.
fn words_of_verify<'a>(words: &'a [String]) -> Option<&'a [String]>
    ensures { MatchOption result (IsNoVerify (texts words.now))
        (λ rest. texts words.now ≡ codes "verify" ∷ texts rest.now) }
{
    let (word, rest) = words.split_first()?;
    if word.as_str() != "verify" {
        return None;
    }
    Some(rest)
}

/// What is to be searched by the words behind `verify`.
fn read_search<'a>(alloc: Global, words: &'a [String]) -> Result<Option<Search<'a>>, AllocError>
    ensures { IfOk result (ReadsSearch (codes "verify" ∷ texts words.now)) }
{
    let arguments = read_arguments(alloc, words)?;
    Ok(search_of(arguments))
}

/// What is to be searched, where the words are `verify` with its arguments.
fn verify_command<'a>(alloc: Global, words: &'a [String]) -> Result<Option<Search<'a>>, AllocError>
    ensures { IfOk result (ReadsSearch (texts words.now)) }
{
    let Some(rest) = words_of_verify(words) else {
        return Ok(None);
    };
    read_search(alloc, rest)
}

/// The command of a search.
fn verification<'a>(search: Option<Search<'a>>) -> Option<Command<'a>>
    ensures { Verifies search.entry result }
{
    match search {
        Some(search) => Some(Command::Verify(search)),
        None => None,
    }
}

/// The command that the words are; none where they are no command.
pub fn read_command<'a>(
    alloc: Global,
    words: &'a [String],
) -> Result<Option<Command<'a>>, AllocError>
    ensures { IfOk result (Reads (texts words.now)) }
{
    if let Some(pair) = named_pair(words, "check") {
        return Ok(Some(Command::Check(pair)));
    }
    if let Some(names) = upgrade_names(words) {
        return Ok(Some(Command::Upgrade(names)));
    }
    if let Some(pair) = named_pair(words, "run") {
        return Ok(Some(Command::Run(pair)));
    }
    if let Some(count) = copy_count(words) {
        return Ok(Some(Command::Gen(count)));
    }
    let search = verify_command(alloc, words)?;
    Ok(verification(search))
}
