//! The names and options of `verify`.

ghost use Rattle.std.specs.Prelude.{◌≡◌, ◌≢◌, ◌↔◌, IfOk, IsTrue, None};
ghost use Rattle.clap.specs.Matches.{first_value, found_of};
ghost use Rattle.clap.specs.Simple.{app_of};
ghost use Rattle.vcc_words.specs.Arguments.{Every, HasTexts, IsEnd, IsOptionWord, IsPlain, ReadsArguments, text_of};
ghost use Rattle.vcc_words.specs.Options.{verify};
ghost use Rattle.vcc_words.specs.Words.{texts};

use crate::names::is_name;
use clap::error::ErrorKind;
use clap::{Arg, ArgMatches, Command};
use std::alloc::{AllocError, Global};

/// What stands behind `verify`.
#[derive(Clone, Copy)]
pub(crate) struct Arguments<'a> {
    pub source: &'a str,
    pub cert: &'a str,
    /// The text of the number of leaves.
    pub leaves: Option<&'a [u8]>,
    /// The text of the number of rounds.
    pub rounds: Option<&'a [u8]>,
}

/// Whether nothing stands there, or `=` and a text.
fn is_end(more: &[u8]) -> bool
    ensures { IsTrue result ↔ IsEnd more.now }
{
    let Some((first, _)) = more.split_first() else {
        return true;
    };
    *first == b'='
}

/// Whether the word is the option, alone or with `=` and a text.
fn is_option(option: &[u8], word: &[u8]) -> bool
    ensures { IsTrue result ↔ IsOptionWord option.now word.now }
{
    let Some(more) = word.strip_prefix(option) else {
        return false;
    };
    is_end(more)
}

/// Whether the word is a name or one of the options.
fn is_plain(word: &str) -> bool
    ensures { IsTrue result ↔ IsPlain word.now }
{
    is_name(word)
        || is_option(b"--leaves", word.as_bytes())
        || is_option(b"--rounds", word.as_bytes())
}

/// Whether all words are names and options: none is for the parser's own use.
fn are_plain(words: &[String]) -> bool
    ensures { IsTrue result ↔ Every IsPlain (texts words.now) }
{
    for word in words {
        if !is_plain(word.as_str()) {
            return false;
        }
    }
    true
}

/// The parser of the names and options.
fn argument_parser<'a>(alloc: Global) -> Result<Command<'a>, AllocError>
    ensures { IfOk result (λ c. app_of c ≡ verify) }
{
    let source = Arg::new(alloc, "source").required(true);
    let cert = Arg::new(alloc, "cert").required(true);
    let leaves = Arg::new(alloc, "leaves").long("leaves");
    let rounds = Arg::new(alloc, "rounds").long("rounds");
    let unnamed = Command::new(alloc, "verify").no_binary_name(true);
    let named = unnamed.arg(source)?.arg(cert)?;
    let whole = named.arg(leaves)?.arg(rounds)?;
    Ok(whole)
}

/// The bytes of the text, where it is there.
fn bytes_of(text: Option<&str>) -> Option<&[u8]>
    ensures { text_of result ≡ text_of text.entry }
{
    match text {
        Some(text) => Some(text.as_bytes()),
        None => None,
    }
}

/// The arguments among the matches.
fn arguments_of<'a>(matches: &ArgMatches<'a>) -> Option<Arguments<'a>>
    ensures { HasTexts (first_value (found_of matches.now)) result }
{
    let source = matches.get_str("source")?;
    let cert = matches.get_str("cert")?;
    let leaves_text = matches.get_str("leaves");
    let rounds_text = matches.get_str("rounds");
    let leaves = bytes_of(leaves_text);
    let rounds = bytes_of(rounds_text);
    Some(Arguments {
        source,
        cert,
        leaves,
        rounds,
    })
}

/// None, where the parser refuses the words; it may want memory.
fn refusal<'a>(kind: ErrorKind) -> Result<Option<Arguments<'a>>, AllocError>
    ensures { IfOk result (λ r. (r ≡ None) × (kind ≢ ErrorKind.OutOfMemory)) }
{
    match kind {
        ErrorKind::OutOfMemory => Err(AllocError),
        _ => Ok(None),
    }
}

/// The arguments that these names and options are.
fn parse<'a>(alloc: Global, words: &'a [String]) -> Result<Option<Arguments<'a>>, AllocError>
    requires { Every IsPlain (texts words.now) }
    ensures { IfOk result (ReadsArguments (texts words.now)) }
{
    let parser = argument_parser(alloc)?;
    match parser.try_get_matches_from(words) {
        Ok(matches) => Ok(arguments_of(&matches)),
        Err(error) => refusal(error.kind()),
    }
}

/// The arguments that the words are.
pub(crate) fn read_arguments<'a>(
    alloc: Global,
    words: &'a [String],
) -> Result<Option<Arguments<'a>>, AllocError>
    ensures { IfOk result (ReadsArguments (texts words.now)) }
{
    if !are_plain(words) {
        return Ok(None);
    }
    parse(alloc, words)
}
