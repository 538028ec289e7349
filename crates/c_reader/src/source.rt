//! Whole sources.

ghost use Rattle.std.specs.Prelude.{◌≡◌, ℕ, ◌<◌, ◌≤◌, List, length, map, IfOk, IfErr};
ghost use Rattle.c_syntax.specs.declared.token.Span.{Span};
ghost use Rattle.c_syntax.specs.Items as trees;
ghost use Rattle.c_syntax.specs.Laws as laws;
ghost use Rattle.c_syntax.specs.Faults as faults;
ghost use Rattle.c_syntax.specs.Lexing.{Lexeme, Lexes, IsFirstOrMemory};
ghost use Rattle.c_syntax.specs.Views as views;
ghost use Rattle.c_source.specs.declared.fault.SourceFault.{SourceFault};
ghost use Rattle.c_source.specs.Sources.{FailsOrMemory, IsFault, IsFaultOrMemory, IsText, IsTreeOrMemory, IsWithinLimits};
ghost use Rattle.reader_expressions.specs.Reading.{lexemes};
ghost use Rattle.tree_heights.specs.Parts.{parts};
ghost use Rattle.c_reader.specs.Reading.{GivesItems, IsRead};

use c_source::fault::SourceFault;
use c_syntax::fault::LexFault;
use c_syntax::items::{Item, Tree};
use c_syntax::token::Token;
use reader_expressions::reading::ReadFault;
use reader_program::faults::{first_place, last_place, next_is_end, unexpected};
use reader_program::program::{program, tokens_behind};
use std::alloc::Global;
use vcc_lexer::tokens;

/// How high a program may be: its items 200, and one level around them.
const ROOM: u32 = 201;

/// The items of a whole text that has one.
fn some_items<'a>(alloc: Global, tokens: &'a [Token<'a>]) -> Result<Vec<Item>, ReadFault<'a>>
    ensures gives { GivesItems result (laws.read_items (lexemes tokens.now)) }
{
    let found = program(alloc, ROOM, tokens)?;
    if !next_is_end(found.rest) {
        return Err(ReadFault::Unexpected(tokens_behind(found)));
    }
    Ok(found.value)
}

/// The items of a whole text, or its first fault.
fn items<'a>(alloc: Global, tokens: &'a [Token<'a>]) -> Result<Vec<Item>, SourceFault>
    ensures read { IsRead result (faults.read_source (lexemes tokens.now)) }
{
    if next_is_end(tokens) {
        return Ok(Vec::new(alloc));
    }
    match some_items(alloc, tokens) {
        Ok(all) => Ok(all),
        Err(ReadFault::Unexpected(rest)) => Err(unexpected(tokens, rest)),
        Err(ReadFault::TooDeep(rest)) => Err(SourceFault::TooDeep(first_place(rest))),
        Err(ReadFault::OutOfMemory) => Err(SourceFault::OutOfMemory),
    }
}

/// A fault of tokens as one of the source.
fn of_tokens(fault: LexFault) -> SourceFault
    ensures { (bytes : List ℕ) → IsFirstOrMemory bytes fault → IsFaultOrMemory bytes result }
{
    match fault {
        LexFault::BadByte(place) => SourceFault::BadByte(place),
        LexFault::BadNumber(place) => SourceFault::BadNumber(place),
        LexFault::OpenComment(place) => SourceFault::OpenComment(place),
        LexFault::TooManyTokens(place) => SourceFault::TooManyTokens(place),
        LexFault::OutOfMemory => SourceFault::OutOfMemory,
    }
}

/// The tree of the bytes, or their first fault.
pub fn read_source(alloc: Global, bytes: &[u8]) -> Result<Tree, SourceFault>
    requires { length bytes.now ≤ 4294967294 }
    // What is found is the tree of the bytes, within the limits.
    ensures reads { IfOk result (λ t. (text : IsText bytes.now (views.items_of t) t.end) × IsWithinLimits text) }
    // It has few parts, so that its height and counts can be worked out.
    ensures few { IfOk result (λ t. parts (views.items_of t) < 1073741824) }
    // A fault is the first, unless memory ran out.
    ensures fault { IfErr result (λ e. IsFaultOrMemory bytes.now e) }
    // Where the bytes have a tree within the limits, it is found; where they have a first fault, it is answered.
    ensures only { (items : List trees.Item) (end : Span) (text : IsText bytes.now items end) → IsWithinLimits text → IsTreeOrMemory items end result }
    ensures first { (fault : SourceFault) → IsFault bytes.now fault → FailsOrMemory fault result }
{
    let tokens = match tokens(alloc, bytes) {
        Ok(tokens) => tokens,
        Err(fault) => return Err(of_tokens(fault)),
    };
    match items(alloc, tokens.as_slice()) {
        Ok(items) => Ok(Tree {
            items,
            end: last_place(tokens.as_slice()),
        }),
        Err(fault) => Err(fault),
    }
}
