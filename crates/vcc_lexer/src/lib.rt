//! The tokens of a source.
#![tactic(auto)]

ghost use Rattle.std.specs.Prelude.{◌≡◌, ℕ, ◌+◌, ◌<◌, ◌≤◌, IfErr, IfOk, List, length, map};
ghost use Rattle.c_syntax.specs.Lexing.{AreOrMemory, BeginsComment, FailsOrMemory, IsFault, IsFirstFault, IsFirstOrMemory, Lexeme, Lexes, Position, Skips, lexeme};
ghost use Rattle.c_syntax.specs.declared.fault.LexFault.{LexFault};
ghost use Rattle.vcc_lexer.specs.Places.{position};
ghost use Rattle.vcc_lexer.specs.Steps.{IsStep};
ghost use Rattle.vcc_lexer.specs.Texts.{HaveTexts};

use crate::first::{BadFront, first_token};
use crate::gaps::{Gap, first_gap};
use crate::place::{Place, place_after};
use c_syntax::fault::LexFault;
use c_syntax::token::{Span, Token, TokenKind};
use std::alloc::Global;

pub mod bytes;
pub mod first;
pub mod gaps;
pub mod laws;
pub mod numbers;
pub mod place;
pub mod signs;
pub mod words;

/// How many tokens a source may have, its end not counted.
const MOST_TOKENS: usize = 262144;

/// What stands at the front of a text: so many bytes, and their token, if they are one.
#[derive(Clone, Copy)]
pub struct Step<'a> {
    token: Option<Token<'a>>,
    length: usize,
}

/// The token that stands first, where nothing is skipped, behind so many tokens.
fn token_step(count: usize, place: Place, text: &[u8]) -> Result<Step<'_>, LexFault>
    requires some { 0 < length text.now }
    requires room { place.offset + length text.now ≤ 4294967295 }
    requires nothing { (p : Position) (n : ℕ) → p.place ≡ place.span → Skips p text.now n → ⊥ }
    requires no_comment { BeginsComment text.now → ⊥ }
    requires few { count ≤ 262144 }
    ensures step { IfOk result (λ x. IsStep count (position place) text.now x) }
    ensures fault { IfErr result (λ e. IsFault count place.span text.now e) }
{
    let (kind, length) = match first_token(text) {
        Ok(found) => found,
        Err(BadFront::Byte) => return Err(LexFault::BadByte(place.span)),
        Err(BadFront::Number) => return Err(LexFault::BadNumber(place.span)),
    };
    if count == MOST_TOKENS {
        return Err(LexFault::TooManyTokens(place.span));
    }
    let token = Token {
        kind,
        span: place.span,
        start: place.offset,
        end: place.offset + length as u32,
    };
    Ok(Step {
        token: Some(token),
        length,
    })
}

/// What stands at the front of the text, which begins at this place behind so many tokens.
fn first_step(count: usize, place: Place, text: &[u8]) -> Result<Step<'_>, LexFault>
    requires some { 0 < length text.now }
    requires room { place.offset + length text.now ≤ 4294967295 }
    requires few { count ≤ 262144 }
    ensures step { IfOk result (λ x. IsStep count (position place) text.now x) }
    ensures fault { IfErr result (λ e. IsFault count place.span text.now e) }
{
    match first_gap(place.span.column, text) {
        Gap::Skipped(length) => Ok(Step {
            token: None,
            length,
        }),
        Gap::OpenComment => Err(LexFault::OpenComment(place.span)),
        Gap::Nothing => token_step(count, place, text),
    }
}

/// The tokens of the bytes, the last of which is their end.
pub fn tokens(alloc: Global, bytes: &[u8]) -> Result<Vec<Token<'_>>, LexFault>
    requires { length bytes.now ≤ 4294967294 }
    // What is found are the bytes' tokens, within the limit.
    ensures lexes { IfOk result (λ v. Lexes bytes.now (map lexeme v.items)) }
    ensures few { IfOk result (λ v. length v.items ≤ 262145) }
    // The bytes from a token's start up to its end are that token.
    ensures texts { IfOk result (λ v. HaveTexts bytes.now (map lexeme v.items)) }
    // A fault is the first, at its place, unless memory ran out.
    ensures fault { IfErr result (λ e. IsFirstOrMemory bytes.now e) }
    // Where the bytes are tokens within the limit, these are found, and no others; where there is a first fault, it is answered.
    ensures only { (ts : List Lexeme) → Lexes bytes.now ts → length ts ≤ 262145 → AreOrMemory (λ v. map lexeme v.items) ts result }
    ensures first { (f : LexFault) → IsFirstFault bytes.now f → FailsOrMemory f result }
{
    let mut found = Vec::new(alloc);
    let mut rest = bytes;
    let mut place = Place {
        offset: 0,
        span: Span { line: 1, column: 1 },
    };
    while !rest.is_empty() {
        let step = match first_step(found.len(), place, rest) {
            Ok(step) => step,
            Err(fault) => return Err(fault),
        };
        let (text, behind_text) = rest.split_at(step.length);
        place = place_after(text, place);
        rest = behind_text;
        let Some(token) = step.token else {
            continue;
        };
        if found.push(token).is_err() {
            return Err(LexFault::OutOfMemory);
        }
    }
    let end = Token {
        kind: TokenKind::End,
        span: place.span,
        start: place.offset,
        end: place.offset,
    };
    if found.push(end).is_err() {
        return Err(LexFault::OutOfMemory);
    }
    Ok(found)
}
