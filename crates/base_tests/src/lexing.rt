//! Tables of tokens and faults.

use crate::rows::is;
use c_syntax::fault::LexFault;
use c_syntax::token::{Span, Token, TokenKind};
use std::alloc::{AllocError, Global};
use std::fmt::Write;
use std::process::Abort;
use test_sources::LOCK;
use vcc_lexer::tokens;

/// A piece of a source, how often it stands there, what follows it, and how many tokens the source has.
type Counted = (&'static str, usize, &'static str, Result<usize, LexFault>);

/// What the token is: a name in quotes, a word or sign by its name in the language's tree, a number with its type.
fn write_kind(text: &mut String, token: &Token<'_>) -> Result<(), AllocError> {
    match token.kind {
        TokenKind::Name(name) => {
            let name = str::from_utf8(name).unwrap_or("?");
            write!(text, "'{name}'")?;
        }
        TokenKind::Keyword(key) => write!(text, "{key:?}")?,
        TokenKind::SpecWord(word) => write!(text, "{word:?}")?,
        TokenKind::OtherSpecWord => write!(text, "other")?,
        TokenKind::Number { value, ty } => write!(text, "{value} {ty:?}")?,
        TokenKind::Sign(sign) => write!(text, "{sign:?}")?,
        TokenKind::End => write!(text, "end")?,
    }
    Ok(())
}

/// The fault, with its place.
fn write_fault(text: &mut String, fault: LexFault) -> Result<(), AllocError> {
    match fault {
        LexFault::BadByte(at)
        | LexFault::BadNumber(at)
        | LexFault::OpenComment(at)
        | LexFault::TooManyTokens(at) => {
            let Span { line, column } = at;
            write!(text, "{fault} {line}:{column}")?;
        }
        LexFault::OutOfMemory => write!(text, "{fault}")?,
    }
    Ok(())
}

/// The token's place, and from where to where its text is.
fn write_place(text: &mut String, token: &Token<'_>) -> Result<(), AllocError> {
    let Span { line, column } = token.span;
    let Token { start, end, .. } = *token;
    write!(text, "{line}:{column} {start}-{end}; ")?;
    Ok(())
}

/// What is written of the tokens of a source, its end among them where their places are written; or its fault.
fn told(alloc: Global, source: &[u8], has_places: bool) -> Result<String, AllocError> {
    let mut text = String::new(alloc);
    if source.len() > 1000 {
        return Ok(text);
    }
    match tokens(alloc, source) {
        Ok(list) => {
            for token in &list {
                if has_places || token.start < token.end {
                    write_kind(&mut text, token)?;
                    text.push_str(" ")?;
                }
                if has_places {
                    write_place(&mut text, token)?;
                }
            }
        }
        Err(fault) => write_fault(&mut text, fault)?,
    }
    Ok(text)
}
/// How many tokens the source has, its end not counted.
fn count(alloc: Global, source: &[u8]) -> Result<usize, LexFault> {
    if source.len() > 4294967294 {
        return Ok(0);
    }
    let list = tokens(alloc, source)?;
    Ok(list.len().saturating_sub(1))
}

/// The piece, so many times, and what follows it.
fn repeated(alloc: Global, piece: &str, times: usize, end: &str) -> Result<Vec<u8>, AllocError> {
    let mut bytes = Vec::new(alloc);
    for _ in 0..times {
        bytes.extend_from_slice(piece.as_bytes())?;
    }
    bytes.extend_from_slice(end.as_bytes())?;
    Ok(bytes)
}

/// The longest signs.
const SIGNS: &[(&str, &str)] = &[
    (
        "( ) { } [ ] _( ; , -> = += -= ++ -- == != < <= > >= + - * / % ! && || ? : & ==> <==> . | ^ ~",
        "Open Close BraceOpen BraceClose BracketOpen BracketClose Annotation Semicolon Comma Arrow Assign AddAssign SubtractAssign Increment Decrement Equal NotEqual Less LessEqual Greater GreaterEqual Plus Minus Star Slash Percent Not And Or Question Colon Ampersand Implies Equivalent Dot Bar Caret Tilde ",
    ),
    ("<==><=<==", "Equivalent LessEqual LessEqual Assign "),
    ("<<=<==>=", "Less LessEqual Equivalent Assign "),
    (
        "-->->-=---",
        "Decrement Greater Arrow SubtractAssign Decrement Minus ",
    ),
    ("====>===>", "Equal Implies Equal Assign Greater "),
    (
        "+++=&&&|||!!=>>=",
        "Increment AddAssign And Ampersand Or Bar Not NotEqual Greater GreaterEqual ",
    ),
    ("_(_x(__(_ (", "Annotation '_x' Open '__' Open '_' Open "),
    ("", ""),
];

/// Words and names.
const WORDS: &[(&str, &str)] = &[
    (
        "claimable dynamic_owns volatile_owns struct volatile invariant ghost int unsigned long void requires ensures maintains writes if else while do for return vcc_spawn free assert wrap unwrap unwrapping atomic malloc sizeof InterlockedCompareExchange InterlockedExchange InterlockedIncrement InterlockedDecrement NULL",
        "Claimable DynamicOwns VolatileOwns Struct Volatile Invariant Ghost Int Unsigned Long Void Requires Ensures Maintains Writes If Else While Do For Return VccSpawn Free Assert Wrap Unwrap Unwrapping Atomic Malloc Sizeof CompareExchange Exchange Increment Decrement Null ",
    ),
    (
        "\\object \\claim \\span \\extent \\owns \\destroy_claim \\make_claim \\in \\true \\false \\this \\me \\result \\old \\unchanged \\mine \\wrapped \\wrapped0 \\mutable \\fresh \\claims_object \\claims \\claims_only \\approves \\closed \\owner \\claim_count \\forall \\exists",
        "Object Claim Span Extent Owns DestroyClaim MakeClaim In True False This Me Result Old Unchanged Mine Wrapped WrappedUnclaimed Mutable Fresh ClaimsObject Claims ClaimsOnly Approves Closed Owner ClaimCount Forall Exists ",
    ),
    (
        "While whiles int_ _int null x9",
        "'While' 'whiles' 'int_' '_int' 'null' 'x9' ",
    ),
    ("\\wrapped1 \\a \\While\\in_", "other other other other "),
    ("\\mine(a) \\in b", "Mine Open 'a' Close In 'b' "),
    (
        "\\approves(\\this->\\owner, a)",
        "Approves Open This Arrow Owner Comma 'a' Close ",
    ),
    (
        "\\claims_onl \\claims_only1 \\approve",
        "other other other ",
    ),
];

/// Numbers, with the first type that holds them, and what is no number.
const NUMBERS: &[(&str, &str)] = &[
    ("0", "0 Int "),
    ("2147483647", "2147483647 Int "),
    ("2147483648", "2147483648 LongLong "),
    ("9223372036854775807", "9223372036854775807 LongLong "),
    (
        "1ll 1lL 2147483647LL",
        "1 LongLong 1 LongLong 2147483647 LongLong ",
    ),
    ("0u", "0 Unsigned "),
    ("4294967295U", "4294967295 Unsigned "),
    ("4294967296u", "4294967296 UnsignedLongLong "),
    (
        "18446744073709551615u",
        "18446744073709551615 UnsignedLongLong ",
    ),
    (
        "1ull 1llu 1uLl",
        "1 UnsignedLongLong 1 UnsignedLongLong 1 UnsignedLongLong ",
    ),
    ("0x0 0x7fffffff", "0 Int 2147483647 Int "),
    ("0x80000000", "2147483648 Unsigned "),
    ("0xFFFFFFFF", "4294967295 Unsigned "),
    ("0x100000000", "4294967296 LongLong "),
    ("0x7fffffffffffffff", "9223372036854775807 LongLong "),
    (
        "0x8000000000000000",
        "9223372036854775808 UnsignedLongLong ",
    ),
    (
        "0xffffffffffffffff",
        "18446744073709551615 UnsignedLongLong ",
    ),
    ("0x7fffffffffffffffll", "9223372036854775807 LongLong "),
    (
        "0x8000000000000000ll",
        "9223372036854775808 UnsignedLongLong ",
    ),
    ("0x100000000u", "4294967296 UnsignedLongLong "),
    ("0x1fu 0xAbCdEf", "31 Unsigned 11259375 Int "),
    ("1u2", "1 Unsigned 2 Int "),
    ("1_x", "1 Int '_x' "),
    ("9223372036854775807ll", "9223372036854775807 LongLong "),
    ("9223372036854775808", "bad number 1:1"),
    ("9223372036854775808ll", "bad number 1:1"),
    ("18446744073709551616", "bad number 1:1"),
    ("18446744073709551616u", "bad number 1:1"),
    ("0x10000000000000000", "bad number 1:1"),
    ("0x10000000000000000ull", "bad number 1:1"),
    ("08", "bad number 1:1"),
    ("00", "bad number 1:1"),
    ("0x", "bad number 1:1"),
    ("0X1", "bad number 1:1"),
    ("0xg", "bad number 1:1"),
    ("0x1g", "bad number 1:1"),
    ("0xu", "bad number 1:1"),
    ("1l", "bad number 1:1"),
    ("1lul", "bad number 1:1"),
    ("1uu", "bad number 1:1"),
    ("1e5", "bad number 1:1"),
    ("123abc", "bad number 1:1"),
];

/// Faults, which stand at their first byte, and comments.
const FAULTS: &[(&str, &str)] = &[
    ("\\", "bad byte 1:1"),
    ("a\\_x", "bad byte 1:2"),
    ("a \\1", "bad byte 1:3"),
    ("\"a\"", "bad byte 1:1"),
    ("'", "bad byte 1:1"),
    (" @", "bad byte 1:2"),
    ("\n$", "bad byte 2:1"),
    ("`", "bad byte 1:1"),
    ("a\0", "bad byte 1:2"),
    ("\x7f", "bad byte 1:1"),
    ("\x0b", "bad byte 1:1"),
    ("\u{c8}", "bad byte 1:1"),
    ("a /* \0\x7f\u{c8}\"@# */ b // \0\x7f\u{c8}\\'", "'a' 'b' "),
    ("/*/", "open comment 1:1"),
    ("a\n /* b\n*", "open comment 2:2"),
    ("/**/", ""),
    ("/***/a/*/*/b", "'a' 'b' "),
    ("a//", "'a' "),
    ("a// /* b", "'a' "),
    ("a/b", "'a' Slash 'b' "),
    ("a */ b", "'a' Star Slash 'b' "),
    ("@ /*", "bad byte 1:1"),
    ("1x @", "bad number 1:1"),
    ("a 1x", "bad number 1:3"),
];

/// Sources that are no text.
const BYTES: &[(&[u8], &str)] = &[
    (&[120, 200], "bad byte 1:2"),
    (&[47, 42, 200, 42, 47, 120], "'x' "),
];

/// The line that includes the header, which is a whole line.
const INCLUDES: &[(&str, &str)] = &[
    ("#include <vcc.h>", ""),
    ("#include <vcc.h>\na\n#include <vcc.h>\n", "'a' "),
    (" #include <vcc.h>\n", "bad byte 1:2"),
    ("#include <vcc.h> \n", "bad byte 1:1"),
    ("#include <vcc.h>\r\n", "bad byte 1:1"),
    ("#include <vcc.h>// a", "bad byte 1:1"),
    ("#include  <vcc.h>", "bad byte 1:1"),
    ("#include <vcc.h", "bad byte 1:1"),
    ("/**/#include <vcc.h>", "bad byte 1:5"),
    ("/*\n*/#include <vcc.h>", "bad byte 2:3"),
    ("a #include <vcc.h>", "bad byte 1:3"),
];

/// Tokens with their places, which count every byte.
const PLACES: &[(&str, &str)] = &[
    ("", "end 1:1 0-0; "),
    ("\n", "end 2:1 1-1; "),
    (
        "a\tb\r\n c",
        "'a' 1:1 0-1; 'b' 1:3 2-3; 'c' 2:2 6-7; end 2:3 7-7; ",
    ),
    (
        "x/*\n\t*/y\rz",
        "'x' 1:1 0-1; 'y' 2:4 7-8; 'z' 2:6 9-10; end 2:7 10-10; ",
    ),
    (
        "0x1f\\true->",
        "31 Int 1:1 0-4; True 1:5 4-9; Arrow 1:10 9-11; end 1:12 11-11; ",
    ),
    ("// a\r\nif", "If 2:1 6-8; end 2:3 8-8; "),
];

/// The place of the first token past the limit.
const PAST_THE_LIMIT: Span = Span {
    line: 1,
    column: 262145,
};

/// Pieces of sources, how often they stand there, what follows them, and how many tokens these sources have.
const COUNTS: &[Counted] = &[
    (LOCK, 1, "", Ok(491)),
    (";", 262144, "", Ok(262144)),
    (
        ";",
        262145,
        "",
        Err(LexFault::TooManyTokens(PAST_THE_LIMIT)),
    ),
    (";", 262144, "@;", Err(LexFault::BadByte(PAST_THE_LIMIT))),
];

/// A mebibyte.
const LONGEST: Counted = ("int x1 = 0x1f; // ok\n", 49932, "", Ok(249660));

/// What is written of a source is what its row wants.
fn lexes(rt: &impl Abort, told: Result<String, AllocError>, want: &str, row: &str) {
    let got = told.expect(rt, "memory for a text");
    is(rt, &(row, got.as_str()), &(row, want));
}

/// The sources' tokens are written as their rows say, with their places or without.
fn all_lex(rt: &impl Abort, alloc: Global, has_places: bool, rows: &[(&str, &str)]) {
    for (source, want) in rows {
        lexes(rt, told(alloc, source.as_bytes(), has_places), want, source);
    }
}

/// The source has as many tokens as its row says.
fn counts(rt: &impl Abort, alloc: Global, row: &Counted) {
    let (piece, times, end, _) = *row;
    let source = repeated(alloc, piece, times, end).expect(rt, "memory for a source");
    is(rt, &(piece, times, end, count(alloc, &source)), row);
}

#[test]
fn signs_are_the_longest(rt: HostRuntime) {
    all_lex(&rt, rt.alloc(), false, SIGNS);
}

#[test]
fn words_have_their_meaning(rt: HostRuntime) {
    all_lex(&rt, rt.alloc(), false, WORDS);
}

#[test]
fn numbers_have_the_first_type_that_holds_them(rt: HostRuntime) {
    all_lex(&rt, rt.alloc(), false, NUMBERS);
}

#[test]
fn faults_stand_at_their_first_byte(rt: HostRuntime) {
    all_lex(&rt, rt.alloc(), false, FAULTS);
}

#[test]
fn bytes_that_are_no_text(rt: HostRuntime) {
    for (source, want) in BYTES {
        lexes(&rt, told(rt.alloc(), source, false), want, want);
    }
}

#[test]
fn the_include_line_is_a_whole_line(rt: HostRuntime) {
    all_lex(&rt, rt.alloc(), false, INCLUDES);
}

#[test]
fn places_count_every_byte(rt: HostRuntime) {
    all_lex(&rt, rt.alloc(), true, PLACES);
}

#[test]
fn tokens_are_counted_up_to_the_limit(rt: HostRuntime) {
    for row in COUNTS {
        counts(&rt, rt.alloc(), row);
    }
}

#[test]
fn a_mebibyte_lexes(rt: HostRuntime) {
    counts(&rt, rt.alloc(), &LONGEST);
}
