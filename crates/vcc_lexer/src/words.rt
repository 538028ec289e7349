//! The words that have a meaning of their own.

ghost use Rattle.std.specs.Prelude.{◌≡◌, ◌≢◌, All, Contains, MatchOption};
ghost use Rattle.c_syntax.specs.declared.token.Keyword.{Keyword};
ghost use Rattle.c_syntax.specs.declared.token.SpecWord.{SpecWord};
ghost use Rattle.c_syntax.specs.Words as words;

use c_syntax::token::{Keyword, SpecWord};

/// Every keyword.
const KEYWORDS: [Keyword; 35] = [
    Keyword::Claimable,
    Keyword::DynamicOwns,
    Keyword::VolatileOwns,
    Keyword::Struct,
    Keyword::Volatile,
    Keyword::Invariant,
    Keyword::Ghost,
    Keyword::Int,
    Keyword::Unsigned,
    Keyword::Long,
    Keyword::Void,
    Keyword::Requires,
    Keyword::Ensures,
    Keyword::Maintains,
    Keyword::Writes,
    Keyword::If,
    Keyword::Else,
    Keyword::While,
    Keyword::Do,
    Keyword::For,
    Keyword::Return,
    Keyword::VccSpawn,
    Keyword::Free,
    Keyword::Assert,
    Keyword::Wrap,
    Keyword::Unwrap,
    Keyword::Unwrapping,
    Keyword::Atomic,
    Keyword::Malloc,
    Keyword::Sizeof,
    Keyword::CompareExchange,
    Keyword::Exchange,
    Keyword::Increment,
    Keyword::Decrement,
    Keyword::Null,
];

/// Every spec word.
const SPEC_WORDS: [SpecWord; 29] = [
    SpecWord::Object,
    SpecWord::Claim,
    SpecWord::Span,
    SpecWord::Extent,
    SpecWord::Owns,
    SpecWord::DestroyClaim,
    SpecWord::MakeClaim,
    SpecWord::In,
    SpecWord::True,
    SpecWord::False,
    SpecWord::This,
    SpecWord::Me,
    SpecWord::Result,
    SpecWord::Old,
    SpecWord::Unchanged,
    SpecWord::Mine,
    SpecWord::Wrapped,
    SpecWord::WrappedUnclaimed,
    SpecWord::Mutable,
    SpecWord::Fresh,
    SpecWord::ClaimsObject,
    SpecWord::Claims,
    SpecWord::ClaimsOnly,
    SpecWord::Approves,
    SpecWord::Closed,
    SpecWord::Owner,
    SpecWord::ClaimCount,
    SpecWord::Forall,
    SpecWord::Exists,
];

/// How the keyword is spelled.
pub fn keyword_text(key: Keyword) -> &'static [u8]
    ensures { result.now ≡ words.keyword_text key }
{
    match key {
        Keyword::Claimable => b"claimable",
        Keyword::DynamicOwns => b"dynamic_owns",
        Keyword::VolatileOwns => b"volatile_owns",
        Keyword::Struct => b"struct",
        Keyword::Volatile => b"volatile",
        Keyword::Invariant => b"invariant",
        Keyword::Ghost => b"ghost",
        Keyword::Int => b"int",
        Keyword::Unsigned => b"unsigned",
        Keyword::Long => b"long",
        Keyword::Void => b"void",
        Keyword::Requires => b"requires",
        Keyword::Ensures => b"ensures",
        Keyword::Maintains => b"maintains",
        Keyword::Writes => b"writes",
        Keyword::If => b"if",
        Keyword::Else => b"else",
        Keyword::While => b"while",
        Keyword::Do => b"do",
        Keyword::For => b"for",
        Keyword::Return => b"return",
        Keyword::VccSpawn => b"vcc_spawn",
        Keyword::Free => b"free",
        Keyword::Assert => b"assert",
        Keyword::Wrap => b"wrap",
        Keyword::Unwrap => b"unwrap",
        Keyword::Unwrapping => b"unwrapping",
        Keyword::Atomic => b"atomic",
        Keyword::Malloc => b"malloc",
        Keyword::Sizeof => b"sizeof",
        Keyword::CompareExchange => b"InterlockedCompareExchange",
        Keyword::Exchange => b"InterlockedExchange",
        Keyword::Increment => b"InterlockedIncrement",
        Keyword::Decrement => b"InterlockedDecrement",
        Keyword::Null => b"NULL",
    }
}

/// How the spec word is spelled, without the backslash.
pub fn spec_word_text(word: SpecWord) -> &'static [u8]
    ensures { result.now ≡ words.spec_word_text word }
{
    match word {
        SpecWord::Object => b"object",
        SpecWord::Claim => b"claim",
        SpecWord::Span => b"span",
        SpecWord::Extent => b"extent",
        SpecWord::Owns => b"owns",
        SpecWord::DestroyClaim => b"destroy_claim",
        SpecWord::MakeClaim => b"make_claim",
        SpecWord::In => b"in",
        SpecWord::True => b"true",
        SpecWord::False => b"false",
        SpecWord::This => b"this",
        SpecWord::Me => b"me",
        SpecWord::Result => b"result",
        SpecWord::Old => b"old",
        SpecWord::Unchanged => b"unchanged",
        SpecWord::Mine => b"mine",
        SpecWord::Wrapped => b"wrapped",
        SpecWord::WrappedUnclaimed => b"wrapped0",
        SpecWord::Mutable => b"mutable",
        SpecWord::Fresh => b"fresh",
        SpecWord::ClaimsObject => b"claims_object",
        SpecWord::Claims => b"claims",
        SpecWord::ClaimsOnly => b"claims_only",
        SpecWord::Approves => b"approves",
        SpecWord::Closed => b"closed",
        SpecWord::Owner => b"owner",
        SpecWord::ClaimCount => b"claim_count",
        SpecWord::Forall => b"forall",
        SpecWord::Exists => b"exists",
    }
}

/// Which of these is spelled so.
fn find_keyword(among: &[Keyword], name: &[u8]) -> Option<Keyword>
    ensures { MatchOption result (All (λ x. words.keyword_text x ≢ name.now) among.now) (λ x. words.keyword_text x ≡ name.now) }
{
    for x in among {
        if keyword_text(*x) == name {
            return Some(*x);
        }
    }
    None
}

/// The keyword that is spelled so.
pub fn keyword(name: &[u8]) -> Option<Keyword>
    ensures { MatchOption result ((x : Keyword) → words.keyword_text x ≢ name.now) (λ x. words.keyword_text x ≡ name.now) }
{
    find_keyword(&KEYWORDS, name)
}

/// Which of these is spelled so.
fn find_spec_word(among: &[SpecWord], name: &[u8]) -> Option<SpecWord>
    ensures { MatchOption result (All (λ x. words.spec_word_text x ≢ name.now) among.now) (λ x. words.spec_word_text x ≡ name.now) }
{
    for x in among {
        if spec_word_text(*x) == name {
            return Some(*x);
        }
    }
    None
}

/// The spec word that is spelled so.
pub fn spec_word(name: &[u8]) -> Option<SpecWord>
    ensures { MatchOption result ((x : SpecWord) → words.spec_word_text x ≢ name.now) (λ x. words.spec_word_text x ≡ name.now) }
{
    find_spec_word(&SPEC_WORDS, name)
}
