//! Signs.

ghost use Rattle.std.specs.Prelude.{◌≡◌, ◌<◌, ℕ, All, Contains, MatchOption, List, length};
ghost use Rattle.c_syntax.specs.declared.token.Sign.{Sign};
ghost use Rattle.c_syntax.specs.Words as words;
ghost use Rattle.vcc_lexer.specs.First.{Begins, NotBegins};

use c_syntax::token::Sign;

/// The signs of more than two bytes. None begins with another.
const LONG_SIGNS: [Sign; 2] = [Sign::Equivalent, Sign::Implies];

/// Every sign of two bytes.
const SIGNS_OF_TWO: [Sign; 12] = [
    Sign::Annotation,
    Sign::Arrow,
    Sign::AddAssign,
    Sign::SubtractAssign,
    Sign::Increment,
    Sign::Decrement,
    Sign::Equal,
    Sign::NotEqual,
    Sign::LessEqual,
    Sign::GreaterEqual,
    Sign::And,
    Sign::Or,
];

/// Every sign of one byte.
const SIGNS_OF_ONE: [Sign; 24] = [
    Sign::Open,
    Sign::Close,
    Sign::BraceOpen,
    Sign::BraceClose,
    Sign::BracketOpen,
    Sign::BracketClose,
    Sign::Semicolon,
    Sign::Comma,
    Sign::Assign,
    Sign::Less,
    Sign::Greater,
    Sign::Plus,
    Sign::Minus,
    Sign::Star,
    Sign::Slash,
    Sign::Percent,
    Sign::Not,
    Sign::Question,
    Sign::Colon,
    Sign::Ampersand,
    Sign::Dot,
    Sign::Bar,
    Sign::Caret,
    Sign::Tilde,
];

/// How the sign is spelled.
pub fn sign_text(sign: Sign) -> &'static [u8]
    ensures { result.now ≡ words.sign_text sign }
{
    match sign {
        Sign::Open => b"(",
        Sign::Close => b")",
        Sign::BraceOpen => b"{",
        Sign::BraceClose => b"}",
        Sign::BracketOpen => b"[",
        Sign::BracketClose => b"]",
        Sign::Annotation => b"_(",
        Sign::Semicolon => b";",
        Sign::Comma => b",",
        Sign::Arrow => b"->",
        Sign::Assign => b"=",
        Sign::AddAssign => b"+=",
        Sign::SubtractAssign => b"-=",
        Sign::Increment => b"++",
        Sign::Decrement => b"--",
        Sign::Equal => b"==",
        Sign::NotEqual => b"!=",
        Sign::Less => b"<",
        Sign::LessEqual => b"<=",
        Sign::Greater => b">",
        Sign::GreaterEqual => b">=",
        Sign::Plus => b"+",
        Sign::Minus => b"-",
        Sign::Star => b"*",
        Sign::Slash => b"/",
        Sign::Percent => b"%",
        Sign::Not => b"!",
        Sign::And => b"&&",
        Sign::Or => b"||",
        Sign::Question => b"?",
        Sign::Colon => b":",
        Sign::Ampersand => b"&",
        Sign::Implies => b"==>",
        Sign::Equivalent => b"<==>",
        Sign::Dot => b".",
        Sign::Bar => b"|",
        Sign::Caret => b"^",
        Sign::Tilde => b"~",
    }
}

/// Which of these begins the text.
fn find_sign(among: &[Sign], text: &[u8]) -> Option<Sign>
    ensures { MatchOption result (All (NotBegins text.now) among.now) (λ x. Begins text.now x × Contains among.now x) }
{
    for x in among {
        if text.starts_with(sign_text(*x)) {
            return Some(*x);
        }
    }
    None
}

/// The longest sign that begins the text.
pub fn first_sign(text: &[u8]) -> Option<Sign>
    ensures { MatchOption result ((x : Sign) → NotBegins text.now x) (λ x. Begins text.now x × ((y : Sign) → length (words.sign_text x) < length (words.sign_text y) → NotBegins text.now y)) }
{
    if let Some(sign) = find_sign(&LONG_SIGNS, text) {
        return Some(sign);
    }
    if let Some(sign) = find_sign(&SIGNS_OF_TWO, text) {
        return Some(sign);
    }
    find_sign(&SIGNS_OF_ONE, text)
}
