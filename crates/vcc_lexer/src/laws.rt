//! Laws of tokens, each a clause of a function that does nothing.

ghost use Rattle.std.specs.Prelude.{◌≡◌, ◌≤◌, ℕ, List, length};
ghost use Rattle.c_syntax.specs.declared.fault.LexFault.{LexFault};
ghost use Rattle.c_syntax.specs.Lexing.{IsFirstFault, Lexeme, Lexes};
ghost use Rattle.vcc_lexer.specs.Texts.{HaveTexts};

/// Bytes are one list of tokens, or have one first fault, and not both.
pub fn token_laws()
    ensures one_list { (bytes : List ℕ) (ts us : List Lexeme) → Lexes bytes ts → Lexes bytes us → ts ≡ us }
    ensures one_fault { (bytes : List ℕ) (e f : LexFault) → IsFirstFault bytes e → IsFirstFault bytes f → e ≡ f }
    ensures not_both { (bytes : List ℕ) (e : LexFault) (ts : List Lexeme) → IsFirstFault bytes e → Lexes bytes ts → length ts ≤ 262145 → ⊥ }
    ensures texts { (bytes : List ℕ) (ts : List Lexeme) → Lexes bytes ts → HaveTexts bytes ts }
{}
