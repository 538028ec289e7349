//! The lines of a text, and the words of a line.

ghost use Rattle.std.specs.Prelude.{◌≡◌, [], ◌∷◌, IfSome, IfNone, option_map};
ghost use Rattle.schedule_format.specs.Lines.{pieces, pieces_left, words_of};
ghost use Rattle.schedule_format.specs.Reading.{Gives};
ghost use Rattle.schedule_format.specs.Reading as reading;

use crate::fault::ScheduleFault;
use std::marker::Model;

/// The text before the first byte of this kind, and the text behind it; none where there is no such byte.
pub fn cut(byte: u8, text: &[u8]) -> Option<(&[u8], &[u8])>
    ensures some { IfSome result (λ x. pieces byte text.now ≡ x.0.now ∷ pieces byte x.1.now) }
    ensures none { IfNone result (pieces byte text.now ≡ text.now ∷ []) }
{
    let end = text.iter().position(|b| *b == byte)?;
    Some((&text[..end], &text[end + 1..]))
}

/// The words of a line that are still to come; contracts see their list.
#[derive(Drop)]
pub struct Words<'a> {
    rest: Option<&'a [u8]>,
}

impl<'a> Model for Words<'a> {
    ghost use Rattle.std.specs.Prelude.{ℕ, List, option_map};
    ghost use Rattle.schedule_format.specs.Lines.{pieces_left};

    ghost Value = { List (List ℕ) };

    ghost view = { λ w. pieces_left 32 (option_map (λ t. t.now) w.rest) };
}

impl<'a> Words<'a> {
    /// All words of the line.
    pub fn new(line: &'a [u8]) -> Words<'a>
        ensures { result ≡ words_of line.now }
    {
        Words { rest: Some(line) }
    }

    /// The next word.
    pub fn next(&mut self) -> Option<&'a [u8]>
        ensures some { IfSome result (λ w. self.old ≡ w.now ∷ self.new) }
        ensures none { IfNone result (self.old ≡ []) }
    {
        let text = self.rest?;
        let Some((word, rest)) = cut(b' ', text) else {
            self.rest = None;
            return Some(text);
        };
        self.rest = Some(rest);
        Some(word)
    }

    /// Takes the next word, which has to be this one; `number` is the line's.
    pub fn take(&mut self, number: u32, word: &[u8]) -> Result<(), ScheduleFault>
        ensures { Gives (λ u. self.new) result (reading.behind number word.now self.old) }
    {
        let Some(first) = self.next() else {
            return Err(ScheduleFault::BadLine(number));
        };
        if first != word {
            return Err(ScheduleFault::BadLine(number));
        }
        Ok(())
    }

    /// Takes the next word.
    pub fn one(&mut self, number: u32) -> Result<&'a [u8], ScheduleFault>
        ensures { Gives (λ w. (w.now, self.new)) result (reading.one_word number self.old) }
    {
        match self.next() {
            Some(word) => Ok(word),
            None => Err(ScheduleFault::BadLine(number)),
        }
    }

    /// There has to be no further word.
    pub fn end(mut self, number: u32) -> Result<(), ScheduleFault>
        ensures { Gives (λ u. u) result (reading.no_more number self.entry) }
    {
        match self.next() {
            Some(_) => Err(ScheduleFault::BadLine(number)),
            None => Ok(()),
        }
    }
}
