// One word of a header's date.
ghost use Rattle.std.specs.Prelude.{◌≡◌, ◌∷◌, [], take, MatchOption, false, ◌&&◌};
ghost use Rattle.mail_dates.specs.Words.{is_separator as separates};
ghost use Rattle.mail_dates.specs.Left.{left};
ghost use Rattle.mail_dates.specs.WordView.{view_of, pushed, TakesWord};
ghost use Rattle.mail_dates.specs.Names.{begins_weekday as begins_a_weekday};
ghost use Rattle.mh_base.specs.Characters.{words};

use crate::names::{begins_weekday, is_letter};
use crate::outside::Outside;
use std::marker::Model;

fn is_separator(byte: u8) -> bool
    ensures { result ≡ separates byte }
{
    byte == b' ' || byte == b'\t' || byte == b','
}

/// A word, of which contracts see the first 13 bytes and whether all of it is letters.
#[derive(Drop)]
pub(crate) struct Word {
    bytes: [u8; 13],
    len: usize,
    letters: bool,
}

impl Model for Word {
    ghost use Rattle.std.specs.Prelude.{◌≤◌, take};
    ghost use Rattle.mail_dates.specs.Seen.{WordView};

    ghost Value = { WordView };

    ghost view = { λ w. record { front = take w.len w.bytes; letters = w.letters } };

    ghost invariant = { λ w. w.len ≤ 13 };
}

impl Word {
    fn new() -> Word
        ensures { result ≡ view_of [] }
    {
        Word {
            bytes: [0; 13],
            len: 0,
            letters: true,
        }
    }

    fn push(&mut self, byte: u8)
        ensures { self.new ≡ pushed self.old byte }
    {
        self.letters &= is_letter(byte);
        if self.len < 13 {
            self.bytes[self.len] = byte;
            self.len += 1;
        }
    }

    /// The first bytes.
    pub(crate) fn front(&self) -> &[u8]
        ensures { result.now ≡ self.now.front }
    {
        &self.bytes[..self.len]
    }

    /// Whether it begins as a day's name does, and has letters alone.
    pub(crate) fn is_weekday(&self) -> bool
        ensures { result ≡ (self.now.letters && begins_a_weekday (take 3 self.now.front)) }
    {
        let front = self.front();
        let (three, _) = front.split_at(front.len().min(3));
        self.letters && begins_weekday(three)
    }
}

/// The next byte that is no separator.
fn first_byte(text: &mut Outside) -> Option<u8>
    ensures { MatchOption result ((words separates (left text.old) ≡ []) × (words separates (left text.new) ≡ []))
        (λ byte. (separates byte ≡ false)
        × (words separates (left text.old) ≡ words separates (byte ∷ left text.new))) }
{
    while let Some(byte) = text.next() {
        if !is_separator(byte) {
            return Some(byte);
        }
    }
    None
}

/// The next word.
pub(crate) fn next_word(text: &mut Outside) -> Option<Word>
    ensures { TakesWord (words separates (left text.old)) result (words separates (left text.new)) }
{
    let first = first_byte(text)?;
    let mut word = Word::new();
    word.push(first);
    while let Some(byte) = text.next() {
        if is_separator(byte) {
            return Some(word);
        }
        word.push(byte);
    }
    Some(word)
}
