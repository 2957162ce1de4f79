// A whole drop.
ghost use Rattle.std.specs.Prelude.{◌≡◌, ◌<◌, ◌^◌, IsTrue, false, length, MatchResult};
ghost use Rattle.std.specs.Iterator.{YieldsFirstRef, item_count};
ghost use Rattle.mbox_drop.specs.Drops.{is_drop, messages};

use crate::fault::NotADrop;
use crate::part::{Part, first_part};
use std::marker::Model;

/// A drop, which contracts see as its bytes.
#[derive(Drop)]
pub struct MailDrop<'a> {
    /// The bytes after the first `From `, where there is one.
    rest: Option<&'a [u8]>,
}

impl<'a> Model for MailDrop<'a> {
    ghost use Rattle.std.specs.Prelude.{List, ℕ, ◌<◌, ◌^◌, length};
    ghost use Rattle.mbox_drop.specs.Text.{text_with};

    ghost Value = { List ℕ };

    ghost view = { λ d. text_with d.rest };

    ghost invariant = { λ d. length (text_with d.rest) < 2 ^ 64 };
}

/// The messages of a drop, in order. Contracts see the bytes from the next separator on.
#[derive(Drop)]
pub struct Slices<'a> {
    rest: Option<&'a [u8]>,
}

impl<'a> Model for Slices<'a> {
    ghost use Rattle.std.specs.Prelude.{List, ℕ};
    ghost use Rattle.mbox_drop.specs.Text.{text_with};

    ghost Value = { List ℕ };

    ghost view = { λ s. text_with s.rest };
}

impl<'a> MailDrop<'a> {
    pub fn cut(bytes: &'a [u8]) -> Result<MailDrop<'a>, NotADrop>
        ensures { MatchResult result (λ drop. IsTrue (is_drop bytes.now) × (drop ≡ bytes.now))
            (λ _. is_drop bytes.now ≡ false) }
    {
        if bytes.is_empty() {
            return Ok(MailDrop { rest: None });
        }
        match bytes.strip_prefix(b"From ") {
            Some(rest) => Ok(MailDrop { rest: Some(rest) }),
            None => Err(NotADrop),
        }
    }

    pub fn messages(&self) -> Slices<'a>
        ensures value { result ≡ self.now }
        ensures few { length (messages self.now) < 2 ^ 64 }
    {
        Slices { rest: self.rest }
    }
}

impl<'a> Iterator for Slices<'a> {
    type Item = &'a [u8];

    ghost next_gives = { YieldsFirstRef messages };

    ghost remaining = { item_count messages };

    fn next(&mut self) -> Option<&'a [u8]> {
        match self.rest {
            None => None,
            Some(bytes) => match first_part(bytes) {
                Part::Whole { message, rest } => {
                    self.rest = Some(rest);
                    Some(message)
                }
                Part::Open { text, place, body } => {
                    self.rest = None;
                    Some(&text[..place.ended(body, text.len())])
                }
            },
        }
    }
}
