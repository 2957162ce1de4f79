// Text on one line, with single spaces.
ghost use Rattle.std.specs.Prelude.{◌≡◌, IfOk, OnOk, ◌++◌};
ghost use Rattle.std.specs.Str.{chars};
ghost use Rattle.mail_text.specs.Stripping.{is_gap as is_a_gap, stripped};
ghost use Rattle.mail_text.specs.OneLine.{has_space, spot_behind, written};

use mh_base::Text;
use std::alloc::{AllocError, Global};

/// Whether this is a space or a control character.
pub fn is_gap(c: char) -> bool
    ensures { result ≡ is_a_gap c }
{
    c <= ' ' || '\u{7f}' <= c && c <= '\u{9f}'
}

/// Where a text stands of which one line is made: before its first word, in a word, or in a gap behind one.
#[derive(Clone, Copy, Drop)]
pub enum Spot {
    Front,
    Word,
    Gap,
}

impl Spot {
    /// Whether a space goes before a character of a word that stands here.
    pub fn has_space(self) -> bool
        ensures { result ≡ has_space self }
    {
        matches!(self, Spot::Gap)
    }

    /// The spot behind this character.
    pub fn behind(self, c: char) -> Spot
        ensures { result ≡ spot_behind self c }
    {
        match self {
            _ if !is_gap(c) => Spot::Word,
            Spot::Front => Spot::Front,
            Spot::Word | Spot::Gap => Spot::Gap,
        }
    }
}

/// Writes what the line has of a character at this spot.
fn put_at(line: &mut Text, spot: Spot, c: char) -> Result<(), AllocError>
    ensures { OnOk result (line.new ≡ line.old ++ written spot c) }
{
    if is_gap(c) {
        return Ok(());
    }
    if spot.has_space() {
        line.push(' ')?;
    }
    line.push(c)
}

fn strip_str(alloc: Global, text: &str) -> Result<Text, AllocError>
    ensures { IfOk result (λ line. line ≡ stripped (chars text.now)) }
{
    let mut line = Text::new(alloc);
    let mut spot = Spot::Front;
    for c in text.chars() {
        put_at(&mut line, spot, c)?;
        spot = spot.behind(c);
    }
    Ok(line)
}

/// The text with one space for each run of spaces and control characters, and none at its ends.
pub fn strip(alloc: Global, text: &Text) -> Result<Text, AllocError>
    ensures { IfOk result (λ line. line ≡ stripped text.now) }
{
    strip_str(alloc, text.as_str())
}
