// Lines that have a limited number of columns.
ghost use Rattle.std.specs.Prelude.{◌≡◌, ◌≤◌, ◌-◌, ◌∷◌, [], OnOk, replicate};
ghost use Rattle.std.specs.Str.{chars};
ghost use Rattle.mail_text.specs.OneLine.{written};
ghost use Rattle.mail_text.specs.Stripping.{stripped};
ghost use Rattle.line_rows.specs.Columns.{empty_line, free as free_of, with_more, columns_of};

use crate::columns::columns;
use mail_text::{Spot, is_gap};
use mh_base::Text;
use std::alloc::{AllocError, Global};
use std::marker::Model;

/// A line so far, which contracts see as what it holds, its width and whether it is closed.
#[derive(Drop)]
pub struct Row {
    text: Text,
    width: u32,
    columns: u32,
    closed: bool,
}

impl Model for Row {
    ghost use Rattle.std.specs.Prelude.{◌≡◌, ◌≤◌};
    ghost use Rattle.line_rows.specs.Columns.{Kept, columns_of};

    ghost Value = { Kept };

    ghost view = { λ r. record { characters = r.text; width = r.width; closed = r.closed } };

    ghost invariant = { λ r. (r.columns ≡ columns_of r.text) × (r.columns ≤ r.width) };
}

impl Row {
    pub fn new(alloc: Global, width: u32) -> Row
        ensures { result ≡ empty_line width }
    {
        Row {
            text: Text::new(alloc),
            width,
            columns: 0,
            closed: false,
        }
    }

    pub fn width(&self) -> u32
        ensures { result ≡ self.now.width }
    {
        self.width
    }

    /// The columns that are still free.
    pub fn free(&self) -> u32
        ensures { result ≡ free_of self.now }
    {
        if self.closed {
            0
        } else {
            self.width - self.columns
        }
    }

    /// The columns that its characters don't take.
    pub fn unfilled(&self) -> u32
        ensures { result ≡ self.now.width - columns_of self.now.characters }
    {
        self.width - self.columns
    }

    pub fn text(&self) -> &Text
        ensures { result.now ≡ self.now.characters }
    {
        &self.text
    }

    pub fn into_text(self) -> Text
        ensures value { result ≡ self.characters }
        ensures within { columns_of result ≤ self.width }
    {
        let Row { text, .. } = self;
        text
    }

    pub fn put(&mut self, c: char) -> Result<(), AllocError>
        ensures { OnOk result (self.new ≡ with_more self.old (c ∷ [])) }
    {
        if self.closed {
            return Ok(());
        }
        let columns = columns(c);
        if columns <= self.width - self.columns {
            self.text.push(c)?;
            self.columns += columns;
        } else {
            self.closed = true;
        }
        Ok(())
    }

    fn put_str(&mut self, text: &str) -> Result<(), AllocError>
        ensures { OnOk result (self.new ≡ with_more self.old (chars text.now)) }
    {
        for c in text.chars() {
            if self.closed {
                return Ok(());
            }
            self.put(c)?;
        }
        Ok(())
    }

    pub fn put_text(&mut self, text: &Text) -> Result<(), AllocError>
        ensures { OnOk result (self.new ≡ with_more self.old text.now) }
    {
        self.put_str(text.as_str())
    }

    /// Adds what one line has of a text's character at this spot.
    fn put_at(&mut self, spot: Spot, c: char) -> Result<(), AllocError>
        ensures { OnOk result (self.new ≡ with_more self.old (written spot c)) }
    {
        if is_gap(c) {
            return Ok(());
        }
        if spot.has_space() {
            self.put(' ')?;
            return self.put(c);
        }
        self.put(c)
    }

    fn put_stripped_str(&mut self, text: &str) -> Result<(), AllocError>
        ensures { OnOk result (self.new ≡ with_more self.old (stripped (chars text.now))) }
    {
        let mut spot = Spot::Front;
        for c in text.chars() {
            if self.closed {
                return Ok(());
            }
            self.put_at(spot, c)?;
            spot = spot.behind(c);
        }
        Ok(())
    }

    /// Adds the text with single spaces.
    pub fn put_stripped(&mut self, text: &Text) -> Result<(), AllocError>
        ensures { OnOk result (self.new ≡ with_more self.old (stripped text.now)) }
    {
        self.put_stripped_str(text.as_str())
    }

    /// Adds bytes, each as the character of its number.
    pub fn put_bytes(&mut self, bytes: &[u8]) -> Result<(), AllocError>
        ensures { OnOk result (self.new ≡ with_more self.old bytes.now) }
    {
        for byte in bytes {
            self.put(char::from(*byte))?;
        }
        Ok(())
    }

    pub fn fill(&mut self, count: usize, c: char) -> Result<(), AllocError>
        ensures { OnOk result (self.new ≡ with_more self.old (replicate count c)) }
    {
        for _ in 0..count {
            self.put(c)?;
        }
        Ok(())
    }
}
