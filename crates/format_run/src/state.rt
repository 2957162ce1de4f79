// What a format's parts work on.
ghost use Rattle.std.specs.Prelude.{◌≡◌, ◌≤◌, ◌∷◌, [], OnOk};
ghost use Rattle.line_rows.specs.Columns.{columns_of, with_more};
ghost use Rattle.line_rows.specs.Decimals.{printed_number};
ghost use Rattle.line_rows.specs.Fields.{printed_text};
ghost use Rattle.format_run.specs.Stepping.{adding, start_of, weighed};

use crate::characters::is_empty;
use crate::numbers::truth;
use format_compiler::Width;
use line_rows::{Row, put_number, put_printed};
use mh_base::Text;
use std::alloc::{AllocError, Global};

/// A number, a text, and the line so far.
#[derive(Drop)]
pub struct LineState {
    pub(crate) number: i64,
    pub(crate) text: Text,
    pub(crate) row: Row,
}

impl LineState {
    /// The beginning of a line of so many columns at most.
    pub fn new(alloc: Global, width: u32) -> LineState
        ensures { result ≡ start_of width }
    {
        LineState {
            number: 0,
            text: Text::new(alloc),
            row: Row::new(alloc, width),
        }
    }

    pub(crate) fn print_character(&mut self, c: char) -> Result<(), AllocError>
        ensures { OnOk result (self.new ≡ adding (c ∷ []) self.old) }
    {
        self.row.put(c)
    }

    pub(crate) fn print_text(
        &mut self,
        alloc: Global,
        width: Option<Width>,
    ) -> Result<(), AllocError>
        ensures { OnOk result (self.new ≡ adding (printed_text width self.old.text) self.old) }
    {
        put_printed(alloc, &mut self.row, width, &self.text)
    }

    /// Prints the text as it is.
    pub(crate) fn print_all(&mut self) -> Result<(), AllocError>
        ensures { OnOk result (self.new ≡ adding self.old.text self.old) }
    {
        self.row.put_text(&self.text)
    }

    pub(crate) fn print_number(&mut self, width: Option<Width>) -> Result<(), AllocError>
        ensures { OnOk result (self.new ≡ adding (printed_number width self.old.number) self.old) }
    {
        put_number(&mut self.row, width, self.number)
    }

    /// Sets the number to 1 where the text isn't empty, and else to 0.
    pub(crate) fn weigh(&mut self)
        ensures { self.new ≡ weighed self.old }
    {
        self.number = truth(!is_empty(&self.text));
    }

    /// The line so far.
    pub fn into_text(self) -> Text
        ensures value { result ≡ self.row.characters }
        ensures within { columns_of result ≤ self.row.width }
    {
        let LineState { row, .. } = self;
        row.into_text()
    }
}
