// The fields of a message, one after another.
ghost use Rattle.std.specs.Prelude.{◌≡◌};
ghost use Rattle.std.specs.Iterator.{YieldsFirstBy, item_count};
ghost use Rattle.mail_headers.specs.Fields.{fields_of};

use crate::Field;
use crate::spans::folded_line_len;

/// The fields of a header, in order.
#[derive(Clone, Copy, Debug)]
pub struct Fields<'a> {
    rest: &'a [u8],
}

impl<'a> Fields<'a> {
    ghost use Rattle.mail_headers.specs.View.{Steps};

    pub(crate) fn new(bytes: &'a [u8]) -> Fields<'a>
        ensures { result.rest.now ≡ bytes.now }
    {
        Fields { rest: bytes }
    }

    /// What stands behind the fields that were given so far.
    pub(crate) fn rest(&self) -> &'a [u8]
        ensures { result.now ≡ self.now.rest.now }
    {
        self.rest
    }

    pub(crate) fn step(&mut self) -> Option<Field<'a>>
        ensures { Steps self.old.rest.now self.new.rest.now result }
    {
        let (text, behind) = self.rest.split_at(folded_line_len(self.rest));
        let field = Field::read(text)?;
        self.rest = behind;
        Some(field)
    }
}

impl<'a> Iterator for Fields<'a> {
    type Item = Field<'a>;

    ghost use Rattle.mail_headers.specs.Walk.{fields_left};
    ghost use Rattle.mail_headers.specs.View.{field_text};

    ghost next_gives = { YieldsFirstBy field_text fields_left };

    ghost remaining = { item_count fields_left };

    fn next(&mut self) -> Option<Field<'a>> {
        self.step()
    }
}
