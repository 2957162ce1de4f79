// A whole message.
ghost use Rattle.std.specs.Prelude.{◌≡◌, MatchOption, None, Some};
ghost use Rattle.mail_headers.specs.Fields.{fields_of, first_value};
ghost use Rattle.mail_headers.specs.Message.{body_of, rest_of};

use crate::Fields;
use crate::spans::empty_line;
use std::marker::Model;

/// A message, which contracts see as its bytes.
#[derive(Debug, Drop)]
pub struct Message<'a> {
    bytes: &'a [u8],
    body: &'a [u8],
}

impl<'a> Model for Message<'a> {
    ghost use Rattle.std.specs.Prelude.{◌≡◌, List, ℕ};
    ghost use Rattle.mail_headers.specs.Message.{body_of};

    ghost Value = { List ℕ };

    ghost view = { λ m. m.bytes.now };

    ghost invariant = { λ m. m.body.now ≡ body_of m.bytes.now };
}

/// What stands behind the fields.
fn behind_fields(bytes: &[u8]) -> &[u8]
    ensures { result.now ≡ rest_of bytes.now }
{
    let mut fields = Fields::new(bytes);
    while fields.step().is_some() {}
    fields.rest()
}

impl<'a> Message<'a> {
    ghost use Rattle.mail_headers.specs.Walk.{fields_left};
    ghost use Rattle.mail_headers.specs.Whole.{IsMessage, IsNoOther};

    /// Cuts a message. No bytes are refused.
    pub fn cut(bytes: &'a [u8]) -> Message<'a>
        ensures bytes { result ≡ bytes.now }
        ensures whole { IsMessage (fields_of result) (body_of result) result }
        ensures alone { IsNoOther (fields_of result) (body_of result) result }
    {
        let rest = behind_fields(bytes);
        let (_, body) = rest.split_at(empty_line(rest));
        Message { bytes, body }
    }

    pub fn bytes(&self) -> &'a [u8]
        ensures { result.now ≡ self.now }
    {
        self.bytes
    }

    pub fn fields(&self) -> Fields<'a>
        ensures { fields_left result ≡ fields_of self.now }
    {
        Fields::new(self.bytes)
    }

    /// The value of the first field of this name; names go without ASCII case.
    pub fn first(&self, name: &[u8]) -> Option<&'a [u8]>
        ensures { MatchOption result (first_value name.now (fields_of self.now) ≡ None)
            (λ v. first_value name.now (fields_of self.now) ≡ Some v.now) }
    {
        for field in self.fields() {
            if field.name.eq_ignore_ascii_case(name) {
                return Some(field.value);
            }
        }
        None
    }

    pub fn body(&self) -> &'a [u8]
        ensures { result.now ≡ body_of self.now }
    {
        self.body
    }
}
