// A message whose fields are found once.
ghost use Rattle.std.specs.Prelude.{◌≡◌, IfOk, map, MatchOption, None, Some};
ghost use Rattle.mail_headers.specs.Fields.{fields_of, first_value};
ghost use Rattle.mail_headers.specs.Message.{body_of};
ghost use Rattle.mail_headers.specs.View.{field_text};

use mail_headers::{Field, Message};
use std::alloc::{AllocError, Global};
use std::marker::Model;

/// A message with the places of its fields, which are looked for once. Contracts see it as its bytes.
#[derive(Drop)]
pub struct IndexedMessage<'a> {
    message: Message<'a>,
    fields: Vec<Field<'a>>,
}

impl<'a> Model for IndexedMessage<'a> {
    ghost use Rattle.std.specs.Prelude.{◌≡◌, List, map, ℕ};
    ghost use Rattle.mail_headers.specs.Fields.{fields_of};
    ghost use Rattle.mail_headers.specs.View.{field_text};

    ghost Value = { List ℕ };

    ghost view = { λ m. m.message };

    ghost invariant = { λ m. map field_text m.fields.items ≡ fields_of m.message };
}

fn fields<'a>(alloc: Global, message: &Message<'a>) -> Result<Vec<Field<'a>>, AllocError>
    ensures { IfOk result (λ fields. map field_text fields.items ≡ fields_of message.now) }
{
    message.fields().collect(alloc)
}

impl<'a> IndexedMessage<'a> {
    /// Cuts a message. No bytes are refused.
    pub fn cut(alloc: Global, bytes: &'a [u8]) -> Result<IndexedMessage<'a>, AllocError>
        ensures { IfOk result (λ message. message ≡ bytes.now) }
    {
        let message = Message::cut(bytes);
        let fields = fields(alloc, &message)?;
        Ok(IndexedMessage { message, fields })
    }

    pub fn bytes(&self) -> &'a [u8]
        ensures { result.now ≡ self.now }
    {
        self.message.bytes()
    }

    /// The value of the first field of this name; names go without ASCII case.
    pub fn first(&self, name: &[u8]) -> Option<&'a [u8]>
        ensures { MatchOption result (first_value name.now (fields_of self.now) ≡ None)
            (λ v. first_value name.now (fields_of self.now) ≡ Some v.now) }
    {
        for field in self.fields.as_slice() {
            if field.name.eq_ignore_ascii_case(name) {
                return Some(field.value);
            }
        }
        None
    }

    pub fn body(&self) -> &'a [u8]
        ensures { result.now ≡ body_of self.now }
    {
        self.message.body()
    }
}
