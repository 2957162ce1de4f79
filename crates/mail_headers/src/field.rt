// One field.
ghost use Rattle.std.specs.Prelude.{◌≡◌, MatchOption, None, Some};
ghost use Rattle.mail_headers.specs.Fields.{after_colon, field_in};

use crate::spans::{blank_len, name_len, without_line_end};

/// What follows a colon.
fn value_behind(text: &[u8]) -> Option<&[u8]>
    ensures { MatchOption result (after_colon text.now ≡ None) (λ v. after_colon text.now ≡ Some v.now) }
{
    match text.split_first() {
        Some((b':', value)) => Some(value),
        _ => None,
    }
}

/// A field of a header: its name, and its value as it stands, with the line ends inside it and
/// without the one behind it (RFC 5322, section 2.2).
#[derive(Clone, Copy, Debug)]
pub struct Field<'a> {
    pub name: &'a [u8],
    pub value: &'a [u8],
}

impl<'a> Field<'a> {
    ghost use Rattle.mail_headers.specs.View.{field_text};

    /// The field that this text is: a line with all the lines that continue it.
    #[tactic(auto, unfolding(crate::specs::Fields::field_in))]
    pub(crate) fn read(text: &'a [u8]) -> Option<Field<'a>>
        ensures { MatchOption result (field_in text.now ≡ None) (λ f. field_in text.now ≡ Some (field_text f)) }
    {
        let (name, behind) = text.split_at(name_len(text));
        if name.is_empty() {
            return None;
        }
        let (_, from_colon) = behind.split_at(blank_len(behind));
        match value_behind(from_colon) {
            Some(value) => Some(Field {
                name,
                value: without_line_end(value),
            }),
            None => None,
        }
    }
}
