// The lines of a profile.
ghost use Rattle.std.specs.Prelude.{◌≡◌, ◌==◌, ◌&&◌, not, ◌≤◌, length, IfOk, IfSome, MatchOption, None, Some};
ghost use Rattle.mail_headers.specs.Fields.{first_field};
ghost use Rattle.mail_headers.specs.View.{field_text};
ghost use Rattle.mh_profile.specs.Reading.{IsEntryOf, entry_of};
ghost use Rattle.mh_profile.specs.Validity.{IsEntry};

use crate::NamedValue;
use mail_headers::{Field, Message, unfold};
use mh_base::Bytes;
use std::alloc::{AllocError, Global};

/// The field with which a line begins.
fn field_of(line: &[u8]) -> Option<Field<'_>>
    ensures { MatchOption result (first_field line.now ≡ None) (λ f. first_field line.now ≡ Some (field_text f)) }
{
    Message::cut(line).fields().next()
}

fn entry(alloc: Global, field: Field<'_>) -> Result<NamedValue, AllocError>
    ensures { IfOk result (λ e. e ≡ entry_of (field_text field.entry)) }
{
    Ok(NamedValue {
        name: Bytes::from_slice(alloc, field.name)?,
        value: unfold(alloc, field.value)?,
    })
}

/// The entry that a line with its continuations is, where it is one.
pub(crate) fn read_entry(alloc: Global, line: &[u8]) -> Result<Option<NamedValue>, AllocError>
    ensures entry { IfOk result (λ found. IsEntryOf line.now found) }
    ensures valid { IfOk result (λ found. IfSome found IsEntry) }
{
    match field_of(line) {
        Some(field) => Ok(Some(entry(alloc, field)?)),
        None => Ok(None),
    }
}
