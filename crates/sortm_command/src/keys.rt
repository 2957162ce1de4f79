// By what messages are put in order.
ghost use Rattle.std.specs.Prelude.{◌≡◌, codes, IfOk};
ghost use Rattle.mail_dates.specs.Reading.{date_in};
ghost use Rattle.mail_headers.specs.Fields.{same_name};
ghost use Rattle.message_order.specs.Texts.{key_of};
ghost use Rattle.sortm_plans.specs.Keys.{behind_replies, clock_of_date, date_key as date_key_of, key_by, text_key as text_key_of};

use mail_dates::MailDate;
use mail_headers::{Message, unfold};
use mh_base::Bytes;
use std::alloc::{AllocError, Global};

fn clock_of_text(text: &[u8]) -> Option<i64>
    ensures { result ≡ clock_of_date (date_in text.now) }
{
    match MailDate::read(text) {
        Some(date) => Some(date.clock()),
        None => None,
    }
}

/// The moment of the date in the message's first field of this name, in seconds from 1970-01-01 00:00:00 UTC.
pub(crate) fn date_key(
    alloc: Global,
    field: &[u8],
    message: &[u8],
) -> Result<Option<i64>, AllocError>
    ensures { IfOk result (λ key. key ≡ date_key_of field.now message.now) }
{
    match Message::cut(message).first(field) {
        Some(value) => {
            let text = unfold(alloc, value)?;
            Ok(clock_of_text(text.as_slice()))
        }
        None => Ok(None),
    }
}

fn is_subject(field: &[u8]) -> bool
    ensures { result ≡ same_name field.now (codes "subject") }
{
    field.eq_ignore_ascii_case(b"subject")
}

/// What is compared of an unfolded subject.
fn subject_key(alloc: Global, text: &[u8]) -> Result<Vec<u8>, AllocError>
    ensures { IfOk result (λ key. key.items ≡ key_of (behind_replies text.now)) }
{
    message_order::subject_key(alloc, text)
}

/// What is compared of the unfolded text of a subject, or of another field.
fn key_of_text(alloc: Global, subject: bool, text: &[u8]) -> Result<Vec<u8>, AllocError>
    ensures { IfOk result (λ key. key.items ≡ key_by subject text.now) }
{
    if subject {
        subject_key(alloc, text)
    } else {
        message_order::text_key(alloc, text)
    }
}

/// What is compared of the message's first field of this name.
pub(crate) fn text_key(alloc: Global, field: &[u8], message: &[u8]) -> Result<Bytes, AllocError>
    ensures { IfOk result (λ key. key ≡ text_key_of field.now message.now) }
{
    match Message::cut(message).first(field) {
        Some(value) => {
            let text = unfold(alloc, value)?;
            let key = key_of_text(alloc, is_subject(field), text.as_slice())?;
            Ok(Bytes::from_vec(key))
        }
        None => Ok(Bytes::new(alloc)),
    }
}
