// The values of a message's components.
ghost use Rattle.std.specs.Prelude.{◌≡◌, codes, IfOk, take, if◌then◌else◌};
ghost use Rattle.mail_headers.specs.Fields.{same_name};
ghost use Rattle.mail_headers.specs.Message.{body_of};
ghost use Rattle.mail_text.specs.Stripping.{stripped};
ghost use Rattle.format_run.specs.Values.{shown_body, shown_field, value_named, value_of};
ghost use Rattle.mail_headers.specs.Fields.{fields_of, first_value};

use crate::IndexedMessage;
use mail_headers::unfold;
use mail_text::{show_bytes, strip};
use mh_base::Text;
use std::alloc::{AllocError, Global};

const BODY_LIMIT: usize = 1024;

/// The body's first bytes, as many as a line shows of it.
fn body_front<'a>(message: &IndexedMessage<'a>) -> &'a [u8]
    ensures { result.now ≡ take 1024 (body_of message.now) }
{
    let body = message.body();
    let (front, _) = body.split_at(body.len().min(BODY_LIMIT));
    front
}

/// What the body's first bytes show, on as many lines as they have.
fn raw_body(alloc: Global, message: &IndexedMessage) -> Result<Text, AllocError>
    ensures { IfOk result (λ text. stripped text ≡ shown_body message.now) }
{
    show_bytes(alloc, body_front(message))
}

fn body_value(alloc: Global, message: &IndexedMessage) -> Result<Text, AllocError>
    ensures { IfOk result (λ text. text ≡ shown_body message.now) }
{
    let shown = raw_body(alloc, message)?;
    strip(alloc, &shown)
}

fn field_value(alloc: Global, message: &IndexedMessage, name: &[u8]) -> Result<Text, AllocError>
    ensures { IfOk result (λ text. text ≡ shown_field (first_value name.now (fields_of message.now))) }
{
    match message.first(name) {
        None => Ok(Text::new(alloc)),
        Some(value) => {
            let value = unfold(alloc, value)?;
            show_bytes(alloc, value.as_slice())
        }
    }
}

fn is_body(name: &[u8]) -> bool
    ensures { result ≡ same_name name.now (codes "body") }
{
    name.eq_ignore_ascii_case(b"body")
}

fn named_value(alloc: Global, message: &IndexedMessage, name: &[u8]) -> Result<Text, AllocError>
    ensures { IfOk result (λ text. text ≡ value_named name.now message.now) }
{
    if is_body(name) {
        body_value(alloc, message)
    } else {
        field_value(alloc, message, name)
    }
}

/// The value of the component of this name.
pub(crate) fn component_value(
    alloc: Global,
    message: &IndexedMessage,
    name: &Text,
) -> Result<Text, AllocError>
    ensures { IfOk result (λ text. text ≡ value_of name.now message.now) }
{
    named_value(alloc, message, name.as_str().as_bytes())
}

/// A component's value. Where it is raw, it is meant on one line.
#[derive(Drop)]
pub(crate) struct RawValue {
    pub(crate) text: Text,
    pub(crate) raw: bool,
}

/// The value of the component of this name, of which a body is raw.
pub(crate) fn raw_value(
    alloc: Global,
    message: &IndexedMessage,
    name: &Text,
) -> Result<RawValue, AllocError>
    ensures { IfOk result (λ v. (if v.raw then stripped v.text else v.text) ≡ value_of name.now message.now) }
{
    let name = name.as_str().as_bytes();
    if is_body(name) {
        Ok(RawValue {
            text: raw_body(alloc, message)?,
            raw: true,
        })
    } else {
        Ok(RawValue {
            text: field_value(alloc, message, name)?,
            raw: false,
        })
    }
}
