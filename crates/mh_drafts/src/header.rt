// The header of a draft.
ghost use Rattle.std.specs.Prelude.{◌≡◌, ◌≤◌, ◌<◌, ◌==◌, ◌-◌, ◌+◌, length, take};
ghost use Rattle.std.specs.List.{count_by};
ghost use Rattle.mail_headers.specs.Fields.{same_name};
ghost use Rattle.mh_drafts.specs.Headers.{is_reserved as is_reserved_name, before as bytes_before, line_at as line_number_at};
ghost use Rattle.mh_drafts.specs.RawHeaders.{IsHeaderOf};

use mail_headers::{Message, folded_line_len};

/// What stands from the first field on that a draft may not have, or behind all fields.
#[derive(Clone, Copy, Debug)]
pub(crate) enum Header<'a> {
    Reserved(&'a [u8]),
    Behind(&'a [u8]),
}

fn front(text: &[u8], len: usize) -> &[u8]
    ensures { result.now ≡ take len text.now }
{
    let (front, _) = text.split_at(len.min(text.len()));
    front
}

fn is_named(name: &[u8], word: &[u8]) -> bool
    ensures { result ≡ same_name name.now word.now }
{
    name.eq_ignore_ascii_case(word)
}

/// A field that the message gets from the draft's body.
fn is_reserved(name: &[u8]) -> bool
    ensures { result ≡ is_reserved_name name.now }
{
    is_named(name, b"MIME-Version") || is_named(front(name, 8), b"Content-")
}

/// What stands before this end of a text.
pub(crate) fn before<'a>(bytes: &'a [u8], end: &[u8]) -> &'a [u8]
    requires { length end.now ≤ length bytes.now }
    ensures value { result.now ≡ bytes_before bytes.now end.now }
    ensures inside { length result.now ≡ length bytes.now - length end.now }
{
    let (front, _) = bytes.split_at(bytes.len() - end.len());
    front
}

fn feed_count(text: &[u8]) -> usize
    ensures value { result ≡ count_by (λ b. b == 10) text.now }
    ensures inside { result ≤ length text.now }
{
    text.iter().filter(|byte| **byte == b'\n').count()
}

/// The number of the line with which this end of a text begins.
pub(crate) fn line_at(bytes: &[u8], end: &[u8]) -> u64
    requires { length end.now ≤ length bytes.now }
    ensures value { result ≡ line_number_at bytes.now end.now }
    ensures inside { result ≤ length bytes.now - length end.now + 1 }
{
    feed_count(before(bytes, end)) as u64 + 1
}

/// Walks over the fields.
pub(crate) fn walk_header<'a>(message: &Message<'a>) -> Header<'a>
    ensures { IsHeaderOf message.now result }
{
    let mut rest = message.bytes();
    for field in message.fields() {
        if is_reserved(field.name) {
            return Header::Reserved(rest);
        }
        let (_, behind) = rest.split_at(folded_line_len(rest));
        rest = behind;
    }
    Header::Behind(rest)
}
