// Spans of a header.
ghost use Rattle.std.specs.Prelude.{◌≡◌, ◌==◌, ◌&&◌, not, ◌≤◌, ◌<◌, length};
ghost use Rattle.std.specs.List.{prefix_len};
ghost use Rattle.mail_headers.specs.Lines.{is_name_byte, continues as continues_field, folded_len, without_end, without_feed, empty_line_len};
ghost use Rattle.mh_base.specs.Characters.{is_blank};

use memchr::memchr;

/// How many bytes of a field's name stand at the front (RFC 5322, section 3.6.8).
pub fn name_len(text: &[u8]) -> usize
    ensures value { result ≡ prefix_len is_name_byte text.now }
    ensures inside { result ≤ length text.now }
{
    text.iter()
        .take_while(|byte| 33 <= **byte && **byte <= 126 && **byte != b':')
        .count()
}

/// How many blanks stand at the front.
pub(crate) fn blank_len(text: &[u8]) -> usize
    ensures value { result ≡ prefix_len is_blank text.now }
    ensures inside { result ≤ length text.now }
{
    text.iter()
        .take_while(|byte| **byte == b' ' || **byte == b'\t')
        .count()
}

fn continues(bytes: &[u8]) -> bool
    ensures { result ≡ continues_field bytes.now }
{
    match bytes.first() {
        Some(byte) => *byte == b' ' || *byte == b'\t',
        None => false,
    }
}

/// The length of the first line with all lines that continue it (RFC 5322, section 2.2.3), their
/// ends included.
pub fn folded_line_len(bytes: &[u8]) -> usize
    ensures value { result ≡ folded_len bytes.now }
    ensures inside { result ≤ length bytes.now }
{
    let mut from = 0;
    while let Some(count) = memchr(b'\n', &bytes[from..]) {
        let end = from + count + 1;
        if !continues(&bytes[end..]) {
            return end;
        }
        from = end;
    }
    bytes.len()
}

fn without_return(text: &[u8]) -> &[u8]
    ensures { result.now ≡ without_feed text.now }
{
    match text.split_last() {
        Some((b'\r', front)) => front,
        _ => text,
    }
}

/// The text without the line end behind it.
#[tactic(auto, unfolding(crate::specs::Lines::without_end))]
pub fn without_line_end(text: &[u8]) -> &[u8]
    ensures { result.now ≡ without_end text.now }
{
    match text.split_last() {
        Some((b'\n', front)) => without_return(front),
        _ => text,
    }
}

/// The length of an empty line at the front, or 0.
pub(crate) fn empty_line(bytes: &[u8]) -> usize
    ensures value { result ≡ empty_line_len bytes.now }
    ensures inside { result ≤ length bytes.now }
{
    if bytes.starts_with(b"\n") {
        1
    } else if bytes.starts_with(b"\r\n") {
        2
    } else {
        0
    }
}
