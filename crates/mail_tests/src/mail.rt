// Fields and bodies of messages.
use mail_headers::{Field, Message, folded_line_len, unfold};
use std::alloc::Global;

/// The name and the value of a field.
type Pair = (&'static [u8], &'static [u8]);

/// A message, its fields and its body.
type Row = (&'static [u8], &'static [Pair], &'static [u8]);

const MESSAGES: &[Row] = &[
    (b"", &[], b""),
    (b"\nbody\n", &[], b"body\n"),
    (b"no field\nA: b\n", &[], b"no field\nA: b\n"),
    (
        b"To: ann\r\n bob\r\nSubject : Lunch\r\n\r\nAt noon?\r\n",
        &[(b"To", b" ann\r\n bob"), (b"Subject", b" Lunch")],
        b"At noon?\r\n",
    ),
    (b"A: b\nFrom ann\n\nx", &[(b"A", b" b")], b"From ann\n\nx"),
    (b"A:", &[(b"A", b"")], b""),
];

fn is_pair(field: &Field, wanted: Option<&Pair>) -> bool {
    match wanted {
        Some((name, value)) => field.name == *name && field.value == *value,
        None => false,
    }
}

fn has_fields(message: &Message, wanted: &[Pair]) -> bool {
    let mut count: usize = 0;
    for field in message.fields() {
        if !is_pair(&field, wanted.get(count)) {
            return false;
        }
        count = count.saturating_add(1);
    }
    count == wanted.len()
}

fn is_cut(row: &Row) -> bool {
    let (bytes, fields, body) = *row;
    let message = Message::cut(bytes);
    message.bytes() == bytes && message.body() == body && has_fields(&message, fields)
}

/// The place of the first message that isn't cut so.
fn wrong_message() -> Option<usize> {
    for (place, row) in MESSAGES.iter().enumerate() {
        if !is_cut(row) {
            return Some(place);
        }
    }
    None
}

#[test]
fn messages(rt: HostRuntime) {
    assert_eq!(rt; wrong_message(), None);
}

#[test]
fn fields_by_name(rt: HostRuntime) {
    let message = Message::cut(b"subject: first\nSubject: second\n\n");
    assert!(rt; message.first(b"SUBJECT") == Some(b" first".as_slice()));
    assert!(rt; message.first(b"To").is_none());
    assert!(rt; folded_line_len(b"a\n b\nc") == 5);
}

/// Values, and how they stand on one line.
const LINES: &[Pair] = &[
    (b" Lunch", b"Lunch"),
    (b"\tAnn\r\n Lee\n\tat home \r", b"Ann Lee\tat home"),
    (b" a\rb ", b"a\rb"),
    (b" \r\n ", b""),
];

fn is_unfolded(alloc: Global, value: &[u8], line: &[u8]) -> bool {
    match unfold(alloc, value) {
        Ok(unfolded) => unfolded.as_slice() == line,
        Err(_) => false,
    }
}

/// The place of the first value that isn't unfolded so.
fn wrong_line(alloc: Global) -> Option<usize> {
    for (place, (value, line)) in LINES.iter().enumerate() {
        if !is_unfolded(alloc, value, line) {
            return Some(place);
        }
    }
    None
}

#[test]
fn unfolding(rt: HostRuntime) {
    assert_eq!(rt; wrong_line(rt.alloc()), None);
}
