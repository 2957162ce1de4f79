// Quoted-printable text written.
ghost use Rattle.std.specs.Prelude.{◌≡◌, ◌≤◌, ◌<◌, ◌++◌, ◌∷◌, length, IfOk, OnOk};
ghost use Rattle.mime_codes.specs.QuotedPrintable.{is_line_over, is_plain, item, has_room, placed, encoded_from, qp_encoded, qp_decoded};

use crate::hex::digit;
use mh_base::Bytes;
use std::alloc::{AllocError, Global};

fn ends_line(rest: &[u8]) -> bool
    ensures { result ≡ is_line_over rest.now }
{
    match rest.first() {
        Some(byte) => *byte == b'\n',
        None => true,
    }
}

fn stands_for_itself(byte: u8, rest: &[u8]) -> bool
    ensures { result ≡ is_plain byte rest.now }
{
    match byte {
        b'=' => false,
        b'!'..=b'~' => true,
        b' ' | b'\t' => !ends_line(rest),
        _ => false,
    }
}

fn fits(column: usize, len: usize, rest: &[u8]) -> bool
    requires column { column ≤ 76 }
    requires len { len ≤ 3 }
    ensures { result ≡ has_room column len rest.now }
{
    column + len <= 75 || column + len <= 76 && ends_line(rest)
}

/// Writes an item at the end of a line of so many characters, and says how many the line then has.
fn put_item(
    text: &mut Vec<u8>,
    column: usize,
    item: &[u8],
    rest: &[u8],
) -> Result<usize, AllocError>
    requires column { column ≤ 76 }
    requires len { length item.now ≤ 3 }
    ensures column { IfOk result (λ next. next ≤ 76) }
    ensures text { IfOk result (λ next. text.new.items ++ encoded_from next rest.now
        ≡ text.old.items ++ placed column item.now rest.now (λ n. encoded_from n rest.now)) }
{
    if fits(column, item.len(), rest) {
        text.extend_from_slice(item)?;
        Ok(column + item.len())
    } else {
        text.extend_from_slice(b"=\n")?;
        text.extend_from_slice(item)?;
        Ok(item.len())
    }
}

/// Writes a byte at the end of a line of so many characters, and says how many the line then has.
fn put(text: &mut Vec<u8>, column: usize, byte: u8, rest: &[u8]) -> Result<usize, AllocError>
    requires { column ≤ 76 }
    ensures column { IfOk result (λ next. next ≤ 76) }
    ensures text { IfOk result (λ next. text.new.items ++ encoded_from next rest.now
        ≡ text.old.items ++ encoded_from column (byte ∷ rest.now)) }
{
    if byte == b'\n' {
        text.push(byte)?;
        Ok(0)
    } else if stands_for_itself(byte, rest) {
        put_item(text, column, &[byte], rest)
    } else {
        put_item(
            text,
            column,
            &[b'=', digit(byte / 16), digit(byte % 16)],
            rest,
        )
    }
}

/// Encodes bytes as a quoted-printable text (RFC 2045, section 6.7) of lines of at most 76 characters. Line feeds are
/// the ends of lines.
pub fn qp_encode(alloc: Global, from: &[u8]) -> Result<Bytes, AllocError>
    ensures value { IfOk result (λ text. text ≡ qp_encoded from.now) }
    ensures back { IfOk result (λ text. qp_decoded text ≡ from.now) }
{
    let mut text = Vec::new(alloc);
    let mut column = 0;
    for (i, byte) in from.iter().enumerate() {
        let (_, rest) = from.split_at(i + 1);
        column = put(&mut text, column, *byte, rest)?;
    }
    Ok(Bytes::from_vec(text))
}
