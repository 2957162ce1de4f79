// A field's value on one line.
ghost use Rattle.std.specs.Prelude.{◌≡◌, ◌≤◌, ◌∷◌, ◌++◌, length, IfOk, OnOk, IsTrue};
ghost use Rattle.mail_headers.specs.Unfolding.{ends_line as is_line_end, is_edge, joined, trimmed, unfolded};
ghost use Rattle.std.specs.List.{prefix_len, suffix_len};

use memchr::memchr;
use mh_base::Bytes;
use std::alloc::{AllocError, Global};

fn ends_line(byte: u8, rest: &[u8]) -> bool
    ensures { result ≡ is_line_end byte rest.now }
{
    byte == b'\n' || byte == b'\r' && rest.first() == Some(&b'\n')
}

/// Keeps the byte unless it belongs to a line's end.
#[tactic(auto, unfolding(crate::specs::Unfolding::joined))]
fn keep(text: &mut Vec<u8>, byte: u8, rest: &[u8]) -> Result<(), AllocError>
    ensures { OnOk result (text.new.items ++ joined rest.now ≡ text.old.items ++ joined (byte ∷ rest.now)) }
{
    if !ends_line(byte, rest) {
        text.push(byte)?;
    }
    Ok(())
}

fn join(alloc: Global, value: &[u8]) -> Result<Vec<u8>, AllocError>
    ensures { IfOk result (λ text. text.items ≡ joined value.now) }
{
    let mut text = Vec::with_capacity(alloc, value.len())?;
    for (i, byte) in value.iter().enumerate() {
        let (_, rest) = value.split_at(i + 1);
        keep(&mut text, *byte, rest)?;
    }
    Ok(text)
}

/// Whether a value stands on one line, as most do.
fn is_one_line(value: &[u8]) -> bool
    ensures { IsTrue result → joined value.now ≡ value.now }
{
    match memchr(b'\n', value) {
        None => true,
        Some(_) => false,
    }
}

fn is_edge_byte(byte: u8) -> bool
    ensures { result ≡ is_edge byte }
{
    byte == b' ' || byte == b'\t' || byte == b'\r'
}

fn edge_len(text: &[u8]) -> usize
    ensures value { result ≡ prefix_len is_edge text.now }
    ensures inside { result ≤ length text.now }
{
    text.iter().take_while(|byte| is_edge_byte(**byte)).count()
}

fn back_edge_len(text: &[u8]) -> usize
    ensures value { result ≡ suffix_len is_edge text.now }
    ensures inside { result ≤ length text.now }
{
    text.iter()
        .rev()
        .take_while(|byte| is_edge_byte(**byte))
        .count()
}

fn trim(text: &[u8]) -> &[u8]
    ensures { result.now ≡ trimmed text.now }
{
    let (_, front) = text.split_at(edge_len(text));
    let (inner, _) = front.split_at(front.len() - back_edge_len(front));
    inner
}

/// The value without its line ends, and without spaces, tabs and carriage returns at both ends
/// (RFC 5322, section 2.2.3).
#[tactic(auto, unfolding(crate::specs::Unfolding::unfolded))]
pub fn unfold(alloc: Global, value: &[u8]) -> Result<Bytes, AllocError>
    ensures { IfOk result (λ text. text ≡ unfolded value.now) }
{
    if is_one_line(value) {
        return Bytes::from_slice(alloc, trim(value));
    }
    let text = join(alloc, value)?;
    Bytes::from_slice(alloc, trim(text.as_slice()))
}
