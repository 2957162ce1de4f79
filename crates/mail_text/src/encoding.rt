// The two encodings of encoded words.
ghost use Rattle.std.specs.Prelude.{◌≡◌, ◌≤◌, ◌<◌, ◌∷◌, length, drop, Some, None, MatchOption, IfSome, IfOk};
ghost use Rattle.mime_codes.specs.Base64.{b64_decoded};
ghost use Rattle.mime_codes.specs.Hexadecimal.{hex_value, escaped_byte};
ghost use Rattle.mail_text.specs.Encodings.{q_decoded, bytes_by};
ghost use Rattle.mail_text.specs.EncodedWords.{encoding_first};

use crate::characters::text_of;
use mime_codes::b64_decode;
use std::alloc::{AllocError, Global};

/// How a word's text stands for bytes (RFC 2047, section 4).
#[derive(Clone, Copy, Drop)]
pub(crate) enum Encoding {
    B,
    Q,
}

fn digit_value(digit: u8) -> Option<u8>
    ensures value { result ≡ hex_value digit }
    ensures small { IfSome result (λ v. v < 16) }
{
    match digit {
        b'0'..=b'9' => Some(digit - b'0'),
        b'A'..=b'F' => Some(digit - b'A' + 10),
        b'a'..=b'f' => Some(digit - b'a' + 10),
        _ => None,
    }
}

/// The byte for which two digits at the front stand, and what is behind them.
fn escaped(text: &[u8]) -> Option<(u8, &[u8])>
    ensures { MatchOption result (escaped_byte text.now ≡ None)
        (λ r. (escaped_byte text.now ≡ Some r.0) × (r.1.now ≡ drop 2 text.now)) }
{
    let (high, rest) = text.split_first()?;
    let (low, rest) = rest.split_first()?;
    Some((16 * digit_value(*high)? + digit_value(*low)?, rest))
}

/// The byte for which the front of a text stands, and what is behind that.
fn first_byte(byte: u8, rest: &[u8]) -> (u8, &[u8])
    ensures value { q_decoded (byte ∷ rest.now) ≡ result.0 ∷ q_decoded result.1.now }
    ensures shorter { length result.1.now ≤ length rest.now }
{
    if byte == b'_' {
        (b' ', rest)
    } else if byte == b'=' {
        match escaped(rest) {
            Some(both) => both,
            None => (byte, rest),
        }
    } else {
        (byte, rest)
    }
}

fn q_decode(alloc: Global, text: &[u8]) -> Result<Vec<u8>, AllocError>
    ensures { IfOk result (λ bytes. bytes.items ≡ q_decoded text.now) }
{
    let mut bytes = Vec::new(alloc);
    let mut rest = text;
    while let Some((first, behind)) = rest.split_first() {
        let (byte, after) = first_byte(*first, behind);
        bytes.push(byte)?;
        rest = after;
    }
    Ok(bytes)
}

fn b_decode(alloc: Global, text: &[u8]) -> Result<Vec<u8>, AllocError>
    ensures { IfOk result (λ bytes. bytes.items ≡ b64_decoded text.now) }
{
    let mut bytes = vec![in alloc; 0u8; text.len()]?;
    let count = b64_decode(bytes.as_mut_slice(), text);
    bytes.truncate(count);
    Ok(bytes)
}

impl Encoding {
    /// The encoding of the letter at the front, in either case.
    pub(crate) fn first(text: &[char]) -> Option<Encoding>
        ensures { result ≡ encoding_first text.now }
    {
        match text.first() {
            Some('B' | 'b') => Some(Encoding::B),
            Some('Q' | 'q') => Some(Encoding::Q),
            _ => None,
        }
    }

    /// The bytes for which a word's text stands.
    pub(crate) fn decode(self, alloc: Global, text: &[char]) -> Result<Vec<u8>, AllocError>
        ensures { IfOk result (λ bytes. bytes.items ≡ bytes_by self text.now) }
    {
        let text = text_of(alloc, text)?;
        match self {
            Encoding::B => b_decode(alloc, text.as_str().as_bytes()),
            Encoding::Q => q_decode(alloc, text.as_str().as_bytes()),
        }
    }
}
