// How a body is carried.
ghost use Rattle.std.specs.Prelude.{◌≡◌, ◌&&◌, ◌==◌, IfOk};
ghost use Rattle.std.specs.List.{list_any};
ghost use Rattle.mhbuild_compose.specs.Encodings.{column_behind as column_behind_byte, encoding_of, encoded_by, is_plain, is_high, is_seven as is_seven_text};

use mh_base::Bytes;
use mime_codes::{b64_encode, qp_encode};
use std::alloc::{AllocError, Global};

/// The encodings of bodies (RFC 2045, section 6).
#[derive(Clone, Copy, Debug, PartialEq, Eq)]
pub(crate) enum Encoding {
    SevenBit,
    EightBit,
    QuotedPrintable,
    Base64,
}

/// Whether a byte may stand in a body of seven bits.
fn is_plain_byte(byte: u8) -> bool
    ensures { result ≡ is_plain byte }
{
    1 <= byte && byte <= 127 && byte != b'\r'
}

/// How many bytes stand on the line behind a byte, where it may stand there.
fn column_behind(column: u64, byte: u8) -> Option<u64>
    ensures { result ≡ column_behind_byte column byte }
{
    if byte == b'\n' {
        Some(0)
    } else if is_plain_byte(byte) && column < 998 {
        Some(column + 1)
    } else {
        None
    }
}

/// Whether each byte is from 1 to 127 and no carriage return, and no line has more than 998 bytes.
fn is_seven(text: &[u8]) -> bool
    ensures { result ≡ is_seven_text text.now }
{
    let mut column = 0;
    for byte in text {
        match column_behind(column, *byte) {
            Some(next) => column = next,
            None => return false,
        }
    }
    true
}

/// Whether there is a byte above 127.
pub(crate) fn is_high_text(text: &[u8]) -> bool
    ensures { result ≡ list_any is_high text.now }
{
    text.iter().any(|byte| *byte >= 128)
}

impl Encoding {
    /// How a body of this type is carried.
    pub(crate) fn of(kind: &[u8], text: &[u8]) -> Encoding
        ensures { result ≡ encoding_of kind.now text.now }
    {
        if is_seven(text) {
            Encoding::SevenBit
        } else if kind == b"text".as_slice() {
            Encoding::QuotedPrintable
        } else if kind == b"message".as_slice() {
            Encoding::EightBit
        } else {
            Encoding::Base64
        }
    }

    pub(crate) fn encode(self, alloc: Global, text: &[u8]) -> Result<Bytes, AllocError>
        ensures { IfOk result (λ b. b ≡ encoded_by self text.now) }
    {
        match self {
            Encoding::SevenBit | Encoding::EightBit => Bytes::from_slice(alloc, text),
            Encoding::QuotedPrintable => qp_encode(alloc, text),
            Encoding::Base64 => b64_encode(alloc, text),
        }
    }
}
