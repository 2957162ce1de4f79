// The pieces of a quoted-printable text.
ghost use Rattle.std.specs.Prelude.{◌≡◌, ◌≤◌, ◌∷◌, length, MatchOption, []};
ghost use Rattle.mime_codes.specs.QuotedPrintable.{blank_len as blanks_of, line_end_len as line_end_of};
ghost use Rattle.mime_codes.specs.Pieces.{BeginsWith};
ghost use Rattle.mh_base.specs.Characters.{is_blank as is_blank_byte};

use crate::hex::escaped;

/// How a text begins.
#[derive(Clone, Copy)]
pub(crate) enum Piece {
    /// So many bytes that stand for one.
    Byte { value: u8, len: usize },
    /// So many blanks that stand for themselves.
    Blanks { len: usize },
    /// So many bytes that stand for nothing.
    Nothing { len: usize },
}

fn is_blank(byte: u8) -> bool
    ensures { result ≡ is_blank_byte byte }
{
    byte == b' ' || byte == b'\t'
}

fn blank_len(text: &[u8]) -> usize
    ensures value { result ≡ blanks_of text.now }
    ensures inside { result ≤ length text.now }
{
    text.iter().take_while(|byte| is_blank(**byte)).count()
}

fn line_end_len(text: &[u8]) -> usize
    ensures value { result ≡ line_end_of text.now }
    ensures inside { result ≤ length text.now }
{
    if text.starts_with(b"\n") {
        1
    } else if text.starts_with(b"\r\n") {
        2
    } else {
        0
    }
}

/// What an equals sign and the bytes behind it begin with.
fn from_equals(text: &[u8], behind: &[u8]) -> Piece
    requires { text.now ≡ 61 ∷ behind.now }
    ensures { BeginsWith text.now result }
{
    if let Some(value) = escaped(behind) {
        return Piece::Byte { value, len: 3 };
    }
    let blanks = blank_len(behind);
    let (_, line_end) = behind.split_at(blanks);
    let end = line_end_len(line_end);
    if end == 0 {
        Piece::Byte {
            value: b'=',
            len: 1,
        }
    } else {
        Piece::Nothing {
            len: 1 + blanks + end,
        }
    }
}

/// The blanks with which a text begins, of which there are some.
fn from_blanks(text: &[u8]) -> Piece
    requires { 1 ≤ blanks_of text.now }
    ensures { BeginsWith text.now result }
{
    let len = blank_len(text);
    let (_, line_end) = text.split_at(len);
    if line_end_len(line_end) == 0 {
        Piece::Blanks { len }
    } else {
        Piece::Nothing { len }
    }
}

/// The piece with which a text begins, if there is any text.
pub(crate) fn first_piece(text: &[u8]) -> Option<Piece>
    ensures { MatchOption result (text.now ≡ []) (λ piece. BeginsWith text.now piece) }
{
    let (byte, behind) = text.split_first()?;
    if *byte == b'=' {
        Some(from_equals(text, behind))
    } else if is_blank(*byte) {
        Some(from_blanks(text))
    } else {
        Some(Piece::Byte {
            value: *byte,
            len: 1,
        })
    }
}
