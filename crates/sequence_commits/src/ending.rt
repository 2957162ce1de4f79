// The names of a folder's entries in the context.
ghost use Rattle.std.specs.Prelude.{◌≡◌, ◌<◌, ◌≤◌, ◌++◌, true, IfOk, OnOk, length};
ghost use Rattle.std.specs.Fmt.{digit_glyph};
ghost use Rattle.std.specs.List.{prefix_len};
ghost use Rattle.mh_sequences.specs.Lists.{is_no_dash};
ghost use Rattle.mh_sequences.specs.Reading.{escape, is_plain as is_plain_byte, suffix};
ghost use Rattle.sequence_commits.specs.FolderEntries.{from_dash as from_dash_of, is_of_folder as is_of_folder_name};

use mh_base::{Bytes, FolderName};
use std::alloc::{AllocError, Global};

fn is_plain(byte: u8) -> bool
    ensures { result ≡ is_plain_byte byte }
{
    33 <= byte && byte <= 126 && byte != b':' && byte != b'%'
}

fn hex_digit(digit: u8) -> u8
    requires { digit < 16 }
    ensures { result ≡ digit_glyph true digit }
{
    if digit < 10 {
        b'0' + digit
    } else {
        b'A' + (digit - 10)
    }
}

fn push_escaped(text: &mut Bytes, byte: u8) -> Result<(), AllocError>
    ensures { OnOk result (text.new ≡ text.old ++ escape byte) }
{
    if is_plain(byte) {
        text.extend(&[byte])
    } else {
        text.extend(&[b'%', hex_digit(byte / 16), hex_digit(byte % 16)])
    }
}

/// A dash and the folder's name, escaped.
#[tactic(auto, unfolding(mh_sequences::specs::Reading::suffix))]
pub(crate) fn ending_of(alloc: Global, folder: &FolderName) -> Result<Bytes, AllocError>
    ensures { IfOk result (λ b. b ≡ suffix folder.now) }
{
    let mut text = Bytes::from_slice(alloc, b"-")?;
    for byte in folder.text().as_str().as_bytes() {
        push_escaped(&mut text, *byte)?;
    }
    Ok(text)
}

fn dash_place(text: &[u8]) -> usize
    ensures value { result ≡ prefix_len is_no_dash text.now }
    ensures within { result ≤ length text.now }
{
    text.iter().take_while(|byte| **byte != b'-').count()
}

fn from_dash(text: &[u8]) -> &[u8]
    ensures { result.now ≡ from_dash_of text.now }
{
    &text[dash_place(text)..]
}

/// Whether this is the name of an entry of the folder with this ending, whatever its sequence is.
pub(crate) fn is_of_folder(name: &[u8], ending: &[u8]) -> bool
    ensures { result ≡ is_of_folder_name ending.now name.now }
{
    match name.strip_prefix(b"atr-".as_slice()) {
        Some(rest) => from_dash(rest) == ending,
        None => false,
    }
}
