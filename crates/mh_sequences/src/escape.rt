// Folders' names in names of entries.
ghost use Rattle.std.specs.Prelude.{◌≡◌, ◌<◌, ◌∷◌, ◌++◌, [], true, IfOk, OnOk};
ghost use Rattle.std.specs.List.{flat_map, list_all};
ghost use Rattle.std.specs.Fmt.{digit_glyph};
ghost use Rattle.mail_headers.specs.Lines.{is_name_byte};
ghost use Rattle.mh_sequences.specs.Reading.{escape, is_plain as is_plain_byte, suffix};

use mh_base::{Bytes, FolderName};
use std::alloc::{AllocError, Global};

fn is_plain(byte: u8) -> bool
    ensures { result ≡ is_plain_byte byte }
{
    33 <= byte && byte <= 126 && byte != b':' && byte != b'%'
}

fn hex_digit(digit: u8) -> u8
    requires { digit < 16 }
    ensures { result ≡ digit_glyph true digit }
{
    if digit < 10 {
        b'0' + digit
    } else {
        b'A' + (digit - 10)
    }
}

fn push_escaped(text: &mut Bytes, byte: u8) -> Result<(), AllocError>
    ensures text { OnOk result (text.new ≡ text.old ++ escape byte) }
    ensures clean { list_all is_name_byte (escape byte) ≡ true }
{
    if is_plain(byte) {
        text.extend(&[byte])
    } else {
        text.extend(&[b'%', hex_digit(byte / 16), hex_digit(byte % 16)])
    }
}

/// A dash and the folder's name, escaped.
#[tactic(auto, unfolding(crate::specs::Reading::suffix))]
pub(crate) fn suffix_of(alloc: Global, folder: &FolderName) -> Result<Bytes, AllocError>
    ensures text { IfOk result (λ b. b ≡ suffix folder.now) }
    ensures clean { IfOk result (λ b. list_all is_name_byte b ≡ true) }
{
    let mut text = Bytes::from_slice(alloc, b"-")?;
    for byte in folder.text().as_str().as_bytes() {
        push_escaped(&mut text, *byte)?;
    }
    Ok(text)
}
