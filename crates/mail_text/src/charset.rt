// Charsets.
ghost use Rattle.std.specs.Prelude.{◌≡◌, ◌++◌, map, bytes_eq, OnOk};
ghost use Rattle.std.specs.Char.{to_ascii_uppercase};
ghost use Rattle.mail_text.specs.Charsets.{ascii_character as ascii_character_of, characters_by};
ghost use Rattle.mail_text.specs.ShownBytes.{shown};
ghost use Rattle.mail_text.specs.EncodedWords.{charset_named};

use crate::characters::{characters, put};
use crate::show_bytes;
use mh_base::Text;
use std::alloc::{AllocError, Global};

/// The charsets of encoded words.
#[derive(Clone, Copy, Drop)]
pub(crate) enum Charset {
    UsAscii,
    Utf8,
    Latin1,
}

/// Whether a name is this one, in either case.
fn is_name(name: &[char], capitals: &[u8]) -> bool
    ensures { result ≡ bytes_eq (map to_ascii_uppercase name.now) capitals.now }
{
    match (name.split_first(), capitals.split_first()) {
        (Some((c, name)), Some((capital, capitals))) => {
            c.to_ascii_uppercase() == *capital as char && is_name(name, capitals)
        }
        (None, None) => true,
        _ => false,
    }
}

/// A byte of US-ASCII, or a question mark above 127.
fn ascii_character(byte: u8) -> char
    ensures { result ≡ ascii_character_of byte }
{
    if byte < 128 { byte as char } else { '?' }
}

fn put_ascii(text: &mut Text, bytes: &[u8]) -> Result<(), AllocError>
    ensures { OnOk result (text.new ≡ text.old ++ map ascii_character_of bytes.now) }
{
    for byte in bytes {
        text.push(ascii_character(*byte))?;
    }
    Ok(())
}

fn put_latin1(text: &mut Text, bytes: &[u8]) -> Result<(), AllocError>
    ensures { OnOk result (text.new ≡ text.old ++ bytes.now) }
{
    for byte in bytes {
        text.push(*byte as char)?;
    }
    Ok(())
}

fn put_utf8(alloc: Global, text: &mut Text, bytes: &[u8]) -> Result<(), AllocError>
    ensures { OnOk result (text.new ≡ text.old ++ shown bytes.now) }
{
    let shown = show_bytes(alloc, bytes)?;
    let shown = characters(alloc, &shown)?;
    put(text, shown.as_slice())
}

impl Charset {
    /// The charset of this name, in either case.
    pub(crate) fn named(name: &[char]) -> Option<Charset>
        ensures { result ≡ charset_named name.now }
    {
        if is_name(name, b"UTF-8") {
            Some(Charset::Utf8)
        } else if is_name(name, b"ISO-8859-1") {
            Some(Charset::Latin1)
        } else if is_name(name, b"US-ASCII") {
            Some(Charset::UsAscii)
        } else {
            None
        }
    }

    /// Adds the characters of bytes.
    pub(crate) fn put(self, alloc: Global, text: &mut Text, bytes: &[u8]) -> Result<(), AllocError>
        ensures { OnOk result (text.new ≡ text.old ++ characters_by self bytes.now) }
    {
        match self {
            Charset::UsAscii => put_ascii(text, bytes),
            Charset::Utf8 => put_utf8(alloc, text, bytes),
            Charset::Latin1 => put_latin1(text, bytes),
        }
    }
}
