// Bytes as a reader sees them.
ghost use Rattle.std.specs.Prelude.{◌≡◌, ◌++◌, IfOk, OnOk};
ghost use Rattle.std.specs.Str.{chars, IsUtf8};
ghost use Rattle.mail_text.specs.ShownBytes.{shown};
ghost use Rattle.mail_text.specs.ShownPieces.{IsShownAs, AsNoOther};

use mh_base::Text;
use std::alloc::{AllocError, Global};
use std::str::from_utf8;

/// Adds the characters of bytes that are UTF-8.
fn put_valid(text: &mut Text, bytes: &[u8]) -> Result<(), AllocError>
    requires { IsUtf8 bytes.now }
    ensures { OnOk result (text.new ≡ text.old ++ chars bytes.now) }
{
    let Ok(more) = from_utf8(bytes) else {
        unreachable!();
    };
    for c in more.chars() {
        text.push(c)?;
    }
    Ok(())
}

/// The characters of bytes of which some are part of none.
fn show_broken(alloc: Global, bytes: &[u8]) -> Result<Text, AllocError>
    ensures { IfOk result (λ text. text ≡ shown bytes.now) }
{
    let mut text = Text::new(alloc);
    let mut rest = bytes;
    while let Err(fault) = from_utf8(rest) {
        let (valid, behind) = rest.split_at(fault.valid_up_to());
        put_valid(&mut text, valid)?;
        text.push('?')?;
        (_, rest) = behind.split_at(1);
    }
    put_valid(&mut text, rest)?;
    Ok(text)
}

fn show(alloc: Global, bytes: &[u8]) -> Result<Text, AllocError>
    ensures { IfOk result (λ text. text ≡ shown bytes.now) }
{
    match from_utf8(bytes) {
        Ok(text) => Text::from_str(alloc, text),
        Err(_) => show_broken(alloc, bytes),
    }
}

/// The characters of UTF-8 (RFC 3629, section 4). Each byte that is part of no character, looked at from the left, is a
/// question mark.
pub fn show_bytes(alloc: Global, bytes: &[u8]) -> Result<Text, AllocError>
    ensures pieces { IfOk result (λ text. IsShownAs bytes.now text) }
    ensures alone { IfOk result (λ text. AsNoOther bytes.now text) }
    ensures value { IfOk result (λ text. text ≡ shown bytes.now) }
{
    let text = show(alloc, bytes)?;
    Ok(text)
}
