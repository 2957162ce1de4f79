// Texts and their characters.
ghost use Rattle.std.specs.Prelude.{◌≡◌, ◌==◌, ◌++◌, length, IfOk, OnOk};
ghost use Rattle.std.specs.Str.{chars};

use mh_base::Text;
use std::alloc::{AllocError, Global};

fn characters_of(alloc: Global, text: &str) -> Result<Vec<char>, AllocError>
    ensures { IfOk result (λ c. c.items ≡ chars text.now) }
{
    text.chars().collect(alloc)
}

pub(crate) fn characters(alloc: Global, text: &Text) -> Result<Vec<char>, AllocError>
    ensures { IfOk result (λ c. c.items ≡ text.now) }
{
    characters_of(alloc, text.as_str())
}

/// Adds characters to a text.
pub(crate) fn put(text: &mut Text, characters: &[char]) -> Result<(), AllocError>
    ensures { OnOk result (text.new ≡ text.old ++ characters.now) }
{
    for c in characters {
        text.push(*c)?;
    }
    Ok(())
}

/// Adds bytes to a text, each as the character of its number.
pub(crate) fn put_bytes(text: &mut Text, bytes: &[u8]) -> Result<(), AllocError>
    ensures { OnOk result (text.new ≡ text.old ++ bytes.now) }
{
    for byte in bytes {
        text.push(char::from(*byte))?;
    }
    Ok(())
}

pub(crate) fn text_of(alloc: Global, characters: &[char]) -> Result<Text, AllocError>
    ensures { IfOk result (λ text. text ≡ characters.now) }
{
    let mut text = Text::new(alloc);
    put(&mut text, characters)?;
    Ok(text)
}

pub(crate) fn text_of_bytes(alloc: Global, bytes: &[u8]) -> Result<Text, AllocError>
    ensures { IfOk result (λ text. text ≡ bytes.now) }
{
    let mut text = Text::new(alloc);
    put_bytes(&mut text, bytes)?;
    Ok(text)
}

pub(crate) fn is_empty(text: &Text) -> bool
    ensures { result ≡ (length text.now == 0) }
{
    text.as_str().is_empty()
}
