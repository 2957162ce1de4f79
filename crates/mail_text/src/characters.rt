// Text and its characters.
ghost use Rattle.std.specs.Prelude.{◌≡◌, ◌≤◌, ◌==◌, ◌++◌, length, IfOk, OnOk};
ghost use Rattle.std.specs.List.{prefix_len};
ghost use Rattle.std.specs.Str.{chars};
ghost use Rattle.mh_base.specs.Characters.{is_blank as is_a_blank};

use mh_base::Text;
use std::alloc::{AllocError, Global};

/// The characters of a string.
fn characters_of(alloc: Global, text: &str) -> Result<Vec<char>, AllocError>
    ensures { IfOk result (λ c. c.items ≡ chars text.now) }
{
    text.chars().collect(alloc)
}

/// The characters of a text.
pub(crate) fn characters(alloc: Global, text: &Text) -> Result<Vec<char>, AllocError>
    ensures { IfOk result (λ c. c.items ≡ text.now) }
{
    characters_of(alloc, text.as_str())
}

/// Adds characters to a text.
pub(crate) fn put(text: &mut Text, characters: &[char]) -> Result<(), AllocError>
    ensures { OnOk result (text.new ≡ text.old ++ characters.now) }
{
    for c in characters {
        text.push(*c)?;
    }
    Ok(())
}

/// The text of these characters.
pub(crate) fn text_of(alloc: Global, characters: &[char]) -> Result<Text, AllocError>
    ensures { IfOk result (λ text. text ≡ characters.now) }
{
    let mut text = Text::new(alloc);
    put(&mut text, characters)?;
    Ok(text)
}

pub(crate) fn is_empty(text: &Text) -> bool
    ensures { result ≡ (length text.now == 0) }
{
    text.as_str().is_empty()
}

pub(crate) fn is_blank(c: char) -> bool
    ensures { result ≡ is_a_blank c }
{
    c == ' ' || c == '\t'
}

/// How many blanks stand at the front.
pub(crate) fn blank_len(text: &[char]) -> usize
    ensures value { result ≡ prefix_len is_a_blank text.now }
    ensures inside { result ≤ length text.now }
{
    text.iter().take_while(|c| is_blank(**c)).count()
}
