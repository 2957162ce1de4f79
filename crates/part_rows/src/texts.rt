// Texts that grow.
ghost use Rattle.std.specs.Prelude.{◌≡◌, ◌==◌, ◌++◌, length, OnOk};
ghost use Rattle.std.specs.Str.{chars};

use mh_base::Text;
use std::alloc::AllocError;

/// Adds bytes, each as the character of its number.
pub(crate) fn put_bytes(text: &mut Text, bytes: &[u8]) -> Result<(), AllocError>
    ensures { OnOk result (text.new ≡ text.old ++ bytes.now) }
{
    for byte in bytes {
        text.push(char::from(*byte))?;
    }
    Ok(())
}

pub(crate) fn put_text(text: &mut Text, more: &str) -> Result<(), AllocError>
    ensures { OnOk result (text.new ≡ text.old ++ chars more.now) }
{
    for c in more.chars() {
        text.push(c)?;
    }
    Ok(())
}

fn count_chars(text: &str) -> usize
    ensures { result ≡ length (chars text.now) }
{
    text.chars().count()
}

/// How many characters a text has.
pub(crate) fn char_count(text: &Text) -> usize
    ensures { result ≡ length text.now }
{
    count_chars(text.as_str())
}

pub(crate) fn is_empty(text: &Text) -> bool
    ensures { result ≡ (length text.now == 0) }
{
    text.as_str().is_empty()
}
