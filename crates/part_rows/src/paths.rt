// Paths of parts as texts.
ghost use Rattle.std.specs.Prelude.{◌≡◌, ◌<◌, ◌^◌, ◌++◌, OnOk, IfOk, decimal};
ghost use Rattle.std.specs.List.{All};
ghost use Rattle.part_rows.specs.PathTexts.{dotted, path_text as text_of_path};

use itoa::Buffer;
use mh_base::Bytes;
use mime_tree::PartPath;
use std::alloc::{AllocError, Global};

/// Adds a number in decimal.
pub(crate) fn put_number(text: &mut Bytes, number: u64) -> Result<(), AllocError>
    ensures { OnOk result (text.new ≡ text.old ++ decimal number) }
{
    let mut buffer = Buffer::new();
    text.extend(buffer.format(number).as_bytes())
}

/// Adds numbers, each with a dot before it.
pub(crate) fn put_dotted(text: &mut Bytes, numbers: &[u64]) -> Result<(), AllocError>
    ensures value { OnOk result (text.new ≡ text.old ++ dotted numbers.now) }
    ensures fit { All (λ n. n < 2 ^ 64) numbers.now }
{
    for number in numbers {
        text.extend(b".")?;
        put_number(text, *number)?;
    }
    Ok(())
}

/// Adds a path, or a dash for the root's.
pub(crate) fn put_path(text: &mut Bytes, path: &PartPath) -> Result<(), AllocError>
    ensures { OnOk result (text.new ≡ text.old ++ text_of_path path.now) }
{
    match path.numbers().as_slice().split_first() {
        None => text.extend(b"-"),
        Some((first, rest)) => {
            put_number(text, *first)?;
            put_dotted(text, rest)
        }
    }
}

pub(crate) fn path_text(alloc: Global, path: &PartPath) -> Result<Bytes, AllocError>
    ensures { IfOk result (λ text. text ≡ text_of_path path.now) }
{
    let mut text = Bytes::new(alloc);
    put_path(&mut text, path)?;
    Ok(text)
}
