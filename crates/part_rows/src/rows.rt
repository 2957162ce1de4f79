// The rows of parts, and the line above them.
ghost use Rattle.std.specs.Prelude.{◌≡◌, ◌++◌, ◌∷◌, IfOk, decimal};
ghost use Rattle.part_rows.specs.PartViews.{view_of};
ghost use Rattle.part_rows.specs.PathTexts.{path_text as text_of_path};
ghost use Rattle.part_rows.specs.Rows.{columns_of_part, header};

use crate::columns::{Columns, line};
use crate::descriptions::last_column;
use crate::paths::path_text;
use crate::texts::{put_bytes, put_text};
use itoa::Buffer;
use mh_base::{Bytes, Duplicate, MsgNum, Text};
use mime_tree::{Part, PartPath};
use std::alloc::{AllocError, Global};

/// The line above the rows.
pub fn header_line(alloc: Global) -> Result<Bytes, AllocError>
    ensures { IfOk result (λ line. line ≡ header) }
{
    let columns = Columns {
        number: Text::from_str(alloc, "msg")?,
        path: Text::from_str(alloc, "part")?,
        content_type: Text::from_str(alloc, "type/subtype")?,
        size: Text::from_str(alloc, "size")?,
        last: Text::from_str(alloc, "description")?,
    };
    line(alloc, &columns)
}

fn number_text(alloc: Global, number: u64) -> Result<Text, AllocError>
    ensures { IfOk result (λ text. text ≡ decimal number) }
{
    let mut text = Text::new(alloc);
    let mut buffer = Buffer::new();
    put_bytes(&mut text, buffer.format(number).as_bytes())?;
    Ok(text)
}

/// The path of a part as a word.
pub fn shown_path(alloc: Global, path: &PartPath) -> Result<Text, AllocError>
    ensures { IfOk result (λ text. text ≡ text_of_path path.now) }
{
    let mut text = Text::new(alloc);
    put_bytes(&mut text, path_text(alloc, path)?.as_slice())?;
    Ok(text)
}

/// A type and its subtype, with a slash between them.
fn type_text(alloc: Global, kind: &Text, subtype: &Text) -> Result<Text, AllocError>
    ensures { IfOk result (λ text. text ≡ kind.now ++ 47 ∷ subtype.now) }
{
    let mut text = kind.duplicate(alloc)?;
    text.push('/')?;
    put_text(&mut text, subtype.as_str())?;
    Ok(text)
}

/// What stands in the columns of the row of a part of these bytes, whose content has this size.
pub(crate) fn part_columns(
    alloc: Global,
    number: MsgNum,
    bytes: &[u8],
    part: &Part,
    size: usize,
) -> Result<Columns, AllocError>
    ensures { IfOk result
        (λ c. c ≡ record (columns_of_part number (view_of bytes.now part.now)) { size = decimal size }) }
{
    Ok(Columns {
        number: number_text(alloc, u64::from(number.get()))?,
        path: shown_path(alloc, &part.path)?,
        content_type: type_text(alloc, &part.kind, &part.subtype)?,
        size: number_text(alloc, size as u64)?,
        last: last_column(alloc, bytes, part)?,
    })
}
