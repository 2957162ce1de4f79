// Rows and their columns.
ghost use Rattle.std.specs.Prelude.{◌≡◌, ◌≤◌, ◌==◌, ◌++◌, length, replicate, IfOk, OnOk};
ghost use Rattle.std.specs.List.{suffix_len};
ghost use Rattle.std.specs.Str.{encode_utf8_all};
ghost use Rattle.line_rows.specs.Fields.{field};
ghost use Rattle.part_rows.specs.Rows.{line_of, right, row_of, without_spaces_behind as cut_behind};

use crate::texts::char_count;
use line_rows::Row;
use mh_base::{Bytes, Text};
use std::alloc::{AllocError, Global};

/// What stands in the columns of a row.
#[derive(Drop)]
pub(crate) struct Columns {
    pub(crate) number: Text,
    pub(crate) path: Text,
    pub(crate) content_type: Text,
    pub(crate) size: Text,
    pub(crate) last: Text,
}

fn put_spaces(line: &mut Bytes, count: usize) -> Result<(), AllocError>
    ensures { OnOk result (line.new ≡ line.old ++ replicate count 32) }
{
    for _ in 0..count {
        line.extend(b" ")?;
    }
    Ok(())
}

/// Adds a text with spaces before it in so many columns; a longer one stands whole.
fn put_right(line: &mut Bytes, columns: usize, text: &Text) -> Result<(), AllocError>
    ensures { OnOk result (line.new ≡ line.old ++ encode_utf8_all (right columns text.now)) }
{
    put_spaces(line, columns.saturating_sub(char_count(text)))?;
    line.extend(text.as_str().as_bytes())
}

/// Adds the longest front of a text that fits into so many columns, and spaces behind it.
fn put_left(alloc: Global, line: &mut Bytes, columns: u32, text: &Text) -> Result<(), AllocError>
    ensures { OnOk result (line.new ≡ line.old ++ encode_utf8_all (field columns text.now)) }
{
    let mut row = Row::new(alloc, columns);
    row.put_text(text)?;
    line.extend(row.text().as_str().as_bytes())?;
    put_spaces(line, row.unfilled() as usize)
}

/// A row in UTF-8.
fn row(alloc: Global, columns: &Columns) -> Result<Bytes, AllocError>
    ensures { IfOk result (λ row. row ≡ encode_utf8_all (row_of columns.now)) }
{
    let mut row = Bytes::new(alloc);
    put_right(&mut row, 4, &columns.number)?;
    row.extend(b" ")?;
    put_left(alloc, &mut row, 7, &columns.path)?;
    row.extend(b" ")?;
    put_left(alloc, &mut row, 24, &columns.content_type)?;
    row.extend(b" ")?;
    put_right(&mut row, 8, &columns.size)?;
    row.extend(b" ")?;
    row.extend(columns.last.as_str().as_bytes())?;
    Ok(row)
}

/// How many spaces stand at a text's end.
fn spaces_behind(text: &[u8]) -> usize
    ensures value { result ≡ suffix_len (λ c. c == 32) text.now }
    ensures inside { result ≤ length text.now }
{
    text.iter().rev().take_while(|byte| **byte == b' ').count()
}

fn without_spaces_behind(text: &[u8]) -> &[u8]
    ensures { result.now ≡ cut_behind text.now }
{
    let (front, _) = text.split_at(text.len() - spaces_behind(text));
    front
}

/// A row as it is written, with its line feed.
pub(crate) fn line(alloc: Global, columns: &Columns) -> Result<Bytes, AllocError>
    ensures { IfOk result (λ line. line ≡ line_of columns.now) }
{
    let row = row(alloc, columns)?;
    let mut line = Bytes::from_slice(alloc, without_spaces_behind(row.as_slice()))?;
    line.extend(b"\n")?;
    Ok(line)
}
