// Texts as they are printed.
ghost use Rattle.std.specs.Prelude.{◌≡◌, OnOk};
ghost use Rattle.mail_text.specs.Stripping.{stripped};
ghost use Rattle.line_rows.specs.Columns.{with_more};
ghost use Rattle.line_rows.specs.Fields.{field as field_of, printed_text};

use crate::Row;
use format_compiler::Width;
use mh_base::Text;
use std::alloc::{AllocError, Global};

/// Prints the longest front of a text on one line that fits into so many columns, and spaces behind it.
fn put_field(alloc: Global, row: &mut Row, columns: u16, text: &Text) -> Result<(), AllocError>
    ensures { OnOk result (row.new ≡ with_more row.old (field_of columns (stripped text.now))) }
{
    let mut field = Row::new(alloc, u32::from(columns));
    field.put_stripped(text)?;
    row.put_text(field.text())?;
    row.fill(field.unfilled() as usize, ' ')
}

/// Prints a text on one line, in a field of its width where it has one.
pub fn put_printed(
    alloc: Global,
    row: &mut Row,
    width: Option<Width>,
    text: &Text,
) -> Result<(), AllocError>
    ensures { OnOk result (row.new ≡ with_more row.old (printed_text width text.now)) }
{
    match width {
        None => row.put_stripped(text),
        Some(width) => put_field(alloc, row, width.columns, text),
    }
}
