// How many columns characters take.
ghost use Rattle.std.specs.Prelude.{◌≡◌, ◌≤◌};
ghost use Rattle.line_rows.specs.Columns.{columns_in};

use unicode_width::UnicodeWidthChar;

/// A character's columns: a control character takes one.
pub(crate) fn columns(c: char) -> u32
    ensures value { result ≡ columns_in c }
    ensures small { result ≤ 3 }
{
    match c.width() {
        Some(columns) => columns as u32,
        None => 1,
    }
}
