// Printed numbers.
ghost use Rattle.std.specs.Prelude.{◌≡◌, ◌≤◌, ◌<◌, ◌-◌, length, OnOk};
ghost use Rattle.std.specs.Fmt.{signed_decimal};
ghost use Rattle.line_rows.specs.Columns.{with_more};
ghost use Rattle.line_rows.specs.Decimals.{filled, last_of, printed_number, sign_len as sign_len_of};

use crate::row::Row;
use format_compiler::Width;
use itoa::Buffer;
use std::alloc::AllocError;

/// How many characters a number's sign takes.
fn sign_len(n: i64) -> usize
    ensures value { result ≡ sign_len_of n }
    ensures small { result ≤ 1 }
{
    if n < 0 { 1 } else { 0 }
}

fn put_filled(
    row: &mut Row,
    width: Width,
    missing: usize,
    n: i64,
    decimal: &[u8],
) -> Result<(), AllocError>
    requires { decimal.now ≡ signed_decimal n }
    ensures { OnOk result (row.new ≡ with_more row.old (filled width missing n)) }
{
    if width.zeros {
        let (sign, digits) = decimal.split_at(sign_len(n));
        row.put_bytes(sign)?;
        row.fill(missing, '0')?;
        row.put_bytes(digits)
    } else {
        row.fill(missing, ' ')?;
        row.put_bytes(decimal)
    }
}

/// A question mark, and the last characters behind it.
fn put_last(row: &mut Row, columns: usize, decimal: &[u8]) -> Result<(), AllocError>
    ensures { OnOk result (row.new ≡ with_more row.old (last_of columns decimal.now)) }
{
    let kept = columns.saturating_sub(1).min(decimal.len());
    let (_, last) = decimal.split_at(decimal.len() - kept);
    row.put('?')?;
    row.put_bytes(last)
}

fn put_decimal(
    row: &mut Row,
    width: Option<Width>,
    n: i64,
    decimal: &[u8],
) -> Result<(), AllocError>
    requires { decimal.now ≡ signed_decimal n }
    ensures { OnOk result (row.new ≡ with_more row.old (printed_number width n)) }
{
    let Some(width) = width else {
        return row.put_bytes(decimal);
    };
    let columns = usize::from(width.columns);
    if decimal.len() <= columns {
        put_filled(row, width, columns - decimal.len(), n, decimal)
    } else {
        put_last(row, columns, decimal)
    }
}

/// Prints a number.
pub fn put_number(row: &mut Row, width: Option<Width>, n: i64) -> Result<(), AllocError>
    ensures { OnOk result (row.new ≡ with_more row.old (printed_number width n)) }
{
    let mut buffer = Buffer::new();
    put_decimal(row, width, n, buffer.format(n).as_bytes())
}
