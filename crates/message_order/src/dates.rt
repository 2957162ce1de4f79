// Dates of messages, one behind the other.
ghost use Rattle.std.specs.Prelude.{◌≡◌, IfOk};
ghost use Rattle.message_order.specs.Dates.{AreFilled, later as later_of};

use std::alloc::{AllocError, Global};

/// The second where there is one, else the first.
fn later(last: Option<i64>, date: Option<i64>) -> Option<i64>
    ensures { result ≡ later_of last date }
{
    match date {
        Some(_) => date,
        _ => last,
    }
}

/// The moments by which messages are put in order, in seconds from 1970-01-01 00:00:00 UTC: a message without a date
/// has that of the message before it.
pub fn filled_dates(alloc: Global, dates: &[Option<i64>]) -> Result<Vec<Option<i64>>, AllocError>
    ensures { IfOk result (λ keys. AreFilled dates.now keys.items) }
{
    let mut keys = Vec::new(alloc);
    let mut last = None;
    for date in dates {
        last = later(last, *date);
        keys.push(last)?;
    }
    Ok(keys)
}
