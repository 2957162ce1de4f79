// Dates by which messages are chosen.
ghost use Rattle.std.specs.Prelude.{◌≡◌, pos, negsuc, IfSome, MatchResult, Some, None};
ghost use Rattle.std.specs.Str.{encode_utf8_all};
ghost use Rattle.jiff.specs.Words.{IsBetween, IsWithin};
ghost use Rattle.mail_dates.specs.Clocks.{IsSetting};
ghost use Rattle.mail_dates.specs.Picking.{midnight_of as midnight_of_day, picked as picked_by, PicksDate};

use crate::BadDate;
use crate::mail_date::clock_at;
use crate::named_days::{day_named, today};
use crate::numeric::numeric_date;
use crate::written::written_date;
use mh_base::Text;

fn midnight_of(day: Option<i64>, offset: i16) -> Option<i64>
    requires day { IfSome day (IsWithin 100000000) }
    requires offset { IsWithin 1439 offset }
    ensures { result ≡ midnight_of_day day offset }
{
    match day {
        Some(day) => Some(clock_at(day, 0, offset)),
        None => None,
    }
}

fn picked(today: i64, offset: i16, text: &[u8]) -> Option<i64>
    requires today { IsBetween (negsuc 0) (pos 2932895) today }
    requires offset { IsWithin 1439 offset }
    ensures { result ≡ picked_by today offset text.now }
{
    if let Some(date) = numeric_date(text, offset) {
        return Some(date.clock());
    }
    match written_date(text, offset) {
        Some(date) => Some(date.clock()),
        None => midnight_of(day_named(today, text), offset),
    }
}

/// The clock of the moment that a text names, seen from a moment on a clock that is so many minutes ahead of UTC.
pub fn pick_date(text: &Text, now: i64, offset_minutes: i32) -> Result<i64, BadDate>
    requires { IsSetting now offset_minutes }
    ensures { MatchResult result (λ clock. PicksDate now offset_minutes (encode_utf8_all text.now) (Some clock))
        (λ _. PicksDate now offset_minutes (encode_utf8_all text.now) None) }
{
    let bytes = text.as_str().as_bytes();
    match picked(today(now, offset_minutes), offset_minutes as i16, bytes) {
        Some(clock) => Ok(clock),
        None => Err(BadDate),
    }
}
