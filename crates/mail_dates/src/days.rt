// Days and their numbers, counted from 1970-01-01.
ghost use Rattle.std.specs.Prelude.{◌≡◌, pos, negsuc};
ghost use Rattle.jiff.specs.Words.{epoch_day, IsBetween};

use jiff::ToSpan;
use jiff::civil::Date;

/// 1970-01-01.
fn epoch() -> Date
    ensures { epoch_day result ≡ pos 0 }
{
    let Ok(date) = Date::new(1970, 1, 1) else {
        unreachable!();
    };
    date
}

/// The day of this number.
pub(crate) fn date_of(day: i64) -> Date
    requires { IsBetween (negsuc 0) (pos 2932895) day }
    ensures { epoch_day result ≡ day }
{
    let Ok(date) = epoch().checked_add(day.days()) else {
        unreachable!();
    };
    date
}

/// The number of a day.
pub(crate) fn number_of(date: Date) -> i64
    ensures { result ≡ epoch_day date }
{
    epoch().duration_until(date).as_hours() / 24
}
