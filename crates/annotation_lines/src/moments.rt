// The civil parts of a moment, as a function of it.
ghost use Rattle.std.specs.Prelude.{◌≡◌};
ghost use Rattle.mail_dates.specs.Clocks.{IsMailDate, IsSetting};
ghost use Rattle.annotation_lines.specs.Moments.{date_at};

use mail_dates::MailDate;

/// The parts of a moment, in seconds from 1970-01-01 00:00:00 UTC, on a clock that is so many minutes ahead of UTC.
pub fn moment_date(moment: i64, offset_minutes: i32) -> MailDate
    requires { IsSetting moment offset_minutes }
    ensures value { result ≡ date_at moment offset_minutes }
    ensures valid { IsMailDate result }
{
    MailDate::at(moment, offset_minutes)
}
