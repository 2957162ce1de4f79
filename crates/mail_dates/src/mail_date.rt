// A date.
ghost use Rattle.std.specs.Prelude.{◌≡◌, ◌≤◌, ◌<◌, ◌/◌, MatchOption, IfSome, Some, None, pos, negsuc, ◌+ℤ◌, ◌-ℤ◌, ◌*ℤ◌, ◌≤ℤ◌};
ghost use Rattle.jiff.specs.Words.{epoch_day, IsBetween, IsWithin};
ghost use Rattle.mail_dates.specs.Clocks.{IsMailDate, IsSetting, clock_of, clock_at as clock_on, second_of, day_number, weekday_on};
ghost use Rattle.mail_dates.specs.Numbers.{IsTime, IsYear};
ghost use Rattle.mail_dates.specs.Reading.{dated as dated_by};

use crate::days::{date_of, number_of};
use crate::time::Time;
use jiff::civil::Date;

/// The civil parts of a moment, and by how many minutes its clock is ahead of UTC.
#[derive(Clone, Copy, Debug, PartialEq, Eq)]
pub struct MailDate {
    pub year: i16,
    pub month: i8,
    pub day: i8,
    pub hour: i8,
    pub minute: i8,
    pub second: i8,
    pub offset: i16,
}

/// The date of these parts, if the calendar has the day.
pub(crate) fn dated(year: u16, month: u8, day: u8, time: Time, offset: i16) -> Option<MailDate>
    requires since { 1900 ≤ year }
    requires until { year ≤ 9999 }
    requires month { month < 100 }
    requires day { day < 100 }
    requires time { IsTime time }
    requires offset { IsWithin 1439 offset }
    ensures value { result ≡ dated_by (Some year) (Some month) (Some day) (Some time) offset }
    ensures valid { IfSome result IsMailDate }
{
    let year = year as i16;
    let month = month as i8;
    let day = day as i8;
    if Date::new(year, month, day).is_err() {
        return None;
    }
    Some(MailDate {
        year,
        month,
        day,
        hour: time.hour as i8,
        minute: time.minute as i8,
        second: time.second as i8,
        offset,
    })
}

/// The seconds of a moment by its clock, with a day's more, which makes none of them negative.
pub(crate) fn shifted(now: i64, offset_minutes: i32) -> u64
    requires { IsSetting now offset_minutes }
    ensures value { pos result ≡ now +ℤ offset_minutes *ℤ pos 60 +ℤ pos 86400 }
    ensures bound { result < 253402200000 }
{
    (now + i64::from(offset_minutes) * 60 + 86_400) as u64
}

/// The number of the day of shifted seconds.
fn day_of(seconds: u64) -> i64
    requires { seconds < 253402200000 }
    ensures value { result ≡ pos (seconds / 86400) -ℤ pos 1 }
    ensures bound { IsBetween (negsuc 0) (pos 2932895) result }
{
    (seconds / 86_400) as i64 - 1
}

fn part(number: u64) -> i8
    requires { number < 100 }
    ensures { result ≡ pos number }
{
    number as i8
}

/// The parts of this second of a day.
fn placed(date: Date, second: u64, offset: i16) -> MailDate
    requires second { second < 86400 }
    requires offset { IsWithin 1439 offset }
    requires since { pos 1900 ≤ℤ date.year }
    ensures day { day_number result ≡ epoch_day date }
    ensures second { second_of result ≡ pos second }
    ensures offset { result.offset ≡ offset }
    ensures valid { IsMailDate result }
{
    MailDate {
        year: date.year(),
        month: date.month(),
        day: date.day(),
        hour: part(second / 3600),
        minute: part(second / 60 % 60),
        second: part(second % 60),
        offset,
    }
}

/// The date of these parts, if all are there.
pub(crate) fn dated_if(
    year: Option<u16>,
    month: Option<u8>,
    day: Option<u8>,
    time: Option<Time>,
    offset: i16,
) -> Option<MailDate>
    requires year { IfSome year IsYear }
    requires month { IfSome month (λ n. n < 100) }
    requires day { IfSome day (λ n. n < 100) }
    requires time { IfSome time IsTime }
    requires offset { IsWithin 1439 offset }
    ensures value { result ≡ dated_by year month day time offset }
    ensures valid { IfSome result IsMailDate }
{
    dated(year?, month?, day?, time?, offset)
}

/// The clock of this second of a day.
pub(crate) fn clock_at(day: i64, second: i64, offset: i16) -> i64
    requires day { IsWithin 100000000 day }
    requires second { IsBetween (pos 0) (pos 86399) second }
    requires offset { IsWithin 1439 offset }
    ensures { result ≡ clock_on day second offset }
{
    day * 86_400 + second - i64::from(offset) * 60
}

impl MailDate {
    /// The parts of a moment, in seconds from 1970-01-01 00:00:00 UTC, on a clock that is so many minutes ahead of UTC.
    pub fn at(now: i64, offset_minutes: i32) -> MailDate
        requires { IsSetting now offset_minutes }
        ensures clock { clock_of result ≡ now }
        ensures offset { result.offset ≡ offset_minutes }
        ensures valid { IsMailDate result }
    {
        let seconds = shifted(now, offset_minutes);
        placed(
            date_of(day_of(seconds)),
            seconds % 86_400,
            offset_minutes as i16,
        )
    }

    fn date(&self) -> Date
        requires { IsMailDate self.now }
        ensures { epoch_day result ≡ day_number self.now }
    {
        let Ok(date) = Date::new(self.year, self.month, self.day) else {
            unreachable!();
        };
        date
    }

    fn second_of_day(&self) -> i64
        requires { IsMailDate self.now }
        ensures value { result ≡ second_of self.now }
        ensures bound { IsBetween (pos 0) (pos 86399) result }
    {
        i64::from(self.hour) * 3600 + i64::from(self.minute) * 60 + i64::from(self.second)
    }

    /// Seconds from 1970-01-01 00:00:00 UTC.
    pub fn clock(&self) -> i64
        requires { IsMailDate self.now }
        ensures { result ≡ clock_of self.now }
    {
        let day = number_of(self.date());
        clock_at(day, self.second_of_day(), self.offset)
    }

    /// The day of the week, from 0 for Sunday.
    pub fn weekday(&self) -> u8
        requires { IsMailDate self.now }
        ensures { result ≡ weekday_on (day_number self.now) }
    {
        self.date().weekday().to_sunday_zero_offset() as u8
    }
}
