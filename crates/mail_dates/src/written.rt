// Dates in words.
ghost use Rattle.std.specs.Prelude.{◌≡◌, ◌<◌, drop, IfSome};
ghost use Rattle.jiff.specs.Words.{IsWithin};
ghost use Rattle.mail_dates.specs.Clocks.{IsMailDate};
ghost use Rattle.mail_dates.specs.Numbers.{IsTime, IsYear, short_number as day_in};
ghost use Rattle.mail_dates.specs.Picking.{long_year as long_year_of, with_offset as with_offset_of, clock_behind as clock_behind_of, clock_in as clock_in_of, dated_at as dated_at_of, written_date as written_date_of, IsClock};
ghost use Rattle.mail_dates.specs.Names.{month_in};
ghost use Rattle.mail_dates.specs.Reading.{first_by};
ghost use Rattle.mail_dates.specs.declared.names.Case.TheVariants.{Any};
ghost use Rattle.mh_base.specs.Characters.{is_blank as is_a_blank, words};

use crate::MailDate;
use crate::blanks::{is_trimmed, next_word};
use crate::mail_date::dated_if;
use crate::names::{Case, month};
use crate::numbers::short_number;
use crate::numeric::long_year;
use crate::time::Time;
use crate::zones::zone;

fn day_first(text: &[u8]) -> (Option<u8>, &[u8])
    ensures value { result.0 ≡ first_by day_in (words is_a_blank text.now) }
    ensures small { IfSome result.0 (λ n. n < 100) }
    ensures rest { words is_a_blank result.1.now ≡ drop 1 (words is_a_blank text.now) }
{
    match next_word(text) {
        Some((word, rest)) => (short_number(word), rest),
        None => (None, text),
    }
}

fn month_first(text: &[u8]) -> (Option<u8>, &[u8])
    ensures value { result.0 ≡ first_by (month_in Any) (words is_a_blank text.now) }
    ensures small { IfSome result.0 (λ n. n < 100) }
    ensures rest { words is_a_blank result.1.now ≡ drop 1 (words is_a_blank text.now) }
{
    match next_word(text) {
        Some((word, rest)) => (month(Case::Any, word), rest),
        None => (None, text),
    }
}

fn year_first(text: &[u8]) -> (Option<u16>, &[u8])
    ensures value { result.0 ≡ first_by long_year_of (words is_a_blank text.now) }
    ensures range { IfSome result.0 IsYear }
    ensures rest { words is_a_blank result.1.now ≡ drop 1 (words is_a_blank text.now) }
{
    match next_word(text) {
        Some((word, rest)) => (long_year(word), rest),
        None => (None, text),
    }
}

/// A time, and by how many minutes its clock is ahead of UTC.
#[derive(Clone, Copy)]
pub(crate) struct Clock {
    time: Time,
    offset: i16,
}

fn with_offset(time: Option<Time>, offset: Option<i16>) -> Option<Clock>
    requires time { IfSome time IsTime }
    requires offset { IfSome offset (IsWithin 1439) }
    ensures value { result ≡ with_offset_of time offset }
    ensures valid { IfSome result IsClock }
{
    Some(Clock {
        time: time?,
        offset: offset?,
    })
}

fn clock_behind(time: Option<Time>, offset: i16, text: &[u8]) -> Option<Clock>
    requires time { IfSome time IsTime }
    requires offset { IsWithin 1439 offset }
    ensures value { result ≡ clock_behind_of time offset (words is_a_blank text.now) }
    ensures valid { IfSome result IsClock }
{
    let Some((word, rest)) = next_word(text) else {
        return with_offset(time, Some(offset));
    };
    if next_word(rest).is_some() {
        None
    } else {
        with_offset(time, zone(word))
    }
}

fn clock_in(offset: i16, text: &[u8]) -> Option<Clock>
    requires { IsWithin 1439 offset }
    ensures value { result ≡ clock_in_of offset (words is_a_blank text.now) }
    ensures valid { IfSome result IsClock }
{
    match next_word(text) {
        Some((word, rest)) => clock_behind(Time::read(word), offset, rest),
        None => Some(Clock {
            time: Time::MIDNIGHT,
            offset,
        }),
    }
}

fn dated_at(
    year: Option<u16>,
    month: Option<u8>,
    day: Option<u8>,
    clock: Option<Clock>,
) -> Option<MailDate>
    requires year { IfSome year IsYear }
    requires month { IfSome month (λ n. n < 100) }
    requires day { IfSome day (λ n. n < 100) }
    requires clock { IfSome clock IsClock }
    ensures value { result ≡ dated_at_of year month day clock }
    ensures valid { IfSome result IsMailDate }
{
    let clock = clock?;
    dated_if(year, month, day, Some(clock.time), clock.offset)
}

/// The date of a text d mon yyyy, with a time and a zone behind it or without.
pub(crate) fn written_date(text: &[u8], offset: i16) -> Option<MailDate>
    requires { IsWithin 1439 offset }
    ensures value { result ≡ written_date_of text.now offset }
    ensures valid { IfSome result IsMailDate }
{
    if !is_trimmed(text) {
        return None;
    }
    let (day, rest) = day_first(text);
    let (month, rest) = month_first(rest);
    let (year, rest) = year_first(rest);
    dated_at(year, month, day, clock_in(offset, rest))
}
