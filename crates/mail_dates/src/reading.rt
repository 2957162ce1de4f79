// The date of a header's field.
ghost use Rattle.std.specs.Prelude.{◌≡◌, ◌<◌, drop, IfSome};
ghost use Rattle.jiff.specs.Words.{IsWithin};
ghost use Rattle.mail_dates.specs.Clocks.{IsMailDate};
ghost use Rattle.mail_dates.specs.Left.{left};
ghost use Rattle.mail_dates.specs.Names.{month_in};
ghost use Rattle.mail_dates.specs.Numbers.{short_number as day_in, year_in, time_in, IsTime, IsYear};
ghost use Rattle.mail_dates.specs.Reading.{behind_weekday, date_in, first_by, or_utc, zone_in};
ghost use Rattle.mail_dates.specs.Words.{is_separator};
ghost use Rattle.mail_dates.specs.WordView.{TakesWord};
ghost use Rattle.mail_dates.specs.declared.names.Case.TheVariants.{AsWritten};
ghost use Rattle.mh_base.specs.Characters.{words};

use crate::MailDate;
use crate::mail_date::dated_if;
use crate::names::{Case, month};
use crate::numbers::{short_number, year};
use crate::outside::Outside;
use crate::time::Time;
use crate::word::{Word, next_word};
use crate::zones::zone;

/// The first word behind a weekday.
fn first_word(text: &mut Outside) -> Option<Word>
    ensures { TakesWord (behind_weekday (words is_separator (left text.old))) result
        (words is_separator (left text.new)) }
{
    let word = next_word(text)?;
    if word.is_weekday() {
        next_word(text)
    } else {
        Some(word)
    }
}

fn first_day(text: &mut Outside) -> Option<u8>
    ensures value { result ≡ first_by day_in (behind_weekday (words is_separator (left text.old))) }
    ensures small { IfSome result (λ n. n < 100) }
    ensures rest { words is_separator (left text.new) ≡ drop 1 (behind_weekday (words is_separator (left text.old))) }
{
    match first_word(text) {
        Some(word) => short_number(word.front()),
        None => None,
    }
}

fn next_month(text: &mut Outside) -> Option<u8>
    ensures value { result ≡ first_by (month_in AsWritten) (words is_separator (left text.old)) }
    ensures small { IfSome result (λ n. n < 100) }
    ensures rest { words is_separator (left text.new) ≡ drop 1 (words is_separator (left text.old)) }
{
    match next_word(text) {
        Some(word) => month(Case::AsWritten, word.front()),
        None => None,
    }
}

fn next_year(text: &mut Outside) -> Option<u16>
    ensures value { result ≡ first_by year_in (words is_separator (left text.old)) }
    ensures range { IfSome result IsYear }
    ensures rest { words is_separator (left text.new) ≡ drop 1 (words is_separator (left text.old)) }
{
    match next_word(text) {
        Some(word) => year(word.front()),
        None => None,
    }
}

fn next_time(text: &mut Outside) -> Option<Time>
    ensures value { result ≡ first_by time_in (words is_separator (left text.old)) }
    ensures valid { IfSome result IsTime }
    ensures rest { words is_separator (left text.new) ≡ drop 1 (words is_separator (left text.old)) }
{
    match next_word(text) {
        Some(word) => Time::read(word.front()),
        None => None,
    }
}

fn next_zone(text: &mut Outside) -> Option<i16>
    ensures value { result ≡ first_by zone_in (words is_separator (left text.old)) }
    ensures small { IfSome result (IsWithin 1439) }
{
    match next_word(text) {
        Some(word) => zone(word.front()),
        None => None,
    }
}

fn next_offset(text: &mut Outside) -> i16
    ensures value { result ≡ or_utc (first_by zone_in (words is_separator (left text.old))) }
    ensures small { IsWithin 1439 result }
{
    match next_zone(text) {
        Some(minutes) => minutes,
        None => 0,
    }
}

impl MailDate {
    /// Reads the date of a header's field (RFC 5322, section 3.3), with the years of two and three digits and the names
    /// of zones of older mail (section 4.3). The value is unfolded: a line end in it is a byte of its word.
    pub fn read(bytes: &[u8]) -> Option<MailDate>
        ensures value { result ≡ date_in bytes.now }
        ensures valid { IfSome result IsMailDate }
    {
        let mut text = Outside::new(bytes);
        let day = first_day(&mut text);
        let month = next_month(&mut text);
        let year = next_year(&mut text);
        let time = next_time(&mut text);
        let offset = next_offset(&mut text);
        dated_if(year, month, day, time, offset)
    }
}
