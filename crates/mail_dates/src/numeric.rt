// Dates in digits.
ghost use Rattle.std.specs.Prelude.{◌≡◌, ◌<◌, length, IfSome};
ghost use Rattle.jiff.specs.Words.{IsWithin};
ghost use Rattle.mail_dates.specs.Clocks.{IsMailDate};
ghost use Rattle.mail_dates.specs.Numbers.{IsYear, decimal as decimal_of};
ghost use Rattle.mail_dates.specs.Picking.{long_year as long_year_of, numeric_date as numeric_date_of};

use crate::MailDate;
use crate::mail_date::dated_if;
use crate::names::month;
use crate::numbers::{decimal, year_by};
use crate::time::Time;

pub(crate) fn long_year(word: &[u8]) -> Option<u16>
    ensures value { result ≡ long_year_of word.now }
    ensures range { IfSome result IsYear }
{
    if word.len() == 4 {
        year_by(4, decimal(word)?)
    } else {
        None
    }
}

fn two_digits(word: &[u8]) -> Option<u8>
    requires { length word.now ≡ 2 }
    ensures value { result ≡ decimal_of word.now }
    ensures small { IfSome result (λ n. n < 100) }
{
    match decimal(word) {
        Some(number) => Some(number as u8),
        None => None,
    }
}

/// The date of a text yyyy-mm-dd.
pub(crate) fn numeric_date(text: &[u8], offset: i16) -> Option<MailDate>
    requires { IsWithin 1439 offset }
    ensures value { result ≡ numeric_date_of text.now offset }
    ensures valid { IfSome result IsMailDate }
{
    if text.len() == 10 && text[4] == b'-' && text[7] == b'-' {
        let year = long_year(&text[..4]);
        let month = two_digits(&text[5..7]);
        let day = two_digits(&text[8..]);
        dated_if(year, month, day, Some(Time::MIDNIGHT), offset)
    } else {
        None
    }
}
