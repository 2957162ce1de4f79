// Days by their names.
ghost use Rattle.std.specs.Prelude.{◌≡◌, ◌<◌, ◌≤◌, pos, negsuc, IfSome};
ghost use Rattle.jiff.specs.Words.{IsBetween, IsWithin};
ghost use Rattle.mail_dates.specs.Clocks.{IsSetting, weekday_on};
ghost use Rattle.mail_dates.specs.Picking.{IsToday, days_back as back_of, minus_days as minus_days_of, day_named as day_named_of, weekday_before as weekday_before_of, days_before as days_before_of};

use crate::days::date_of;
use crate::mail_date::shifted;
use crate::names::{Case, same, weekday};
use crate::numbers::decimal;

fn days_back(today: u8, weekday: u8) -> u8
    requires today { today < 7 }
    requires weekday { weekday < 7 }
    ensures value { result ≡ back_of today weekday }
    ensures small { result ≤ 7 }
{
    (today + 6 - weekday) % 7 + 1
}

fn minus_days(text: &[u8]) -> Option<u16>
    ensures value { result ≡ minus_days_of text.now }
    ensures small { IfSome result (λ n. n < 10000) }
{
    let (sign, digits) = text.split_first()?;
    if *sign == b'-' && !digits.is_empty() && digits.len() <= 4 {
        decimal(digits)
    } else {
        None
    }
}

/// The day on which a moment falls, by a clock that is so many minutes ahead of UTC.
pub(crate) fn today(now: i64, offset_minutes: i32) -> i64
    requires { IsSetting now offset_minutes }
    ensures value { IsToday now offset_minutes result }
    ensures bound { IsBetween (negsuc 0) (pos 2932895) result }
{
    (shifted(now, offset_minutes) / 86_400) as i64 - 1
}

fn weekday_of(day: i64) -> u8
    requires { IsBetween (negsuc 0) (pos 2932895) day }
    ensures value { result ≡ weekday_on day }
    ensures small { result < 7 }
{
    date_of(day).weekday().to_sunday_zero_offset() as u8
}

fn weekday_before(today: i64, weekday: Option<u8>) -> Option<i64>
    requires today { IsBetween (negsuc 0) (pos 2932895) today }
    requires weekday { IfSome weekday (λ w. w < 7) }
    ensures value { result ≡ weekday_before_of today weekday }
    ensures small { IfSome result (IsWithin 100000000) }
{
    match weekday {
        Some(weekday) => Some(today - i64::from(days_back(weekday_of(today), weekday))),
        None => None,
    }
}

fn days_before(today: i64, days: Option<u16>) -> Option<i64>
    requires { IsBetween (negsuc 0) (pos 2932895) today }
    ensures value { result ≡ days_before_of today days }
    ensures small { IfSome result (IsWithin 100000000) }
{
    match days {
        Some(days) => Some(today - i64::from(days)),
        None => None,
    }
}

pub(crate) fn day_named(today: i64, text: &[u8]) -> Option<i64>
    requires { IsBetween (negsuc 0) (pos 2932895) today }
    ensures value { result ≡ day_named_of today text.now }
    ensures small { IfSome result (IsWithin 100000000) }
{
    if same(Case::Any, text, b"today") {
        Some(today)
    } else if same(Case::Any, text, b"yesterday") {
        Some(today - 1)
    } else if same(Case::Any, text, b"tomorrow") {
        Some(today + 1)
    } else {
        match days_before(today, minus_days(text)) {
            Some(day) => Some(day),
            None => weekday_before(today, weekday(text)),
        }
    }
}
