// The parts of dates.
ghost use Rattle.std.specs.Prelude.{◌≡◌, ◌∷◌, ◌++◌, [], ◌<◌, ◌-ℤ◌, pos, unsigned_abs, is_none, IfOk, IfSome};
ghost use Rattle.mail_dates.specs.Clocks.{IsMailDate, clock_of};
ghost use Rattle.mail_dates.specs.Shown.{month_name as month_letters_of, sign_of, two as two_digits, tws_of, weekday_name as weekday_letters_of, zone_text};
ghost use Rattle.format_run.specs.Dates.{date_number, date_text, long_month_name, long_weekday_name, month_of, weekday_of};
ghost use Rattle.format_run.specs.Numbers.{held, truth as truth_of};

use crate::characters::text_of_bytes;
use crate::names::{month_name, short_month_name, short_weekday_name, weekday_name};
use crate::numbers::truth;
use mail_dates::MailDate;
use mh_base::Text;
use std::alloc::{AllocError, Global};

pub(crate) fn second(date: Option<MailDate>) -> i64
    ensures { result ≡ date_number (λ d. d.second) date }
{
    match date {
        Some(date) => i64::from(date.second),
        None => 0,
    }
}

pub(crate) fn minute(date: Option<MailDate>) -> i64
    ensures { result ≡ date_number (λ d. d.minute) date }
{
    match date {
        Some(date) => i64::from(date.minute),
        None => 0,
    }
}

pub(crate) fn hour(date: Option<MailDate>) -> i64
    ensures { result ≡ date_number (λ d. d.hour) date }
{
    match date {
        Some(date) => i64::from(date.hour),
        None => 0,
    }
}

pub(crate) fn day(date: Option<MailDate>) -> i64
    ensures { result ≡ date_number (λ d. d.day) date }
{
    match date {
        Some(date) => i64::from(date.day),
        None => 0,
    }
}

pub(crate) fn month(date: Option<MailDate>) -> i64
    ensures { result ≡ date_number (λ d. d.month) date }
{
    match date {
        Some(date) => i64::from(date.month),
        None => 0,
    }
}

pub(crate) fn year(date: Option<MailDate>) -> i64
    ensures { result ≡ date_number (λ d. d.year) date }
{
    match date {
        Some(date) => i64::from(date.year),
        None => 0,
    }
}

pub(crate) fn weekday(date: Option<MailDate>) -> i64
    requires { IfSome date IsMailDate }
    ensures { result ≡ date_number (λ d. pos (weekday_of d)) date }
{
    match date {
        Some(date) => i64::from(date.weekday()),
        None => 0,
    }
}

pub(crate) fn clock(date: Option<MailDate>) -> i64
    requires { IfSome date IsMailDate }
    ensures { result ≡ date_number clock_of date }
{
    match date {
        Some(date) => date.clock(),
        None => 0,
    }
}

/// How long before this moment the date is.
pub(crate) fn age(date: Option<MailDate>, now: i64) -> i64
    requires { IfSome date IsMailDate }
    ensures { result ≡ date_number (λ d. held (now -ℤ clock_of d)) date }
{
    match date {
        Some(date) => now.saturating_sub(date.clock()),
        None => 0,
    }
}

pub(crate) fn unreadable(date: Option<MailDate>) -> i64
    ensures { result ≡ truth_of (is_none date) }
{
    truth(date.is_none())
}

pub(crate) fn short_weekday_text(alloc: Global, date: Option<MailDate>) -> Result<Text, AllocError>
    requires { IfSome date IsMailDate }
    ensures { IfOk result (λ text. text ≡ date_text (λ d. weekday_letters_of (weekday_of d)) date) }
{
    match date {
        Some(date) => text_of_bytes(alloc, short_weekday_name(date.weekday())),
        None => Ok(Text::new(alloc)),
    }
}

pub(crate) fn weekday_text(alloc: Global, date: Option<MailDate>) -> Result<Text, AllocError>
    requires { IfSome date IsMailDate }
    ensures { IfOk result (λ text. text ≡ date_text (λ d. long_weekday_name (weekday_of d)) date) }
{
    match date {
        Some(date) => text_of_bytes(alloc, weekday_name(date.weekday())),
        None => Ok(Text::new(alloc)),
    }
}

pub(crate) fn short_month_text(alloc: Global, date: Option<MailDate>) -> Result<Text, AllocError>
    ensures { IfOk result (λ text. text ≡ date_text (λ d. month_letters_of (month_of d)) date) }
{
    match date {
        Some(date) => text_of_bytes(alloc, short_month_name(date.month.unsigned_abs())),
        None => Ok(Text::new(alloc)),
    }
}

pub(crate) fn month_text(alloc: Global, date: Option<MailDate>) -> Result<Text, AllocError>
    ensures { IfOk result (λ text. text ≡ date_text (λ d. long_month_name (month_of d)) date) }
{
    match date {
        Some(date) => text_of_bytes(alloc, month_name(date.month.unsigned_abs())),
        None => Ok(Text::new(alloc)),
    }
}

fn two(number: u16) -> (u8, u8)
    requires { number < 100 }
    ensures { result.0 ∷ result.1 ∷ [] ≡ two_digits number }
{
    (b'0' + (number / 10) as u8, b'0' + (number % 10) as u8)
}

fn sign(offset: i16) -> u8
    ensures { result ∷ [] ≡ sign_of offset }
{
    if offset < 0 { b'-' } else { b'+' }
}

fn zone(date: MailDate) -> [u8; 5]
    requires { IsMailDate date }
    ensures { result ≡ zone_text date.offset }
{
    let offset = date.offset.unsigned_abs();
    let (h1, h2) = two(offset / 60);
    let (m1, m2) = two(offset % 60);
    let sign = sign(date.offset);
    [sign, h1, h2, m1, m2]
}

pub(crate) fn zone_shown(alloc: Global, date: Option<MailDate>) -> Result<Text, AllocError>
    requires { IfSome date IsMailDate }
    ensures { IfOk result (λ text. text ≡ date_text (λ d. zone_text d.offset) date) }
{
    match date {
        Some(date) => text_of_bytes(alloc, &zone(date)),
        None => Ok(Text::new(alloc)),
    }
}

pub(crate) fn whole_text(alloc: Global, date: Option<MailDate>) -> Result<Text, AllocError>
    requires { IfSome date IsMailDate }
    ensures { IfOk result (λ text. text ≡ date_text tws_of date) }
{
    match date {
        Some(date) => date.tws(alloc),
        None => Ok(Text::new(alloc)),
    }
}
