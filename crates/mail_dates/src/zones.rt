// Zones.
ghost use Rattle.std.specs.Prelude.{◌≡◌, ◌≤◌, ◌∷◌, length, IfSome, MatchOption, Some, None, pos, negsuc, ◌≤ℤ◌};
ghost use Rattle.jiff.specs.Words.{IsWithin};
ghost use Rattle.mail_dates.specs.Numbers.{minutes_of, signed as signed_of, numeric_zone as numeric_zone_of, decimal as decimal_of};
ghost use Rattle.mail_dates.specs.Names.{named_zone as named_zone_of};
ghost use Rattle.mail_dates.specs.Reading.{zone_in};

use crate::names::{Case, same};
use crate::numbers::decimal;

fn minutes(digits: &[u8]) -> Option<u16>
    requires { length digits.now ≤ 4 }
    ensures value { result ≡ minutes_of (decimal_of digits.now) }
    ensures small { IfSome result (λ n. n ≤ 1439) }
{
    let number = decimal(digits)?;
    if number / 100 <= 23 && number % 100 <= 59 {
        Some(number / 100 * 60 + number % 100)
    } else {
        None
    }
}

fn signed(sign: u8, minutes: u16) -> Option<i16>
    requires { minutes ≤ 1439 }
    ensures value { result ≡ signed_of sign (Some minutes) }
    ensures small { IfSome result (IsWithin 1439) }
{
    if sign == b'+' {
        Some(minutes as i16)
    } else if sign == b'-' {
        Some(-(minutes as i16))
    } else {
        None
    }
}

fn numeric_zone(word: &[u8]) -> Option<i16>
    ensures value { result ≡ numeric_zone_of word.now }
    ensures small { IfSome result (IsWithin 1439) }
{
    let (sign, digits) = word.split_first()?;
    if digits.len() == 4 {
        signed(*sign, minutes(digits)?)
    } else {
        None
    }
}

fn named_zone(word: &[u8]) -> Option<i16>
    ensures value { result ≡ named_zone_of word.now }
    ensures small { IfSome result (IsWithin 1439) }
{
    if same(Case::Any, word, b"UT") || same(Case::Any, word, b"GMT") {
        Some(0)
    } else if same(Case::Any, word, b"EDT") {
        Some(-240)
    } else if same(Case::Any, word, b"EST") || same(Case::Any, word, b"CDT") {
        Some(-300)
    } else if same(Case::Any, word, b"CST") || same(Case::Any, word, b"MDT") {
        Some(-360)
    } else if same(Case::Any, word, b"MST") || same(Case::Any, word, b"PDT") {
        Some(-420)
    } else if same(Case::Any, word, b"PST") {
        Some(-480)
    } else {
        None
    }
}

/// The minutes of a zone, in digits or by its name.
pub(crate) fn zone(word: &[u8]) -> Option<i16>
    ensures value { result ≡ zone_in word.now }
    ensures small { IfSome result (IsWithin 1439) }
{
    match numeric_zone(word) {
        Some(minutes) => Some(minutes),
        None => named_zone(word),
    }
}
