// A time of the day.
ghost use Rattle.std.specs.Prelude.{◌≡◌, MatchOption, IfSome, Some, None};
ghost use Rattle.mail_dates.specs.Numbers.{time_within, after_colon, time_in, second_in, IsTime};

use crate::numbers::{short_lead, short_number};

/// Hours, minutes and seconds.
#[derive(Clone, Copy, Debug)]
pub(crate) struct Time {
    pub(crate) hour: u8,
    pub(crate) minute: u8,
    pub(crate) second: u8,
}

fn within(hour: u8, minute: u8, second: u8) -> Option<Time>
    ensures value { result ≡ time_within hour minute second }
    ensures valid { IfSome result IsTime }
{
    if hour <= 23 && minute <= 59 && second <= 60 {
        let second = if second == 60 { 59 } else { second };
        Some(Time {
            hour,
            minute,
            second,
        })
    } else {
        None
    }
}

fn behind_colon(text: &[u8]) -> Option<&[u8]>
    ensures { MatchOption result (after_colon text.now ≡ None) (λ rest. after_colon text.now ≡ Some rest.now) }
{
    match text.split_first() {
        Some((b':', rest)) => Some(rest),
        _ => None,
    }
}

fn with_second(hour: u8, minute: u8, text: &[u8]) -> Option<Time>
    ensures value { result ≡ second_in hour minute (after_colon text.now) }
    ensures valid { IfSome result IsTime }
{
    let second = short_number(behind_colon(text)?)?;
    within(hour, minute, second)
}

impl Time {
    pub(crate) const MIDNIGHT: Time = Time {
        hour: 0,
        minute: 0,
        second: 0,
    };

    /// The time of a word h:mm or h:mm:ss.
    pub(crate) fn read(word: &[u8]) -> Option<Time>
        ensures value { result ≡ time_in word.now }
        ensures valid { IfSome result IsTime }
    {
        let (hour, rest) = short_lead(word)?;
        let (minute, rest) = short_lead(behind_colon(rest)?)?;
        if rest.is_empty() {
            within(hour, minute, 0)
        } else {
            with_second(hour, minute, rest)
        }
    }
}
