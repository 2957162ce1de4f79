// Who calls, and when.
ghost use Rattle.std.specs.Prelude.{◌≡◌, MatchOption};
ghost use Rattle.mail_dates.specs.Clocks.{IsSetting};

use mh_base::Text;
use std::marker::Model;

/// A moment, in seconds from 1970-01-01 00:00:00 UTC, and by how many minutes the caller's clock is ahead of UTC.
#[derive(Drop)]
pub struct Clock {
    moment: i64,
    offset_minutes: i32,
}

impl Model for Clock {
    ghost use Rattle.mail_dates.specs.Clocks.{IsSetting};
    ghost use Rattle.command_plans.specs.Clock.{ClockParts};

    ghost Value = { ClockParts };

    ghost view = { λ c. record { moment = c.moment; offset = c.offset_minutes } };

    ghost invariant = { λ c. IsSetting c.moment c.offset_minutes };
}

impl Clock {
    /// The moment runs from 0 to 253,402,000,000 and the offset from -1439 to 1439.
    pub fn new(moment: i64, offset_minutes: i32) -> Option<Clock>
        ensures { MatchOption result (IsSetting moment offset_minutes → ⊥)
            (λ c. IsSetting moment offset_minutes × (c ≡ record { moment = moment; offset = offset_minutes })) }
    {
        if 0 <= moment
            && moment <= 253_402_000_000
            && -1439 <= offset_minutes
            && offset_minutes <= 1439
        {
            Some(Clock {
                moment,
                offset_minutes,
            })
        } else {
            None
        }
    }

    /// The moment, in seconds from 1970-01-01 00:00:00 UTC.
    pub fn moment(&self) -> i64
        ensures { result ≡ self.now.moment }
    {
        self.moment
    }

    /// By how many minutes the clock is ahead of UTC.
    pub fn offset_minutes(&self) -> i32
        ensures value { result ≡ self.now.offset }
        ensures within { IsSetting self.now.moment self.now.offset }
    {
        self.offset_minutes
    }
}

/// Who calls a command, and when.
#[derive(Drop)]
pub struct Caller {
    pub user: Text,
    pub clock: Clock,
}
