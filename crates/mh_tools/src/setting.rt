// What a run is given beside its words.
ghost use Rattle.std.specs.Prelude.{◌≡◌, MatchOption};
ghost use Rattle.mail_dates.specs.Clocks.{IsSetting};
ghost use Rattle.mh_tools.specs.Callers.{caller_of};

use command_plans::{Caller, Clock};
use mh_base::Text;
use std::marker::Model;

/// A run's setting: its number, which no other run has; the moment, in seconds from 1970-01-01
/// 00:00:00 UTC, and the user's name; and the offset from UTC in minutes.
#[derive(Drop)]
pub struct Setting {
    run: u128,
    caller: Caller,
}

impl Model for Setting {
    ghost use Rattle.mh_tools.specs.Setting.{SettingParts};

    ghost Value = { SettingParts };

    ghost view = { λ s.
        record { run = s.run; moment = s.caller.clock.moment; offset = s.caller.clock.offset; user = s.caller.user } };
}

impl Setting {
    /// `now` runs from 0 to 253,402,000,000 and the offset from -1439 to 1439.
    pub fn new(run: u128, now: i64, offset_minutes: i32, user: Text) -> Option<Setting>
        ensures { MatchOption result (IsSetting now offset_minutes → ⊥)
            (λ s. IsSetting now offset_minutes
            × (s ≡ record { run = run; moment = now; offset = offset_minutes; user = user })) }
    {
        let clock = Clock::new(now, offset_minutes)?;
        Some(Setting {
            run,
            caller: Caller { user, clock },
        })
    }

    pub fn run(&self) -> u128
        ensures { result ≡ self.now.run }
    {
        self.run
    }

    pub fn caller(&self) -> &Caller
        ensures { result.now ≡ caller_of self.now }
    {
        &self.caller
    }
}
