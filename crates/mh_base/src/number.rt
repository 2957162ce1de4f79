// Message numbers.
ghost use Rattle.std.specs.Prelude.{◌≡◌, MatchOption};
ghost use Rattle.mh_base.specs.Numbers.{IsMsgNum, number_of};

use crate::decimal::read_decimal;
use std::marker::Model;

/// A message number, from 1 to 999,999.
#[derive(Clone, Copy, Debug, PartialEq, Eq, PartialOrd, Ord)]
pub struct MsgNum(u32);

impl Model for MsgNum {
    ghost use Rattle.std.specs.Prelude.{ℕ};
    ghost use Rattle.mh_base.specs.Numbers.{IsMsgNum};

    ghost Value = { ℕ };

    ghost view = { λ n. n.0 };

    ghost invariant = { λ n. IsMsgNum n.0 };

    ghost inverse = { λ n. record { 0 = n } };
}

impl MsgNum {
    pub fn new(n: u32) -> Option<MsgNum>
        ensures { MatchOption result (¬ (IsMsgNum n)) (λ m. IsMsgNum n × (m ≡ n)) }
    {
        if 1 <= n && n <= 999_999 {
            Some(MsgNum(n))
        } else {
            None
        }
    }

    pub fn get(self) -> u32
        ensures value { result ≡ self }
        ensures range { IsMsgNum result }
    {
        self.0
    }

    /// Reads decimal digits without a sign or a leading zero.
    pub fn read(bytes: &[u8]) -> Option<MsgNum>
        ensures { result ≡ number_of bytes.now }
    {
        let value = read_decimal(bytes)?;
        if 1 <= value && value <= 999_999 {
            Some(MsgNum(value as u32))
        } else {
            None
        }
    }
}
