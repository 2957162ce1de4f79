// Runs of message numbers.
ghost use Rattle.std.specs.Prelude.{◌≡◌};
ghost use Rattle.mh_base.specs.Numbers.{IsMsgNum};

use mh_base::MsgNum;

/// All message numbers from one to another, both included.
#[derive(Clone, Copy, Debug, PartialEq, Eq)]
pub struct Run {
    pub from: MsgNum,
    pub to: MsgNum,
}

impl Run {
    /// The first number and the last.
    pub(crate) fn ends(&self) -> (u32, u32)
        ensures value { (result.0 ≡ self.now.from) × (result.1 ≡ self.now.to) }
        ensures from { IsMsgNum self.now.from }
        ensures to { IsMsgNum self.now.to }
    {
        (self.from.get(), self.to.get())
    }
}

/// The message number of this value.
pub(crate) fn number(value: u32) -> MsgNum
    requires { IsMsgNum value }
    ensures { result ≡ value }
{
    let Some(number) = MsgNum::new(value) else {
        unreachable!()
    };
    number
}
