// How a message stands in its folder.
ghost use Rattle.std.specs.Prelude.{◌≡◌};
ghost use Rattle.message_lines.specs.Standings.{is_at};

use mh_base::MsgNum;
use mh_sequences::Sequences;

/// How a message stands in its folder.
#[derive(Clone, Copy, Debug, PartialEq, Eq)]
pub struct Standing {
    /// Whether it is the current message.
    pub current: bool,
    /// Whether it is in an unseen sequence.
    pub unseen: bool,
}

/// Whether this is the folder's current message.
pub fn is_current(sequences: &Sequences, number: MsgNum) -> bool
    ensures { result ≡ is_at sequences.now.cur number }
{
    match sequences.cur() {
        Some(cur) => cur == number,
        None => false,
    }
}
