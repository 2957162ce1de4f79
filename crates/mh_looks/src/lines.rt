// The lines of a folder's messages.
ghost use Rattle.std.specs.Prelude.{◌≡◌, IfOk};
ghost use Rattle.message_lines.specs.MessageText.{line_of};
ghost use Rattle.mh_looks.specs.Lines.{lined};

use crate::unseen::Unseen;
use message_lines::{Look, message_line};
use mh_base::{Bytes, MsgNum};
use std::alloc::{AllocError, Global};

/// How messages are looked at, and which of the folder's are unseen.
#[derive(Clone, Copy)]
pub(crate) struct Lines<'a> {
    pub look: &'a Look,
    pub unseen: &'a Unseen<'a>,
}

/// The line of a message of the folder.
pub(crate) fn line(
    alloc: Global,
    lines: Lines,
    number: MsgNum,
    message: &[u8],
) -> Result<Bytes, AllocError>
    ensures { IfOk result (λ text. text ≡ line_of (lined lines.entry) number message.now) }
{
    message_line(
        alloc,
        lines.look,
        lines.unseen.standing(number),
        number,
        message,
    )
}
