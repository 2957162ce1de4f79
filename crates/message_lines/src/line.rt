// The line of a message.
ghost use Rattle.std.specs.Prelude.{◌≡◌, IfOk};
ghost use Rattle.format_compiler.specs.Code.{IsCodeOf};
ghost use Rattle.format_compiler.specs.Grammar.{Format};
ghost use Rattle.message_lines.specs.MessageText.{coded, formed, line_of, sight_of};

use crate::{Look, Standing};
use format_run::{IndexedMessage, View, line};
use mh_base::{Bytes, MsgNum};
use std::alloc::{AllocError, Global};

/// The line of a message that stands so, with its line feed.
pub fn message_line(
    alloc: Global,
    look: &Look,
    standing: Standing,
    number: MsgNum,
    message: &[u8],
) -> Result<Bytes, AllocError>
    ensures code { IfOk result
        (λ text. text ≡ line_of (coded look.now.program (sight_of look.now) standing) number message.now) }
    ensures format { (f : Format) → IsCodeOf look.now.program f
        → IfOk result (λ text. text ≡ line_of (formed f (sight_of look.now) standing) number message.now) }
{
    let view = View {
        number,
        current: standing.current,
        unseen: standing.unseen,
        message: IndexedMessage::cut(alloc, message)?,
        moment: look.moment,
        user: &look.user,
    };
    let text = line(alloc, &look.program, &view, look.width)?;
    let mut line = Bytes::from_slice(alloc, text.as_str().as_bytes())?;
    line.extend(b"\n")?;
    Ok(line)
}
