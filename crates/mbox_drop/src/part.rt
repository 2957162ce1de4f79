// The part of a drop that a separator begins.
ghost use Rattle.std.specs.Prelude.{◌<◌, ◌≤◌, length};

use crate::find::{Found, find, skip};
use crate::place::DropState;

/// What follows the `From ` of a separator.
#[derive(Clone, Copy)]
pub enum Part<'a> {
    /// A message, and what follows the `From ` of the next separator.
    Whole {
        message: &'a [u8],
        rest: &'a [u8],
    },
    /// The bytes of a message with no separator after it, and where they end.
    Open {
        text: &'a [u8],
        place: DropState,
        body: usize,
    },
}

ghost use Rattle.mbox_drop.specs.Parting.{IsPart};

/// The first part of the bytes after the `From ` of a separator.
pub fn first_part<'a>(bytes: &'a [u8]) -> Part<'a>
    ensures { IsPart bytes.now result }
{
    let start = skip(DropState::Separator, bytes);
    let text = &bytes[start.next..];
    match find(start.place, 0, 0, text) {
        Found::Cut { body, next } => Part::Whole {
            message: &text[..body],
            rest: &text[next..],
        },
        Found::End { place, body } => Part::Open { text, place, body },
    }
}
