// The parts that begin in a piece of a drop.
ghost use Rattle.std.specs.Prelude.{◌≡◌, IfOk};
ghost use Rattle.mbox_drop.specs.Parting.{AreParts};

use crate::long::too_long;
use crate::part::{Part, first_part};
use crate::place::DropState;
use mh_base::Bytes;
use std::alloc::{AllocError, Global};

/// The messages that a piece finishes, with the first still empty, and the message in hand after them.
#[derive(Drop)]
pub struct Parts<'a> {
    pub messages: Vec<Bytes>,
    pub long: Option<u64>,
    pub text: &'a [u8],
    pub place: DropState,
    pub body: usize,
}

/// Cuts what follows the `From ` of a separator, where the message before it has this length.
pub fn cut_parts<'a>(alloc: Global, first: usize, bytes: &'a [u8]) -> Result<Parts<'a>, AllocError>
    ensures { IfOk result (AreParts first bytes.now) }
{
    let mut messages = Vec::new(alloc);
    messages.push(Bytes::new(alloc))?;
    let mut long = too_long(first);
    let mut left = bytes;
    'parts: loop {
        match first_part(left) {
            Part::Whole { message, rest } => {
                messages.push(Bytes::from_slice(alloc, message)?)?;
                long = long.or(too_long(message.len()));
                left = rest;
            }
            Part::Open { text, place, body } => {
                return Ok(Parts {
                    messages,
                    long,
                    text,
                    place,
                    body,
                });
            }
        }
    }
}
