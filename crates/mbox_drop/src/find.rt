// How far a message goes.
ghost use Rattle.std.specs.Prelude.{◌≡◌, ◌+◌, ◌<◌, ◌≤◌, ◌^◌, length};
ghost use Rattle.mbox_drop.specs.Finding.{found, skipped, IsWithin};

use crate::leap::leap;
use crate::place::{DropState, Turn};

/// Where a message ends.
#[derive(Clone, Copy)]
pub enum Found {
    /// The message has this many bytes. The bytes after the `From ` of the next separator begin here.
    Cut { body: usize, next: usize },
    /// No separator has begun by the end of the bytes.
    End { place: DropState, body: usize },
}

/// Where the bytes of a message begin, with the place there.
#[derive(Clone, Copy)]
pub struct Skipped {
    pub place: DropState,
    pub next: usize,
}

/// Looks for the next separator of a message of which `base` bytes were read before.
pub fn find(from: DropState, base: usize, body: usize, bytes: &[u8]) -> Found
    requires fits { base + length bytes.now < 2 ^ 64 }
    requires before { body ≤ base }
    ensures value { result ≡ found base (Found.End from body) 0 bytes.now }
    ensures within { IsWithin base (length bytes.now) result }
{
    let mut place = from;
    let mut before = body;
    let mut i = leap(place, bytes, 0);
    'bytes: while i < bytes.len() {
        match place.turn(bytes[i]) {
            Turn::Joins(next) | Turn::Passes(next) => place = next,
            Turn::Empties(next) => {
                before = base + i;
                place = next;
            }
            Turn::Begins => {
                return Found::Cut {
                    body: before,
                    next: i + 1,
                };
            }
        }
        i = leap(place, bytes, i + 1);
    }
    Found::End {
        place,
        body: before,
    }
}

/// Passes the bytes before a message.
pub fn skip(from: DropState, bytes: &[u8]) -> Skipped
    ensures value { result ≡ skipped from 0 bytes.now }
    ensures within { result.next ≤ length bytes.now }
{
    let mut place = from;
    for (i, byte) in bytes.iter().enumerate() {
        if place.is_inside() {
            return Skipped { place, next: i };
        }
        place = place.turn(*byte).place();
    }
    Skipped {
        place,
        next: bytes.len(),
    }
}
